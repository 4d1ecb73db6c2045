ghost use Rattle.std.specs.Prelude.{◌≡◌, ◌<◌, ◌≤◌, ◌+◌, ◌↔◌, [], ◌∷◌, ◌++◌, cond, length, IsTrue, IfErr, IfOk, OnOk, OnErr, slice_get, slice_set};
ghost use Rattle.std.specs.List.{remove};
ghost use Rattle.std.specs.Option.{option_copied};
ghost use Rattle.lq_chain.specs.Marks.{kept_rows, replaced, with_new};
ghost use Rattle.lq_chain.specs.History.{history, changed, undone_to, back, marked, forgotten, kept, step_shorter};

use crate::edits::{free_gone, free_list, undo_call};
use crate::find::{find, finger_on};
use crate::iter::Iter;
use crate::moves::{push_back, replace, unlink};
use lq_base::NoMemory;
use lq_links::{Done, Finger, Links, Refused};
use lq_undo::{Undo, undo_to};
use std::alloc::Global;
use std::marker::Model;

/// A list of rows, with what is needed to undo the changes since the last `forget`.
///
/// Contracts see the rows, and the rows before each changing call since then. `push_back`, `unlink`,
/// `replace`, `keep` and `replace_some` are the changing calls; each makes the room that undoing it
/// needs. Rows lie in linked nodes. A changing call at the last place that was used, or next to it,
/// takes constant time; elsewhere it walks from there, from the front or from the end.
pub struct Chain<T> {
    links: Links<T>,
    /// The steps of the changing calls since the last `forget`, the newest last.
    done: Vec<Done>,
    /// The number of these calls.
    calls: u64,
    /// The place that was used last.
    finger: Option<Finger>,
}

impl<T> Model for Chain<T> {
    ghost use Rattle.lq_chain.specs.History.{History, history_code, IsWhole, seen};
    ghost use Rattle.std.specs.Coded.{coded_list};
    ghost use Rattle.std.specs.Prelude.{List};

    ghost Value = { History (List T) };

    ghost coded = { history_code (coded_list T.code) };

    ghost view = { λ c. seen c.links c.done.items };

    ghost invariant = { λ c. IsWhole c.links c.done.items c.calls c.finger };
}

impl<T: Drop> Undo for Chain<T> {
    ghost changes = { marked };

    ghost before = { λ h. back 1 h.now h.past };

    fn mark(&self) -> u64 {
        Chain::mark(self)
    }

    fn step_back(&mut self) {
        Chain::step_back(self);
    }

    ghost one_less = { λ h. step_shorter h.now h.past };
}

impl<T: Drop> Drop for Chain<T> {
    fn drop(self) {
        let Chain {
            mut links,
            mut done,
            calls: _,
            finger: _,
        } = self;
        free_gone(&mut links, &mut done);
        free_list(&mut links);
    }
}

impl<T: Drop> Chain<T> {
    /// No rows, and nothing to undo.
    pub fn new(alloc: Global) -> Chain<T>
        ensures { result ≡ history [] [] }
    {
        Chain {
            links: Links::new(alloc),
            done: Vec::new(alloc),
            calls: 0,
            finger: None,
        }
    }

    /// The number of rows.
    pub fn len(&self) -> usize
        ensures { result ≡ length self.now.now }
    {
        self.links.len
    }

    pub fn is_empty(&self) -> bool
        ensures { IsTrue result ↔ (self.now.now ≡ []) }
    {
        self.links.len == 0
    }

    /// The rows in order.
    pub fn iter(&self) -> Iter<'_, T>
        ensures { result ≡ self.now.now }
    {
        Iter {
            arena: &self.links.arena,
            prev: None,
            cur: self.links.head,
            left: self.links.len,
        }
    }

    /// The row at the place, where the list is as long as that.
    pub fn get(&self, at: usize) -> Option<&T>
        ensures { option_copied result ≡ slice_get self.now.now at }
    {
        if at >= self.links.len {
            return None;
        }
        match find(&self.links, self.finger, at) {
            None => None,
            Some(spot) => {
                let node = self.links.arena.at(spot.place, spot.id);
                Some(&node.row)
            }
        }
    }

    /// The number of changing calls since the last `forget` that are not undone.
    pub fn mark(&self) -> u64
        ensures { result ≡ marked self.now }
    {
        self.calls
    }

    /// Adds the row at the end, or changes nothing and hands it back.
    pub fn push_back(&mut self, row: T) -> Result<(), Refused<T>>
        ensures ok { OnOk result (self.new ≡ changed self.old (self.old.now ++ row ∷ [])) }
        ensures err { OnErr result (self.new ≡ self.old) }
        ensures value { IfErr result (λ refused. refused.value ≡ row) }
    {
        if self.begin().is_err() {
            return Err(Refused { value: row });
        }
        if let Err(refused) = self.add(row) {
            self.step_back();
            return Err(refused);
        }
        Ok(())
    }

    /// Takes the row at the place out of the list, or changes nothing.
    pub fn unlink(&mut self, at: usize) -> Result<(), NoMemory>
        requires { at < length self.old.now }
        ensures ok { OnOk result (self.new ≡ changed self.old (remove self.old.now at)) }
        ensures err { OnErr result (self.new ≡ self.old) }
    {
        self.begin()?;
        if self.take_out(at).is_err() {
            self.step_back();
            return Err(NoMemory);
        }
        Ok(())
    }

    /// Puts another row in place of the one at the place, or changes nothing and hands it back.
    pub fn replace(&mut self, at: usize, by: T) -> Result<(), Refused<T>>
        requires { at < length self.old.now }
        ensures ok { OnOk result (self.new ≡ changed self.old (slice_set self.old.now at by)) }
        ensures err { OnErr result (self.new ≡ self.old) }
        ensures value { IfErr result (λ refused. refused.value ≡ by) }
    {
        if self.begin().is_err() {
            return Err(Refused { value: by });
        }
        if let Err(refused) = self.put_in(at, by) {
            self.step_back();
            return Err(refused);
        }
        Ok(())
    }

    /// Keeps the rows whose mark stands and takes the others out, or changes nothing.
    pub fn keep(&mut self, alloc: Global, marks: Vec<bool>) -> Result<(), NoMemory>
        requires { length marks.items ≡ length self.old.now }
        ensures ok { OnOk result (self.new
            ≡ changed self.old (kept_rows marks.items self.old.now)) }
        ensures err { OnErr result (self.new ≡ self.old) }
    {
        self.begin()?;
        if self.keep_marked(marks.as_slice()).is_err() {
            self.step_back();
            return Err(NoMemory);
        }
        Ok(())
    }

    /// Puts other rows in place of those where there is one, or changes nothing.
    pub fn replace_some(&mut self, alloc: Global, by: Vec<Option<T>>) -> Result<(), NoMemory>
        requires { length by.items ≡ length self.old.now }
        ensures ok { OnOk result (self.new ≡ changed self.old (replaced by.items self.old.now)) }
        ensures err { OnErr result (self.new ≡ self.old) }
    {
        self.begin()?;
        if self.put_some(by).is_err() {
            self.step_back();
            return Err(NoMemory);
        }
        Ok(())
    }

    /// Gives the list at the last `forget`, each row in its former place.
    #[tactic(auto, using(crate::proofs::HistoryLemmas::all_undone))]
    pub fn undo(&mut self)
        ensures undone { self.new ≡ undone_to self.old 0 }
        ensures rows { self.new.now ≡ kept self.old }
    {
        self.undo_to(0);
    }

    /// Gives the list as it was when `mark` answered this number.
    pub fn undo_to(&mut self, mark: u64)
        requires { mark ≤ marked self.old }
        ensures { self.new ≡ undone_to self.old mark }
    {
        undo_to(self, mark);
    }

    /// Keeps the present list, and drops the rows that only undoing needed.
    pub fn forget(&mut self)
        ensures { self.new ≡ forgotten self.old }
    {
        free_gone(&mut self.links, &mut self.done);
        self.calls = 0;
    }

    /// Begins a changing call.
    fn begin(&mut self) -> Result<(), NoMemory>
        ensures ok { OnOk result (self.new ≡ changed self.old self.old.now) }
        ensures err { OnErr result (self.new ≡ self.old) }
    {
        let Some(calls) = self.calls.checked_add(1) else {
            return Err(NoMemory);
        };
        self.done.reserve(1)?;
        self.done.push_reserved(Done::Begun);
        self.calls = calls;
        Ok(())
    }

    /// Undoes the last changing call, or what was done since it began.
    fn step_back(&mut self)
        ensures { self.new ≡ back 1 self.old.now self.old.past }
    {
        if self.calls > 0 {
            undo_call(&mut self.links, &mut self.done);
            self.calls -= 1;
            self.finger = None;
        }
    }

    /// A step of a changing call: the row comes to the end, or is handed back.
    fn add(&mut self, row: T) -> Result<(), Refused<T>>
        ensures ok { OnOk result (self.new ≡ history (self.old.now ++ row ∷ []) self.old.past) }
        ensures err { OnErr result (self.new ≡ self.old) }
        ensures value { IfErr result (λ refused. refused.value ≡ row) }
    {
        if self.done.reserve(1).is_err() {
            return Err(Refused { value: row });
        }
        let last = self.links.tail;
        let spot = push_back(&mut self.links, row)?;
        self.done.push_reserved(Done::Pushed { spot, last });
        Ok(())
    }

    /// A step of a changing call: the row at the place is taken out.
    fn take_out(&mut self, at: usize) -> Result<(), NoMemory>
        requires { at < length self.old.now }
        ensures ok { OnOk result (self.new ≡ history (remove self.old.now at) self.old.past) }
        ensures err { OnErr result (self.new ≡ self.old) }
    {
        self.done.reserve(1)?;
        let spot = match find(&self.links, self.finger, at) {
            Some(spot) => spot,
            None => unreachable!(),
        };
        let next = unlink(&mut self.links, spot);
        self.done.push_reserved(Done::Unlinked { spot });
        self.finger = finger_on(at, next);
        Ok(())
    }

    /// A step of a changing call: another row comes to the place, or is handed back.
    fn put_in(&mut self, at: usize, by: T) -> Result<(), Refused<T>>
        requires { at < length self.old.now }
        ensures ok { OnOk result (self.new
            ≡ history (slice_set self.old.now at by) self.old.past) }
        ensures err { OnErr result (self.new ≡ self.old) }
        ensures value { IfErr result (λ refused. refused.value ≡ by) }
    {
        if self.done.reserve(1).is_err() {
            return Err(Refused { value: by });
        }
        let spot = match find(&self.links, self.finger, at) {
            Some(spot) => spot,
            None => unreachable!(),
        };
        let put = replace(&mut self.links, spot, by)?;
        self.done.push_reserved(Done::Replaced { spot, by: put });
        self.finger = finger_on(at, Some(put));
        Ok(())
    }

    /// Takes the rows out whose mark does not stand, as far as there is memory.
    fn keep_marked(&mut self, marks: &[bool]) -> Result<(), NoMemory>
        requires { length marks.now ≡ length self.old.now }
        ensures ok { OnOk result (self.new.now ≡ kept_rows marks.now self.old.now) }
        ensures past { self.new.past ≡ self.old.past }
    {
        let mut at = 0;
        for mark in marks {
            at = self.keep_or_take(at, *mark)?;
        }
        Ok(())
    }

    /// Passes by the row at the place, or takes it out, and gives the place of the next one.
    fn keep_or_take(&mut self, at: usize, mark: bool) -> Result<usize, NoMemory>
        requires { at < length self.old.now }
        ensures next { IfOk result (λ next. next ≡ cond mark (at + 1) at) }
        ensures now { OnOk result (self.new.now
            ≡ cond mark self.old.now (remove self.old.now at)) }
        ensures past { self.new.past ≡ self.old.past }
    {
        if mark {
            return at.checked_add(1).ok_or(NoMemory);
        }
        self.take_out(at)?;
        Ok(at)
    }

    /// Puts the new rows in their places, as far as there is memory.
    fn put_some(&mut self, by: Vec<Option<T>>) -> Result<(), NoMemory>
        requires { length by.items ≡ length self.old.now }
        ensures ok { OnOk result (self.new.now ≡ replaced by.items self.old.now) }
        ensures past { self.new.past ≡ self.old.past }
    {
        let mut by = by.into_iter();
        let mut at = 0;
        while let Some(new) = by.next() {
            at = self.pass_or_put(at, new)?;
        }
        Ok(())
    }

    /// Passes by the row at the place, or puts another one there, and gives the place of the next one.
    fn pass_or_put(&mut self, at: usize, new: Option<T>) -> Result<usize, NoMemory>
        requires { at < length self.old.now }
        ensures next { IfOk result (λ next. next ≡ at + 1) }
        ensures now { OnOk result (self.new.now ≡ with_new self.old.now at new) }
        ensures past { self.new.past ≡ self.old.past }
    {
        let Some(next) = at.checked_add(1) else {
            return Err(NoMemory);
        };
        let Some(row) = new else {
            return Ok(next);
        };
        self.put_in(at, row)?;
        Ok(next)
    }
}
