ghost use Rattle.std.specs.BTreeMap.{insert_entry};
ghost use Rattle.std.specs.Map.{lookup, remove_entry};
ghost use Rattle.std.specs.Option.{option_copied};
ghost use Rattle.std.specs.Prelude.{◌≡◌, ◌≤◌, None, [], IfOk, OnErr, OnOk, is_some, length, true};
ghost use Rattle.std.specs.Vec.{vec_capacity};
ghost use Rattle.lq_base.specs.Name.{is_named, name_cmp};
ghost use Rattle.lq_chain.specs.History.{back, changed, history};
ghost use Rattle.lq_parts.specs.Taken.{IsOrdered, HasPlace, before};

use crate::entries::{find, place, standing};
use crate::slot::Slot;
use lq_base::{Name, NoMemory};
use std::alloc::Global;
use std::marker::Model;

/// What stands at names, in their order, with what is needed to undo its changes since the last
/// `forget`.
#[derive(Drop)]
pub struct Shelf<T> {
    entries: Vec<(Name, T)>,
    /// The changes since the last `forget`, the newest last.
    done: Vec<Slot<T>>,
}

impl<T> Model for Shelf<T> {
    ghost use Rattle.lq_chain.specs.History.{History, history, history_code};
    ghost use Rattle.lq_base.specs.declared.name.Name.{Name};
    ghost use Rattle.std.specs.Coded.{coded×, coded_list, coded_ℕ};
    ghost use Rattle.std.specs.Prelude.{List, reverse};

    ghost Value = { History (List (Name × T)) };

    ghost coded = { history_code (coded_list (coded× (coded_list coded_ℕ) T.code)) };

    ghost use Rattle.std.specs.Vec.{vec_capacity};
    ghost use Rattle.lq_parts.specs.Taken.{IsOrdered, CanUndo, past_entries};

    ghost view = { λ s. history s.entries.items (past_entries s.entries.items (reverse s.done.items)) };

    ghost invariant = { λ s. IsOrdered s.entries.items × CanUndo (vec_capacity s.entries) s.entries.items (reverse s.done.items) };
}

impl<T: Drop> Shelf<T> {
    /// Nothing, and nothing to undo.
    pub fn new(alloc: Global) -> Shelf<T>
        ensures { result ≡ history [] [] }
    {
        Shelf {
            entries: Vec::new(alloc),
            done: Vec::new(alloc),
        }
    }

    /// What stands at the name.
    pub fn get(&self, name: &Name) -> Option<&T>
        ensures { option_copied result ≡ lookup (is_named name.now) self.now.now }
    {
        find(&self.entries, name)
    }

    /// All in the order of their names.
    pub fn entries(&self) -> &[(Name, T)]
        ensures { result.now ≡ self.now.now }
    {
        self.entries.as_slice()
    }

    /// Puts something new at its name, or changes nothing.
    #[tactic(auto, using(crate::proofs::SlotLemmas::newest_first, crate::proofs::SlotLemmas::step_undone, crate::proofs::SlotLemmas::step_past, crate::proofs::SlotLemmas::undo_with_more))]
    pub fn put(&mut self, name: Name, item: T) -> Result<(), NoMemory>
        requires { lookup (is_named name) self.old.now ≡ None }
        ensures ok { OnOk result
            (self.new ≡ changed self.old (insert_entry name_cmp self.old.now name item)) }
        ensures err { OnErr result (self.new ≡ self.old) }
    {
        self.done.reserve(1)?;
        let slot = put_in(&mut self.entries, name, item)?;
        self.done.push_reserved(slot);
        Ok(())
    }

    /// Takes away what stands at the name, or changes nothing.
    #[tactic(auto, using(crate::proofs::SlotLemmas::newest_first, crate::proofs::SlotLemmas::step_undone, crate::proofs::SlotLemmas::step_past, crate::proofs::SlotLemmas::undo_with_more))]
    pub fn take(&mut self, name: &Name) -> Result<(), NoMemory>
        requires { is_some (lookup (is_named name.now) self.old.now) ≡ true }
        ensures ok { OnOk result
            (self.new ≡ changed self.old (remove_entry (is_named name.now) self.old.now)) }
        ensures err { OnErr result (self.new ≡ self.old) }
    {
        self.done.reserve(1)?;
        let slot = take_out(&mut self.entries, name);
        self.done.push_reserved(slot);
        Ok(())
    }

    /// Undoes the last change, if there is one.
    pub fn step_back(&mut self)
        ensures { self.new ≡ back 1 self.old.now self.old.past }
    {
        if let Some(slot) = self.done.pop() {
            go_back(&mut self.entries, slot);
        }
    }

    /// Keeps all as it is: nothing can be undone.
    pub fn forget(&mut self)
        ensures { self.new ≡ history self.old.now [] }
    {
        self.done.clear();
    }
}

#[tactic(auto, using(crate::proofs::SlotLemmas::put_entries, crate::proofs::SlotLemmas::put_back, crate::proofs::SlotLemmas::put_place, crate::proofs::EntryLemmas::ordered_put))]
fn put_in<T: Drop>(entries: &mut Vec<(Name, T)>, name: Name, item: T) -> Result<Slot<T>, NoMemory>
    requires ordered { IsOrdered entries.old.items }
    requires absent { lookup (is_named name) entries.old.items ≡ None }
    ensures back { IfOk result (λ slot. before slot entries.new.items ≡ entries.old.items) }
    ensures place { IfOk result (λ slot. HasPlace slot entries.new.items) }
    ensures entries { OnOk result
        (entries.new.items ≡ insert_entry name_cmp entries.old.items name item) }
    ensures ordered { IsOrdered entries.new.items }
    ensures err { OnErr result (entries.new.items ≡ entries.old.items) }
    ensures capacity { vec_capacity entries.old ≤ vec_capacity entries.new }
    ensures room { length entries.old.items ≤ vec_capacity entries.new }
{
    entries.reserve(1)?;
    let at = place(entries, &name);
    entries.insert(at, (name, item))?;
    Ok(Slot::Put { at })
}

#[tactic(auto, using(crate::proofs::EntryLemmas::remove_at, crate::proofs::EntryLemmas::ordered_less, crate::proofs::SlotLemmas::take_back, crate::proofs::SlotLemmas::take_place))]
fn take_out<T: Drop>(entries: &mut Vec<(Name, T)>, name: &Name) -> Slot<T>
    requires ordered { IsOrdered entries.old.items }
    requires there { is_some (lookup (is_named name.now) entries.old.items) ≡ true }
    ensures back { before result entries.new.items ≡ entries.old.items }
    ensures place { HasPlace result entries.new.items }
    ensures entries { entries.new.items ≡ remove_entry (is_named name.now) entries.old.items }
    ensures ordered { IsOrdered entries.new.items }
    ensures capacity { vec_capacity entries.old ≡ vec_capacity entries.new }
    ensures room { length entries.old.items ≤ vec_capacity entries.new }
{
    let at = standing(entries, name);
    let (name, item) = entries.remove(at);
    Slot::Taken { at, name, item }
}

/// Gives the entries before the change. There is room for them.
fn go_back<T: Drop>(entries: &mut Vec<(Name, T)>, slot: Slot<T>)
    requires place { HasPlace slot entries.old.items }
    requires room { length (before slot entries.old.items) ≤ vec_capacity entries.old }
    ensures items { entries.new.items ≡ before slot entries.old.items }
    ensures capacity { vec_capacity entries.new ≡ vec_capacity entries.old }
{
    match slot {
        Slot::Put { at } => {
            let _ = entries.remove(at);
        }
        Slot::Taken { at, name, item } => {
            let _ = entries.insert(at, (name, item));
        }
    }
}
