ghost use Rattle.std.specs.List.{list_all};
ghost use Rattle.std.specs.Prelude.{◌≡◌, ◌≤◌, ◌<◌, ◌+◌, ◌++◌, [], IfOk, List, None, OnErr, length, reverse, true};
ghost use Rattle.lq_base.specs.declared.run.Printed.{Printed as Shown};
ghost use Rattle.lq_expr.specs.declared.options.Options.{Options as Given};
ghost use Rattle.lq_any.specs.AnyChange.{is_for};
ghost use Rattle.lq_kinds.specs.ReadFor.{AreFor};
ghost use Rattle.lq_plan.specs.Told.{work};
ghost use Rattle.lq_sets.specs.Counting.{HasLooked, changes_before, counted_in};
ghost use Rattle.lq_sets.specs.SetTurns.{CameBy, CameTo, IsKeptBy, IsReadFor, KeepsTexts, Knows, has_turn, if_kept, sets_left};
ghost use Rattle.lq_seen.specs.Telling.{of_sets, told_by};
ghost use Rattle.lq_seen.specs.View.{view, view_log};
ghost use Rattle.lq_track.specs.Database.{Database};
ghost use Rattle.lq_base.specs.declared.dialect.Dialect.{Dialect as Spoken};
ghost use Rattle.lq_turns.specs.Deed.{Contents, contents_of};
ghost use Rattle.lq_turns.specs.Faults.{faults};
ghost use Rattle.lq_turns.specs.Schedule.{StandsFor};
ghost use Rattle.lq_turns.specs.Settle.{choice_of, greatest};
ghost use Rattle.lq_turns.specs.declared.stamp.Stamp.{Stamp as Clocked};

use crate::in_hand::{InHand, counted};
use crate::planning::work_of;
use crate::seen_choice::seen_choice;
use crate::set_hand::{Making, hand_for, keeps, last_after};
use lq_base::{Dialect, Items, NoMemory, Printed, Tracked};
use lq_expr::Options;
use lq_hand::{Entered, Hand, Source};
use lq_kinds::{ChangeSet, Changelog};
use lq_model::{Look, SqlText};
use lq_plan::{Item, greatest};
use lq_seen::{Outcome, take_back, tell};
use lq_shared::Shared;
use lq_turns::{Choice, Stamp, What};
use std::alloc::Global;

/// The greatest place in run order: it has 31 bits, and a row with a greater one is refused.
const LAST_PLACE: u32 = 2147483647;

/// The turns of an update, changeset after changeset (Liquibase's documentation, "update").
#[derive(Drop)]
pub struct SetTurns {
    changelog: Shared<Changelog>,
    options: Shared<Options>,
    /// The changesets that have a turn still to come, the next one last.
    items: Items<Item>,
    /// The place behind the last changeset whose turn came, from 0.
    next: usize,
    /// The last place in run order, 0 without a row.
    last: u32,
    /// The same once the turn in hand has finished.
    last_after: u32,
    /// Whether the statements' texts are wanted.
    prints: bool,
    turn: Option<InHand>,
    pub outcome: Outcome,
}

/// What came of an item.
enum Tried {
    Turn(Hand),
    Skipped,
    /// Its precondition halts the command.
    Halted,
    Lack,
}

impl SetTurns {
    /// The turns that a changelog has on these rows. It has no fault there, and was read for the
    /// dialect of the options.
    pub fn new(
        alloc: Global,
        changelog: Changelog,
        options: Options,
        rows: &[Tracked],
        prints: bool,
    ) -> Result<SetTurns, NoMemory>
        requires read { AreFor options.dialect changelog }
        requires faultless { faults (view_log options changelog).sets rows.now ≡ [] }
        ensures reads { IfOk result (λ source. IsReadFor source options.dialect) }
        ensures left { IfOk result
            (λ source. sets_left source ≡ (view_log options changelog).sets) }
        ensures knows { IfOk result (λ source.
            (d : Spoken) (stamp : Clocked) (c : Contents)
            → c.rows ≡ rows.now
            → greatest rows.now ≤ 2147483647
            → Knows source d stamp
            (of_sets prints d stamp.reading (view_log options changelog).sets c) c) }
    {
        let changelog = Shared::new(alloc, changelog)?;
        let options = Shared::new(alloc, options)?;
        let turns = SetTurns::of_shared(alloc, changelog, options, rows, prints)?;
        Ok(turns)
    }

    /// The same of a changelog that others read as well.
    pub fn of_shared(
        alloc: Global,
        changelog: Shared<Changelog>,
        options: Shared<Options>,
        rows: &[Tracked],
        prints: bool,
    ) -> Result<SetTurns, NoMemory>
        requires read { AreFor options.dialect changelog }
        requires faultless { faults (view_log options changelog).sets rows.now ≡ [] }
        ensures reads { IfOk result (λ source. IsReadFor source options.dialect) }
        ensures left { IfOk result
            (λ source. sets_left source ≡ (view_log options changelog).sets) }
        ensures knows { IfOk result (λ source.
            (d : Spoken) (stamp : Clocked) (c : Contents)
            → c.rows ≡ rows.now
            → greatest rows.now ≤ 2147483647
            → Knows source d stamp
            (of_sets prints d stamp.reading (view_log options changelog).sets c) c) }
    {
        let items = planned(alloc, options.get(), changelog.get(), rows)?;
        let last = greatest(rows).min(LAST_PLACE);
        let outcome = Outcome::new(alloc);
        Ok(SetTurns {
            changelog,
            options,
            items,
            next: 0,
            last,
            last_after: last,
            prints,
            turn: None,
            outcome,
        })
    }

    /// The changeset of an item that comes next.
    fn try_item<K: Look, P: SqlText>(
        &mut self,
        alloc: Global,
        dialect: Dialect,
        stamp: &Stamp,
        look: &K,
        sql: &P,
        item: Item,
    ) -> Tried
        requires reads { IsReadFor self.old dialect }
        requires sql { P.dialect ≡ dialect }
        requires moment { stamp.now.reading ≤ 253402300799999 }
        requires place { item.index < length self.old.changelog.sets }
        ensures came { CameTo dialect stamp.now (K.catalogue look.now) self.old self.new item
            result }
        ensures reads { IsReadFor self.new dialect }
        ensures items { self.new.items ≡ self.old.items }
    {
        let changelog = self.changelog.get();
        let next = place_behind(changelog, item.index);
        let Some(set) = changelog.sets.get(item.index) else {
            unreachable!();
        };
        let Ok(choice) = choose(alloc, item.what, set, dialect, look, &mut self.outcome) else {
            return Tried::Lack;
        };
        self.next = next;
        let making = Making {
            dialect,
            stamp,
            last: self.last,
            prints: self.prints,
        };
        let texts = &mut self.outcome.printed;
        let tried = act(alloc, &making, sql, set, choice, &mut self.turn, texts);
        self.last_after = last_after(choice, self.last);
        tried
    }
}

/// The changesets that have a turn on these rows, the next one last.
fn planned(
    alloc: Global,
    options: &Options,
    changelog: &Changelog,
    rows: &[Tracked],
) -> Result<Items<Item>, NoMemory>
    ensures { IfOk result
        (λ items. reverse items ≡ work (view_log options.now changelog.now).sets rows.now) }
{
    let items = work_of(alloc, options, changelog, rows)?;
    let turned = next_last(alloc, items)?;
    Ok(turned)
}

fn next_last(alloc: Global, items: Items<Item>) -> Result<Items<Item>, NoMemory>
    ensures { IfOk result (λ turned. reverse turned ≡ items) }
{
    let mut left = items;
    let mut turned = Items::new(alloc);
    while let Some(item) = left.pop() {
        turned.push(item)?;
    }
    Ok(turned)
}

/// What a changeset does, which is written down.
fn choose<K: Look>(
    alloc: Global,
    what: What,
    set: &ChangeSet,
    dialect: Dialect,
    look: &K,
    outcome: &mut Outcome,
) -> Result<Choice, NoMemory>
    ensures choice { IfOk result (λ made.
        (options : Given) (database : Database)
        → options.dialect ≡ dialect
        → StandsFor dialect (K.catalogue look.now) database
        → made ≡ choice_of (view options set.now) (contents_of database) (Some what)) }
    ensures told { IfOk result (λ made. outcome.new
        ≡ told_by set.now.identity made outcome.old) }
    ensures unwarned { OnErr result (outcome.new.warned ≡ outcome.old.warned) }
{
    let choice = seen_choice(alloc, what, set, dialect, look)?;
    tell(alloc, &set.identity, choice, outcome)?;
    Ok(choice)
}

/// The place behind one of the changelog.
fn place_behind(changelog: &Changelog, place: usize) -> usize
    requires { place < length changelog.now.sets }
    ensures { result ≡ place + 1 }
{
    let _count = changelog.sets.len();
    place + 1
}

/// What comes of a changeset by its choice.
fn act<P: SqlText>(
    alloc: Global,
    making: &Making<'_>,
    sql: &P,
    set: &ChangeSet,
    choice: Choice,
    turn: &mut Option<InHand>,
    texts: &mut Items<Printed>,
) -> Tried
    requires sql { P.dialect ≡ making.now.dialect }
    requires read { list_all (is_for making.now.dialect) set.now.changes ≡ true }
    requires moment { making.now.stamp.now.reading ≤ 253402300799999 }
    requires room { making.now.last ≤ 2147483647 }
    ensures came { CameBy making.now.dialect making.now.stamp.now set.now making.now.last choice
        result }
    ensures kept { IsKeptBy making.now.dialect set.now choice result turn.new }
    ensures texts { KeepsTexts making.now.prints making.now.dialect set.now choice result texts.old
        texts.new }
{
    match choice {
        Choice::Passes => Tried::Skipped,
        Choice::Skips => Tried::Skipped,
        Choice::Halts(_) => Tried::Halted,
        Choice::Fills => try_turn(alloc, making, sql, set, choice, turn, texts),
        Choice::Marks(_) => try_turn(alloc, making, sql, set, choice, turn, texts),
        Choice::Runs(_, _) => try_turn(alloc, making, sql, set, choice, turn, texts),
    }
}

/// Takes the turn of a changeset in hand.
fn try_turn<P: SqlText>(
    alloc: Global,
    making: &Making<'_>,
    sql: &P,
    set: &ChangeSet,
    choice: Choice,
    turn: &mut Option<InHand>,
    texts: &mut Items<Printed>,
) -> Tried
    requires sql { P.dialect ≡ making.now.dialect }
    requires read { list_all (is_for making.now.dialect) set.now.changes ≡ true }
    requires moment { making.now.stamp.now.reading ≤ 253402300799999 }
    requires room { making.now.last ≤ 2147483647 }
    requires turn { has_turn choice ≡ true }
    ensures came { CameBy making.now.dialect making.now.stamp.now set.now making.now.last choice
        result }
    ensures kept { IsKeptBy making.now.dialect set.now choice result turn.new }
    ensures texts { KeepsTexts making.now.prints making.now.dialect set.now choice result texts.old
        texts.new }
{
    let Ok(in_hand) = InHand::new(alloc, making.dialect, set, choice) else {
        return Tried::Lack;
    };
    *turn = Some(in_hand);
    match hand_for(alloc, making, sql, set, choice, texts) {
        Ok(hand) => Tried::Turn(hand),
        Err(_) => Tried::Lack,
    }
}

/// The texts that were kept last were those of a turn that is not done.
fn forget_texts(prints: bool, choice: Choice, texts: &mut Items<Printed>)
    ensures { (before : List Shown) (its : Shown)
        → texts.old ≡ before ++ if_kept prints choice its
        → texts.new ≡ before }
{
    if keeps(prints, choice) {
        texts.pop();
    }
}

/// How many changes of the turn that has finished were not fresh.
fn count_in(turn: &mut Option<InHand>, not_fresh: &mut u64)
    ensures none { turn.new ≡ None }
    ensures counted { not_fresh.new ≡ counted_in turn.old not_fresh.old }
{
    match turn.take() {
        Some(turn) => {
            let all = counted(*not_fresh, turn.not_fresh);
            *not_fresh = all;
        }
        None => {}
    }
}

/// A statement of the turn of the changeset before this place comes next.
fn look_at<K: Look>(
    changelog: &Changelog,
    next: usize,
    turn: &mut InHand,
    dialect: Dialect,
    look: &K,
)
    requires read { AreFor dialect changelog.now }
    ensures same { (turn.new.identity ≡ turn.old.identity)
        × (turn.new.choice ≡ turn.old.choice)
        × (turn.new.stops ≡ turn.old.stops) }
    ensures looked { HasLooked dialect (changes_before changelog.now.sets next)
        (K.catalogue look.now) turn.old turn.new }
{
    match changelog.sets.get(next.saturating_sub(1)) {
        Some(set) => turn.looks(dialect, set, look),
        None => {}
    }
}

impl Source for SetTurns {
    ghost use Rattle.lq_any.specs.declared.any_change.AnyChange.{AnyChange};
    ghost use Rattle.lq_sets.specs.SetTurns.{IsReadFor, set_way, sets_left};
    ghost use Rattle.lq_seen.specs.Telling.{Account};
    ghost use Rattle.lq_seen.specs.View.{any_meaning};
    ghost use Rattle.lq_turns.specs.Rest.{OfSets};

    ghost Key = { AnyChange };

    ghost meaning = { any_meaning };

    ghost left = { λ source. OfSets (sets_left source) };

    ghost Told = { Account };

    ghost way = { set_way };

    ghost reads = { IsReadFor };

    fn enter<K: Look, P: SqlText>(
        &mut self,
        alloc: Global,
        dialect: Dialect,
        stamp: &Stamp,
        look: &K,
        sql: &P,
    ) -> Entered {
        while let Some(item) = self.items.pop() {
            match self.try_item(alloc, dialect, stamp, look, sql, item) {
                Tried::Turn(hand) => return Entered::Turn(hand),
                Tried::Skipped => {}
                Tried::Halted => {
                    self.items = Items::new(alloc);
                    return Entered::NoTurn;
                }
                Tried::Lack => return Entered::Lack,
            }
        }
        Entered::NoTurn
    }

    fn looks<K: Look>(&mut self, dialect: Dialect, look: &K) {
        match &mut self.turn {
            Some(turn) => look_at(self.changelog.get(), self.next, turn, dialect, look),
            None => {}
        }
    }

    fn finished(&mut self) {
        count_in(&mut self.turn, &mut self.outcome.not_fresh);
        self.last = self.last_after.min(LAST_PLACE);
    }

    fn refused(&mut self) {
        match self.turn.take() {
            Some(turn) => {
                forget_texts(self.prints, turn.choice, &mut self.outcome.printed);
                take_back(turn.identity, turn.stops, turn.choice, &mut self.outcome);
            }
            None => {}
        }
    }
}
