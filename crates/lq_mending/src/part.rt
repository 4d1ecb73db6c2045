ghost use Rattle.std.specs.List.{list_all};
ghost use Rattle.std.specs.Prelude.{◌≡◌, ◌≤◌, ◌⊎◌, ◌&&◌, [], IfErr, IfOk, IfSome, Some, false, is_none, is_some, length, true};
ghost use Rattle.laws_repair.specs.Repair.{is_mark_text, text_by, by_of, standing};
ghost use Rattle.lq_base.specs.Kind.{plain_number};
ghost use Rattle.lq_base.specs.declared.dialect.Dialect.{Dialect as Spoken};
ghost use Rattle.lq_kinds.specs.ReadFor.{AreFor, is_read_for};
ghost use Rattle.lq_mending.specs.Undoes.{IsPart, Passes, invalid, is_of_calls, refusal, refusal_at, set_marked, standing_in, unless_undone, unnamed, unrecorded};
ghost use Rattle.lq_mending.specs.declared.outcome.RepairFault.TheVariants.{NotReversible, OutOfMemory};
ghost use Rattle.lq_model.specs.Step.{is_statement};
ghost use Rattle.lq_seen.specs.View.{any_meaning, view};
ghost use Rattle.lq_track.specs.Statements.{lock_marked};
ghost use Rattle.lq_turns.specs.Set.{inverses};
ghost use Rattle.lq_turns.specs.declared.deed.Deed.TheVariants as deed;
ghost use Rattle.lq_turns.specs.declared.deed.OnLock.TheVariants as on_lock;
ghost use Rattle.lq_unrecorded.specs.Part.{counts_in, holder, is_back, number_in};

use crate::outcome::RepairFault;
use lq_back::is_undoable;
use lq_base::{Dialect, Duplicate, Identity, Items, Lock, NoMemory, Text, Tracked};
use lq_expr::Options;
use lq_kinds::{ChangeSet, Changelog};
use lq_model::{SqlText, Statement};
use lq_repair::standing;
use lq_report::{Mark, mark_text};
use lq_seen::{statements_are_spelled, statements_of};
use lq_sets::faults_of;
use lq_track::mark_lock;
use lq_unrecorded::{holder, is_back, number_within, part_mark, set_marked};
use std::alloc::Global;

/// The part of a changeset that stands without a row.
#[derive(Drop)]
pub struct Part {
    /// Who holds the lock.
    pub who: Text,
    pub identity: Identity,
    /// All statements of the changeset.
    pub statements: Items<Statement>,
    /// How many of the first ones are to be taken back.
    pub count: u64,
}

/// The part that the lock's mark tells, where the checks on these rows are passed and `last` is the
/// last text of the journal.
pub fn part_of<P: SqlText>(
    alloc: Global,
    options: &Options,
    changelog: &Changelog,
    lock: &Lock,
    rows: &[Tracked],
    last: &Option<Text>,
    sql: &P,
) -> Result<Part, RepairFault>
    requires sql { P.dialect ≡ options.now.dialect }
    requires read { AreFor options.now.dialect changelog.now }
    ensures passes { Passes (refusal options.now changelog.now lock.now rows.now) result }
    ensures checks { IfErr result (λ e. is_of_calls e ≡ false) }
    ensures part { IfOk result
        (IsPart options.now (unrecorded options.now changelog.now last.now lock.now rows.now)
        lock.now) }
    ensures stated { IfOk result
        (λ part. list_all (is_statement options.now.dialect) part.statements ≡ true) }
    ensures within { IfOk result (λ part. part.count ≤ length part.statements) }
{
    match part_mark(lock) {
        Some(mark) => checked_part(alloc, options, changelog, lock, rows, &mark, last, sql),
        None => Err(RepairFault::NothingToUndo),
    }
}

// The lock has this mark.
fn checked_part<P: SqlText>(
    alloc: Global,
    options: &Options,
    changelog: &Changelog,
    lock: &Lock,
    rows: &[Tracked],
    mark: &Mark<'_>,
    last: &Option<Text>,
    sql: &P,
) -> Result<Part, RepairFault>
    requires sql { P.dialect ≡ options.now.dialect }
    requires read { AreFor options.now.dialect changelog.now }
    ensures passes { Passes
        (refusal_at options.now changelog.now rows.now
        (Some (mark.now.identity.now, mark.now.form, mark.now.statement.now))) result }
    ensures checks { IfErr result (λ e. is_of_calls e ≡ false) }
    ensures part { IfOk result
        (IsPart options.now
        (standing_in options.now.dialect last.now lock.now
        (mark.now.identity.now, mark.now.form, mark.now.statement.now)
        (set_marked options.now changelog.now rows.now
        (mark.now.identity.now, mark.now.form, mark.now.statement.now))) lock.now) }
    ensures stated { IfOk result
        (λ part. list_all (is_statement options.now.dialect) part.statements ≡ true) }
    ensures within { IfOk result (λ part. part.count ≤ length part.statements) }
{
    match check_faults(alloc, options, changelog, rows) {
        Ok(()) => marked_part(alloc, options, changelog, lock, rows, mark, last, sql),
        Err(fault) => Err(fault),
    }
}

/// The changelog goes with these rows.
fn check_faults(
    alloc: Global,
    options: &Options,
    changelog: &Changelog,
    rows: &[Tracked],
) -> Result<(), RepairFault>
    ensures passes { Passes (invalid options.now changelog.now rows.now) result }
    ensures checks { IfErr result (λ e. is_of_calls e ≡ false) }
{
    let found = faults_of(alloc, options, changelog, rows)?;
    if found.is_empty() {
        return Ok(());
    }
    Err(RepairFault::Invalid(found))
}

// The lock has this mark, and the changelog goes with the rows.
fn marked_part<P: SqlText>(
    alloc: Global,
    options: &Options,
    changelog: &Changelog,
    lock: &Lock,
    rows: &[Tracked],
    mark: &Mark<'_>,
    last: &Option<Text>,
    sql: &P,
) -> Result<Part, RepairFault>
    requires sql { P.dialect ≡ options.now.dialect }
    requires read { AreFor options.now.dialect changelog.now }
    ensures passes { Passes
        (unless_undone options.now
        (mark.now.identity.now, mark.now.form, mark.now.statement.now)
        (set_marked options.now changelog.now rows.now
        (mark.now.identity.now, mark.now.form, mark.now.statement.now))) result }
    ensures checks { IfErr result (λ e. is_of_calls e ≡ false) }
    ensures part { IfOk result
        (IsPart options.now
        (standing_in options.now.dialect last.now lock.now
        (mark.now.identity.now, mark.now.form, mark.now.statement.now)
        (set_marked options.now changelog.now rows.now
        (mark.now.identity.now, mark.now.form, mark.now.statement.now))) lock.now) }
    ensures stated { IfOk result
        (λ part. list_all (is_statement options.now.dialect) part.statements ≡ true) }
    ensures within { IfOk result (λ part. part.count ≤ length part.statements) }
{
    let found = set_marked(alloc, changelog.sets.as_slice(), rows, mark.identity)?;
    match found {
        Some(set) => part_of_set(alloc, options, lock, mark, set, last, sql),
        None => Err(not_named(alloc, mark)),
    }
}

// The mark names no changeset, or more than one.
fn not_named(alloc: Global, mark: &Mark<'_>) -> RepairFault
    ensures same { (result
        ≡ NotReversible (unnamed (mark.now.identity.now, mark.now.form, mark.now.statement.now)))
        ⊎ (result ≡ OutOfMemory) }
    ensures checks { is_of_calls result ≡ false }
{
    match unnamed(alloc, mark) {
        Ok(of) => RepairFault::NotReversible(of),
        Err(_) => RepairFault::OutOfMemory,
    }
}

// A mark that names no changeset: its text alone.
fn unnamed(alloc: Global, mark: &Mark<'_>) -> Result<Identity, NoMemory>
    ensures { IfOk result (λ of.
        of ≡ unnamed (mark.now.identity.now, mark.now.form, mark.now.statement.now)) }
{
    let file = mark_text(alloc, mark)?;
    let id = Text::new(alloc, "")?;
    let author = Text::new(alloc, "")?;
    Ok(Identity { file, id, author })
}

// The mark names this changeset.
fn part_of_set<P: SqlText>(
    alloc: Global,
    options: &Options,
    lock: &Lock,
    mark: &Mark<'_>,
    set: &ChangeSet,
    last: &Option<Text>,
    sql: &P,
) -> Result<Part, RepairFault>
    requires sql { P.dialect ≡ options.now.dialect }
    requires read { is_read_for options.now.dialect set.now ≡ true }
    ensures passes { Passes
        (unless_undone options.now
        (mark.now.identity.now, mark.now.form, mark.now.statement.now)
        (Some (view options.now set.now))) result }
    ensures checks { IfErr result (λ e. is_of_calls e ≡ false) }
    ensures part { IfOk result
        (IsPart options.now
        (standing_in options.now.dialect last.now lock.now
        (mark.now.identity.now, mark.now.form, mark.now.statement.now)
        (Some (view options.now set.now))) lock.now) }
    ensures stated { IfOk result
        (λ part. list_all (is_statement options.now.dialect) part.statements ≡ true) }
    ensures within { IfOk result (λ part. part.count ≤ length part.statements) }
{
    statements_are_spelled();
    let statements = statements_of(alloc, options.dialect, set.changes.as_slice())?;
    match number_to_undo(set, statements.len() as u64, mark.statement) {
        Some(number) => whole_part(
            alloc,
            options.dialect,
            lock,
            mark,
            &set.identity,
            statements,
            number,
            last,
            sql,
        ),
        None => Err(not_reversible(alloc, &set.identity)),
    }
}

// Nothing takes this changeset back.
fn not_reversible(alloc: Global, of: &Identity) -> RepairFault
    ensures same { (result ≡ NotReversible of.now) ⊎ (result ≡ OutOfMemory) }
    ensures checks { is_of_calls result ≡ false }
{
    match of.duplicate(alloc) {
        Ok(of) => RepairFault::NotReversible(of),
        Err(_) => RepairFault::OutOfMemory,
    }
}

// The mark names the statement of this number.
fn whole_part<P: SqlText>(
    alloc: Global,
    dialect: Dialect,
    lock: &Lock,
    mark: &Mark<'_>,
    identity: &Identity,
    statements: Items<Statement>,
    number: u64,
    last: &Option<Text>,
    sql: &P,
) -> Result<Part, RepairFault>
    requires sql { P.dialect ≡ dialect }
    ensures memory { IfErr result (λ e. e ≡ OutOfMemory) }
    ensures who { IfOk result (λ part. part.who ≡ holder lock.now) }
    ensures identity { IfOk result (λ part. part.identity ≡ identity.now) }
    ensures statements { IfOk result (λ part. part.statements ≡ statements) }
    ensures count { IfOk result (λ part. part.count
        ≡ standing (is_back mark.now.form) (is_mark_text dialect (by_of lock.now) last.now)
        number) }
{
    let is_last = sets_mark(alloc, dialect, lock, last, sql)?;
    let who = Text::new(alloc, holder(lock))?;
    let identity = identity.duplicate(alloc)?;
    Ok(Part {
        who,
        identity,
        statements,
        count: standing(is_back(mark), is_last, number),
    })
}

// The number, where it is that of one of the changeset's statements, of which there are so many, and
// what is generated takes each of its changes back.
fn number_to_undo(set: &ChangeSet, many: u64, digits: &str) -> Option<u64>
    ensures counts { (d : Spoken) → is_some result
        ≡ (is_none set.now.rollback
        && (is_some (inverses d any_meaning set.now.changes)
        && counts_in many (plain_number digits.now))) }
    ensures number { IfSome result (λ k. k ≡ number_in (plain_number digits.now)) }
    ensures within { IfSome result (λ k. k ≤ many) }
{
    if has_way(set) {
        number_within(many, digits)
    } else {
        None
    }
}

// What is generated takes each of its changes back.
fn has_way(set: &ChangeSet) -> bool
    ensures { (d : Spoken) → result
        ≡ (is_none set.now.rollback && is_some (inverses d any_meaning set.now.changes)) }
{
    set.rollback.is_none() && is_undoable(set)
}

// Whether the last text of the journal is that of the statement that sets the lock's mark.
fn sets_mark<P: SqlText>(
    alloc: Global,
    dialect: Dialect,
    lock: &Lock,
    last: &Option<Text>,
    sql: &P,
) -> Result<bool, NoMemory>
    requires sql { P.dialect ≡ dialect }
    ensures { IfOk result (λ is. is ≡ is_mark_text dialect (by_of lock.now) last.now) }
{
    match last {
        Some(last) => {
            let text = mark_text_of(alloc, dialect, lock, sql)?;
            Ok(text == *last)
        }
        None => Ok(false),
    }
}

fn mark_text_of<P: SqlText>(
    alloc: Global,
    dialect: Dialect,
    lock: &Lock,
    sql: &P,
) -> Result<Text, NoMemory>
    requires sql { P.dialect ≡ dialect }
    ensures { IfOk result (λ text.
        text ≡ text_by dialect (deed.Locks (on_lock.Marked (by_of lock.now)))) }
{
    let statement = mark_of_lock(alloc, dialect, lock)?;
    sql.print(alloc, &statement)
}

fn mark_of_lock(alloc: Global, dialect: Dialect, lock: &Lock) -> Result<Statement, NoMemory>
    ensures made { IfOk result (λ s. s ≡ lock_marked (by_of lock.now)) }
    ensures stated { IfOk result (λ s. is_statement dialect s ≡ true) }
{
    match &lock.by {
        Some(by) => mark_lock(alloc, by),
        None => mark_nobody(alloc, dialect),
    }
}

fn mark_nobody(alloc: Global, dialect: Dialect) -> Result<Statement, NoMemory>
    ensures made { IfOk result (λ s. s ≡ lock_marked []) }
    ensures stated { IfOk result (λ s. is_statement dialect s ≡ true) }
{
    let none = Text::new(alloc, "")?;
    mark_lock(alloc, &none)
}
