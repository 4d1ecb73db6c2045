ghost use Rattle.std.specs.List.{All};
ghost use Rattle.std.specs.Prelude.{◌≡◌, ◌≤◌, Err, IfOk, IfSome, None, false, true};
ghost use Rattle.lq_base.specs.Number.{char_count};
ghost use Rattle.lq_changelog.specs.Gathers.{HasShortTexts};
ghost use Rattle.lq_base.specs.declared.command.Command.TheVariants as command;
ghost use Rattle.lq_cli.specs.declared.line.Job.TheVariants as job;
ghost use Rattle.lq_kinds.specs.ReadFor.{AreFor};
ghost use Rattle.lq_outside.specs.Forms.{Rose};
ghost use Rattle.lq_tell.specs.declared.status.Status.TheVariants.{DiskFault};
ghost use Rattle.lq_commands.specs.Scripts.{is_at_once, printed_script, script, tag_in};
ghost use Rattle.lq_commands.specs.Jobs.{DidJob, is_single, job_tag};
ghost use Rattle.lq_commands.specs.Outputs.{TellsJob};
ghost use Rattle.lq_commands.specs.Refusals.{Answers, Passes, no_way_back, print_rollback, print_update, refusal};
ghost use Rattle.lq_turns.specs.Stops.{is_mark};
ghost use Rattle.lq_commands.specs.Works.{CrashesIn, IsKept, IsReady, OnIts, TellsRoom, Works, only_reads};

use crate::checks::{check_own, check_target, check_ways, valid_rows};
use crate::clear::clear_sums;
use crate::given::Given;
use crate::listing::{history, status, validate};
use crate::part::update_count;
use crate::release::{free, release};
use crate::rollback::rollback;
use crate::running::fault_answer;
use crate::sync::sync;
use crate::tag::tag;
use crate::update::update;
use lq_base::{Command, Target, Tracked};
use lq_cli::Job;
use lq_model::SqlText;
use lq_store::Store;
use lq_tell::{Done, Status};
use std::alloc::Global;

/// Does a command on the database of a store, whole, and tells what it came to: `Ok` with its
/// status and its texts where it ran, to its end or to the end of the journal, and `Err` with the status
/// where it was refused before it began (then nothing was written), the disk failed, or there was no
/// memory. However it ended, the store holds what its script leaves, or what a stop of it may leave;
/// `validate` and `status` append nothing. A full journal is told as full as it was when a call of the
/// script had no room.
pub fn run_command<S: Store, P: SqlText>(
    alloc: Global,
    command: &Command,
    given: Given,
    store: &mut S,
    sql: &P,
) -> Result<Done, Status>
    requires valid { S.valid store.old }
    requires ready { IsReady given.options.dialect (S.state store.old) }
    requires sql { P.dialect ≡ given.options.dialect }
    requires read { AreFor given.options.dialect given.changelog }
    requires short { All HasShortTexts given.changelog.sets }
    requires tag { IfSome (tag_in command.now) (λ tag. char_count tag ≤ 255) }
    requires moment { given.stamp.reading ≤ 253402300799999 }
    requires name { is_mark given.stamp.who ≡ false }
    ensures valid { S.valid store.new }
    ensures answers { OnIts given.options.dialect (S.state store.old)
        (λ database. Answers (refusal command.now given database) result) }
    ensures refused { OnIts given.options.dialect (S.state store.old)
        (λ database. IsKept (refusal command.now given database) store.old store.new) }
    ensures reads { only_reads command.now ≡ true → store.new ≡ store.old }
    ensures works { OnIts given.options.dialect (S.state store.old) (λ database.
        Works given.options.dialect (script command.now given database) database (S.state store.old)
        result (S.state store.new)) }
    ensures any_moment { OnIts given.options.dialect (S.state store.old) (λ database.
        CrashesIn given.options.dialect (script command.now given database) database
        (S.state store.old) (S.crashes store.old) (S.crashes store.new)) }
    ensures tells { OnIts given.options.dialect (S.state store.old)
        (λ database. TellsJob (job.Run command.now) given database result) }
    ensures later { S.faults store.old ≤ S.faults store.new }
    ensures disk { result ≡ Err DiskFault → Rose (S.faults store.old) (S.faults store.new) }
{
    match command {
        Command::Update => update(alloc, given, store, sql, false),
        Command::Rollback(target) => rollback(alloc, given, target, store, sql, false),
        Command::Sync => sync(alloc, given, store, sql),
        _ => run_at_once(alloc, command, &given, store, sql),
    }
}

/// Does a job that is one run on the database of a store, whole: a command, an update by part of its
/// changelog, the list of its rows, or taking their checksums; otherwise as `run_command`. An update up
/// to a tag has that part of its changelog already.
pub fn run_single<S: Store, P: SqlText>(
    alloc: Global,
    job: &Job,
    given: Given,
    store: &mut S,
    sql: &P,
) -> Result<Done, Status>
    requires own { is_single job.now ≡ true }
    requires valid { S.valid store.old }
    requires ready { IsReady given.options.dialect (S.state store.old) }
    requires sql { P.dialect ≡ given.options.dialect }
    requires read { AreFor given.options.dialect given.changelog }
    requires short { All HasShortTexts given.changelog.sets }
    requires tag { IfSome (job_tag job.now) (λ tag. char_count tag ≤ 255) }
    requires moment { given.stamp.reading ≤ 253402300799999 }
    requires name { is_mark given.stamp.who ≡ false }
    ensures valid { S.valid store.new }
    ensures did { DidJob S.state S.crashes job.now given store.old result store.new }
    ensures later { S.faults store.old ≤ S.faults store.new }
    ensures disk { result ≡ Err DiskFault → Rose (S.faults store.old) (S.faults store.new) }
{
    match job {
        Job::Run(command) => run_command(alloc, command, given, store, sql),
        Job::UpdateCount(count) => update_count(alloc, given, *count, store, sql),
        Job::UpdateTo(_) => update(alloc, given, store, sql, false),
        Job::ClearSums => clear_sums(alloc, given.options.dialect, store, sql),
        Job::History => history(alloc, given.options.dialect, store),
        _ => unreachable!(),
    }
}

// A command that makes one call at most.
fn run_at_once<S: Store, P: SqlText>(
    alloc: Global,
    command: &Command,
    given: &Given,
    store: &mut S,
    sql: &P,
) -> Result<Done, Status>
    requires valid { S.valid store.old }
    requires ready { IsReady given.now.options.dialect (S.state store.old) }
    requires sql { P.dialect ≡ given.now.options.dialect }
    requires tag { IfSome (tag_in command.now) (λ tag. char_count tag ≤ 255) }
    requires at_once { is_at_once command.now ≡ true }
    ensures valid { S.valid store.new }
    ensures answers { OnIts given.now.options.dialect (S.state store.old)
        (λ database. Answers (refusal command.now given.now database) result) }
    ensures refused { OnIts given.now.options.dialect (S.state store.old)
        (λ database. IsKept (refusal command.now given.now database) store.old store.new) }
    ensures reads { only_reads command.now ≡ true → store.new ≡ store.old }
    ensures works { OnIts given.now.options.dialect (S.state store.old) (λ database.
        Works given.now.options.dialect (script command.now given.now database) database
        (S.state store.old) result (S.state store.new)) }
    ensures any_moment { OnIts given.now.options.dialect (S.state store.old) (λ database.
        CrashesIn given.now.options.dialect (script command.now given.now database) database
        (S.state store.old) (S.crashes store.old) (S.crashes store.new)) }
    ensures tells { OnIts given.now.options.dialect (S.state store.old)
        (λ database. TellsJob (job.Run command.now) given.now database result) }
    ensures later { S.faults store.old ≤ S.faults store.new }
    ensures disk { result ≡ Err DiskFault → Rose (S.faults store.old) (S.faults store.new) }
{
    match command {
        Command::Validate => validate(alloc, given, store),
        Command::Status => status(alloc, given, store),
        Command::Tag(name) => tag(alloc, given, name, store, sql),
        Command::Release => release(alloc, given, store, sql),
        _ => unreachable!(),
    }
}

/// Runs an update on a copy of its database, of which a lock is freed once the checks are passed, and
/// gives its statements as text. It is refused as an update is, but never for the lock. A full journal
/// is told as full as it was when a call on the copy had no room.
pub fn print_update<S: Store, P: SqlText>(
    alloc: Global,
    given: Given,
    store: &mut S,
    sql: &P,
) -> Result<Done, Status>
    requires valid { S.valid store.old }
    requires ready { IsReady given.options.dialect (S.state store.old) }
    requires sql { P.dialect ≡ given.options.dialect }
    requires read { AreFor given.options.dialect given.changelog }
    requires short { All HasShortTexts given.changelog.sets }
    requires moment { given.stamp.reading ≤ 253402300799999 }
    requires name { is_mark given.stamp.who ≡ false }
    ensures answers { OnIts given.options.dialect (S.state store.old)
        (λ database. Answers (print_update given database) result) }
    ensures tells { OnIts given.options.dialect (S.state store.old)
        (λ database. TellsJob job.UpdateSql given database result) }
    ensures room { IfOk result (λ done.
        OnIts given.options.dialect (S.state store.old) (λ database.
        TellsRoom given.options.dialect (printed_script command.Update given database) database
        (S.state store.old) done.status)) }
{
    let rows = valid_rows(alloc, &given, store)?;
    check_own(alloc, &given, store, rows.as_slice())?;
    free_and_update(alloc, given, store, sql)
}

// The checks are passed.
fn free_and_update<S: Store, P: SqlText>(
    alloc: Global,
    given: Given,
    store: &mut S,
    sql: &P,
) -> Result<Done, Status>
    requires valid { S.valid store.old }
    requires ready { IsReady given.options.dialect (S.state store.old) }
    requires sql { P.dialect ≡ given.options.dialect }
    requires read { AreFor given.options.dialect given.changelog }
    requires short { All HasShortTexts given.changelog.sets }
    requires moment { given.stamp.reading ≤ 253402300799999 }
    requires name { is_mark given.stamp.who ≡ false }
    requires passes { OnIts given.options.dialect (S.state store.old)
        (λ database. print_update given database ≡ None) }
    ensures answers { OnIts given.options.dialect (S.state store.old)
        (λ database. Answers (print_update given database) result) }
    ensures tells { OnIts given.options.dialect (S.state store.old)
        (λ database. TellsJob job.UpdateSql given database result) }
    ensures room { IfOk result (λ done.
        OnIts given.options.dialect (S.state store.old) (λ database.
        TellsRoom given.options.dialect (printed_script command.Update given database) database
        (S.state store.old) done.status)) }
{
    match free(alloc, &given, store, sql) {
        Ok(()) => update(alloc, given, store, sql, true),
        Err(fault) => fault_answer(alloc, fault),
    }
}

/// Runs a rollback to a target on a copy of its database in the same way, and gives its statements as
/// text.
pub fn print_rollback<S: Store, P: SqlText>(
    alloc: Global,
    given: Given,
    target: &Target,
    store: &mut S,
    sql: &P,
) -> Result<Done, Status>
    requires valid { S.valid store.old }
    requires ready { IsReady given.options.dialect (S.state store.old) }
    requires sql { P.dialect ≡ given.options.dialect }
    requires read { AreFor given.options.dialect given.changelog }
    requires moment { given.stamp.reading ≤ 253402300799999 }
    requires name { is_mark given.stamp.who ≡ false }
    ensures answers { OnIts given.options.dialect (S.state store.old)
        (λ database. Answers (print_rollback given target.now database) result) }
    ensures tells { OnIts given.options.dialect (S.state store.old)
        (λ database. TellsJob (job.RollbackSql target.now) given database result) }
    ensures room { IfOk result (λ done.
        OnIts given.options.dialect (S.state store.old) (λ database.
        TellsRoom given.options.dialect
        (printed_script (command.Rollback target.now) given database) database (S.state store.old)
        done.status)) }
{
    let rows = valid_rows(alloc, &given, store)?;
    check_back(alloc, &given, target, rows.as_slice())?;
    free_and_rollback(alloc, given, target, store, sql)
}

// Something takes each row after the target back.
fn check_back(alloc: Global, given: &Given, target: &Target, rows: &[Tracked]) -> Result<(), Status>
    ensures { Passes (no_way_back given.now target.now rows.now) result }
{
    let undone = check_target(rows, target)?;
    check_ways(alloc, given, undone)?;
    Ok(())
}

// The checks are passed.
fn free_and_rollback<S: Store, P: SqlText>(
    alloc: Global,
    given: Given,
    target: &Target,
    store: &mut S,
    sql: &P,
) -> Result<Done, Status>
    requires valid { S.valid store.old }
    requires ready { IsReady given.options.dialect (S.state store.old) }
    requires sql { P.dialect ≡ given.options.dialect }
    requires read { AreFor given.options.dialect given.changelog }
    requires moment { given.stamp.reading ≤ 253402300799999 }
    requires name { is_mark given.stamp.who ≡ false }
    requires passes { OnIts given.options.dialect (S.state store.old)
        (λ database. print_rollback given target.now database ≡ None) }
    ensures answers { OnIts given.options.dialect (S.state store.old)
        (λ database. Answers (print_rollback given target.now database) result) }
    ensures tells { OnIts given.options.dialect (S.state store.old)
        (λ database. TellsJob (job.RollbackSql target.now) given database result) }
    ensures room { IfOk result (λ done.
        OnIts given.options.dialect (S.state store.old) (λ database.
        TellsRoom given.options.dialect
        (printed_script (command.Rollback target.now) given database) database (S.state store.old)
        done.status)) }
{
    match free(alloc, &given, store, sql) {
        Ok(()) => rollback(alloc, given, target, store, sql, true),
        Err(fault) => fault_answer(alloc, fault),
    }
}
