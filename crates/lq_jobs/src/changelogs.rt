ghost use Rattle.std.specs.List.{All};
ghost use Rattle.std.specs.Prelude.{◌≡◌, ◌≤◌, Err, IfOk, IfSome};
ghost use Rattle.lq_base.specs.declared.dialect.Dialect.{Dialect as AnyDialect};
ghost use Rattle.lq_changelog.specs.Gathers.{HasShortTexts};
ghost use Rattle.lq_commands.specs.Rehearsal.{part_for};
ghost use Rattle.lq_kinds.specs.ReadFor.{AreFor};
ghost use Rattle.lq_outside.specs.Forms.{Rose};
ghost use Rattle.lq_sources.specs.Faults.{Finds};
ghost use Rattle.lq_sources.specs.declared.fault.LoadFault.TheVariants as load;
ghost use Rattle.lq_jobs.specs.Drills.{file_status, loaded, no_changelog};

use lq_base::{Dialect, Items, OnFail, Text};
use lq_changelog::load;
use lq_cli::Job;
use lq_cond::Cond;
use lq_kinds::Changelog;
use lq_model::SqlText;
use lq_outside::Files;
use lq_portion::up_to_tag;
use lq_sources::LoadFault;
use lq_tell::Status;
use std::alloc::Global;

/// The changelog of a command; one that reads none has one without changesets.
pub fn changelog_of<F: Files, P: SqlText>(
    alloc: Global,
    files: &mut F,
    root: &Option<Text>,
    dialect: Dialect,
    sql: &P,
    given: &[(Text, Text)],
) -> Result<Changelog, LoadFault>
    requires same { P.dialect ≡ dialect }
    ensures loaded { Finds (F.told files.old) (λ source. loaded source dialect given.now root.now)
        result }
    ensures read { IfOk result (λ g. AreFor dialect g) }
    ensures short { IfOk result (λ g. All HasShortTexts g.sets) }
    ensures told { F.told files.new ≡ F.told files.old }
    ensures later { F.faults files.old ≤ F.faults files.new }
    ensures failed { result ≡ Err load.Read → Rose (F.faults files.old) (F.faults files.new) }
{
    match root {
        Some(root) => load(alloc, files, root.as_str(), dialect, sql, given),
        None => Ok(no_changelog(alloc)),
    }
}

fn no_changelog(alloc: Global) -> Changelog
    ensures { result ≡ no_changelog }
{
    Changelog {
        cond: Cond::And(Items::new(alloc)),
        on_fail: OnFail::Halt,
        on_error: OnFail::Halt,
        sets: Items::new(alloc),
    }
}

/// The part of the changelog that a job runs: of an update up to a tag the one that ends with the first
/// changeset that sets it, where one does.
pub fn part_for(job: &Job, changelog: Changelog) -> Option<Changelog>
    ensures part { result ≡ part_for job.now changelog }
    ensures read { (d : AnyDialect) → AreFor d changelog → IfSome result (AreFor d) }
    ensures short { All HasShortTexts changelog.sets
        → IfSome result (λ part. All HasShortTexts part.sets) }
{
    match job {
        Job::UpdateTo(tag) => up_to_tag(changelog, tag),
        _ => Some(changelog),
    }
}

/// The status of a fault of the files.
pub fn file_status(fault: LoadFault) -> Status
    ensures { result ≡ file_status fault }
{
    match fault {
        LoadFault::Read => Status::ReadFault,
        LoadFault::OutOfMemory => Status::OutOfMemory,
        fault => Status::Changelog(fault),
    }
}
