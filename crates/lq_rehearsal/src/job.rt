ghost use Rattle.std.specs.List.{All};
ghost use Rattle.std.specs.Prelude.{◌≡◌, ◌≤◌, Err, IfSome, false, true};
ghost use Rattle.lq_base.specs.Number.{char_count};
ghost use Rattle.lq_changelog.specs.Gathers.{HasShortTexts};
ghost use Rattle.lq_commands.specs.Jobs.{DidJob, is_on_store, job_tag};
ghost use Rattle.lq_commands.specs.Works.{IsReady};
ghost use Rattle.lq_kinds.specs.ReadFor.{AreFor};
ghost use Rattle.lq_outside.specs.Forms.{Rose};
ghost use Rattle.lq_tell.specs.declared.status.Status.TheVariants.{DiskFault};
ghost use Rattle.lq_turns.specs.Stops.{is_mark};

use crate::rehearsal::update_testing_rollback;
use lq_cli::Job;
use lq_commands::{Given, run_single};
use lq_model::SqlText;
use lq_store::Store;
use lq_tell::{Done, Status};
use std::alloc::Global;

/// Does a job on the database of a store, whole: an update that is rehearsed, or one run, as
/// `run_single` does it.
pub fn run_job<S: Store, P: SqlText>(
    alloc: Global,
    job: &Job,
    given: Given,
    store: &mut S,
    sql: &P,
) -> Result<Done, Status>
    requires own { is_on_store job.now ≡ true }
    requires valid { S.valid store.old }
    requires ready { IsReady given.options.dialect (S.state store.old) }
    requires sql { P.dialect ≡ given.options.dialect }
    requires read { AreFor given.options.dialect given.changelog }
    requires short { All HasShortTexts given.changelog.sets }
    requires tag { IfSome (job_tag job.now) (λ tag. char_count tag ≤ 255) }
    requires moment { given.stamp.reading ≤ 253402300799999 }
    requires name { is_mark given.stamp.who ≡ false }
    ensures valid { S.valid store.new }
    ensures did { DidJob S.state S.crashes job.now given store.old result store.new }
    ensures later { S.faults store.old ≤ S.faults store.new }
    ensures disk { result ≡ Err DiskFault → Rose (S.faults store.old) (S.faults store.new) }
{
    match job {
        Job::UpdateTestingRollback => update_testing_rollback(alloc, given, store, sql),
        _ => run_single(alloc, job, given, store, sql),
    }
}
