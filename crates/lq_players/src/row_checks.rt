ghost use Rattle.std.specs.Prelude.{◌≡◌, IfErr, IfOk};
ghost use Rattle.lq_players.specs.RollingBack.{IsRefusal, Passes, judged};
ghost use Rattle.lq_players.specs.Tasks.{if_some, invalid};
ghost use Rattle.lq_seen.specs.View.{view_log};

use lq_base::{Items, Tracked};
use lq_expr::Options;
use lq_kinds::Changelog;
use lq_playing::Verdict;
use lq_sets::faults_of;
use lq_turns::{Answer, Fault};
use std::alloc::Global;

/// The changelog goes with these rows.
pub fn check_faults(
    alloc: Global,
    options: &Options,
    changelog: &Changelog,
    rows: &[Tracked],
) -> Result<(), Verdict>
    ensures passes { Passes (invalid (view_log options.now changelog.now) rows.now) result }
    ensures refusal { IfErr result IsRefusal }
{
    match faults_of(alloc, options, changelog, rows) {
        Ok(found) => none_found(found),
        Err(_) => Err(Verdict::Lack),
    }
}

fn none_found(found: Items<Fault>) -> Result<(), Verdict>
    ensures judges { result ≡ judged (if_some found) }
    ensures passes { Passes (if_some found) result }
    ensures refusal { IfErr result IsRefusal }
{
    if found.is_empty() {
        return Ok(());
    }
    Err(Verdict::Answer(Answer::Invalid(found)))
}
