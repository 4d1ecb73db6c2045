ghost use Rattle.std.specs.Prelude.{◌≡◌, IfOk, map};
ghost use Rattle.lq_plan.specs.Told.{headed, bare};
ghost use Rattle.lq_seen.specs.View.{view, views};

use lq_base::{Items, NoMemory};
use lq_expr::Options;
use lq_kinds::ChangeSet;
use lq_plan::Head;
use lq_seen::is_selected;
use std::alloc::Global;

fn head_of<'a>(options: &Options, set: &'a ChangeSet) -> Head<'a>
    ensures { headed result ≡ bare (view options.now set.now) }
{
    Head {
        identity: &set.identity,
        here: set.here,
        selected: is_selected(set, options),
        run_always: set.run_always,
        run_on_change: set.run_on_change,
        sum: &set.sum,
        old_sum: &set.old_sum,
        valid_sums: set.valid_sums.as_slice(),
    }
}

/// The heads of the changesets in order.
#[tactic(auto, using(std::proofs::lemmas::List::append_assoc))]
pub fn heads_of<'a>(
    alloc: Global,
    options: &Options,
    sets: &'a [ChangeSet],
) -> Result<Items<Head<'a>>, NoMemory>
    ensures { IfOk result (λ heads. map headed heads ≡ map bare (views options.now sets.now)) }
{
    let mut heads = Items::new(alloc);
    let mut rest = sets;
    while let [set, after @ ..] = rest {
        heads.push(head_of(options, set))?;
        rest = after;
    }
    Ok(heads)
}
