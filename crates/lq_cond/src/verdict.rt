ghost use Rattle.std.specs.Prelude.{map};
ghost use Rattle.lq_cond.specs.Told.{told};
ghost use Rattle.lq_verdicts.specs.Verdict.{IsTold, each_told};

use crate::cond::Cond;
use crate::holds::tells;
use lq_base::{Dialect, Items, Tracked};
use lq_model::Look;
use lq_verdicts::{CondFault, all_hold, none_holds, one_holds, with_told};
use std::alloc::Global;

// What each condition tells, in order, or the first error.
#[cycle(told)]
fn each_told<K: Look>(
    alloc: Global,
    conds: &[Cond],
    dialect: Dialect,
    look: &K,
    rows: &[Tracked],
) -> Result<Items<bool>, CondFault>
    ensures { IsTold
        (each_told (map (λ cond. told dialect cond (K.catalogue look.now) rows.now) conds.now))
        result }
{
    let mut all = Items::new(alloc);
    for cond in conds {
        match with_told(all, check(alloc, cond, dialect, look, rows)) {
            Ok(more) => all = more,
            Err(fault) => return Err(fault),
        }
    }
    Ok(all)
}

/// Whether a condition holds in the database that is seen, whose changesets these rows track. Each
/// condition in it is tested, in order: the first reason against one is the error.
#[cycle(told)]
pub fn check<K: Look>(
    alloc: Global,
    cond: &Cond,
    dialect: Dialect,
    look: &K,
    rows: &[Tracked],
) -> Result<bool, CondFault>
    ensures { IsTold (told dialect cond.now (K.catalogue look.now) rows.now) result }
{
    match cond {
        Cond::And(inside) => all_hold(each_told(alloc, inside.as_slice(), dialect, look, rows)),
        Cond::Or(inside) => one_holds(each_told(alloc, inside.as_slice(), dialect, look, rows)),
        Cond::Not(inside) => none_holds(each_told(alloc, inside.as_slice(), dialect, look, rows)),
        Cond::Is(condition) => tells(alloc, condition, dialect, look, rows),
    }
}
