ghost use Rattle.std.specs.Prelude.{◌≡◌, ◌++◌, ◌∷◌, [], Bool, List, Result, not};
ghost use Rattle.lq_base.specs.declared.reason.Reason.{Reason};
ghost use Rattle.lq_verdicts.specs.Verdict.{IsTold, all_hold, map_told, one_holds};

use crate::fault::CondFault;
use lq_base::Items;

fn are_all(told: &[bool]) -> bool
    ensures { result ≡ all_hold told.now }
{
    told.iter().all(|holds| *holds)
}

fn is_one(told: &[bool]) -> bool
    ensures { result ≡ one_holds told.now }
{
    told.iter().any(|holds| *holds)
}

/// With what one more condition tells. Its error is the answer, whatever the others told.
pub fn with_told(
    before: Items<bool>,
    told: Result<bool, CondFault>,
) -> Result<Items<bool>, CondFault>
    ensures { (meant : Result Bool Reason)
        → IsTold meant told
        → IsTold (map_told (λ holds. before ++ holds ∷ []) meant) result }
{
    let mut all = before;
    let holds = told?;
    match all.push(holds) {
        Ok(()) => Ok(all),
        Err(_) => Err(CondFault::OutOfMemory),
    }
}

/// Whether all hold, of what each condition told.
pub fn all_hold(told: Result<Items<bool>, CondFault>) -> Result<bool, CondFault>
    ensures { (meant : Result (List Bool) Reason)
        → IsTold meant told
        → IsTold (map_told all_hold meant) result }
{
    match told {
        Ok(told) => Ok(are_all(told.as_slice())),
        Err(fault) => Err(fault),
    }
}

/// Whether one holds at least, of what each condition told.
pub fn one_holds(told: Result<Items<bool>, CondFault>) -> Result<bool, CondFault>
    ensures { (meant : Result (List Bool) Reason)
        → IsTold meant told
        → IsTold (map_told one_holds meant) result }
{
    match told {
        Ok(told) => Ok(is_one(told.as_slice())),
        Err(fault) => Err(fault),
    }
}

/// Whether none holds, of what each condition told.
pub fn none_holds(told: Result<Items<bool>, CondFault>) -> Result<bool, CondFault>
    ensures { (meant : Result (List Bool) Reason)
        → IsTold meant told
        → IsTold (map_told not (map_told one_holds meant)) result }
{
    match told {
        Ok(told) => Ok(!is_one(told.as_slice())),
        Err(fault) => Err(fault),
    }
}
