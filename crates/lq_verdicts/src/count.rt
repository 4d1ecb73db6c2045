ghost use Rattle.std.specs.Ordering.{int_eq};
ghost use Rattle.std.specs.Prelude.{◌==◌, pos};
ghost use Rattle.lq_verdicts.specs.Verdict.{IsTold, map_told};

use crate::fault::CondFault;
use lq_base::Reason;

/// Whether as many were counted. What could not be counted is an error.
pub fn is_count(count: Result<u64, Reason>, expected: i128) -> Result<bool, CondFault>
    ensures { IsTold (map_told (λ count. int_eq (pos count) expected) count) result }
{
    match count {
        Ok(count) => Ok(i128::from(count) == expected),
        Err(reason) => Err(CondFault::Error(reason)),
    }
}

/// Whether none was counted. What could not be counted is an error.
pub fn is_zero(count: Result<u64, Reason>) -> Result<bool, CondFault>
    ensures { IsTold (map_told (λ count. count == 0) count) result }
{
    match count {
        Ok(count) => Ok(count == 0),
        Err(reason) => Err(CondFault::Error(reason)),
    }
}
