ghost use Rattle.lq_model.specs.SqlParser.{Gives};

use lq_model::ParseFault;

// What is there, or the fault.
pub fn given<T: Drop>(found: Option<T>) -> Result<T, ParseFault>
    ensures { Gives found result }
{
    match found {
        Some(it) => Ok(it),
        None => Err(ParseFault::NotSql),
    }
}
