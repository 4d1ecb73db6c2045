ghost use Rattle.std.specs.Prelude.{◌≡◌, IfOk};
ghost use Rattle.lq_base.specs.Name.{IsName};

use lq_base::{Name, NameFault, NoMemory};
use std::alloc::Global;

/// The name that a fixed text is.
pub fn fixed_name(alloc: Global, text: &str) -> Result<Name, NoMemory>
    requires { IsName text.now }
    ensures { IfOk result (λ name. name ≡ text.now) }
{
    match Name::new(alloc, text) {
        Ok(name) => Ok(name),
        Err(NameFault::BadName) => unreachable!(),
        Err(NameFault::OutOfMemory) => Err(NoMemory),
    }
}
