ghost use Rattle.std.specs.Prelude.{◌≡◌, [], true};
ghost use Rattle.lq_model.specs.Catalogue.{no_objects};
ghost use Rattle.lq_model.specs.Step.{is_statement, step};
ghost use Rattle.lq_store.specs.Journal.{is_apart};
ghost use Rattle.lq_store.specs.Executor.{Held, Runs, back, forgotten, holding, undone};
ghost use Rattle.lq_track.specs.Database.{users_of};

use crate::fault::RunFault;
use lq_base::Dialect;
use lq_model::{By, Look, Statement};
use std::alloc::Global;

/// A catalogue that statements change. It can go back to before the last of them, and to the last
/// `forget`.
pub trait Executor: Look {
    /// Its dialect, its catalogue, and those to which it can go back.
    ghost held: { Self → Held };

    /// No objects, and nothing to undo.
    fn new(alloc: Global, dialect: Dialect) -> Self
        ensures { held result ≡ holding dialect no_objects [] };

    /// Runs a statement of the dialect on someone's behalf, and answers how many rows it changed. A
    /// fault changes nothing.
    fn run(&mut self, by: By, statement: &Statement) -> Result<u64, RunFault>
        requires { is_statement (held self.old).dialect statement.now ≡ true }
        ensures { Runs (step by (held self.old).dialect statement.now (held self.old).now)
            (held self.old) (held self.new) result };

    /// Gives the catalogue before the last `run` that answered a number and is not undone; called again,
    /// before the one before it. It takes no memory.
    fn undo_last(&mut self)
        ensures { held self.new ≡ back (held self.old) };

    /// Gives the catalogue at the last `forget`. It takes no memory.
    fn undo(&mut self)
        ensures { held self.new ≡ undone (held self.old) };

    /// Keeps the catalogue as it is: nothing can be undone.
    fn forget(&mut self)
        ensures { held self.new ≡ forgotten (held self.old) };

    /// Whether the users' objects neither have nor name a name of the tracking tables in any case, and
    /// in PostgreSQL none has the name of the lock table's key.
    fn is_apart(&self) -> bool
        ensures { result ≡ is_apart (held self.now).dialect (users_of (held self.now).now) };

    /// What is looked at is the catalogue now.
    ghost looks: { (executor : Self) → Self.catalogue executor ≡ (held executor).now };
}
