ghost use Rattle.std.specs.Prelude.{◌≡◌, refl};
ghost use Rattle.lq_store.specs.Executor.{holding};

use crate::apart::is_apart;
use crate::engine::Engine;
use lq_base::Dialect;
use lq_model::{By, Statement};
use lq_rows::RunFault as EngineFault;
use lq_store::{Executor, RunFault};
use std::alloc::Global;

impl Executor for Engine {
    ghost held = { λ e. holding e.dialect e.now e.past };

    ghost looks = { λ executor. refl };

    fn new(alloc: Global, dialect: Dialect) -> Engine {
        Engine::new(alloc, dialect)
    }

    fn run(&mut self, by: By, statement: &Statement) -> Result<u64, RunFault> {
        match Engine::run(self, by, statement) {
            Ok(count) => Ok(count),
            Err(EngineFault::Refused(reason)) => Err(RunFault::Refused(reason)),
            Err(EngineFault::OutOfMemory) => Err(RunFault::OutOfMemory),
        }
    }

    fn undo_last(&mut self) {
        Engine::undo_last(self)
    }

    fn undo(&mut self) {
        Engine::undo(self)
    }

    fn forget(&mut self) {
        Engine::forget(self)
    }

    fn is_apart(&self) -> bool {
        is_apart(&self.parts, self.dialect)
    }
}
