ghost use Rattle.std.specs.Prelude.{◌≡◌, [], IfOk, None, Some};
ghost use Rattle.lq_codec.specs.Tables.{bytes_of};
ghost use Rattle.lq_codec.specs.State.{state_of};
ghost use Rattle.lq_model.specs.Sound.{IsSound};
ghost use Rattle.lq_store.specs.Executor.{holding};
ghost use Rattle.lq_store.specs.declared.fault.SnapFault.TheVariants.{NotSnapshot};

use crate::executor::Executor;
use crate::fault::SnapFault;
use lq_base::{Dialect, NoMemory};
use std::alloc::Global;

/// How the state of a database is written as bytes, and read back from them.
pub trait States {
    /// What holds the database.
    type Engine: Executor;

    /// The bytes of the catalogue that it holds now, which are read as the state that it is.
    fn write(&self, alloc: Global, engine: &Self::Engine) -> Result<Vec<u8>, NoMemory>
        requires { IsSound (Self.Engine.held engine.now).dialect
            (Self.Engine.held engine.now).now }
        ensures bytes { IfOk result
            (λ bytes. bytes.items ≡ bytes_of (Self.Engine.held engine.now).now) }
        ensures reads { IfOk result
            (λ bytes. state_of (Self.Engine.held engine.now).dialect bytes.items
            ≡ Some (Self.Engine.held engine.now).now) };

    /// What holds the state whose bytes these are, with nothing to undo. NotSnapshot exactly where
    /// they are the bytes of no sound state of the dialect.
    fn read(&self, alloc: Global, dialect: Dialect, bytes: &[u8]) -> Result<Self::Engine, SnapFault>
        ensures engine { IfOk result (λ engine. Self.Engine.held engine
            ≡ holding dialect (Self.Engine.held engine).now []) }
        ensures bytes { IfOk result
            (λ engine. state_of dialect bytes.now ≡ Some (Self.Engine.held engine).now) }
        ensures fault { result ≡ Err NotSnapshot
            → state_of dialect bytes.now ≡ None };
}
