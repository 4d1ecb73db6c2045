use crate::reading::read;
use crate::writing::write;
use lq_base::{Dialect, NoMemory};
use lq_engine::Engine;
use lq_store::{SnapFault, States};
use std::alloc::Global;

/// The states of `lq_engine`'s databases, by the bytes that `lq_codec` defines.
#[derive(Clone, Copy)]
pub struct Snap;

impl States for Snap {
    type Engine = Engine;

    fn write(&self, alloc: Global, engine: &Engine) -> Result<Vec<u8>, NoMemory> {
        let bytes = write(alloc, engine)?;
        Ok(bytes)
    }

    fn read(&self, alloc: Global, dialect: Dialect, bytes: &[u8]) -> Result<Engine, SnapFault> {
        match read(alloc, dialect, bytes) {
            Ok(engine) => Ok(engine),
            Err(fault) => Err(fault),
        }
    }
}
