use lq_base::{Items, Text};
use lq_outside::SureFiles;
use std::alloc::Global;
use std::process::Abort;
use tests_loaded::{Held, hold, told_by};

/// What a root among these files is loaded as for PostgreSQL.
pub fn told_held(rt: &impl Abort, alloc: Global, root: &str, held: Held) -> Text {
    let mut files = SureFiles::new(alloc, held);
    told_by(alloc, root, &mut files).expect(rt, "memory")
}

/// What a file of these bytes is loaded as for PostgreSQL.
pub fn told_bytes(rt: &impl Abort, alloc: Global, path: &str, bytes: &[u8]) -> Text {
    let mut held = Items::new(alloc);
    hold(alloc, path, bytes, &mut held).expect(rt, "memory");
    told_held(rt, alloc, path, held)
}
