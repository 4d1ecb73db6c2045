use crate::shown::shown;
use crate::states::{As, changed, cut, fresh, state};
use lq_base::{Dialect, NoMemory};
use std::alloc::Global;
use tests_table::{Kinds, no_kind};

/// The kinds of rows on the bytes of database states.
#[derive(Clone, Copy)]
pub struct SnapKinds;

impl Kinds for SnapKinds {
    fn outcome(&self, alloc: Global, kind: &str, given: &[&str]) -> Result<String, NoMemory> {
        match given {
            [field] => plain(alloc, kind, field),
            [dialect, field] => match dialect_of(dialect) {
                Some(dialect) => sound(alloc, kind, dialect, field),
                None => no_kind(alloc),
            },
            _ => no_kind(alloc),
        }
    }
}

fn dialect_of(name: &str) -> Option<Dialect> {
    match name {
        "postgresql" => Some(Dialect::Postgresql),
        "mysql" => Some(Dialect::Mysql),
        _ => None,
    }
}

fn plain(alloc: Global, kind: &str, field: &str) -> Result<String, NoMemory> {
    match kind {
        "state" => state(alloc, As::Plain, field),
        "cut" => cut(alloc, As::Plain, field),
        "changed" => changed(alloc, As::Plain, field),
        _ => no_kind(alloc),
    }
}

fn sound(alloc: Global, kind: &str, dialect: Dialect, field: &str) -> Result<String, NoMemory> {
    match kind {
        "sound" => state(alloc, As::Sound(dialect), field),
        "cut" => cut(alloc, As::Sound(dialect), field),
        "changed" => changed(alloc, As::Sound(dialect), field),
        "shown" => shown(alloc, dialect, field),
        "new" => fresh(alloc, dialect, field),
        _ => no_kind(alloc),
    }
}
