ghost use Rattle.std.specs.Prelude.{◌≡◌};

use crate::given::{File, files_of, given_of};
use crate::shown::{shown, sums};
use lq_base::{Dialect, NoMemory, Text};
use lq_changelog::load;
use lq_model::SqlText;
use lq_outside::Files;
use lq_pg::Pg;
use std::alloc::Global;

// The root's path, which is that of the first file.
fn root_of<'a>(files: &[File<'a>]) -> &'a str {
    match files.first() {
        Some(root) => root.0,
        None => "",
    }
}

/// What files, the first of which is the root, are loaded as, with properties of the command line.
pub fn told<P: SqlText>(
    alloc: Global,
    dialect: Dialect,
    sql: &P,
    given: &[(&str, &str)],
    files: &[File<'_>],
) -> Result<Text, NoMemory>
    requires { P.dialect ≡ dialect }
{
    let mut held = files_of(alloc, files)?;
    let given = given_of(alloc, given)?;
    let loaded = load(
        alloc,
        &mut held,
        root_of(files),
        dialect,
        sql,
        given.as_slice(),
    );
    shown(alloc, &loaded)
}

/// What a root and the files beside it are loaded as for PostgreSQL.
pub fn told_by<F: Files>(alloc: Global, root: &str, files: &mut F) -> Result<Text, NoMemory> {
    let loaded = load(alloc, files, root, Dialect::Postgresql, &Pg, &[]);
    shown(alloc, &loaded)
}

/// The checksums of what files are loaded as for PostgreSQL.
pub fn sums_of(alloc: Global, files: &[File<'_>]) -> Result<Text, NoMemory> {
    let mut held = files_of(alloc, files)?;
    let loaded = load(
        alloc,
        &mut held,
        root_of(files),
        Dialect::Postgresql,
        &Pg,
        &[],
    );
    sums(alloc, &loaded)
}
