ghost use Rattle.std.specs.Prelude.{◌≡◌};

use lq_base::{Dialect, Text};
use lq_model::SqlText;
use lq_my::My;
use lq_pg::Pg;
use std::alloc::Global;
use std::process::Abort;
use tests_loaded::{File, sums_of, told};

/// Files, the first of which is the root, and what they are loaded as.
#[derive(Clone, Copy)]
pub struct Case<'a> {
    pub files: &'a [File<'a>],
    pub wanted: &'a str,
}

fn tell_all<P: SqlText>(
    rt: &impl Abort,
    alloc: Global,
    dialect: Dialect,
    sql: &P,
    given: &[(&str, &str)],
    cases: &[Case<'_>],
)
    requires { P.dialect ≡ dialect }
{
    for case in cases {
        let told = told(alloc, dialect, sql, given, case.files).expect(rt, "memory");
        assert_eq!(rt; told.as_str(), case.wanted);
    }
}

/// What files are loaded as for PostgreSQL, with properties of the command line.
pub fn tell_given(rt: &impl Abort, alloc: Global, given: &[(&str, &str)], cases: &[Case<'_>]) {
    tell_all(rt, alloc, Dialect::Postgresql, &Pg, given, cases)
}

/// What files are loaded as for PostgreSQL.
pub fn tell(rt: &impl Abort, alloc: Global, cases: &[Case<'_>]) {
    tell_given(rt, alloc, &[], cases)
}

/// What files are loaded as for MySQL.
pub fn tell_my(rt: &impl Abort, alloc: Global, cases: &[Case<'_>]) {
    tell_all(rt, alloc, Dialect::Mysql, &My, &[], cases)
}

/// What files are loaded as for PostgreSQL.
pub fn told_of(rt: &impl Abort, alloc: Global, files: &[File<'_>]) -> Text {
    told(alloc, Dialect::Postgresql, &Pg, &[], files).expect(rt, "memory")
}

/// The checksums of what files are loaded as for PostgreSQL.
pub fn summed(rt: &impl Abort, alloc: Global, files: &[File<'_>]) -> Text {
    sums_of(alloc, files).expect(rt, "memory")
}
