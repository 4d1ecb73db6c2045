use crate::recorded::{Turn, record_all, write_all};
use crate::shown::{Case, plan_all, reverse_all, select_all};
use crate::statements::say_all;
use lq_base::Dialect;
use lq_pg::Pg;
use std::alloc::Global;
use std::process::Abort;

/// What each changelog is planned to do on its rows, for a command without filters.
pub fn plan(rt: &impl Abort, alloc: Global, cases: &[Case<'_>]) {
    plan_with(rt, alloc, ("", ""), cases)
}

/// The same for a command with a filter by context and one by label.
pub fn plan_with(rt: &impl Abort, alloc: Global, filters: (&str, &str), cases: &[Case<'_>]) {
    plan_all(rt, alloc, Dialect::Postgresql, &Pg, filters, cases)
}

/// How the rows are taken back.
pub fn reverse(rt: &impl Abort, alloc: Global, cases: &[Case<'_>]) {
    reverse_all(rt, alloc, Dialect::Postgresql, &Pg, cases)
}

/// Which changesets are selected.
pub fn select(rt: &impl Abort, alloc: Global, sets: &str, cases: &[((&str, &str), &str)]) {
    select_all(rt, alloc, Dialect::Postgresql, &Pg, sets, cases)
}

/// What becomes of the row of a changeset at its turn.
pub fn record(rt: &impl Abort, alloc: Global, cases: &[(&str, Turn, &str)]) {
    record_all(rt, alloc, Dialect::Postgresql, &Pg, cases)
}

/// The row of a changeset.
pub fn write(rt: &impl Abort, alloc: Global, cases: &[(&str, u32, &str)]) {
    write_all(rt, alloc, Dialect::Postgresql, &Pg, cases)
}

/// The statements of two changes.
pub fn say(rt: &impl Abort, alloc: Global, cases: &[(&str, &str, &str)]) {
    say_all(rt, alloc, Dialect::Postgresql, &Pg, cases)
}
