ghost use Rattle.std.specs.Prelude.{◌≡◌};

use lq_base::{Dialect, Items};
use lq_cond::{Cond, OnFail};
use lq_expr::{Expr, Options, parse, parse_names};
use lq_kinds::{ChangeSet, Changelog};
use lq_model::SqlText;
use lq_tree::{Node, read_json};
use std::alloc::Global;
use std::process::Abort;

fn set_of<P: SqlText>(
    rt: &impl Abort,
    alloc: Global,
    dialect: Dialect,
    sql: &P,
    node: &Node,
) -> ChangeSet
    requires { P.dialect ≡ dialect }
{
    ChangeSet::read(alloc, node, dialect, "db/a.json", sql, &[])
        .expect(rt, "no fault")
        .expect(rt, "a changeset")
}

fn sets_of<P: SqlText>(
    rt: &impl Abort,
    alloc: Global,
    dialect: Dialect,
    sql: &P,
    nodes: &[Node],
) -> Items<ChangeSet>
    requires { P.dialect ≡ dialect }
{
    let mut sets = Items::new(alloc);
    for node in nodes {
        sets.push(set_of(rt, alloc, dialect, sql, node))
            .expect(rt, "memory");
    }
    sets
}

/// The changesets of a JSON list, in the file `db/a.json`.
pub fn changelog<P: SqlText>(
    rt: &impl Abort,
    alloc: Global,
    dialect: Dialect,
    sql: &P,
    json: &str,
) -> Changelog
    requires { P.dialect ≡ dialect }
{
    let node = read_json(alloc, json.as_bytes()).expect(rt, "JSON");
    let nodes = node.as_list().expect(rt, "a list");
    Changelog {
        cond: Cond::And(Items::new(alloc)),
        on_fail: OnFail::Halt,
        on_error: OnFail::Halt,
        sets: sets_of(rt, alloc, dialect, sql, nodes),
    }
}

fn label_filter(rt: &impl Abort, alloc: Global, text: &str) -> Option<Expr> {
    if text.is_empty() {
        None
    } else {
        Some(parse(alloc, text).expect(rt, "a label filter"))
    }
}

/// What a command is asked for by its context filter and its label filter, which may be empty.
pub fn options(
    rt: &impl Abort,
    alloc: Global,
    dialect: Dialect,
    contexts: &str,
    labels: &str,
) -> Options {
    Options {
        dialect,
        contexts: parse_names(alloc, contexts).expect(rt, "a context filter"),
        labels: label_filter(rt, alloc, labels),
    }
}
