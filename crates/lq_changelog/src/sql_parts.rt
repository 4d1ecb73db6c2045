ghost use Rattle.std.specs.Prelude.{◌≡◌, ◌==◌, [], IfOk, IfSome, length, option_copied, true};
ghost use Rattle.lq_base.specs.Number.{if_there};
ghost use Rattle.lq_any.specs.AnyChange.{gives, is_for};
ghost use Rattle.lq_kinds.specs.ReadFor.{is_read_for};
ghost use Rattle.lq_kinds.specs.ChangeSets.{ReadsSet, old_sum_of, sum_of, is_label};
ghost use Rattle.lq_tree.specs.Look.{value_at};
ghost use Rattle.std.specs.List.{list_all};
ghost use Rattle.lq_changelog.specs.Gathers.{at_home, away, is_idle, is_there, parts_set, part_in, without_idle, HasShortTexts};

use crate::texts::read_set;
use lq_base::{Dialect, Items, KindFault, NoMemory};
use lq_kinds::{AnyChange, ChangeSet, SetFault, here_at, statement_count, sums_of};
use lq_model::SqlText;
use lq_tree::{Node, bad};
use std::alloc::Global;

/// A map of a changeset's keys.
fn part_in<P: SqlText>(
    alloc: Global,
    path: &str,
    part: Option<&Node>,
    dialect: Dialect,
    sql: &P,
) -> Result<Option<ChangeSet>, SetFault>
    requires same { P.dialect ≡ dialect }
    requires label { is_label path.now ≡ true }
    ensures read { ReadsSet (part_in dialect path.now (option_copied part.entry)) result }
    ensures right { IfOk result (λ set. if_there (is_read_for dialect) set ≡ true) }
    ensures short { IfOk result (λ set. IfSome set HasShortTexts) }
{
    match part {
        Some(node) => read_set(alloc, &[], path, node, dialect, sql),
        None => Err(SetFault::InKeys(bad(alloc))),
    }
}

/// Whether a change has no statement.
fn has_no_statement(alloc: Global, change: &AnyChange, dialect: Dialect) -> Result<bool, NoMemory>
    requires { is_for dialect change.now ≡ true }
    ensures { IfOk result (λ so. so ≡ (length (gives dialect change.now) == 0)) }
{
    let count = statement_count(alloc, dialect, change)?;
    Ok(count == 0)
}

/// Whether the one change of a body has no statement.
fn is_idle(alloc: Global, changes: &[AnyChange], dialect: Dialect) -> Result<bool, NoMemory>
    requires { list_all (is_for dialect) changes.now ≡ true }
    ensures { IfOk result (λ so. so ≡ is_idle dialect changes.now) }
{
    match changes {
        [change] => has_no_statement(alloc, change, dialect),
        _ => Ok(false),
    }
}

/// The changeset without its changes.
fn emptied(alloc: Global, set: ChangeSet) -> Result<ChangeSet, NoMemory>
    requires { HasShortTexts set }
    ensures made { IfOk result
        (λ made. made ≡ record set { changes = []; sum = sum_of []; old_sum = old_sum_of [] }) }
    ensures short { IfOk result HasShortTexts }
{
    let sums = sums_of(alloc, &[])?;
    let mut made = set;
    made.changes = Items::new(alloc);
    made.sum = sums.sum;
    made.old_sum = sums.old_sum;
    Ok(made)
}

/// A body that holds no statement is no change.
fn without_idle(
    alloc: Global,
    found: Option<ChangeSet>,
    dialect: Dialect,
) -> Result<Option<ChangeSet>, NoMemory>
    requires right { if_there (is_read_for dialect) found ≡ true }
    requires short { IfSome found HasShortTexts }
    ensures made { IfOk result (λ set. set ≡ without_idle dialect found) }
    ensures right { IfOk result (λ set. if_there (is_read_for dialect) set ≡ true) }
    ensures short { IfOk result (λ set. IfSome set HasShortTexts) }
{
    let Some(set) = found else {
        return Ok(None);
    };
    if is_idle(alloc, set.changes.as_slice(), dialect)? {
        let set = emptied(alloc, set)?;
        Ok(Some(set))
    } else {
        Ok(Some(set))
    }
}

fn is_there(alloc: Global, part: Option<&Node>, dialect: Dialect) -> Result<bool, NoMemory>
    ensures { IfOk result (λ so. so ≡ is_there dialect (option_copied part.entry)) }
{
    let Some(node) = part else {
        return Ok(false);
    };
    match here_at(alloc, node, dialect) {
        Ok(here) => Ok(here),
        Err(KindFault::OutOfMemory) => Err(NoMemory),
        Err(_) => Ok(false),
    }
}

#[tactic(auto, unfolding(crate::specs::Gathers::away))]
fn away<P: SqlText>(
    alloc: Global,
    path: &str,
    node: &Node,
    dialect: Dialect,
    sql: &P,
) -> Result<Option<ChangeSet>, SetFault>
    requires same { P.dialect ≡ dialect }
    requires label { is_label path.now ≡ true }
    ensures read { ReadsSet (away dialect path.now node.now) result }
    ensures right { IfOk result (λ set. if_there (is_read_for dialect) set ≡ true) }
    ensures short { IfOk result (λ set. IfSome set HasShortTexts) }
{
    part_in(alloc, path, node.value_at("elsewhere"), dialect, sql)
}

#[tactic(auto, unfolding(crate::specs::Gathers::at_home))]
fn at_home<P: SqlText>(
    alloc: Global,
    path: &str,
    node: &Node,
    dialect: Dialect,
    sql: &P,
) -> Result<Option<ChangeSet>, SetFault>
    requires same { P.dialect ≡ dialect }
    requires label { is_label path.now ≡ true }
    ensures read { ReadsSet (at_home dialect path.now node.now) result }
    ensures right { IfOk result (λ set. if_there (is_read_for dialect) set ≡ true) }
    ensures short { IfOk result (λ set. IfSome set HasShortTexts) }
{
    away(alloc, path, node, dialect, sql)?;
    let found = part_in(alloc, path, node.value_at("here"), dialect, sql)?;
    let set = without_idle(alloc, found, dialect)?;
    Ok(set)
}

/// A changeset of formatted SQL. The first fault is one of its heading, then one of its path, and then
/// those of its body, its checks and its rollback, which are looked at only where it is here.
#[tactic(auto, unfolding(crate::specs::Gathers::parts_set))]
pub fn parts_set<P: SqlText>(
    alloc: Global,
    path: &str,
    node: &Node,
    dialect: Dialect,
    sql: &P,
) -> Result<Option<ChangeSet>, SetFault>
    requires same { P.dialect ≡ dialect }
    requires label { is_label path.now ≡ true }
    ensures read { ReadsSet (parts_set dialect path.now node.now) result }
    ensures right { IfOk result (λ set. if_there (is_read_for dialect) set ≡ true) }
    ensures short { IfOk result (λ set. IfSome set HasShortTexts) }
{
    part_in(alloc, path, node.value_at("heading"), dialect, sql)?;
    if is_there(alloc, node.value_at("elsewhere"), dialect)? {
        at_home(alloc, path, node, dialect, sql)
    } else {
        away(alloc, path, node, dialect, sql)
    }
}
