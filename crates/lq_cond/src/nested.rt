//! Lists of conditions, in which `and`, `or` and `not` hold lists again.
ghost use Rattle.std.specs.Prelude.{[], ◌≡◌, IfOk};
ghost use Rattle.lq_tree.specs.Look.{Reads, Tells, placed, within, within_list};
ghost use Rattle.lq_tree.specs.Items.{item_path};
ghost use Rattle.lq_cond.specs.Reading.{an_item, cond_at, conditions, each_item, each_key, inner_conditions};

use crate::cond::Cond;
use crate::connective::{connective_named, joined};
use crate::kinds::condition_at;
use lq_base::{Items, KindFault, NoMemory, Text};
use lq_model::SqlText;
use lq_tree::{Node, bad, placed, placed_list};
use std::alloc::Global;

fn item_path(alloc: Global, place: usize) -> Result<Text, NoMemory>
    ensures { IfOk result (λ path. path ≡ item_path [] place) }
{
    let digits = format!(in alloc; "{place}")?;
    let mut path = Text::new(alloc, "[")?;
    path.push_all(&[digits.as_str(), "]"])?;
    Ok(path)
}

/// The fault of an item as that of its list.
pub(crate) fn placed_item(alloc: Global, place: usize, fault: KindFault) -> KindFault
    ensures { Tells (placed (item_path [] place) fault) result }
{
    match item_path(alloc, place) {
        Ok(path) => placed(alloc, path.as_str(), fault),
        Err(NoMemory) => KindFault::OutOfMemory,
    }
}

/// The conditions of a list, which with the lists in it has so many levels at most.
#[cycle(nested)]
fn conditions<P: SqlText>(
    alloc: Global,
    node: &Node,
    levels: u32,
    sql: &P,
) -> Result<Items<Cond>, KindFault>
    ensures { Reads (conditions P.dialect levels node.now) result }
{
    if levels == 0 {
        return Err(bad(alloc));
    }
    match node.as_list() {
        Some(nodes) => in_items(alloc, nodes, levels - 1, sql),
        None => Err(bad(alloc)),
    }
}

#[cycle(nested)]
fn in_items<P: SqlText>(
    alloc: Global,
    nodes: &[Node],
    levels: u32,
    sql: &P,
) -> Result<Items<Cond>, KindFault>
    ensures { Reads (each_item 0 (cond_at P.dialect (conditions P.dialect levels)) nodes.now)
        result }
{
    let mut conds = Items::new(alloc);
    for (place, node) in nodes.iter().enumerate() {
        let more = at_place(alloc, place, node, levels, sql)?;
        conds.append(more)?;
    }
    Ok(conds)
}

#[cycle(nested)]
fn at_place<P: SqlText>(
    alloc: Global,
    place: usize,
    node: &Node,
    levels: u32,
    sql: &P,
) -> Result<Items<Cond>, KindFault>
    ensures { Reads
        (within (item_path [] place)
        (an_item (cond_at P.dialect (conditions P.dialect levels)) node.now)) result }
{
    match in_item(alloc, node, levels, sql) {
        Ok(conds) => Ok(conds),
        Err(fault) => Err(placed_item(alloc, place, fault)),
    }
}

#[cycle(nested)]
fn in_item<P: SqlText>(
    alloc: Global,
    node: &Node,
    levels: u32,
    sql: &P,
) -> Result<Items<Cond>, KindFault>
    ensures { Reads (an_item (cond_at P.dialect (conditions P.dialect levels)) node.now) result }
{
    match node.as_map() {
        Some(entries) => at_keys(alloc, entries, levels, sql),
        None => Err(bad(alloc)),
    }
}

#[cycle(nested)]
fn at_keys<P: SqlText>(
    alloc: Global,
    entries: &[(Text, Node)],
    levels: u32,
    sql: &P,
) -> Result<Items<Cond>, KindFault>
    ensures { Reads (each_key (cond_at P.dialect (conditions P.dialect levels)) entries.now)
        result }
{
    let mut conds = Items::new(alloc);
    for entry in entries {
        let cond = cond_at(alloc, entry.0.as_str(), &entry.1, levels, sql)?;
        conds.push(cond)?;
    }
    Ok(conds)
}

#[cycle(nested)]
fn conditions_at<P: SqlText>(
    alloc: Global,
    key: &str,
    node: &Node,
    levels: u32,
    sql: &P,
) -> Result<Items<Cond>, KindFault>
    ensures { Reads (within_list key.now (conditions P.dialect levels node.now)) result }
{
    match conditions(alloc, node, levels, sql) {
        Ok(conds) => Ok(conds),
        Err(fault) => Err(placed_list(alloc, key, fault)),
    }
}

#[cycle(nested)]
fn cond_at<P: SqlText>(
    alloc: Global,
    key: &str,
    node: &Node,
    levels: u32,
    sql: &P,
) -> Result<Cond, KindFault>
    ensures { Reads (cond_at P.dialect (conditions P.dialect levels) key.now node.now) result }
{
    match connective_named(key) {
        Some(connective) => {
            let conds = conditions_at(alloc, key, node, levels, sql)?;
            Ok(joined(connective, conds))
        }
        None => {
            let condition = condition_at(alloc, key, node, sql)?;
            Ok(Cond::Is(condition))
        }
    }
}

/// The condition that stands at a key of an item of `preConditions`: lists in it nest at most 64
/// levels deep.
#[tactic(auto, unfolding(crate::specs::Reading::inner_conditions))]
pub(crate) fn inner_cond_at<P: SqlText>(
    alloc: Global,
    key: &str,
    node: &Node,
    sql: &P,
) -> Result<Cond, KindFault>
    ensures { Reads (cond_at P.dialect (inner_conditions P.dialect) key.now node.now) result }
{
    cond_at(alloc, key, node, 64, sql)
}
