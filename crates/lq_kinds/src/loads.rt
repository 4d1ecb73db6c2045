//! Changes that load files, among the others of a changeset.
ghost use Rattle.std.specs.List.{list_all};
ghost use Rattle.std.specs.Prelude.{◌≡◌, IfOk, [], codes, option_copied, true};
ghost use Rattle.lq_load.specs.LoadData.{is_for as is_load_for, load_data};
ghost use Rattle.lq_load.specs.LoadKeys.{load_keys};
ghost use Rattle.lq_tree.specs.Look.{Reads, within};
ghost use Rattle.lq_any.specs.AnyChange.{any_change, is_for};
ghost use Rattle.lq_kinds.specs.Changes.{a_load, change_at, changes_from, left_by, load_of, ReadsSet};

use crate::changes::item_path;
use crate::fault::SetFault;
use lq_any::AnyChange;
use lq_base::{Dialect, Items, KindFault};
use lq_load::{LoadData, LoadKeys};
use lq_model::SqlText;
use lq_tree::{Node, placed};
use std::alloc::Global;

/// What a node says of a load, if it is one.
fn load_of(node: &Node) -> Option<&Node>
    ensures { option_copied result ≡ load_of node.now }
{
    let Some([entry]) = node.as_map() else {
        return None;
    };
    if entry.0.as_str() == "loadData" {
        Some(&entry.1)
    } else {
        None
    }
}

fn keys_named(alloc: Global, node: &Node) -> Result<LoadKeys, KindFault>
    ensures { Reads (within (codes "loadData") (load_keys node.now)) result }
{
    match LoadKeys::read(alloc, node) {
        Ok(keys) => Ok(keys),
        Err(fault) => Err(placed(alloc, "loadData", fault)),
    }
}

/// The keys of a load, whose change stands at a path.
fn keys_at(alloc: Global, path: &str, node: &Node) -> Result<LoadKeys, KindFault>
    ensures { Reads (within path.now (within (codes "loadData") (load_keys node.now))) result }
{
    match keys_named(alloc, node) {
        Ok(keys) => Ok(keys),
        Err(fault) => Err(placed(alloc, path, fault)),
    }
}

fn data_named(
    alloc: Global,
    node: &Node,
    dialect: Dialect,
    bytes: &[u8],
) -> Result<LoadData, KindFault>
    ensures read { Reads (within (codes "loadData") (load_data bytes.now node.now)) result }
    ensures right { IfOk result (λ x. is_load_for dialect x ≡ true) }
{
    match LoadData::read(alloc, node, dialect, bytes) {
        Ok(data) => Ok(data),
        Err(fault) => Err(placed(alloc, "loadData", fault)),
    }
}

/// A load of a file of these bytes, whose change stands at a path.
fn data_at(
    alloc: Global,
    path: &str,
    node: &Node,
    dialect: Dialect,
    bytes: &[u8],
) -> Result<LoadData, KindFault>
    ensures read { Reads
        (within path.now (within (codes "loadData") (load_data bytes.now node.now))) result }
    ensures right { IfOk result (λ x. is_load_for dialect x ≡ true) }
{
    match data_named(alloc, node, dialect, bytes) {
        Ok(data) => Ok(data),
        Err(fault) => Err(placed(alloc, path, fault)),
    }
}

/// A load for which no bytes are given: its file is wanted, once its keys are right.
fn wanting(alloc: Global, path: &str, node: &Node) -> Result<AnyChange, SetFault>
    ensures { ReadsSet (a_load path.now [] node.now) result }
{
    match keys_at(alloc, path, node) {
        Ok(keys) => {
            let LoadKeys {
                table_name: _,
                file,
                is_relative,
                separator: _,
            } = keys;
            Err(SetFault::Wants { file, is_relative })
        }
        Err(fault) => Err(SetFault::InKeys(fault)),
    }
}

/// A load that takes the next file's bytes.
fn a_load(
    alloc: Global,
    path: &str,
    given: &[Items<u8>],
    node: &Node,
    dialect: Dialect,
) -> Result<AnyChange, SetFault>
    ensures read { ReadsSet (a_load path.now given.now node.now) result }
    ensures right { IfOk result (λ x. is_for dialect x ≡ true) }
{
    let [bytes, ..] = given else {
        return wanting(alloc, path, node);
    };
    match data_at(alloc, path, node, dialect, bytes.as_slice()) {
        Ok(data) => Ok(AnyChange::LoadData(data)),
        Err(fault) => Err(SetFault::InKeys(fault)),
    }
}

/// A change that loads no file, at a path.
fn any_at<P: SqlText>(
    alloc: Global,
    path: &str,
    node: &Node,
    dialect: Dialect,
    sql: &P,
) -> Result<AnyChange, KindFault>
    requires same { P.dialect ≡ dialect }
    ensures read { Reads (within path.now (any_change dialect node.now)) result }
    ensures right { IfOk result (λ x. is_for dialect x ≡ true) }
{
    match AnyChange::read(alloc, node, dialect, sql) {
        Ok(change) => Ok(change),
        Err(fault) => Err(placed(alloc, path, fault)),
    }
}

/// The change of a node at a path.
fn change_at<P: SqlText>(
    alloc: Global,
    path: &str,
    given: &[Items<u8>],
    node: &Node,
    dialect: Dialect,
    sql: &P,
) -> Result<AnyChange, SetFault>
    requires same { P.dialect ≡ dialect }
    ensures read { ReadsSet (change_at dialect path.now given.now node.now) result }
    ensures right { IfOk result (λ x. is_for dialect x ≡ true) }
{
    if let Some(load) = load_of(node) {
        return a_load(alloc, path, given, load, dialect);
    }
    match any_at(alloc, path, node, dialect, sql) {
        Ok(change) => Ok(change),
        Err(fault) => Err(SetFault::InKeys(fault)),
    }
}

/// What is left for the changes behind one.
fn left_by<'a>(given: &'a [Items<u8>], node: &Node) -> &'a [Items<u8>]
    ensures { result.now ≡ left_by given.now node.now }
{
    if load_of(node).is_none() {
        return given;
    }
    match given {
        [] => given,
        [_, more @ ..] => more,
    }
}

/// Each change of a list in order. A load takes the next file's bytes; the first for which there are
/// none wants its file.
pub fn each_change<P: SqlText>(
    alloc: Global,
    nodes: &[Node],
    given: &[Items<u8>],
    dialect: Dialect,
    sql: &P,
) -> Result<Items<AnyChange>, SetFault>
    requires same { P.dialect ≡ dialect }
    ensures read { ReadsSet (changes_from dialect 0 given.now nodes.now) result }
    ensures right { IfOk result (λ changes. list_all (is_for dialect) changes ≡ true) }
{
    let mut changes = Items::new(alloc);
    let mut rest = given;
    for node in nodes {
        let path = item_path(alloc, "changes", changes.len())?;
        let change = change_at(alloc, path.as_str(), rest, node, dialect, sql)?;
        changes.push(change)?;
        rest = left_by(rest, node);
    }
    Ok(changes)
}
