ghost use Rattle.std.specs.List.{list_all};
ghost use Rattle.std.specs.Prelude.{◌≡◌, ◌∷◌, [], IfOk, true};
ghost use Rattle.lq_tree.specs.Look.{Reads};
ghost use Rattle.lq_tree.specs.declared.node.Node.{Map as MapNode};
ghost use Rattle.lq_any.specs.AnyChange.{is_for};
ghost use Rattle.lq_kinds.specs.ReadFor.{is_block_for};
ghost use Rattle.lq_kinds.specs.Changes.{block, rollback_at, sql_change, sql_node, undoing, undoing_text};

use crate::changes::is_read;
use crate::readers::Undoings;
use lq_any::AnyChange;
use lq_base::{Dialect, Items, KindFault, NoMemory, Text};
use lq_model::SqlText;
use lq_tree::{Node, bad, bad_key, each_item, placed};
use std::alloc::Global;

fn map_of_one(alloc: Global, key: &str, value: Node) -> Result<Node, NoMemory>
    ensures { IfOk result (λ node. node ≡ MapNode ((key.now, value) ∷ [])) }
{
    let mut entries = Items::new(alloc);
    let name = Text::new(alloc, key)?;
    entries.push((name, value))?;
    Ok(Node::Map(entries))
}

/// The `sql` change of a text, as a changelog would write it.
fn sql_node(alloc: Global, text: &str) -> Result<Node, NoMemory>
    ensures { IfOk result (λ node. node ≡ sql_node text.now) }
{
    let text = Text::new(alloc, text)?;
    let keys = map_of_one(alloc, "sql", Node::Text(text))?;
    map_of_one(alloc, "sql", keys)
}

fn sql_change<P: SqlText>(
    alloc: Global,
    text: &str,
    dialect: Dialect,
    sql: &P,
) -> Result<AnyChange, KindFault>
    requires same { P.dialect ≡ dialect }
    ensures read { Reads (sql_change dialect text.now) result }
    ensures right { IfOk result (λ change. is_for dialect change ≡ true) }
{
    let node = sql_node(alloc, text)?;
    match AnyChange::read(alloc, &node, dialect, sql) {
        Ok(change) => Ok(change),
        Err(KindFault::OutOfMemory) => Err(KindFault::OutOfMemory),
        Err(_) => Err(bad(alloc)),
    }
}

/// An item of a rollback block: a change, or the text of an `sql` change.
pub fn undoing<P: SqlText>(
    alloc: Global,
    node: &Node,
    dialect: Dialect,
    sql: &P,
) -> Result<AnyChange, KindFault>
    requires same { P.dialect ≡ dialect }
    ensures read { Reads (undoing dialect node.now) result }
    ensures right { IfOk result (λ change. is_for dialect change ≡ true) }
{
    match node.printed(alloc)? {
        Some(text) => sql_change(alloc, text.as_str(), dialect, sql),
        None => AnyChange::read(alloc, node, dialect, sql),
    }
}

fn undoing_text<P: SqlText>(
    alloc: Global,
    text: &str,
    dialect: Dialect,
    sql: &P,
) -> Result<Items<AnyChange>, KindFault>
    requires same { P.dialect ≡ dialect }
    ensures read { Reads (undoing_text dialect text.now) result }
    ensures right { IfOk result (λ changes. list_all (is_for dialect) changes ≡ true) }
{
    let mut changes = Items::new(alloc);
    if text.is_empty() {
        return Ok(changes);
    }
    match sql_change(alloc, text, dialect, sql) {
        Ok(change) => {
            changes.push(change)?;
            Ok(changes)
        }
        Err(fault) => Err(placed(alloc, "rollback", fault)),
    }
}

/// A rollback block: null, a text or a list (Liquibase's documentation, "rollback").
fn block<P: SqlText>(
    alloc: Global,
    node: &Node,
    dialect: Dialect,
    sql: &P,
) -> Result<Items<AnyChange>, KindFault>
    requires same { P.dialect ≡ dialect }
    ensures read { Reads (block dialect node.now) result }
    ensures right { IfOk result (λ changes. list_all (is_for dialect) changes ≡ true) }
{
    if node.is_null() {
        return Ok(Items::new(alloc));
    }
    if let Some(text) = node.printed(alloc)? {
        return undoing_text(alloc, text.as_str(), dialect, sql);
    }
    match node.as_list() {
        Some(nodes) => each_item(alloc, "rollback", nodes, &Undoings { dialect, sql }),
        None => Err(bad_key(alloc, "rollback")),
    }
}

/// What takes a changeset back, where it says so. Where it is not for the dialect that is not read.
#[tactic(auto, unfolding(crate::specs::Changes::rollback_at))]
pub fn rollback_at<P: SqlText>(
    alloc: Global,
    node: &Node,
    dialect: Dialect,
    sql: &P,
) -> Result<Option<Items<AnyChange>>, KindFault>
    requires same { P.dialect ≡ dialect }
    ensures read { Reads (rollback_at dialect node.now) result }
    ensures right { IfOk result (λ found. is_block_for dialect found ≡ true) }
{
    if !is_read(alloc, node, dialect)? {
        return Ok(None);
    }
    match node.value_at("rollback") {
        None => Ok(None),
        Some(value) => {
            let changes = block(alloc, value, dialect, sql)?;
            Ok(Some(changes))
        }
    }
}
