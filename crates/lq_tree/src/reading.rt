ghost use Rattle.std.specs.Prelude.{◌≡◌, ◌⊎◌, [], Some, None, Ok, Err, IfOk, IfErr, true, false};
ghost use Rattle.serde_json.specs.View.{view, items_view, members_view};
ghost use Rattle.lq_tree.specs.Json.{json_tree, json_value, holds_float, tree_of, trees_of, entries_of, IsTree};

use crate::node::{Node, TreeFault};
use lq_base::{Items, NoMemory, Text};
use serde_json::{Map, Value};
use std::alloc::Global;

/// The tree of a JSON text (RFC 8259), as `serde_json` reads it: at most 127 levels of lists and maps,
/// and of two equal keys the last one's value stays. A whole number is one that an i64 or a u64 holds;
/// any other number that is left, as `1.0`, `1e2` and `-0`, is `FloatNumber`.
pub fn read_json(alloc: Global, bytes: &[u8]) -> Result<Node, TreeFault>
    ensures tree { (result ≡ Err TreeFault.OutOfMemory) ⊎ (result ≡ json_tree bytes.now) }
    ensures order { IfOk result IsTree }
    ensures whole { IfOk result (λ _. holds_float bytes.now ≡ false) }
    ensures float { (result ≡ Err TreeFault.FloatNumber) → holds_float bytes.now ≡ true }
{
    let value = value_of(alloc, bytes)?;
    node_of(alloc, &value)
}

fn value_of(alloc: Global, bytes: &[u8]) -> Result<Value, TreeFault>
    ensures ok { IfOk result (λ v. json_value bytes.now ≡ Some (view v)) }
    ensures err { IfErr result (λ e. (e ≡ TreeFault.OutOfMemory)
        ⊎ ((e ≡ TreeFault.NotJson) × (json_value bytes.now ≡ None))) }
{
    match Value::from_slice(alloc, bytes) {
        Ok(value) => Ok(value),
        Err(error) => if error.is_memory() {
            Err(TreeFault::OutOfMemory)
        } else {
            Err(TreeFault::NotJson)
        },
    }
}

/// An empty list with room for so many, since one that grows takes more.
fn with_room<T>(alloc: Global, count: usize) -> Result<Items<T>, NoMemory>
    ensures { IfOk result (λ made. made ≡ []) }
{
    let items = Vec::with_capacity(alloc, count)?;
    Ok(Items::from_vec(items))
}

#[cycle(node)]
fn node_of(alloc: Global, value: &Value) -> Result<Node, TreeFault>
    ensures ok { IfOk result (λ n. tree_of (view value.now) ≡ Some n) }
    ensures err { IfErr result (λ e. (e ≡ TreeFault.OutOfMemory)
        ⊎ ((e ≡ TreeFault.FloatNumber) × (tree_of (view value.now) ≡ None))) }
{
    match value {
        Value::Null => Ok(Node::Null),
        Value::Bool(b) => Ok(Node::Truth(*b)),
        Value::Number(n) => match n.as_i128() {
            Some(whole) => Ok(Node::Whole(whole)),
            None => Err(TreeFault::FloatNumber),
        },
        Value::String(text) => Ok(Node::Text(Text::new(alloc, text.as_str())?)),
        Value::Array(items) => Ok(Node::List(nodes_of(alloc, items)?)),
        Value::Object(found) => Ok(Node::Map(entries_of(alloc, found)?)),
    }
}

#[cycle(node)]
fn nodes_of(alloc: Global, items: &Vec<Value>) -> Result<Items<Node>, TreeFault>
    ensures ok { IfOk result (λ ns. trees_of (items_view items.now.items) ≡ Some ns) }
    ensures err { IfErr result (λ e. (e ≡ TreeFault.OutOfMemory)
        ⊎ ((e ≡ TreeFault.FloatNumber) × (trees_of (items_view items.now.items) ≡ None))) }
{
    let mut nodes = with_room(alloc, items.len())?;
    for item in items {
        let node = node_of(alloc, item)?;
        nodes.push(node)?;
    }
    Ok(nodes)
}

#[cycle(node)]
fn entries_of(alloc: Global, found: &Map<String, Value>) -> Result<Items<(Text, Node)>, TreeFault>
    ensures ok { IfOk result (λ es. entries_of (members_view found.now.entries) ≡ Some es) }
    ensures err { IfErr result (λ e. (e ≡ TreeFault.OutOfMemory)
        ⊎ ((e ≡ TreeFault.FloatNumber)
        × (entries_of (members_view found.now.entries) ≡ None))) }
{
    let mut entries = with_room(alloc, found.len())?;
    for (key, value) in found.iter() {
        let name = Text::new(alloc, key.as_str())?;
        let node = node_of(alloc, value)?;
        entries.push((name, node))?;
    }
    Ok(entries)
}
