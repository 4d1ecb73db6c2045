ghost use Rattle.json.specs.Lex.{tokens};
ghost use Rattle.json.specs.Print.{print};
ghost use Rattle.std.specs.Prelude.{◌≡◌, ◌≤◌, IfOk, List, Ok, Some, if◌then◌else◌, map, string_bytes, ℕ};
ghost use Rattle.serde_json.specs.Data.{depth, no_members, null, number};
ghost use Rattle.serde_json.specs.Find.{of_integer};
ghost use Rattle.serde_json.specs.Read.{max_depth, read};
ghost use Rattle.serde_json.specs.View.{members_view, view};
ghost use Rattle.serde_json.specs.Written.{IsInOrder};
ghost use Rattle.lq_tree.specs.Json.{json_tree};
ghost use Rattle.lq_tree.specs.declared.node.Node.{Node as Tree};
ghost use Rattle.lq_jsontext.specs.JsonText.{IsWritable, data_of, entry_data, is_held, json_line, json_text, members_from};

use lq_base::{Items, NoMemory, Text};
use lq_tree::Node;
use serde_json::{Map, Number, Value, put};
use std::alloc::Global;

/// The JSON text of a tree (RFC 8259) as `serde_json` writes a value: without blanks, the keys of a
/// map in the order of their bytes, and a line feed behind it. A whole number that neither an i64 nor a
/// u64 holds is written as `null`.
pub fn write_json(alloc: Global, tree: &Node) -> Result<Text, NoMemory>
    ensures text { IfOk result (λ text. text ≡ json_line tree.now) }
    ensures reads { IfOk result (λ text. IsWritable tree.now → json_tree text ≡ Ok tree.now) }
{
    let mut text = text_of(alloc, tree)?;
    text.push_str("\n")?;
    Ok(Text::new(alloc, text.as_str())?)
}

/// The text without the line feed.
fn text_of(alloc: Global, tree: &Node) -> Result<String, NoMemory>
    ensures text { IfOk result (λ text. string_bytes text ≡ json_text tree.now) }
    ensures order { IfOk result (λ text. IsInOrder (string_bytes text) (data_of tree.now)) }
    ensures compact { IfOk result (λ text. string_bytes text
        ≡ print (tokens (string_bytes text))) }
    ensures reads { IfOk result (λ text. depth (data_of tree.now) ≤ max_depth
        → read (string_bytes text) ≡ Some (data_of tree.now)) }
{
    let value = value_of(alloc, tree)?;
    Ok(value.to_string(alloc)?)
}

fn number_of(whole: i128) -> Value
    ensures { view result ≡ (if is_held whole then number (of_integer whole) else null) }
{
    match Number::from_i128(whole) {
        Some(number) => Value::Number(number),
        None => Value::Null,
    }
}

#[cycle(value)]
fn value_of(alloc: Global, node: &Node) -> Result<Value, NoMemory>
    ensures { IfOk result (λ v. view v ≡ data_of node.now) }
{
    match node {
        Node::Null => Ok(Value::Null),
        Node::Truth(b) => Ok(Value::Bool(*b)),
        Node::Whole(whole) => Ok(number_of(*whole)),
        Node::Text(text) => Ok(Value::String(String::from_str(alloc, text.as_str())?)),
        Node::List(nodes) => Ok(Value::Array(values_of(alloc, nodes.as_slice())?)),
        Node::Map(entries) => Ok(Value::Object(members_of(alloc, entries.as_slice())?)),
    }
}

#[cycle(value)]
fn values_of(alloc: Global, nodes: &[Node]) -> Result<Vec<Value>, NoMemory>
    ensures { IfOk result (λ values. map view values.items ≡ map data_of nodes.now) }
{
    let mut values = Vec::new(alloc);
    for node in nodes {
        let value = value_of(alloc, node)?;
        values.push(value)?;
    }
    Ok(values)
}

#[cycle(value)]
fn members_of(alloc: Global, entries: &[(Text, Node)]) -> Result<Map<String, Value>, NoMemory>
    ensures { IfOk result (λ members.
        members_view members.entries ≡ members_from (map entry_data entries.now) no_members) }
{
    let mut members = Map::new(alloc);
    for entry in entries {
        let value = value_of(alloc, &entry.1)?;
        put(&mut members, alloc, entry.0.as_str(), value)?;
    }
    Ok(members)
}
