ghost use Rattle.std.specs.Option.{option_copied};
ghost use Rattle.std.specs.Prelude.{None, Some, [], codes, false, if◌then◌else◌, ◌++◌, ◌∷◌, ◌≡◌, IfOk, map};
ghost use Rattle.lq_tree.specs.declared.node.Node.{Text as TextNode, Truth as TruthNode};
ghost use Rattle.lq_base.specs.Number.{fixed_text};
ghost use Rattle.lq_generate.specs.Created.{column_rows, column_tree, constraints_at, constraints_rows, created_tree, date_text, default_rows, key_name_of, named_in};
ghost use Rattle.lq_generate.specs.Types.{type_text, map_node, present};

use crate::kinds::type_text;
use crate::rows::{true_if, under, with_name, with_node, with_schema, with_some, with_text};
use lq_base::{Dialect, Items, Name, NoMemory, Text, Value, append_fixed, is_moment, print_moment};
use lq_model::{Column, Key};
use lq_rows::Held;
use lq_tree::Node;
use std::alloc::Global;

/// What createTable takes for the table.
pub fn created_tree(
    alloc: Global,
    dialect: Dialect,
    table: &Name,
    held: &Held,
) -> Result<Node, NoMemory>
    ensures { IfOk result (λ node. node ≡ created_tree dialect table.now held.now.now) }
{
    let columns = column_nodes(alloc, dialect, held.key(), held.columns())?;
    let listed = with_node(alloc, Items::new(alloc), "columns", Node::List(columns))?;
    let placed = with_schema(alloc, listed, "schemaName", table)?;
    let named = with_text(alloc, placed, "tableName", table.text())?;
    Ok(Node::Map(named))
}

fn column_nodes(
    alloc: Global,
    dialect: Dialect,
    key: Option<&Key>,
    columns: &[Column],
) -> Result<Items<Node>, NoMemory>
    ensures { IfOk result
        (λ nodes. nodes ≡ map (column_tree dialect (option_copied key.entry)) columns.now) }
{
    let mut nodes = Items::new(alloc);
    for column in columns {
        nodes.push(column_node(alloc, dialect, key, column)?)?;
    }
    Ok(nodes)
}

fn column_node(
    alloc: Global,
    dialect: Dialect,
    key: Option<&Key>,
    column: &Column,
) -> Result<Node, NoMemory>
    ensures { IfOk result
        (λ node. node ≡ column_tree dialect (option_copied key.entry) column.now) }
{
    let shown = column_map(alloc, dialect, key, column)?;
    under(alloc, "column", shown)
}

fn column_map(
    alloc: Global,
    dialect: Dialect,
    key: Option<&Key>,
    column: &Column,
) -> Result<Node, NoMemory>
    ensures { IfOk result
        (λ node. node ≡ map_node (column_rows dialect (option_copied key.entry) column.now)) }
{
    let constraints = constraints_node(alloc, dialect, key, column)?;
    let numbered = with_some(
        alloc,
        Items::new(alloc),
        "autoIncrement",
        true_if(column.numbered),
    )?;
    let bound = with_some(alloc, numbered, "constraints", constraints)?;
    let valued = with_default(alloc, bound, &column.default)?;
    let named = with_text(alloc, valued, "name", column.name.as_key())?;
    let typed = with_type(alloc, named, column)?;
    Ok(Node::Map(typed))
}

fn with_type(
    alloc: Global,
    entries: Items<(Text, Node)>,
    column: &Column,
) -> Result<Items<(Text, Node)>, NoMemory>
    ensures { IfOk result
        (λ more. more ≡ entries ++ (codes "type", TextNode (type_text column.now.kind)) ∷ []) }
{
    let text = type_text(alloc, column.kind)?;
    let typed = with_node(alloc, entries, "type", Node::Text(text))?;
    Ok(typed)
}

/// The name that a key is written with: MySQL's has none.
pub fn named_in(dialect: Dialect, key: Option<&Key>) -> Option<&Name>
    ensures { option_copied result ≡ named_in dialect (option_copied key.entry) }
{
    match dialect {
        Dialect::Postgresql => match key {
            Some(key) => Some(&key.name),
            None => None,
        },
        Dialect::Mysql => None,
    }
}

fn constraints_node(
    alloc: Global,
    dialect: Dialect,
    key: Option<&Key>,
    column: &Column,
) -> Result<Option<Node>, NoMemory>
    ensures { IfOk result
        (λ node. node ≡ constraints_at dialect (option_copied key.entry) column.now) }
{
    if column.nullable && !column.numbered {
        return Ok(None);
    }
    Ok(Some(constraints_map(alloc, dialect, key, column)?))
}

fn key_name<'a>(dialect: Dialect, key: Option<&'a Key>, column: &Column) -> Option<&'a Name>
    ensures { option_copied result ≡ key_name_of dialect (option_copied key.entry) column.now }
{
    if column.numbered {
        named_in(dialect, key)
    } else {
        None
    }
}

fn false_unless(so: bool) -> Option<Node>
    ensures { result ≡ (if so then None else Some (TruthNode false)) }
{
    if so { None } else { Some(Node::Truth(false)) }
}

fn constraints_map(
    alloc: Global,
    dialect: Dialect,
    key: Option<&Key>,
    column: &Column,
) -> Result<Node, NoMemory>
    ensures { IfOk result
        (λ node. node ≡ map_node (constraints_rows dialect (option_copied key.entry)
        column.now)) }
{
    let firm = with_some(
        alloc,
        Items::new(alloc),
        "nullable",
        false_unless(column.nullable),
    )?;
    let primary = with_some(alloc, firm, "primaryKey", true_if(column.numbered))?;
    let named = with_name(
        alloc,
        primary,
        "primaryKeyName",
        key_name(dialect, key, column),
    )?;
    Ok(Node::Map(named))
}

fn fixed_node(alloc: Global, units: i128, scale: u8) -> Result<Node, NoMemory>
    ensures { IfOk result (λ node. node ≡ TextNode (fixed_text units scale)) }
{
    let mut text = Text::new(alloc, "")?;
    append_fixed(alloc, units, scale, &mut text)?;
    Ok(Node::Text(text))
}

#[tactic(auto, unfolding(crate::specs::Created::date_text))]
fn date_text(alloc: Global, ms: i64) -> Result<Text, NoMemory>
    ensures { IfOk result (λ text. text ≡ date_text ms) }
{
    let mut text = Text::new(alloc, "")?;
    if !is_moment(ms) {
        return Ok(text);
    }
    print_moment(ms, &mut text)?;
    Ok(text)
}

/// The entries, and the default, if any, at the key of its sort.
fn with_default(
    alloc: Global,
    entries: Items<(Text, Node)>,
    default: &Option<Value>,
) -> Result<Items<(Text, Node)>, NoMemory>
    ensures { IfOk result (λ more. more ≡ entries ++ present (default_rows default.now)) }
{
    let Some(value) = default else {
        return Ok(entries);
    };
    match value {
        Value::Null => Ok(entries),
        Value::Int(number) => {
            with_node(
                alloc,
                entries,
                "defaultValueNumeric",
                Node::Whole(i128::from(*number)),
            )
        }
        Value::Text(text) => with_text(alloc, entries, "defaultValue", text.as_str()),
        Value::Bool(truth) => {
            with_node(alloc, entries, "defaultValueBoolean", Node::Truth(*truth))
        }
        Value::Moment(ms) => {
            let date = date_text(alloc, *ms)?;
            with_node(alloc, entries, "defaultValueDate", Node::Text(date))
        }
        Value::Fixed { units, scale } => {
            let node = fixed_node(alloc, *units, *scale)?;
            with_node(alloc, entries, "defaultValueNumeric", node)
        }
    }
}
