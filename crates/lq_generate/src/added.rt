ghost use Rattle.std.specs.List.{flat_map};
ghost use Rattle.std.specs.Prelude.{◌++◌, ◌≡◌, IfOk, map};
ghost use Rattle.lq_generate.specs.Created.{after_comma, foreign_front, foreign_tree, if_cascade, index_column_tree, index_tree, key_tree, listed, sequence_tree, unique_tree, view_tree};
ghost use Rattle.lq_generate.specs.Types.{present};
ghost use Rattle.lq_tree.specs.declared.node.Node.{Text as TextNode, Whole as WholeNode};

use crate::created::named_in;
use crate::rows::{true_if, under, with_name, with_node, with_schema, with_some, with_text};
use lq_base::{Dialect, Items, Name, NoMemory, Text};
use lq_model::{ForeignKey, Index, Key, Unique};
use lq_parts::{Sequence, View};
use lq_sql::print_query;
use lq_tree::Node;
use std::alloc::Global;

/// The first name, and the others each after a comma.
fn listed_from(alloc: Global, first: &Name, rest: &[Name]) -> Result<Text, NoMemory>
    ensures { IfOk result (λ text. text ≡ first.now ++ flat_map after_comma rest.now) }
{
    let mut text = Text::new(alloc, first.as_key())?;
    for name in rest {
        text.push_all(&[",", name.as_key()])?;
    }
    Ok(text)
}

/// The names with commas between.
fn listed(alloc: Global, names: &[Name]) -> Result<Text, NoMemory>
    ensures { IfOk result (λ text. text ≡ listed names.now) }
{
    match names {
        [] => Text::new(alloc, ""),
        [first, rest @ ..] => listed_from(alloc, first, rest),
    }
}

fn listed_node(alloc: Global, names: &[Name]) -> Result<Node, NoMemory>
    ensures { IfOk result (λ node. node ≡ TextNode (listed names.now)) }
{
    let text = listed(alloc, names)?;
    Ok(Node::Text(text))
}

fn step_node(sequence: &Sequence) -> Node
    ensures { result ≡ WholeNode sequence.now.step }
{
    Node::Whole(sequence.step())
}

fn start_node(sequence: &Sequence) -> Node
    ensures { result ≡ WholeNode sequence.now.start }
{
    Node::Whole(sequence.start())
}

/// What createSequence takes.
pub fn sequence_tree(alloc: Global, name: &Name, sequence: &Sequence) -> Result<Node, NoMemory>
    ensures { IfOk result (λ node. node ≡ sequence_tree name.now sequence.now) }
{
    let step = step_node(sequence);
    let start = start_node(sequence);
    let stepped = with_node(alloc, Items::new(alloc), "incrementBy", step)?;
    let named = with_text(alloc, stepped, "sequenceName", name.as_key())?;
    let started = with_node(alloc, named, "startValue", start)?;
    Ok(Node::Map(started))
}

/// What addPrimaryKey takes.
pub fn key_tree(alloc: Global, dialect: Dialect, table: &Name, key: &Key) -> Result<Node, NoMemory>
    ensures { IfOk result (λ node. node ≡ key_tree dialect table.now key.now) }
{
    let columns = listed_node(alloc, key.columns.as_slice())?;
    let keyed = with_node(alloc, Items::new(alloc), "columnNames", columns)?;
    let named = with_name(alloc, keyed, "constraintName", named_in(dialect, Some(key)))?;
    let within = with_schema(alloc, named, "schemaName", table)?;
    let placed = with_text(alloc, within, "tableName", table.text())?;
    Ok(Node::Map(placed))
}

/// What addUniqueConstraint takes.
pub fn unique_tree(alloc: Global, table: &Name, unique: &Unique) -> Result<Node, NoMemory>
    ensures { IfOk result (λ node. node ≡ unique_tree table.now unique.now) }
{
    let columns = listed_node(alloc, unique.columns.as_slice())?;
    let keyed = with_node(alloc, Items::new(alloc), "columnNames", columns)?;
    let named = with_text(alloc, keyed, "constraintName", unique.name.as_key())?;
    let within = with_schema(alloc, named, "schemaName", table)?;
    let placed = with_text(alloc, within, "tableName", table.text())?;
    Ok(Node::Map(placed))
}

fn index_column(alloc: Global, name: &Name) -> Result<Node, NoMemory>
    ensures { IfOk result (λ node. node ≡ index_column_tree name.now) }
{
    let named = with_text(alloc, Items::new(alloc), "name", name.as_key())?;
    under(alloc, "column", Node::Map(named))
}

fn index_columns(alloc: Global, names: &[Name]) -> Result<Items<Node>, NoMemory>
    ensures { IfOk result (λ nodes. nodes ≡ map index_column_tree names.now) }
{
    let mut nodes = Items::new(alloc);
    for name in names {
        nodes.push(index_column(alloc, name)?)?;
    }
    Ok(nodes)
}

/// What createIndex takes.
pub fn index_tree(alloc: Global, table: &Name, index: &Index) -> Result<Node, NoMemory>
    ensures { IfOk result (λ node. node ≡ index_tree table.now index.now) }
{
    let columns = index_columns(alloc, index.columns.as_slice())?;
    let listed = with_node(alloc, Items::new(alloc), "columns", Node::List(columns))?;
    let named = with_text(alloc, listed, "indexName", index.name.as_key())?;
    let within = with_schema(alloc, named, "schemaName", table)?;
    let placed = with_text(alloc, within, "tableName", table.text())?;
    let marked = with_some(alloc, placed, "unique", true_if(index.unique))?;
    Ok(Node::Map(marked))
}

fn cascade(alloc: Global, so: bool) -> Result<Option<Node>, NoMemory>
    ensures { IfOk result (λ node. node ≡ if_cascade so) }
{
    if !so {
        return Ok(None);
    }
    let text = Text::new(alloc, "CASCADE")?;
    Ok(Some(Node::Text(text)))
}

/// The entries before the key `referencedColumnNames`.
fn foreign_front(
    alloc: Global,
    table: &Name,
    foreign: &ForeignKey,
) -> Result<Items<(Text, Node)>, NoMemory>
    ensures { IfOk result (λ entries. entries ≡ present (foreign_front table.now foreign.now)) }
{
    let columns = listed_node(alloc, foreign.columns.as_slice())?;
    let keyed = with_node(alloc, Items::new(alloc), "baseColumnNames", columns)?;
    let placed = with_text(alloc, keyed, "baseTableName", table.text())?;
    let within = with_schema(alloc, placed, "baseTableSchemaName", table)?;
    let named = with_text(alloc, within, "constraintName", foreign.name.as_key())?;
    let deleted = cascade(alloc, foreign.cascade)?;
    let bound = with_some(alloc, named, "onDelete", deleted)?;
    Ok(bound)
}

/// What addForeignKeyConstraint takes.
pub fn foreign_tree(alloc: Global, table: &Name, foreign: &ForeignKey) -> Result<Node, NoMemory>
    ensures { IfOk result (λ node. node ≡ foreign_tree table.now foreign.now) }
{
    let targets = listed_node(alloc, foreign.targets.as_slice())?;
    let front = foreign_front(alloc, table, foreign)?;
    let aimed = with_node(alloc, front, "referencedColumnNames", targets)?;
    let placed = with_text(alloc, aimed, "referencedTableName", foreign.table.text())?;
    let within = with_schema(alloc, placed, "referencedTableSchemaName", &foreign.table)?;
    Ok(Node::Map(within))
}

/// What createView takes.
pub fn view_tree(
    alloc: Global,
    dialect: Dialect,
    name: &Name,
    view: &View,
) -> Result<Node, NoMemory>
    ensures { IfOk result (λ node. node ≡ view_tree dialect name.now view.now) }
{
    let query = print_query(alloc, dialect, view.query())?;
    let asked = with_node(alloc, Items::new(alloc), "selectQuery", Node::Text(query))?;
    let named = with_text(alloc, asked, "viewName", name.as_key())?;
    Ok(Node::Map(named))
}
