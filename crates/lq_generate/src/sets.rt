ghost use Rattle.std.specs.List.{flat_map, list_any};
ghost use Rattle.std.specs.Option.{option_copied};
ghost use Rattle.std.specs.Prelude.{[], codes, ◌++◌, ◌∷◌, ◌≡◌, IfOk, map};
ghost use Rattle.lq_generate.specs.Generated.{added_items, five_sets, foreign_item, foreign_items, index_item, is_numbered, key_items, own_key_items, sequence_item, set_tree, set_trees, table_item, unique_item, view_item};
ghost use Rattle.lq_generate.specs.Faults.{table_in, tables_in};
ghost use Rattle.lq_tree.specs.Items.{is_empty};

use crate::added::{foreign_tree, index_tree, key_tree, sequence_tree, unique_tree, view_tree};
use crate::created::created_tree;
use crate::rows::{under, with_node, with_text};
use lq_base::{Dialect, Items, Name, NoMemory};
use lq_model::{Column, ForeignKey, Index, Key, Unique};
use lq_parts::{Sequence, View};
use lq_rows::Held;
use lq_tree::Node;
use std::alloc::Global;

fn sequence_item(alloc: Global, entry: &(Name, Sequence)) -> Result<Node, NoMemory>
    ensures { IfOk result (λ node. node ≡ sequence_item entry.now) }
{
    let tree = sequence_tree(alloc, &entry.0, &entry.1)?;
    let item = under(alloc, "createSequence", tree)?;
    Ok(item)
}

pub fn sequence_items(
    alloc: Global,
    sequences: &[(Name, Sequence)],
) -> Result<Items<Node>, NoMemory>
    ensures { IfOk result (λ nodes. nodes ≡ map sequence_item sequences.now) }
{
    let mut nodes = Items::new(alloc);
    for entry in sequences {
        nodes.push(sequence_item(alloc, entry)?)?;
    }
    Ok(nodes)
}

fn table_item(alloc: Global, dialect: Dialect, entry: &(Name, Held)) -> Result<Node, NoMemory>
    ensures { IfOk result (λ node. node ≡ table_item dialect (table_in entry.now)) }
{
    let tree = created_tree(alloc, dialect, &entry.0, &entry.1)?;
    under(alloc, "createTable", tree)
}

pub fn table_items(
    alloc: Global,
    dialect: Dialect,
    tables: &[&(Name, Held)],
) -> Result<Items<Node>, NoMemory>
    ensures { IfOk result (λ nodes. nodes ≡ map (table_item dialect) (tables_in tables.now)) }
{
    let mut nodes = Items::new(alloc);
    for entry in tables {
        nodes.push(table_item(alloc, dialect, entry)?)?;
    }
    Ok(nodes)
}

pub fn is_numbered(columns: &[Column]) -> bool
    ensures { result ≡ list_any (λ c. c.numbered) columns.now }
{
    columns.iter().any(|column| column.numbered)
}

fn key_items(
    alloc: Global,
    dialect: Dialect,
    table: &Name,
    key: Option<&Key>,
) -> Result<Items<Node>, NoMemory>
    ensures { IfOk result (λ nodes. nodes
        ≡ key_items dialect table.now (option_copied key.entry)) }
{
    let mut nodes = Items::new(alloc);
    if let Some(key) = key {
        let tree = key_tree(alloc, dialect, table, key)?;
        nodes.push(under(alloc, "addPrimaryKey", tree)?)?;
    }
    Ok(nodes)
}

fn own_key_items(
    alloc: Global,
    dialect: Dialect,
    table: &Name,
    held: &Held,
) -> Result<Items<Node>, NoMemory>
    ensures { IfOk result (λ nodes. nodes ≡ own_key_items dialect (table.now, held.now.now)) }
{
    if is_numbered(held.columns()) {
        return Ok(Items::new(alloc));
    }
    key_items(alloc, dialect, table, held.key())
}

fn unique_item(alloc: Global, table: &Name, unique: &Unique) -> Result<Node, NoMemory>
    ensures { IfOk result (λ node. node ≡ unique_item table.now unique.now) }
{
    let tree = unique_tree(alloc, table, unique)?;
    let item = under(alloc, "addUniqueConstraint", tree)?;
    Ok(item)
}

fn unique_items(alloc: Global, table: &Name, uniques: &[Unique]) -> Result<Items<Node>, NoMemory>
    ensures { IfOk result (λ nodes. nodes ≡ map (unique_item table.now) uniques.now) }
{
    let mut nodes = Items::new(alloc);
    for unique in uniques {
        nodes.push(unique_item(alloc, table, unique)?)?;
    }
    Ok(nodes)
}

fn index_item(alloc: Global, table: &Name, index: &Index) -> Result<Node, NoMemory>
    ensures { IfOk result (λ node. node ≡ index_item table.now index.now) }
{
    let tree = index_tree(alloc, table, index)?;
    let item = under(alloc, "createIndex", tree)?;
    Ok(item)
}

fn index_items(alloc: Global, table: &Name, indexes: &[Index]) -> Result<Items<Node>, NoMemory>
    ensures { IfOk result (λ nodes. nodes ≡ map (index_item table.now) indexes.now) }
{
    let mut nodes = Items::new(alloc);
    for index in indexes {
        nodes.push(index_item(alloc, table, index)?)?;
    }
    Ok(nodes)
}

fn foreign_item(alloc: Global, table: &Name, key: &ForeignKey) -> Result<Node, NoMemory>
    ensures { IfOk result (λ node. node ≡ foreign_item table.now key.now) }
{
    let tree = foreign_tree(alloc, table, key)?;
    let item = under(alloc, "addForeignKeyConstraint", tree)?;
    Ok(item)
}

fn foreign_items(alloc: Global, table: &Name, keys: &[ForeignKey]) -> Result<Items<Node>, NoMemory>
    ensures { IfOk result (λ nodes. nodes ≡ map (foreign_item table.now) keys.now) }
{
    let mut nodes = Items::new(alloc);
    for key in keys {
        nodes.push(foreign_item(alloc, table, key)?)?;
    }
    Ok(nodes)
}

fn added_items(
    alloc: Global,
    dialect: Dialect,
    table: &Name,
    held: &Held,
) -> Result<Items<Node>, NoMemory>
    ensures { IfOk result (λ nodes. nodes ≡ added_items dialect (table.now, held.now.now)) }
{
    let mut nodes = own_key_items(alloc, dialect, table, held)?;
    nodes.append(unique_items(alloc, table, held.uniques())?)?;
    nodes.append(index_items(alloc, table, held.indexes())?)?;
    Ok(nodes)
}

pub fn all_added(
    alloc: Global,
    dialect: Dialect,
    tables: &[&(Name, Held)],
) -> Result<Items<Node>, NoMemory>
    ensures { IfOk result (λ nodes. nodes
        ≡ flat_map (added_items dialect) (tables_in tables.now)) }
{
    let mut nodes = Items::new(alloc);
    for entry in tables {
        nodes.append(added_items(alloc, dialect, &entry.0, &entry.1)?)?;
    }
    Ok(nodes)
}

pub fn all_foreign(alloc: Global, tables: &[&(Name, Held)]) -> Result<Items<Node>, NoMemory>
    ensures { IfOk result (λ nodes. nodes ≡ flat_map foreign_items (tables_in tables.now)) }
{
    let mut nodes = Items::new(alloc);
    for entry in tables {
        nodes.append(foreign_items(alloc, &entry.0, entry.1.foreign_keys())?)?;
    }
    Ok(nodes)
}

fn view_item(alloc: Global, dialect: Dialect, entry: &(Name, View)) -> Result<Node, NoMemory>
    ensures { IfOk result (λ node. node ≡ view_item dialect entry.now) }
{
    let tree = view_tree(alloc, dialect, &entry.0, &entry.1)?;
    under(alloc, "createView", tree)
}

pub fn view_items(
    alloc: Global,
    dialect: Dialect,
    views: &[(Name, View)],
) -> Result<Items<Node>, NoMemory>
    ensures { IfOk result (λ nodes. nodes ≡ map (view_item dialect) views.now) }
{
    let mut nodes = Items::new(alloc);
    for entry in views {
        nodes.push(view_item(alloc, dialect, entry)?)?;
    }
    Ok(nodes)
}

fn set_tree(alloc: Global, id: &str, author: &str, changes: Items<Node>) -> Result<Node, NoMemory>
    ensures { IfOk result (λ node. node ≡ set_tree id.now author.now changes) }
{
    let signed = with_text(alloc, Items::new(alloc), "author", author)?;
    let filled = with_node(alloc, signed, "changes", Node::List(changes))?;
    let named = with_text(alloc, filled, "id", id)?;
    let item = under(alloc, "changeSet", Node::Map(named))?;
    Ok(item)
}

fn is_none(nodes: &[Node]) -> bool
    ensures { result ≡ is_empty nodes.now }
{
    match nodes {
        [] => true,
        [_first, ..] => false,
    }
}

/// The changesets, and one more if there are changes for it.
pub fn with_set(
    alloc: Global,
    sets: Items<Node>,
    id: &str,
    author: &str,
    changes: Items<Node>,
) -> Result<Items<Node>, NoMemory>
    ensures { IfOk result (λ more. more
        ≡ sets ++ set_trees author.now ((id.now, changes) ∷ [])) }
{
    if is_none(changes.as_slice()) {
        return Ok(sets);
    }
    let mut more = sets;
    more.push(set_tree(alloc, id, author, changes)?)?;
    Ok(more)
}
