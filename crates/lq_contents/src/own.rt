ghost use Rattle.std.specs.Prelude.{◌≡◌, IfOk, map};
ghost use Rattle.lq_tree.specs.Look.{Reads, text_of};
ghost use Rattle.lq_contents.specs.Trees.{is_of_sets, is_reaction, own_entry, own_item, own_list, own_reaction};

use lq_base::{Dialect, Items, KindFault, NoMemory, Text};
use lq_cond::{Cond, Reaction};
use lq_model::SqlText;
use lq_tree::Node;
use std::alloc::Global;

#[cycle(copied)]
fn copied(alloc: Global, node: &Node) -> Result<Node, NoMemory>
    ensures { IfOk result (λ copy. copy ≡ node.now) }
{
    match node {
        Node::Text(text) => Ok(Node::Text(text.copy(alloc)?)),
        Node::Whole(n) => Ok(Node::Whole(*n)),
        Node::Truth(b) => Ok(Node::Truth(*b)),
        Node::Null => Ok(Node::Null),
        Node::List(nodes) => Ok(Node::List(nodes_copied(alloc, nodes.as_slice())?)),
        Node::Map(entries) => Ok(Node::Map(entries_copied(alloc, entries.as_slice())?)),
    }
}

#[cycle(copied)]
fn nodes_copied(alloc: Global, nodes: &[Node]) -> Result<Items<Node>, NoMemory>
    ensures { IfOk result (λ copy. copy ≡ nodes.now) }
{
    let mut copy = Items::new(alloc);
    for node in nodes {
        let node = copied(alloc, node)?;
        copy.push(node)?;
    }
    Ok(copy)
}

#[cycle(copied)]
fn entries_copied(alloc: Global, entries: &[(Text, Node)]) -> Result<Items<(Text, Node)>, NoMemory>
    ensures { IfOk result (λ copy. copy ≡ entries.now) }
{
    let mut copy = Items::new(alloc);
    for entry in entries {
        let key = entry.0.copy(alloc)?;
        let node = copied(alloc, &entry.1)?;
        copy.push((key, node))?;
    }
    Ok(copy)
}

fn is_reaction(key: &str) -> bool
    ensures { result ≡ is_reaction key.now }
{
    key == "onFail" || key == "onError"
}

/// Whether a node is a reaction that a changeset alone may have.
fn is_of_sets(node: &Node) -> bool
    ensures { result ≡ is_of_sets (text_of node.now) }
{
    match node.as_text() {
        Some(text) => text == "CONTINUE" || text == "MARK_RAN",
        None => false,
    }
}

fn own_entry(alloc: Global, entry: &(Text, Node)) -> Result<(Text, Node), NoMemory>
    ensures { IfOk result (λ made. made ≡ own_entry entry.now) }
{
    let key = entry.0.copy(alloc)?;
    if is_reaction(entry.0.as_str()) && is_of_sets(&entry.1) {
        return Ok((key, Node::Null));
    }
    let node = copied(alloc, &entry.1)?;
    Ok((key, node))
}

fn own_entries(alloc: Global, entries: &[(Text, Node)]) -> Result<Items<(Text, Node)>, NoMemory>
    ensures { IfOk result (λ made. made ≡ map own_entry entries.now) }
{
    let mut made = Items::new(alloc);
    for entry in entries {
        let entry = own_entry(alloc, entry)?;
        made.push(entry)?;
    }
    Ok(made)
}

fn own_item(alloc: Global, node: &Node) -> Result<Node, NoMemory>
    ensures { IfOk result (λ made. made ≡ own_item node.now) }
{
    match node.as_map() {
        Some(entries) => Ok(Node::Map(own_entries(alloc, entries)?)),
        None => copied(alloc, node),
    }
}

fn own_items(alloc: Global, nodes: &[Node]) -> Result<Items<Node>, NoMemory>
    ensures { IfOk result (λ made. made ≡ map own_item nodes.now) }
{
    let mut made = Items::new(alloc);
    for node in nodes {
        let node = own_item(alloc, node)?;
        made.push(node)?;
    }
    Ok(made)
}

fn own_list(alloc: Global, node: &Node) -> Result<Node, NoMemory>
    ensures { IfOk result (λ made. made ≡ own_list node.now) }
{
    match node.as_list() {
        Some(nodes) => Ok(Node::List(own_items(alloc, nodes)?)),
        None => copied(alloc, node),
    }
}

/// What the value of a changelog's `preConditions` states: of the reactions only HALT and WARN are
/// any (Liquibase's documentation, "Preconditions"). A fault is told at its turn, as in a changeset.
#[tactic(auto, unfolding(crate::specs::Trees::own_reaction))]
pub fn own_reaction<P: SqlText>(
    alloc: Global,
    node: &Node,
    dialect: Dialect,
    sql: &P,
) -> Result<Reaction, KindFault>
    requires same { P.dialect ≡ dialect }
    ensures { Reads (own_reaction dialect node.now) result }
{
    let own = own_list(alloc, node)?;
    match Cond::read(alloc, &own, dialect, sql) {
        Ok(reaction) => Ok(reaction),
        Err(fault) => Err(fault),
    }
}
