ghost use Rattle.std.specs.Prelude.{◌≡◌, ℕ, List, Option, IfOk, map, true, unwrap_or};
ghost use Rattle.lq_props.specs.Props.{own};
ghost use Rattle.lq_props.specs.Replaced.{replaced};
ghost use Rattle.lq_sources.specs.Items.{filled, value_in};

use lq_base::{Items, NoMemory, Text};
use lq_props::Props;
use lq_tree::Node;
use std::alloc::Global;

/// A text of a file with the properties put in.
#[tactic(auto, unfolding(lq_props::specs::Props::value_of))]
fn text_filled(alloc: Global, props: &Props, file: &str, text: &Text) -> Result<Text, NoMemory>
    ensures { IfOk result (λ made. made
        ≡ replaced (value_in (own props.now) file.now) text.now) }
{
    props.replace(alloc, file, text.as_str())
}

/// The tree with the properties put into each of its texts, or none where it stays as it is.
pub fn changed(
    alloc: Global,
    props: &Props,
    file: &str,
    node: &Node,
) -> Result<Option<Node>, NoMemory>
    ensures { IfOk result
        (λ made. unwrap_or made node.now ≡ filled (value_in (own props.now) file.now) node.now) }
{
    if is_plain(node) {
        return Ok(None);
    }
    let made = filled(alloc, props, file, node)?;
    Ok(Some(made))
}

/// The tree that was made of another, or else the other one.
pub fn made_or<'a>(made: &'a Option<Node>, node: &'a Node) -> &'a Node
    ensures { result.now ≡ unwrap_or made.now node.now }
{
    match made {
        Some(made) => made,
        None => node,
    }
}

// Whether no use stands in a text: each ends with a `}`.
fn is_plain_text(text: &str) -> bool
    ensures { (value : List ℕ → Option (List ℕ))
        → result ≡ true
        → replaced value text.now ≡ text.now }
{
    text.split_once('}').is_none()
}

// Whether no use stands in any text of a tree.
#[cycle(plain)]
fn is_plain(node: &Node) -> bool
    ensures { (value : List ℕ → Option (List ℕ))
        → result ≡ true
        → filled value node.now ≡ node.now }
{
    match node {
        Node::Text(text) => is_plain_text(text.as_str()),
        Node::Whole(_) => true,
        Node::Truth(_) => true,
        Node::Null => true,
        Node::List(nodes) => are_plain(nodes.as_slice()),
        Node::Map(entries) => have_plain(entries.as_slice()),
    }
}

#[cycle(plain)]
fn are_plain(nodes: &[Node]) -> bool
    ensures { (value : List ℕ → Option (List ℕ))
        → result ≡ true
        → map (filled value) nodes.now ≡ nodes.now }
{
    for node in nodes {
        if !is_plain(node) {
            return false;
        }
    }
    true
}

#[cycle(plain)]
fn have_plain(entries: &[(Text, Node)]) -> bool
    ensures { (value : List ℕ → Option (List ℕ))
        → result ≡ true
        → map (λ e. (e.0, filled value e.1)) entries.now ≡ entries.now }
{
    for entry in entries {
        if !is_plain(&entry.1) {
            return false;
        }
    }
    true
}

/// The tree with the properties put into each of its texts.
#[cycle(filled)]
pub fn filled(alloc: Global, props: &Props, file: &str, node: &Node) -> Result<Node, NoMemory>
    ensures { IfOk result (λ made. made ≡ filled (value_in (own props.now) file.now) node.now) }
{
    match node {
        Node::Text(text) => Ok(Node::Text(text_filled(alloc, props, file, text)?)),
        Node::Whole(n) => Ok(Node::Whole(*n)),
        Node::Truth(b) => Ok(Node::Truth(*b)),
        Node::Null => Ok(Node::Null),
        Node::List(nodes) => Ok(Node::List(nodes_filled(alloc, props, file, nodes.as_slice())?)),
        Node::Map(entries) => Ok(Node::Map(entries_filled(
            alloc,
            props,
            file,
            entries.as_slice(),
        )?)),
    }
}

#[cycle(filled)]
fn nodes_filled(
    alloc: Global,
    props: &Props,
    file: &str,
    nodes: &[Node],
) -> Result<Items<Node>, NoMemory>
    ensures { IfOk result
        (λ made. made ≡ map (filled (value_in (own props.now) file.now)) nodes.now) }
{
    let mut made = Items::new(alloc);
    for node in nodes {
        let node = filled(alloc, props, file, node)?;
        made.push(node)?;
    }
    Ok(made)
}

#[cycle(filled)]
fn entries_filled(
    alloc: Global,
    props: &Props,
    file: &str,
    entries: &[(Text, Node)],
) -> Result<Items<(Text, Node)>, NoMemory>
    ensures { IfOk result (λ made.
        made ≡ map (λ e. (e.0, filled (value_in (own props.now) file.now) e.1)) entries.now) }
{
    let mut made = Items::new(alloc);
    for entry in entries {
        let key = entry.0.copy(alloc)?;
        let node = filled(alloc, props, file, &entry.1)?;
        made.push((key, node))?;
    }
    Ok(made)
}
