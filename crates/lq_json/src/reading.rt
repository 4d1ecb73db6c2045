ghost use Rattle.std.specs.Prelude.{◌∷◌, ◌≡◌, ◌<◌, ◌⊎◌, Err, IfSome, List, Ok, OnSome, Some, length, ℕ};
ghost use Rattle.json.specs.Json.{items, members, number, value};
ghost use Rattle.json.specs.Reads.{token_of};
ghost use Rattle.json.specs.Token.{Token as SpecToken};
ghost use Rattle.serde_json.specs.Read.{converted};
ghost use Rattle.lq_json.specs.Trees.{entries_from, tree_from, trees_from};
ghost use Rattle.lq_tree.specs.Json.{json_tree};

use crate::members::put;
use crate::numbers::whole_of;
use json::{Reader, Scratch, Token};
use lq_base::{Items, Text};
use lq_tree::{Node, TreeFault};
use std::alloc::Global;

/// How many lists and maps may be in each other.
const MOST_LEVELS: usize = 127;

/// The tree of a JSON text (RFC 8259), as lq_tree's `read_json` gives it. Most texts are read
/// straight into the tree; one with a fault, a number that is no whole one, a key twice in one map,
/// or a map of very many keys is read by that function.
pub fn read_json(alloc: Global, bytes: &[u8]) -> Result<Node, TreeFault>
    ensures tree { (result ≡ Err TreeFault.OutOfMemory) ⊎ (result ≡ json_tree bytes.now) }
{
    match tree_of(alloc, bytes) {
        Some(node) => Ok(node),
        None => lq_tree::read_json(alloc, bytes),
    }
}

fn tree_of(alloc: Global, bytes: &[u8]) -> Option<Node>
    ensures { IfSome result (λ node. json_tree bytes.now ≡ Ok node) }
{
    let text = simdutf8::compat::from_utf8(bytes).ok()?;
    let mut scratch = Scratch::new(alloc);
    let mut reader = Reader::new(text, &mut scratch).ok()?;
    let node = read_value(alloc, &mut reader, MOST_LEVELS)?;
    if reader.next().is_some() {
        return None;
    }
    Some(node)
}

/// The whole number that a text spells.
fn number_of(text: &str) -> Option<Node>
    ensures { IfSome result (λ node. tree_from (number text.now) ≡ Some node) }
{
    match whole_of(text) {
        Some(whole) => Some(Node::Whole(whole)),
        None => None,
    }
}

/// What is no list and no map.
fn scalar_of(alloc: Global, token: Token<'_>) -> Option<Node>
    ensures { IfSome result (λ node. (depth : ℕ) (old new : List SpecToken)
        → old ≡ token_of token.entry ∷ new
        → converted tree_from (value depth old) ≡ Some (node, new)) }
{
    match token {
        Token::String(text) => match Text::new(alloc, text) {
            Ok(text) => Some(Node::Text(text)),
            Err(_) => None,
        },
        Token::Number(text) => {
            let node = number_of(text)?;
            Some(node)
        }
        Token::Bool(truth) => Some(Node::Truth(truth)),
        Token::Null => Some(Node::Null),
        _ => None,
    }
}

#[cycle(read)]
fn read_value(alloc: Global, reader: &mut Reader<'_>, depth: usize) -> Option<Node>
    ensures tree { IfSome result (λ node. converted tree_from (value depth reader.old)
        ≡ Some (node, reader.new)) }
    ensures shorter { OnSome result (length reader.new < length reader.old) }
{
    let token = reader.next()?;
    match token {
        Token::BeginArray if depth > 0 => {
            Some(Node::List(read_items(alloc, reader, depth - 1)?))
        }
        Token::BeginObject if depth > 0 => {
            Some(Node::Map(read_members(alloc, reader, depth - 1)?))
        }
        _ => {
            let node = scalar_of(alloc, token)?;
            Some(node)
        }
    }
}

#[cycle(read)]
fn read_items(alloc: Global, reader: &mut Reader<'_>, depth: usize) -> Option<Items<Node>>
    ensures trees { IfSome result (λ nodes. converted trees_from
        (items (value depth) (length reader.old) reader.old) ≡ Some (nodes, reader.new)) }
    ensures shorter { OnSome result (length reader.new < length reader.old) }
{
    let mut nodes = Items::new(alloc);
    'items: while !reader.take_end_array() {
        let node = read_value(alloc, reader, depth)?;
        nodes.push(node).ok()?;
    }
    Some(nodes)
}

#[cycle(read)]
fn read_members(alloc: Global, reader: &mut Reader<'_>, depth: usize) -> Option<Items<(Text, Node)>>
    ensures entries { IfSome result (λ entries. converted entries_from
        (members (value depth) (length reader.old) reader.old) ≡ Some (entries, reader.new)) }
    ensures shorter { OnSome result (length reader.new < length reader.old) }
{
    let mut entries = Vec::new(alloc);
    'members: while let Some(name) = reader.next_key().ok()? {
        let key = Text::new(alloc, name).ok()?;
        let node = read_value(alloc, reader, depth)?;
        put(&mut entries, key, node)?;
    }
    Some(Items::from_vec(entries))
}
