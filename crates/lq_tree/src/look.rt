ghost use Rattle.std.specs.Prelude.{◌≡◌, IfOk, IfSome, map, option_map, not};
ghost use Rattle.std.specs.Map.{lookup, lookup_key};
ghost use Rattle.std.specs.Option.{option_copied};
ghost use Rattle.std.specs.Str.{bytes_eq};
ghost use Rattle.lq_base.specs.Number.{whole_text};
ghost use Rattle.lq_tree.specs.Look.{map_of, list_of, text_of, whole_of, truth_of, is_null, printed_of, value_at, unknown_key, is_among, IsLeastUnknown, spelled_truth};
ghost use Rattle.lq_tree.specs.Json.{IsTree};

use crate::node::Node;
use lq_base::{NoMemory, Text, append_whole};
use std::alloc::Global;

impl Node {
    /// The keys of a map with their values.
    pub fn as_map(&self) -> Option<&[(Text, Node)]>
        ensures { option_map (λ es. es.now) result ≡ map_of self.now }
    {
        match self {
            Node::Map(entries) => Some(entries.as_slice()),
            _ => None,
        }
    }

    /// The items of a list.
    pub fn as_list(&self) -> Option<&[Node]>
        ensures { option_map (λ ns. ns.now) result ≡ list_of self.now }
    {
        match self {
            Node::List(items) => Some(items.as_slice()),
            _ => None,
        }
    }

    /// A text, and no other scalar.
    pub fn as_text(&self) -> Option<&str>
        ensures { option_map (λ t. t.now) result ≡ text_of self.now }
    {
        match self {
            Node::Text(text) => Some(text.as_str()),
            _ => None,
        }
    }

    pub fn as_whole(&self) -> Option<i128>
        ensures { result ≡ whole_of self.now }
    {
        match self {
            Node::Whole(n) => Some(*n),
            _ => None,
        }
    }

    /// A truth value, which may be written as the text `true` or `false`.
    pub fn as_truth(&self) -> Option<bool>
        ensures { result ≡ truth_of self.now }
    {
        match self {
            Node::Truth(b) => Some(*b),
            Node::Text(text) => spelled_truth(text.as_str()),
            _ => None,
        }
    }

    pub fn is_null(&self) -> bool
        ensures { result ≡ is_null self.now }
    {
        match self {
            Node::Null => true,
            _ => false,
        }
    }

    /// A scalar as it is printed: a text, a whole number in decimal digits, or `true` or `false`.
    pub fn printed(&self, alloc: Global) -> Result<Option<Text>, NoMemory>
        ensures { IfOk result (λ text. text ≡ printed_of self.now) }
    {
        match self {
            Node::Text(text) => Ok(Some(text.copy(alloc)?)),
            Node::Whole(n) => Ok(Some(digits_of(alloc, *n)?)),
            Node::Truth(true) => Ok(Some(Text::new(alloc, "true")?)),
            Node::Truth(false) => Ok(Some(Text::new(alloc, "false")?)),
            _ => Ok(None),
        }
    }

    /// The value that a map has at `key`.
    pub fn value_at(&self, key: &str) -> Option<&Node>
        ensures { option_copied result ≡ value_at key.now self.now }
    {
        match self {
            Node::Map(entries) => value_in(entries.as_slice(), key),
            _ => None,
        }
    }

    /// The first key of a map, in the map's order, that is none of the known ones. In a tree that was
    /// read it is the least such key by its bytes.
    pub fn unknown_key(&self, known: &[&str]) -> Option<&Text>
        ensures first { option_copied result
            ≡ unknown_key (map (λ k. k.now) known.now) self.now }
        ensures least { IsTree self.now
            → IfSome (option_copied result)
            (IsLeastUnknown (map (λ k. k.now) known.now) self.now) }
    {
        match self {
            Node::Map(entries) => unknown_in(entries.as_slice(), known),
            _ => None,
        }
    }
}

fn spelled_truth(text: &str) -> Option<bool>
    ensures { result ≡ spelled_truth text.now }
{
    match text {
        "true" => Some(true),
        "false" => Some(false),
        _ => None,
    }
}

fn digits_of(alloc: Global, n: i128) -> Result<Text, NoMemory>
    ensures { IfOk result (λ text. text ≡ whole_text n) }
{
    let mut text = Text::new(alloc, "")?;
    append_whole(n, &mut text)?;
    Ok(text)
}

fn value_in<'a>(entries: &'a [(Text, Node)], key: &str) -> Option<&'a Node>
    ensures { option_copied result ≡ lookup (bytes_eq key.now) entries.now }
{
    for entry in entries {
        if key == entry.0.as_str() {
            return Some(&entry.1);
        }
    }
    None
}

fn unknown_in<'a>(entries: &'a [(Text, Node)], known: &[&str]) -> Option<&'a Text>
    ensures { option_copied result
        ≡ lookup_key (λ key. not (is_among (map (λ k. k.now) known.now) key)) entries.now }
{
    for entry in entries {
        if !is_among(entry.0.as_str(), known) {
            return Some(&entry.0);
        }
    }
    None
}

fn is_among(key: &str, known: &[&str]) -> bool
    ensures { result ≡ is_among (map (λ k. k.now) known.now) key.now }
{
    for name in known {
        if key == *name {
            return true;
        }
    }
    false
}
