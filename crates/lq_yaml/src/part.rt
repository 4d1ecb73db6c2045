ghost use Rattle.std.specs.Prelude.{◌≡◌, IfOk};
ghost use Rattle.lq_yaml.specs.Machine.{begun, fits, filled, next};
ghost use Rattle.lq_yaml.specs.View.{part_of};

use crate::token::Head;
use lq_base::{Items, NoMemory, Text};
use lq_tree::Node;
use std::alloc::Global;
use std::collections::BTreeMap;

/// What is closed of an open collection; of a mapping also the key that is open.
#[derive(Drop)]
pub enum Part {
    Items(Items<Node>),
    Entries(BTreeMap<Text, Node>, Text),
}

impl Part {
    pub fn begun(alloc: Global, head: Head) -> Part
        ensures { part_of result ≡ begun head }
    {
        match head {
            Head::Dash => Part::Items(Items::new(alloc)),
            Head::Key(key) => Part::Entries(BTreeMap::new(alloc), key),
        }
    }

    /// Whether one more head may stand in the collection.
    pub fn fits(&self, head: &Head) -> bool
        ensures { result ≡ fits head.now (part_of self.now) }
    {
        match (head, self) {
            (Head::Dash, Part::Items(_)) => true,
            (Head::Key(key), Part::Entries(entries, last)) => key != last
                && !entries.contains_key(key),
            _ => false,
        }
    }

    /// The collection, with the node that stands behind its open head.
    pub fn filled(self, alloc: Global, node: Node) -> Result<Node, NoMemory>
        ensures { IfOk result (λ n. n ≡ filled (part_of self) node) }
    {
        match self {
            Part::Items(mut items) => {
                items.push(node)?;
                Ok(Node::List(items))
            }
            Part::Entries(mut entries, key) => {
                entries.insert(key, node)?;
                Ok(Node::Map(entries_of(alloc, entries)?))
            }
        }
    }

    /// The same, with one more head that fits.
    pub fn next(self, node: Node, head: Head) -> Result<Part, NoMemory>
        ensures { IfOk result (λ p. part_of p ≡ next head (part_of self) node) }
    {
        match (self, head) {
            (Part::Items(mut items), Head::Dash) => {
                items.push(node)?;
                Ok(Part::Items(items))
            }
            (Part::Entries(mut entries, last), Head::Key(key)) => {
                entries.insert(last, node)?;
                Ok(Part::Entries(entries, key))
            }
            (part, _) => Ok(part),
        }
    }
}

fn entries_of(alloc: Global, entries: BTreeMap<Text, Node>) -> Result<Items<(Text, Node)>, NoMemory>
    ensures { IfOk result (λ es. es ≡ entries.entries) }
{
    let mut list = Items::new(alloc);
    for entry in entries {
        list.push(entry)?;
    }
    Ok(list)
}
