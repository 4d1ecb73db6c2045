ghost use Rattle.std.specs.Prelude.{◌≡◌};
ghost use Rattle.lq_sources.specs.Faults.{Loads, map_ok, by_keys, in_file};
ghost use Rattle.lq_sources.specs.Items.{items_of};
ghost use Rattle.lq_sources.specs.Walk.{entry_at, item_read};

use crate::blame::{in_file, in_item};
use crate::fault::{LoadFault, What};
use crate::gather::Gather;
use crate::item::{Item, entry_of, item_at, items_of, place_of};
use lq_base::{KindFault, Text};
use lq_paths::Format;
use lq_tree::Node;
use std::alloc::Global;

/// The tree of a file's bytes.
pub fn tree_in<G: Gather>(
    alloc: Global,
    gather: &G,
    path: &str,
    format: Format,
    bytes: &[u8],
) -> Result<Node, LoadFault>
    ensures { Loads (in_file path.now ((G.means gather.now).tree format bytes.now)) result }
{
    match gather.read_tree(alloc, format, bytes) {
        Ok(tree) => Ok(tree),
        Err(what) => Err(in_file(alloc, path, what)),
    }
}

/// The items in the tree of a file.
pub fn items_in<'a>(alloc: Global, path: &str, tree: &'a Node) -> Result<&'a [Node], LoadFault>
    ensures { Loads (in_file path.now (by_keys (items_of tree.now)))
        (map_ok (λ items. items.now) result) }
{
    match items_of(alloc, tree) {
        Ok(items) => Ok(items),
        Err(fault) => Err(in_file(alloc, path, What::Key(fault))),
    }
}

/// The one key of an item of a file, with its value.
#[tactic(auto, unfolding(crate::specs::Walk::entry_at))]
pub fn entry_in<'a>(
    alloc: Global,
    path: &str,
    i: usize,
    node: &'a Node,
) -> Result<&'a (Text, Node), LoadFault>
    ensures { Loads (entry_at path.now i node.now) (map_ok (λ entry. entry.now) result) }
{
    match entry_of(node) {
        Some(entry) => Ok(entry),
        None => Err(LoadFault::Fault {
            path: Text::new(alloc, path)?,
            what: What::Key(KindFault::Bad(place_of(alloc, i)?)),
        }),
    }
}

/// An item of a file, by its key.
#[tactic(auto, unfolding(crate::specs::Walk::item_read))]
pub fn read_item<G: Gather>(
    alloc: Global,
    gather: &G,
    path: &str,
    i: usize,
    entry: &(Text, Node),
) -> Result<Item, LoadFault>
    ensures { Loads (item_read (G.means gather.now) path.now i entry.now.0 entry.now.1) result }
{
    match item_at(alloc, gather, entry.0.as_str(), &entry.1) {
        Ok(item) => Ok(item),
        Err(fault) => Err(in_item(alloc, path, i, What::Key(fault))),
    }
}
