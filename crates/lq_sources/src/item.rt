ghost use Rattle.std.specs.Prelude.{◌≡◌, IfOk};
ghost use Rattle.std.specs.Option.{option_copied};
ghost use Rattle.lq_tree.specs.Look.{Reads, map_found};
ghost use Rattle.lq_sources.specs.Items.{entry_of, included, item_at, items_of, place, property};

use crate::gather::Gather;
use lq_base::{KindFault, NoMemory, Text};
use lq_tree::{Node, bad_key, known, missing, optional, placed, required};
use std::alloc::Global;

/// What an include says of a file, or an includeAll of a folder.
#[derive(Drop)]
pub struct Included {
    pub path: Text,
    /// Whether the path is from the including file's folder.
    pub relative: bool,
}

/// A property, and whether it is for the dialect.
#[derive(Drop)]
pub struct Property {
    pub name: Text,
    pub value: Text,
    pub global: bool,
    pub here: bool,
}

/// An item of a changelog's list.
#[derive(Drop)]
pub enum Item {
    Include(Included),
    IncludeAll(Included),
    Property(Property),
    /// What is gathered.
    Other,
}

#[tactic(auto, unfolding(crate::specs::Items::included))]
fn read_included(alloc: Global, node: &Node, key: &str) -> Result<Included, KindFault>
    ensures { Reads (included key.now node.now) result }
{
    known(alloc, node, &[key, "relativeToChangelogFile"])?;
    let path: Text = required(alloc, node, key)?;
    let relative: Option<bool> = optional(alloc, node, "relativeToChangelogFile")?;
    Ok(Included {
        path,
        relative: relative.unwrap_or(false),
    })
}

#[tactic(auto, unfolding(crate::specs::Items::property))]
fn read_property<G: Gather>(alloc: Global, gather: &G, node: &Node) -> Result<Property, KindFault>
    ensures { Reads (property (G.means gather.now).here node.now) result }
{
    known(alloc, node, &["name", "value", "global", "dbms"])?;
    let name: Text = required(alloc, node, "name")?;
    let value: Text = required(alloc, node, "value")?;
    let global: Option<bool> = optional(alloc, node, "global")?;
    let here = gather.is_here(alloc, node)?;
    Ok(Property {
        name,
        value,
        global: global.unwrap_or(true),
        here,
    })
}

/// An item by its key.
#[tactic(auto, unfolding(crate::specs::Items::item_at))]
pub fn item_at<G: Gather>(
    alloc: Global,
    gather: &G,
    key: &str,
    node: &Node,
) -> Result<Item, KindFault>
    ensures { Reads (item_at (G.means gather.now).here key.now node.now) result }
{
    match key {
        "include" => match read_included(alloc, node, "file") {
            Ok(it) => Ok(Item::Include(it)),
            Err(fault) => Err(placed(alloc, key, fault)),
        },
        "includeAll" => match read_included(alloc, node, "path") {
            Ok(it) => Ok(Item::IncludeAll(it)),
            Err(fault) => Err(placed(alloc, key, fault)),
        },
        "property" => match read_property(alloc, gather, node) {
            Ok(it) => Ok(Item::Property(it)),
            Err(fault) => Err(placed(alloc, key, fault)),
        },
        _ => Ok(Item::Other),
    }
}

/// The one key of an item with its value.
pub fn entry_of(node: &Node) -> Option<&(Text, Node)>
    ensures { option_copied result ≡ entry_of node.now }
{
    match node.as_map() {
        Some([entry]) => Some(entry),
        _ => None,
    }
}

/// The place of an item in its file.
pub fn place_of(alloc: Global, i: usize) -> Result<Text, NoMemory>
    ensures { IfOk result (λ text. text ≡ place i) }
{
    let digits = format!(in alloc; "{i}")?;
    let mut text = Text::new(alloc, "databaseChangeLog")?;
    text.push_all(&["[", digits.as_str(), "]"])?;
    Ok(text)
}

/// The items in the tree of a whole file.
#[tactic(auto, unfolding(crate::specs::Items::items_of))]
pub fn items_of<'a>(alloc: Global, tree: &'a Node) -> Result<&'a [Node], KindFault>
    ensures { Reads (items_of tree.now) (map_found (λ items. items.now) result) }
{
    known(alloc, tree, &["databaseChangeLog"])?;
    let Some(value) = tree.value_at("databaseChangeLog") else {
        return Err(missing(alloc, "databaseChangeLog"));
    };
    match value.as_list() {
        Some(items) => Ok(items),
        None => Err(bad_key(alloc, "databaseChangeLog")),
    }
}
