ghost use Rattle.std.specs.List.{list_all};
ghost use Rattle.std.specs.Prelude.{◌≡◌, IfOk, true};
ghost use Rattle.lq_base.specs.Number.{if_there};
ghost use Rattle.lq_tree.specs.Look.{Reads, within, value_at};
ghost use Rattle.lq_tree.specs.Items.{are_some, at_optional_items, at_required_items, item_path, items_from};

use crate::found::{bad_key, missing, placed};
use crate::node::Node;
use crate::reader::Reader;
use lq_base::{Items, KindFault, NoMemory, Text};
use std::alloc::Global;

/// The path of an item of the list that stands at a key.
fn item_path(alloc: Global, key: &str, place: usize) -> Result<Text, NoMemory>
    ensures { IfOk result (λ path. path ≡ item_path key.now place) }
{
    let digits = format!(in alloc; "{place}")?;
    let mut path = Text::new(alloc, key)?;
    path.push_all(&["[", digits.as_str(), "]"])?;
    Ok(path)
}

fn item<R: Reader>(
    alloc: Global,
    key: &str,
    place: usize,
    node: &Node,
    reader: &R,
) -> Result<R::Read, KindFault>
    ensures read { Reads (within (item_path key.now place) (R.of reader.now node.now)) result }
    ensures fits { IfOk result (λ given. R.fits reader.now given ≡ true) }
{
    match reader.read(alloc, node) {
        Ok(given) => Ok(given),
        Err(fault) => match item_path(alloc, key, place) {
            Ok(path) => Err(placed(alloc, path.as_str(), fault)),
            Err(_) => Err(KindFault::OutOfMemory),
        },
    }
}

/// Each node of the list that stands at `key`, in order. The path of a fault begins with the key and
/// the item's place, as `columns[0]`; with an empty key it begins with the place, `[0]`.
pub fn each_item<R: Reader>(
    alloc: Global,
    key: &str,
    nodes: &[Node],
    reader: &R,
) -> Result<Items<R::Read>, KindFault>
    ensures read { Reads (items_from key.now 0 (R.of reader.now) nodes.now) result }
    ensures fits { IfOk result (λ found. list_all (R.fits reader.now) found ≡ true) }
{
    let mut found = Items::new(alloc);
    for node in nodes {
        let given = item(alloc, key, found.len(), node, reader)?;
        found.push(given)?;
    }
    Ok(found)
}

/// The list at a key that has to be there, of one item at least: else it is `Missing` or `Bad`.
pub fn required_items<R: Reader>(
    alloc: Global,
    node: &Node,
    key: &str,
    reader: &R,
) -> Result<Items<R::Read>, KindFault>
    ensures read { Reads (at_required_items key.now (R.of reader.now) (value_at key.now node.now))
        result }
    ensures fits { IfOk result (λ found. are_some (R.fits reader.now) found ≡ true) }
{
    let Some(value) = node.value_at(key) else {
        return Err(missing(alloc, key));
    };
    match value.as_list() {
        Some(nodes) if !nodes.is_empty() => each_item(alloc, key, nodes, reader),
        _ => Err(bad_key(alloc, key)),
    }
}

/// The list at a key that may be there, and may have no item.
pub fn optional_items<R: Reader>(
    alloc: Global,
    node: &Node,
    key: &str,
    reader: &R,
) -> Result<Option<Items<R::Read>>, KindFault>
    ensures read { Reads (at_optional_items key.now (R.of reader.now) (value_at key.now node.now))
        result }
    ensures fits { IfOk result (λ found. if_there (list_all (R.fits reader.now)) found ≡ true) }
{
    let Some(value) = node.value_at(key) else {
        return Ok(None);
    };
    let Some(nodes) = value.as_list() else {
        return Err(bad_key(alloc, key));
    };
    let found = each_item(alloc, key, nodes, reader)?;
    Ok(Some(found))
}
