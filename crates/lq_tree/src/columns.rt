ghost use Rattle.std.specs.Option.{option_copied};
ghost use Rattle.std.specs.Prelude.{◌≡◌, IfOk, codes, true};
ghost use Rattle.lq_tree.specs.Look.{Reads, within, map_of, value_at};
ghost use Rattle.lq_tree.specs.Items.{a_column, are_some, at_required_items, only, size_of};

use crate::found::placed;
use crate::given::Given;
use crate::items::required_items;
use crate::node::Node;
use crate::reader::Reader;
use lq_base::{Items, KindFault};
use std::alloc::Global;
use std::marker::PhantomData;

/// How many keys a map has.
fn size(node: &Node) -> usize
    ensures { result ≡ size_of (map_of node.now) }
{
    match node.as_map() {
        Some(entries) => entries.len(),
        None => 0,
    }
}

/// What a map has at its one key.
fn only<'a>(node: &'a Node, key: &str) -> Option<&'a Node>
    ensures { option_copied result ≡ only key.now node.now }
{
    if size(node) != 1 {
        return None;
    }
    node.value_at(key)
}

fn inner<T: Given + Drop>(alloc: Global, node: &Node) -> Result<T, KindFault>
    ensures read { Reads (within (codes "column") (T.of node.now)) result }
    ensures fits { IfOk result (λ given. T.fits given ≡ true) }
{
    match T::given(alloc, node) {
        Ok(given) => Ok(given),
        Err(fault) => Err(placed(alloc, "column", fault)),
    }
}

/// Reads the items of a list of columns, each `{"column": {..}}` or the inner map itself.
#[derive(Drop)]
struct Columns<T> {
    column: PhantomData<T>,
}

impl<T: Given + Drop> Reader for Columns<T> {
    ghost use Rattle.lq_tree.specs.Items.{a_column};

    type Read = T;

    ghost of = { λ _. a_column T.of };

    ghost fits = { λ _. T.fits };

    fn read(&self, alloc: Global, node: &Node) -> Result<T, KindFault> {
        match only(node, "column") {
            Some(found) => inner(alloc, found),
            None => T::given(alloc, node),
        }
    }
}

/// The columns at a key that has to be there, one at least: else it is `Missing` or `Bad`. An item
/// is `{"column": {..}}` or the inner map itself.
pub fn required_columns<T: Given + Drop>(
    alloc: Global,
    node: &Node,
    key: &str,
) -> Result<Items<T>, KindFault>
    ensures read { Reads (at_required_items key.now (a_column T.of) (value_at key.now node.now))
        result }
    ensures fits { IfOk result (λ found. are_some T.fits found ≡ true) }
{
    let reader = Columns {
        column: PhantomData::<T>,
    };
    required_items(alloc, node, key, &reader)
}
