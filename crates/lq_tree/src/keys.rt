ghost use Rattle.std.specs.Prelude.{◌≡◌, ◌||◌, Bool, IfOk, Ok, is_some, map, true};
ghost use Rattle.lq_base.specs.Number.{if_there};
ghost use Rattle.lq_tree.specs.Look.{Reads, Tells, within, value_at};
ghost use Rattle.lq_base.specs.Name.{is_name, is_object};
ghost use Rattle.lq_base.specs.Name as names;
ghost use Rattle.lq_tree.specs.Keys.{at_optional, at_required, at_required_unless, catalogue, is_public, is_schema, known, place, public_at, schema_at, schema_named};

use crate::found::{bad, bad_key, missing, placed, unknown};
use crate::given::Given;
use crate::node::Node;
use lq_base::{Dialect, KindFault, Name, NameFault, NoMemory};
use std::alloc::Global;

/// Tests that a map has no keys but these: `Bad` with the empty path where the node is no map,
/// `Unknown` with the first other key, which is the least one in a tree that was read.
pub fn known(alloc: Global, node: &Node, names: &[&str]) -> Result<(), KindFault>
    ensures { Reads (known (map (λ k. k.now) names.now) node.now) result }
{
    if node.as_map().is_none() {
        return Err(bad(alloc));
    }
    match node.unknown_key(names) {
        Some(key) => Err(unknown(alloc, key.as_str())),
        None => Ok(()),
    }
}

/// What is read of the node that stands at `key`.
fn found_at<T: Given + Drop>(alloc: Global, key: &str, value: &Node) -> Result<T, KindFault>
    ensures read { Reads (within key.now (T.of value.now)) result }
    ensures fits { IfOk result (λ given. T.fits given ≡ true) }
{
    match T::given(alloc, value) {
        Ok(given) => Ok(given),
        Err(fault) => Err(placed(alloc, key, fault)),
    }
}

/// What stands at a key that has to be there: `Missing` where it is not.
pub fn required<T: Given + Drop>(alloc: Global, node: &Node, key: &str) -> Result<T, KindFault>
    ensures read { Reads (at_required key.now T.of (value_at key.now node.now)) result }
    ensures fits { IfOk result (λ given. T.fits given ≡ true) }
{
    match node.value_at(key) {
        Some(value) => found_at(alloc, key, value),
        None => Err(missing(alloc, key)),
    }
}

/// What stands at a key that may be there.
pub fn optional<T: Given + Drop>(
    alloc: Global,
    node: &Node,
    key: &str,
) -> Result<Option<T>, KindFault>
    ensures read { Reads (at_optional key.now T.of (value_at key.now node.now)) result }
    ensures fits { IfOk result (λ given. if_there T.fits given ≡ true) }
{
    match node.value_at(key) {
        Some(value) => {
            let given = found_at(alloc, key, value)?;
            Ok(Some(given))
        }
        None => Ok(None),
    }
}

/// What stands at a key that has to be there unless it `may` be absent.
pub fn required_unless<T: Given + Drop>(
    alloc: Global,
    node: &Node,
    may: bool,
    key: &str,
) -> Result<Option<T>, KindFault>
    ensures read { Reads (at_required_unless may key.now T.of (value_at key.now node.now)) result }
    ensures fits { IfOk result (λ given. if_there T.fits given ≡ true) }
    ensures there { IfOk result (λ given. (may || is_some given) ≡ true) }
{
    match node.value_at(key) {
        Some(value) => {
            let given = found_at(alloc, key, value)?;
            Ok(Some(given))
        }
        None => {
            if may {
                return Ok(None);
            }
            Err(missing(alloc, key))
        }
    }
}

fn is_public(value: &Node) -> bool
    ensures { result ≡ is_public value.now }
{
    match value.as_text() {
        Some(text) => text == "public",
        None => false,
    }
}

fn public_at(alloc: Global, node: &Node, key: &str) -> Result<(), KindFault>
    ensures { Reads (public_at key.now node.now) result }
{
    match node.value_at(key) {
        Some(value) if !is_public(value) => Err(bad_key(alloc, key)),
        _ => Ok(()),
    }
}

/// Tests the schema and the catalogue of an object, where they are stated: there is one of each,
/// `public`.
pub fn public(alloc: Global, node: &Node) -> Result<(), KindFault>
    ensures { Reads (place.says node.now) result }
{
    public_at(alloc, node, "schemaName")?;
    public_at(alloc, node, "catalogName")
}

fn public_schema(alloc: Global) -> Result<Name, KindFault>
    ensures { Reads (Ok names.public) result }
{
    match Name::new(alloc, "public") {
        Ok(name) => Ok(name),
        Err(_) => Err(KindFault::OutOfMemory),
    }
}

fn schema_named(alloc: Global, dialect: Dialect, key: &str, text: &str) -> Result<Name, KindFault>
    ensures read { Reads (schema_named dialect key.now text.now) result }
    ensures fits { IfOk result (λ schema. is_schema dialect schema ≡ true) }
{
    match dialect {
        Dialect::Postgresql => match Name::new(alloc, text) {
            Ok(name) => Ok(name),
            Err(NameFault::BadName) => Err(bad_key(alloc, key)),
            Err(NameFault::OutOfMemory) => Err(KindFault::OutOfMemory),
        },
        Dialect::Mysql => {
            if text == "public" {
                public_schema(alloc)
            } else {
                Err(bad_key(alloc, key))
            }
        }
    }
}

/// The schema that stands at a key, or `public` where none does. Under MySQL there is no other.
pub fn schema(alloc: Global, node: &Node, dialect: Dialect, key: &str) -> Result<Name, KindFault>
    ensures read { Reads (schema_at dialect key.now node.now) result }
    ensures fits { IfOk result (λ schema. is_schema dialect schema ≡ true) }
{
    match node.value_at(key) {
        None => public_schema(alloc),
        Some(value) => match value.as_text() {
            Some(text) => schema_named(alloc, dialect, key, text),
            None => Err(bad_key(alloc, key)),
        },
    }
}

/// Tests the catalogue of an object, where it is stated: there is one, `public`.
pub fn catalogue(alloc: Global, node: &Node) -> Result<(), KindFault>
    ensures { Reads (catalogue.says node.now) result }
{
    public_at(alloc, node, "catalogName")
}

/// The name of an object in a schema that was read.
#[tactic(auto, using(crate::proofs::Schemas::object_within))]
pub fn in_schema(
    alloc: Global,
    dialect: Dialect,
    schema: &Name,
    name: &Name,
) -> Result<Name, NoMemory>
    requires schema { is_schema dialect schema.now ≡ true }
    requires name { is_name name.now ≡ true }
    ensures value { IfOk result (λ it. it ≡ names.within schema.now name.now) }
    ensures fits { IfOk result (λ it. is_object dialect it ≡ true) }
{
    match Name::within(alloc, schema.as_key(), name.as_key()) {
        Ok(it) => Ok(it),
        Err(_) => Err(NoMemory),
    }
}
