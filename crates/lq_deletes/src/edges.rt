ghost use Rattle.std.specs.BTreeMap.{get};
ghost use Rattle.std.specs.Prelude.{◌≡◌, ◌+◌, ◌<◌, ◌≤◌, ◌++◌, ◌∷◌, [], IfOk, IfSome, OnOk, ℕ, cond, length, map, vec_len};
ghost use Rattle.lq_model.specs.Catalogue.{picked};
ghost use Rattle.lq_parts.specs.Steps.{tables_of};
ghost use Rattle.lq_rows.specs.Stored.{values_cmp};
ghost use Rattle.lq_deletes.specs.Places.{AreBare, ArePlaces, Gains, is_place, key_linked, keys_linked, linked, tables_linked, row_total, children_of};

use crate::places::parents_of;
use lq_base::{Items, Name, NoMemory, Value};
use lq_chain::Chain;
use lq_model::{Column, ForeignKey};
use lq_rows::{Held, Row, Values, picked};
use std::alloc::Global;
use std::collections::BTreeMap;

/// As many nodes, without edges.
fn bare(alloc: Global, count: usize) -> Result<Vec<Items<usize>>, NoMemory>
    ensures len { IfOk result (λ edges. vec_len edges ≡ count) }
    ensures none { IfOk result (λ edges. AreBare edges.items) }
{
    let mut edges = Vec::new(alloc);
    for _node in 0..count {
        edges.push(Items::new(alloc))?;
    }
    Ok(edges)
}

/// The place of the row's values, if they have one.
fn place_of(
    alloc: Global,
    places: &BTreeMap<Values, usize>,
    columns: &[Column],
    names: &[Name],
    row: &[Value],
    end: usize,
) -> Result<Option<usize>, NoMemory>
    requires { ArePlaces end places.now }
    ensures place { IfOk result
        (λ place. place ≡ get values_cmp places.now (picked columns.now names.now row.now)) }
    ensures below { IfOk result (λ place. IfSome place (λ n. n < end)) }
{
    let values = Values::new(picked(alloc, columns, names, row)?);
    let _ = end;
    Ok(places.get(&values).copied())
}

/// Adds the node to the edges of the place, if there is one.
fn add_edge(
    edges: &mut Vec<Items<usize>>,
    place: Option<usize>,
    node: usize,
) -> Result<(), NoMemory>
    requires { IfSome place (λ n. n < vec_len edges.old) }
    ensures ok { OnOk result
        ((x : ℕ)
        → children_of edges.new.items x
        ≡ cond (is_place place x) (children_of edges.old.items x ++ node ∷ [])
        (children_of edges.old.items x)) }
    ensures len { vec_len edges.new ≡ vec_len edges.old }
{
    let Some(place) = place else {
        return Ok(());
    };
    edges[place].push(node)?;
    Ok(())
}

/// Adds to the edges of each place the rows whose values stand there. The rows are counted from a
/// number on.
fn link(
    alloc: Global,
    edges: &mut Vec<Items<usize>>,
    places: &BTreeMap<Values, usize>,
    columns: &[Column],
    names: &[Name],
    rows: &Chain<Row>,
    first: usize,
) -> Result<(), NoMemory>
    requires numbers { first + length rows.now.now ≤ vec_len edges.old }
    requires places { ArePlaces (vec_len edges.old) places.now }
    ensures ok { OnOk result
        (Gains
        (linked (get values_cmp places.now) first
        (map (picked columns.now names.now) rows.now.now)) edges.old.items
        edges.new.items) }
    ensures len { vec_len edges.new ≡ vec_len edges.old }
{
    let mut at = first;
    for row in rows.iter() {
        let place = place_of(alloc, places, columns, names, row.as_slice(), edges.len())?;
        add_edge(edges, place, at)?;
        at += 1;
    }
    Ok(())
}

/// Adds the edges to the rows of a table from those that they go with by a foreign key.
fn link_key(
    alloc: Global,
    entries: &[(Name, Held)],
    edges: &mut Vec<Items<usize>>,
    held: &Held,
    key: &ForeignKey,
    first: usize,
) -> Result<(), NoMemory>
    requires total { row_total (tables_of entries.now) ≡ vec_len edges.old }
    requires numbers { first + length held.now.now.rows ≤ vec_len edges.old }
    ensures ok { OnOk result
        (Gains (key_linked (tables_of entries.now) first held.now.now key.now) edges.old.items
        edges.new.items) }
    ensures len { vec_len edges.new ≡ vec_len edges.old }
{
    if !key.cascade {
        return Ok(());
    }
    let places = parents_of(alloc, entries, key, edges.len())?;
    let names = key.columns.as_slice();
    link(
        alloc,
        edges,
        &places,
        held.columns(),
        names,
        held.rows(),
        first,
    )?;
    Ok(())
}

/// The same by several foreign keys.
fn link_keys(
    alloc: Global,
    entries: &[(Name, Held)],
    edges: &mut Vec<Items<usize>>,
    held: &Held,
    keys: &[ForeignKey],
    first: usize,
) -> Result<(), NoMemory>
    requires total { row_total (tables_of entries.now) ≡ vec_len edges.old }
    requires numbers { first + length held.now.now.rows ≤ vec_len edges.old }
    ensures ok { OnOk result
        (Gains (keys_linked (tables_of entries.now) first held.now.now keys.now) edges.old.items
        edges.new.items) }
    ensures len { vec_len edges.new ≡ vec_len edges.old }
{
    for key in keys {
        link_key(alloc, entries, edges, held, key, first)?;
    }
    Ok(())
}

/// For each row of all tables the rows that go with it, by their numbers: a row is looked for once
/// for each foreign key that cascades.
pub fn edges_of(
    alloc: Global,
    entries: &[(Name, Held)],
    count: usize,
) -> Result<Vec<Items<usize>>, NoMemory>
    requires { row_total (tables_of entries.now) ≡ count }
    ensures len { IfOk result (λ edges. vec_len edges ≡ count) }
    ensures all { IfOk result (λ edges.
        Gains (tables_linked (tables_of entries.now) 0 (tables_of entries.now)) [] edges.items) }
{
    let mut edges = bare(alloc, count)?;
    let mut first = 0;
    for entry in entries {
        let held = &entry.1;
        link_keys(alloc, entries, &mut edges, held, held.foreign_keys(), first)?;
        first += held.len();
    }
    Ok(edges)
}
