ghost use Rattle.std.specs.Prelude.{None, Ok, Some, ◌≡◌, IfOk};
ghost use Rattle.lq_generate.specs.Generated.{first_sets, generated_tree, set_trees};
ghost use Rattle.lq_generate.specs.Faults.{first_fault, place_text, Generates, IsReadBack, IsSized, Tells, place_in, tables_in, with_tables};
ghost use Rattle.lq_jsontext.specs.JsonText.{IsWritable, json_line};
ghost use Rattle.lq_parts.specs.Taken.{IsOrdered};
ghost use Rattle.lq_track.specs.Database.{users_of};
ghost use Rattle.lq_tree.specs.Json.{json_tree};

use crate::faults::{Place, first_fault, place_text};
use crate::rows::under;
use crate::sets::{all_added, all_foreign, sequence_items, table_items, view_items, with_set};
use crate::users::users_tables;
use lq_base::{Dialect, Items, Name, NoMemory, Text};
use lq_jsontext::write_json;
use lq_parts::Parts;
use lq_rows::Held;
use lq_tree::Node;
use std::alloc::Global;
use thiserror::Error;

/// Why no changelog was generated.
#[derive(Debug, Drop, Error)]
pub enum GenerateFault {
    /// Where something stands that a changelog cannot say: an object's name, TABLE.COLUMN, or
    /// `the changelog` where it is over 16,777,216 bytes.
    #[error("cannot be written")]
    NotWritable(Text),
    #[error("out of memory")]
    OutOfMemory,
}

impl From<NoMemory> for GenerateFault {
    ghost use Rattle.std.specs.Prelude.{◌≡◌};
    ghost use Rattle.lq_generate.specs.declared.generating.GenerateFault.TheVariants.{OutOfMemory};

    ghost from_gives = { λ _ e. e ≡ OutOfMemory };

    fn from(_: NoMemory) -> GenerateFault {
        GenerateFault::OutOfMemory
    }
}

/// The first three changesets: what makes sequences, tables, and their keys and indexes.
fn first_sets(
    alloc: Global,
    dialect: Dialect,
    parts: &Parts,
    tables: &[&(Name, Held)],
    author: &str,
) -> Result<Items<Node>, NoMemory>
    ensures { IfOk result (λ sets.
        sets
        ≡ set_trees author.now
        (first_sets dialect (with_tables parts.now.now (tables_in tables.now)))) }
{
    let sequences = sequence_items(alloc, parts.sequences())?;
    let first = with_set(alloc, Items::new(alloc), "1", author, sequences)?;
    let made = table_items(alloc, dialect, tables)?;
    let second = with_set(alloc, first, "2", author, made)?;
    let added = all_added(alloc, dialect, tables)?;
    let third = with_set(alloc, second, "3", author, added)?;
    Ok(third)
}

fn generated_tree(
    alloc: Global,
    dialect: Dialect,
    parts: &Parts,
    tables: &[&(Name, Held)],
    author: &str,
) -> Result<Node, NoMemory>
    ensures { IfOk result (λ tree.
        tree
        ≡ generated_tree dialect author.now (with_tables parts.now.now (tables_in tables.now))) }
{
    let third = first_sets(alloc, dialect, parts, tables, author)?;
    let foreign = all_foreign(alloc, tables)?;
    let fourth = with_set(alloc, third, "4", author, foreign)?;
    let views = view_items(alloc, dialect, parts.views())?;
    let fifth = with_set(alloc, fourth, "5", author, views)?;
    let root = under(alloc, "databaseChangeLog", Node::List(fifth))?;
    Ok(root)
}

/// The text of the tree, unless it is too long.
fn sized(alloc: Global, tree: &Node) -> Result<Text, GenerateFault>
    ensures sized { IsSized (json_line tree.now) result }
    ensures reads { IfOk result (λ text. IsWritable tree.now → json_tree text ≡ Ok tree.now) }
{
    let text = write_json(alloc, tree)?;
    if text.as_str().len() > 16_777_216 {
        return Err(GenerateFault::NotWritable(Text::new(alloc, "the changelog")?));
    }
    Ok(text)
}

/// What stands in the way, told.
fn not_writable(alloc: Global, place: Place<'_>) -> GenerateFault
    ensures { Tells (place_text (place_in place.entry)) result }
{
    match place_text(alloc, place) {
        Ok(at) => GenerateFault::NotWritable(at),
        Err(_) => GenerateFault::OutOfMemory,
    }
}

fn hindered(
    alloc: Global,
    dialect: Dialect,
    parts: &Parts,
    tables: &[&(Name, Held)],
    author: &str,
    place: Place<'_>,
) -> Result<Text, GenerateFault>
    requires { Some (place_in place)
        ≡ first_fault (with_tables parts.now.now (tables_in tables.now)) }
    ensures generates { Generates dialect author.now
        (with_tables parts.now.now (tables_in tables.now)) result }
    ensures reads { IfOk result (λ text.
        IsReadBack dialect author.now (with_tables parts.now.now (tables_in tables.now)) text) }
{
    let _ = dialect;
    let _ = parts;
    let _ = tables;
    let _ = author;
    Err(not_writable(alloc, place))
}

fn unhindered(
    alloc: Global,
    dialect: Dialect,
    parts: &Parts,
    tables: &[&(Name, Held)],
    author: &str,
) -> Result<Text, GenerateFault>
    requires { None ≡ first_fault (with_tables parts.now.now (tables_in tables.now)) }
    ensures generates { Generates dialect author.now
        (with_tables parts.now.now (tables_in tables.now)) result }
    ensures reads { IfOk result (λ text.
        IsReadBack dialect author.now (with_tables parts.now.now (tables_in tables.now)) text) }
{
    let tree = generated_tree(alloc, dialect, parts, tables, author)?;
    sized(alloc, &tree)
}

fn generated(
    alloc: Global,
    dialect: Dialect,
    parts: &Parts,
    tables: &[&(Name, Held)],
    author: &str,
) -> Result<Text, GenerateFault>
    ensures generates { Generates dialect author.now
        (with_tables parts.now.now (tables_in tables.now)) result }
    ensures reads { IfOk result (λ text.
        IsReadBack dialect author.now (with_tables parts.now.now (tables_in tables.now)) text) }
{
    match first_fault(parts, tables) {
        Some(place) => hindered(alloc, dialect, parts, tables, author, place),
        None => unhindered(alloc, dialect, parts, tables, author),
    }
}

/// The text of a changelog that makes the users' objects, without their rows, in a new database; or
/// what of them a changelog cannot say, the first in the text's order, and its size after all others.
/// The text is one JSON text without blanks, and a line feed; the changesets 1 to 5, by the author,
/// make the sequences, the tables, their keys and indexes, the foreign keys, and the views.
pub fn generate(
    alloc: Global,
    dialect: Dialect,
    parts: &Parts,
    author: &str,
) -> Result<Text, GenerateFault>
    requires { IsOrdered parts.now.now.tables }
    ensures generates { Generates dialect author.now (users_of parts.now.now) result }
    ensures reads { IfOk result
        (λ text. IsReadBack dialect author.now (users_of parts.now.now) text) }
{
    let tables = users_tables(alloc, parts)?;
    generated(alloc, dialect, parts, tables.as_slice(), author)
}
