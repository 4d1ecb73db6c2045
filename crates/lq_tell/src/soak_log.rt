ghost use Rattle.std.specs.Prelude.{◌≡◌, ◌%◌, ◌+◌, ◌++◌, IfOk, OnOk};
ghost use Rattle.std.specs.Fmt.{decimal};
ghost use Rattle.lq_tell.specs.SoakLog.{change_text, column_text, index_text, kind_of, next_number, set_head, set_text, sets_text, soak_changelog, table_after, table_name, table_text, view_text};

use lq_base::{NoMemory, Text, append_whole};
use std::alloc::Global;

/// The path of the changelog that a soak makes.
pub const SOAK_PATH: &str = "soak.json";

/// The numbers from which each changeset is made: each is made from the one before.
fn next_number(number: u64) -> u64
    ensures { result ≡ next_number number }
{
    number
        .wrapping_mul(6_364_136_223_846_793_005)
        .wrapping_add(1_442_695_040_888_963_407)
}

/// The changelog that is made from a number, with so many changesets, as JSON: each makes a table, or
/// adds a column, an index or a view to the last one that is made.
pub fn soak_changelog(alloc: Global, number: u64, sets: u64) -> Result<Text, NoMemory>
    ensures { IfOk result (λ text. text ≡ soak_changelog number sets) }
{
    let mut text = Text::new(alloc, "{\"databaseChangeLog\":[")?;
    append_sets(number, sets, &mut text)?;
    text.push_str("]}")?;
    Ok(text)
}

fn append_sets(number: u64, sets: u64, to: &mut Text) -> Result<(), NoMemory>
    ensures { OnOk result (to.new ≡ to.old ++ sets_text number sets) }
{
    let mut drawn = number;
    let mut table = 1;
    for made in 0..sets {
        let place = made + 1;
        drawn = next_number(drawn);
        let kind = kind_of(place, drawn);
        table = table_after(place, kind, table);
        append_set(place, kind, table, drawn, to)?;
    }
    Ok(())
}

/// 0 for a table, 1 for a column, 2 for an index, 3 for a view.
fn kind_of(place: u64, number: u64) -> u64
    ensures { result ≡ kind_of place number }
{
    if place == 1 { 0 } else { (number >> 33) % 4 }
}

/// The table that later changesets belong to.
fn table_after(place: u64, kind: u64, before: u64) -> u64
    ensures { result ≡ table_after place kind before }
{
    if kind == 0 { place } else { before }
}

fn append_set(place: u64, kind: u64, table: u64, number: u64, to: &mut Text) -> Result<(), NoMemory>
    ensures { OnOk result (to.new ≡ to.old ++ set_text place kind table number) }
{
    append_counted(
        set_head(place),
        place,
        "\",\"author\":\"soak\",\"changes\":[",
        to,
    )?;
    append_change(place, kind, table, number, to)?;
    to.push_str("]}}")
}

/// All but the first stand behind a comma.
fn set_head(place: u64) -> &'static str
    ensures { result.now ≡ set_head place }
{
    if place == 1 {
        "{\"changeSet\":{\"id\":\""
    } else {
        ",{\"changeSet\":{\"id\":\""
    }
}

#[tactic(auto, unfolding(crate::specs::SoakLog::change_text))]
fn append_change(
    place: u64,
    kind: u64,
    table: u64,
    number: u64,
    to: &mut Text,
) -> Result<(), NoMemory>
    ensures { OnOk result (to.new ≡ to.old ++ change_text place kind table number) }
{
    if kind == 0 {
        return append_table(place, to);
    }
    if kind == 1 {
        return append_column(place, table, number % 1000, to);
    }
    if kind == 2 {
        return append_index(place, table, to);
    }
    append_view(place, table, to)
}

fn append_table(place: u64, to: &mut Text) -> Result<(), NoMemory>
    ensures { OnOk result (to.new ≡ to.old ++ table_text place) }
{
    append_counted(
        "{\"createTable\":{\"tableName\":\"t",
        place,
        "\",\"columns\":[",
        to,
    )?;
    to.push_str(
        "{\"column\":{\"name\":\"id\",\"type\":\"int\",\"constraints\":{\"primaryKey\":true}}},",
    )?;
    to.push_str("{\"column\":{\"name\":\"a\",\"type\":\"varchar(20)\"}},")?;
    to.push_str("{\"column\":{\"name\":\"b\",\"type\":\"bigint\"}}]}}")
}

fn append_column(place: u64, table: u64, value: u64, to: &mut Text) -> Result<(), NoMemory>
    ensures { OnOk result (to.new ≡ to.old ++ column_text place table value) }
{
    append_counted(
        "{\"addColumn\":{\"tableName\":\"t",
        table,
        "\",\"columns\":[",
        to,
    )?;
    append_counted(
        "{\"column\":{\"name\":\"c",
        place,
        "\",\"type\":\"int\",",
        to,
    )?;
    append_counted("\"defaultValueNumeric\":", value, "}}]}}", to)
}

fn append_index(place: u64, table: u64, to: &mut Text) -> Result<(), NoMemory>
    ensures { OnOk result (to.new ≡ to.old ++ index_text place table) }
{
    append_counted("{\"createIndex\":{\"indexName\":\"ix", place, "\",", to)?;
    append_counted("\"tableName\":\"t", table, "\",\"columns\":[", to)?;
    to.push_str("{\"column\":{\"name\":\"a\"}}]}}")
}

fn append_view(place: u64, table: u64, to: &mut Text) -> Result<(), NoMemory>
    ensures { OnOk result (to.new ≡ to.old ++ view_text place table) }
{
    append_counted("{\"createView\":{\"viewName\":\"v", place, "\",", to)?;
    append_counted("\"selectQuery\":\"SELECT id FROM t", table, "\"}}", to)
}

/// Appends a number between two texts.
fn append_counted(before: &str, count: u64, after: &str, to: &mut Text) -> Result<(), NoMemory>
    ensures { OnOk result (to.new ≡ to.old ++ (before.now ++ (decimal count ++ after.now))) }
{
    to.push_str(before)?;
    append_whole(i128::from(count), to)?;
    to.push_str(after)
}

/// The name of the table that a changeset makes, where it makes one.
pub fn table_name(alloc: Global, place: u64) -> Result<Text, NoMemory>
    ensures { IfOk result (λ name. name ≡ table_name place) }
{
    let mut name = Text::new(alloc, "t")?;
    append_whole(i128::from(place), &mut name)?;
    Ok(name)
}
