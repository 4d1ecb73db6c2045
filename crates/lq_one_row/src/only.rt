ghost use Rattle.std.specs.Bool.{OnTrue};
ghost use Rattle.std.specs.List.{filter};
ghost use Rattle.std.specs.Prelude.{◌≡◌, ◌∷◌, IfOk, IfSome, [], is_some, map, true};
ghost use Rattle.lq_base.specs.declared.literal.Literal.TheVariants as literals;
ghost use Rattle.lq_model.specs.Catalogue.{table_of, the_table};
ghost use Rattle.lq_model.specs.declared.test.Op.TheVariants.{Eq};
ghost use Rattle.lq_model.specs.declared.test.Operand.TheVariants as operand;
ghost use Rattle.lq_model.specs.declared.test.Test.{Compare};
ghost use Rattle.lq_query.specs.Source.{TakesAlike};
ghost use Rattle.lq_one_row.specs.Only.{Begin, Gives, IsOnly, IsPlain, is_taken_at};

use lq_base::{Literal, Name, NoMemory, moment_of};
use lq_model::{Column, Op, Operand, Test};
use lq_parts::Parts;
use lq_query::is_taken;
use lq_rows::{Held, Row};
use std::alloc::Global;

/// So many rows are looked at one by one: the way to each begins at the nearest end.
const FEW: usize = 32;

/// Whether the text is no moment: then only a text is equal to it.
#[tactic(auto, unfolding(lq_base::specs::Value::into_kind))]
fn is_plain(text: &str) -> bool
    ensures { OnTrue result (IsPlain text.now) }
{
    moment_of(text.as_bytes()).is_none()
}

fn text_in(literal: &Literal) -> Option<&str>
    ensures { IfSome result (λ text. literal.now ≡ literals.Text text.now) }
{
    match literal {
        Literal::Text(text) => Some(text.as_str()),
        _ => None,
    }
}

/// The text that the column has in each row in which the one of the name is equal to the literal.
#[tactic(auto, using(crate::proofs::OnlyLemmas::equal_gives))]
fn equal_to<'a>(column: &Name, name: &Name, literal: &'a Literal) -> Option<&'a str>
    ensures { IfSome result
        (λ text.
        Gives (Compare Eq (operand.Column name.now) (operand.Literal literal.now)) column.now
        text.now) }
{
    let Some(text) = text_in(literal) else {
        return None;
    };
    if *column != *name {
        return None;
    }
    if !is_plain(text) {
        return None;
    }
    Some(text)
}

/// The text that the column has in each row that the test takes, where the test tells one.
fn text_of<'a>(column: &Name, test: &'a Test) -> Option<&'a str>
    ensures { IfSome result (λ text. Gives test.now column.now text.now) }
{
    match test {
        Test::Compare {
            op: Op::Eq,
            x: Operand::Column(name),
            y: Operand::Literal(literal),
        } => equal_to(column, name, literal),
        Test::And(a, b) => match text_of(column, a.get()) {
            Some(text) => Some(text),
            None => text_of(column, b.get()),
        },
        _ => None,
    }
}

/// The text that each row of these columns begins with that the test takes.
fn first_of<'a>(columns: &[Column], test: &'a Option<Test>) -> Option<&'a str>
    ensures { IfSome result (λ text. Begin test.now columns.now text.now) }
{
    let Some(test) = test else {
        return None;
    };
    match columns.split_first() {
        Some((first, _)) => text_of(&first.name, test),
        None => None,
    }
}

fn first_in<'a>(parts: &Parts, table: &Name, test: &'a Option<Test>) -> Option<&'a str>
    ensures { IfSome result
        (λ text. Begin test.now (the_table parts.now.now table.now).columns text.now) }
{
    match parts.table(table) {
        Some(held) => first_of(held.columns(), test),
        None => None,
    }
}

fn is_taken_at(held: &Held, test: &Option<Test>, at: usize) -> bool
    ensures { result ≡ is_taken_at test.now held.now.now at }
{
    match held.row(at) {
        Some(row) => is_taken(test, held.columns(), row.as_slice()),
        None => false,
    }
}

/// Those of the places at which the test takes the row.
fn taken_at(
    alloc: Global,
    held: &Held,
    test: &Option<Test>,
    places: &[usize],
) -> Result<Vec<usize>, NoMemory>
    ensures { IfOk result
        (λ taken. taken.items ≡ filter (is_taken_at test.now held.now.now) places.now) }
{
    let mut taken = Vec::new(alloc);
    for at in places {
        if is_taken_at(held, test, *at) {
            taken.push(*at)?;
        }
    }
    Ok(taken)
}

/// The only one of the places at which the test takes the row.
fn one_of(
    alloc: Global,
    parts: &Parts,
    table: &Name,
    test: &Option<Test>,
    places: &[usize],
) -> Result<Option<usize>, NoMemory>
    ensures { IfOk result (λ place.
        IfSome place (λ at.
        filter (is_taken_at test.now (the_table parts.now.now table.now)) places.now
        ≡ at ∷ [])) }
{
    let Some(held) = parts.table(table) else {
        return Ok(None);
    };
    let taken = taken_at(alloc, held, test, places)?;
    match taken.as_slice() {
        [at] => Ok(Some(*at)),
        _ => Ok(None),
    }
}

/// The place of the only row that the test takes, where the test asks for the text that the row
/// begins with.
pub fn only_taken(
    parts: &mut Parts,
    alloc: Global,
    table: &Name,
    test: &Option<Test>,
) -> Result<Option<usize>, NoMemory>
    requires { is_some (table_of parts.old.now table.now) ≡ true }
    ensures only { IfOk result
        (λ place. IfSome place (IsOnly test.now (the_table parts.old.now table.now))) }
    ensures same { parts.new ≡ parts.old }
{
    let Some(text) = first_in(parts, table, test) else {
        return Ok(None);
    };
    let places = parts.places(alloc, table, text)?;
    if places.len() > FEW {
        return Ok(None);
    }
    let place = one_of(alloc, parts, table, test, &places)?;
    Ok(place)
}

#[tactic(auto, using(crate::proofs::OnlyLemmas::front_taken))]
/// Rows of the table, in order, of which the test takes what it takes of all; where the test asks for
/// the text that they begin with, and they are known and few.
pub fn front_of<'a>(
    alloc: Global,
    held: &'a Held,
    test: &Option<Test>,
) -> Result<Option<Vec<&'a Row>>, NoMemory>
    ensures { IfOk result (λ front. IfSome front (λ rows.
        TakesAlike test.now held.now.now.columns (map (λ row. row.now) rows.items)
        held.now.now.rows)) }
{
    let Some(text) = first_of(held.columns(), test) else {
        return Ok(None);
    };
    let front = held.front(alloc, text)?;
    match front {
        Some(rows) => Ok(Some(rows)),
        None => Ok(None),
    }
}
