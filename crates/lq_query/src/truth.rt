ghost use Rattle.std.specs.Option.{option_map};
ghost use Rattle.std.specs.Prelude.{◌≡◌, not, map, true, ◌∷◌, []};
ghost use Rattle.lq_model.specs.Comparison.{kinds_agree};
ghost use Rattle.lq_model.specs.Views.{lacks_column};
ghost use Rattle.lq_model.specs.Catalogue.{is_in, row_fits, is_null};
ghost use Rattle.lq_model.specs.Truth.{in_order, value_order, operand_names, both_true, not_so, one_true, takes, test_names, truth};
ghost use Rattle.lq_query.specs.Cell.{cell_value};
ghost use Rattle.lq_query.specs.Given.{tested};

use crate::cell::{Cell, operand};
use crate::order::{in_order, value_order};
use crate::sort::{go_together, sort_of};
use lq_base::{Name, Reason, Value};
use lq_model::{Column, Op, Operand, Test};

/// The value of a test on a row of these columns: None is the unknown of SQL.
pub fn test_row(test: &Test, columns: &[Column], row: &[Value]) -> Result<Option<bool>, Reason>
    requires { row_fits columns.now row.now ≡ true }
    ensures { result ≡ tested test.now columns.now row.now }
{
    if lacks_column(columns, test) {
        return Err(Reason::Missing);
    }
    if !kinds_agree(columns, test) {
        return Err(Reason::WrongKind);
    }
    Ok(truth(columns, row, test))
}

/// Whether a test, or no test, takes a row.
pub fn is_taken(test: &Option<Test>, columns: &[Column], row: &[Value]) -> bool
    ensures { result ≡ takes test.now columns.now row.now }
{
    match test {
        None => true,
        Some(test) => matches!(truth(columns, row, test), Some(true)),
    }
}

#[tactic(auto, using(crate::proofs::TestLemmas::truth_and, crate::proofs::TestLemmas::truth_or, crate::proofs::TestLemmas::truth_not))]
fn truth(columns: &[Column], row: &[Value], test: &Test) -> Option<bool>
    ensures { result ≡ truth columns.now row.now test.now }
{
    match test {
        Test::Compare { op, x, y } => {
            compare(*op, operand(columns, row, x), operand(columns, row, y))
        }
        Test::IsNull(x) => Some(is_null(operand(columns, row, x))),
        Test::NotNull(x) => Some(!is_null(operand(columns, row, x))),
        // a row that fails the first part is not tested for the second
        Test::And(a, b) => match truth(columns, row, a.get()) {
            Some(false) => Some(false),
            Some(true) => truth(columns, row, b.get()),
            None => both_true(None, truth(columns, row, b.get())),
        },
        Test::Or(a, b) => one_true(truth(columns, row, a.get()), truth(columns, row, b.get())),
        Test::Not(a) => not_so(truth(columns, row, a.get())),
    }
}

fn compare(op: Op, x: Cell<'_>, y: Cell<'_>) -> Option<bool>
    ensures { result
        ≡ option_map (in_order op) (value_order (cell_value x.entry) (cell_value y.entry)) }
{
    match value_order(x, y) {
        Some(order) => Some(in_order(op, order)),
        None => None,
    }
}

fn is_null(cell: Cell<'_>) -> bool
    ensures { result ≡ is_null (cell_value cell.entry) }
{
    matches!(cell, Cell::Null)
}

fn both_true(a: Option<bool>, b: Option<bool>) -> Option<bool>
    ensures { result ≡ both_true a b }
{
    match a {
        Some(false) => Some(false),
        Some(true) => b,
        None => match b {
            Some(false) => Some(false),
            _ => None,
        },
    }
}

fn not_so(a: Option<bool>) -> Option<bool>
    ensures { result ≡ not_so a }
{
    match a {
        Some(a) => Some(!a),
        None => None,
    }
}

fn one_true(a: Option<bool>, b: Option<bool>) -> Option<bool>
    ensures { result ≡ one_true a b }
{
    not_so(both_true(not_so(a), not_so(b)))
}

/// Whether a test names a column that is not among these.
#[tactic(auto, using(crate::proofs::TestLemmas::lacks_column_and, crate::proofs::TestLemmas::lacks_column_or, crate::proofs::TestLemmas::lacks_column_not, crate::proofs::TestLemmas::lacks_column_two))]
pub fn lacks_column(columns: &[Column], test: &Test) -> bool
    ensures { result ≡ lacks_column columns.now (test_names test.now) }
{
    match test {
        Test::Compare { x, y, .. } => lacks_operand(columns, x) | lacks_operand(columns, y),
        Test::IsNull(x) => lacks_operand(columns, x),
        Test::NotNull(x) => lacks_operand(columns, x),
        Test::And(a, b) => lacks_column(columns, a.get()) | lacks_column(columns, b.get()),
        Test::Or(a, b) => lacks_column(columns, a.get()) | lacks_column(columns, b.get()),
        Test::Not(a) => lacks_column(columns, a.get()),
    }
}

fn lacks_operand(columns: &[Column], operand: &Operand) -> bool
    ensures { result ≡ lacks_column columns.now (operand_names operand.now) }
{
    match operand {
        Operand::Column(name) => !has_column(columns, name),
        Operand::Literal(_) => false,
    }
}

/// Whether a column has the name.
pub fn has_column(columns: &[Column], name: &Name) -> bool
    ensures { result ≡ is_in name.now (map (λ c. c.name) columns.now) }
{
    for column in columns {
        if *name == column.name {
            return true;
        }
    }
    false
}

/// Whether each comparison of a test is of what may be compared.
#[tactic(auto, using(crate::proofs::TestLemmas::kinds_agree_and, crate::proofs::TestLemmas::kinds_agree_or, crate::proofs::TestLemmas::kinds_agree_not))]
pub fn kinds_agree(columns: &[Column], test: &Test) -> bool
    ensures { result ≡ kinds_agree columns.now test.now }
{
    match test {
        Test::Compare { x, y, .. } => { go_together(sort_of(columns, x), sort_of(columns, y)) }
        Test::IsNull(_) => true,
        Test::NotNull(_) => true,
        Test::And(a, b) => kinds_agree(columns, a.get()) & kinds_agree(columns, b.get()),
        Test::Or(a, b) => kinds_agree(columns, a.get()) & kinds_agree(columns, b.get()),
        Test::Not(a) => kinds_agree(columns, a.get()),
    }
}
