ghost use Rattle.std.specs.Prelude.{◌≡◌, ◌&&◌, ◌||◌};
ghost use Rattle.lq_base.specs.Name.{is_named};
ghost use Rattle.lq_model.specs.Catalogue.{is_in};
ghost use Rattle.lq_model.specs.Truth.{names_in, operand_names, test_names};

use lq_base::Name;
use lq_model::{Operand, Query, Test};

/// Whether the name is one of them.
pub fn is_in(names: &[Name], name: &Name) -> bool
    ensures { result ≡ is_in name.now names.now }
{
    names.iter().any(|other| *name == *other)
}

fn names_operand(operand: &Operand, column: &Name) -> bool
    ensures { result ≡ is_in column.now (operand_names operand.now) }
{
    match operand {
        Operand::Column(name) => *column == *name,
        Operand::Literal(_) => false,
    }
}

/// Whether a test names the column.
#[tactic(auto, using(crate::proofs::TestedLemmas::in_both, crate::proofs::TestedLemmas::in_either, crate::proofs::TestedLemmas::in_turned, crate::proofs::TestedLemmas::in_two))]
fn names(test: &Test, column: &Name) -> bool
    ensures { result ≡ is_in column.now (test_names test.now) }
{
    match test {
        Test::Compare { x, y, .. } => names_operand(x, column) | names_operand(y, column),
        Test::IsNull(x) => names_operand(x, column),
        Test::NotNull(x) => names_operand(x, column),
        Test::And(a, b) => names(a.get(), column) | names(b.get(), column),
        Test::Or(a, b) => names(a.get(), column) | names(b.get(), column),
        Test::Not(a) => names(a.get(), column),
    }
}

fn names_tested(test: &Option<Test>, column: &Name) -> bool
    ensures { result ≡ is_in column.now (names_in test.now) }
{
    match test {
        None => false,
        Some(test) => names(test, column),
    }
}

/// Whether a view of this query, with these columns, names the column of the table, among its columns or
/// in its test.
pub fn shows(query: &Query, columns: &[Name], table: &Name, column: &Name) -> bool
    ensures { result
        ≡
        (is_named table.now query.now.table
        && (is_in column.now columns.now || is_in column.now (names_in query.now.test))) }
{
    *table == query.table && (is_in(columns, column) || names_tested(&query.test, column))
}
