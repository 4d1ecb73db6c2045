ghost use Rattle.std.specs.List.{list_all};
ghost use Rattle.std.specs.Prelude.{◌≡◌, nat_le};
ghost use Rattle.lq_model.specs.Comparison.{compares_wrongly, is_literal, is_spelled, levels, operand_literals, test_literals};
ghost use Rattle.lq_model.specs.Catalogue.{is_in};
ghost use Rattle.lq_model.specs.Truth.{names_in, test_names};
ghost use Rattle.lq_sound_table.specs.Pieces.{names_of};

use lq_base::{Literal, has_digits};
use lq_model::{Column, Operand, Test};
use lq_query::{kinds_agree, lacks_column};

fn is_literal(literal: &Literal) -> bool
    ensures { result ≡ is_literal literal.now }
{
    match literal {
        Literal::Int(n) => i128::MIN <= *n && *n <= i128::MAX,
        Literal::Fixed { units, scale } => {
            1 <= *scale && (*scale <= 37 && has_digits(38, units.unsigned_abs()))
        }
        _ => true,
    }
}

fn operand_fits(operand: &Operand) -> bool
    ensures { result ≡ list_all is_literal (operand_literals operand.now) }
{
    match operand {
        Operand::Column(_) => true,
        Operand::Literal(literal) => is_literal(literal),
    }
}

#[tactic(auto, using(crate::proofs::TestedLemmas::literals_and, crate::proofs::TestedLemmas::literals_or, crate::proofs::TestedLemmas::literals_not, crate::proofs::TestedLemmas::literals_two))]
fn literals_fit(test: &Test) -> bool
    ensures { result ≡ list_all is_literal (test_literals test.now) }
{
    match test {
        Test::Compare { x, y, .. } => operand_fits(x) & operand_fits(y),
        Test::IsNull(x) => operand_fits(x),
        Test::NotNull(x) => operand_fits(x),
        Test::And(a, b) => literals_fit(a.get()) & literals_fit(b.get()),
        Test::Or(a, b) => literals_fit(a.get()) & literals_fit(b.get()),
        Test::Not(a) => literals_fit(a.get()),
    }
}

/// Whether the test has at most so many levels: it looks no deeper.
#[tactic(auto, using(crate::proofs::TestedLemmas::levels_and, crate::proofs::TestedLemmas::levels_or, crate::proofs::TestedLemmas::levels_not, crate::proofs::TestedLemmas::no_level_and, crate::proofs::TestedLemmas::no_level_or, crate::proofs::TestedLemmas::no_level_not))]
fn are_levels(test: &Test, most: u8) -> bool
    ensures { result ≡ nat_le (levels test.now) most }
{
    match test {
        Test::Compare { .. } => true,
        Test::IsNull(_) => true,
        Test::NotNull(_) => true,
        Test::And(a, b) => {
            if most == 0 {
                return false;
            }
            are_levels(a.get(), most - 1) & are_levels(b.get(), most - 1)
        }
        Test::Or(a, b) => {
            if most == 0 {
                return false;
            }
            are_levels(a.get(), most - 1) & are_levels(b.get(), most - 1)
        }
        Test::Not(a) => {
            if most == 0 {
                return false;
            }
            are_levels(a.get(), most - 1)
        }
    }
}

/// Whether a text can spell the test.
pub fn is_spelled(test: &Option<Test>) -> bool
    ensures { result ≡ is_spelled test.now }
{
    match test {
        None => true,
        Some(test) => are_levels(test, 64) && literals_fit(test),
    }
}

fn test_fits(columns: &[Column], test: &Test) -> bool
    ensures { result ≡ list_all (λ n. is_in n (names_of columns.now)) (test_names test.now) }
{
    !lacks_column(columns, test)
}

/// Whether the test names columns of these alone.
pub fn names_fit(columns: &[Column], test: &Option<Test>) -> bool
    ensures { result ≡ list_all (λ n. is_in n (names_of columns.now)) (names_in test.now) }
{
    match test {
        None => true,
        Some(test) => test_fits(columns, test),
    }
}

/// Whether the test compares what may not be compared.
pub fn compares_wrongly(columns: &[Column], test: &Option<Test>) -> bool
    ensures { result ≡ compares_wrongly columns.now test.now }
{
    match test {
        None => false,
        Some(test) => !kinds_agree(columns, test),
    }
}
