ghost use Rattle.std.specs.Option.{option_map};
ghost use Rattle.std.specs.Prelude.{◌≡◌, is_ok};
ghost use Rattle.lq_base.specs.Value.{into_kind};
ghost use Rattle.lq_base.specs.declared.kind.Kind.TheVariants as kind;
ghost use Rattle.lq_base.specs.declared.literal.Literal.TheVariants as literal;
ghost use Rattle.lq_model.specs.Comparison as spec;
ghost use Rattle.lq_model.specs.Kinds.{kind_of};
ghost use Rattle.lq_query.specs.Cell.{sort_meant};

use lq_base::{Kind, Literal, Name, moment_of};
use lq_model::{Column, Operand};

/// What may be compared with one another.
#[derive(Clone, Copy)]
pub enum Sort {
    Anything,
    Numbers,
    Texts,
    /// Texts that are moments.
    Dates,
    Truths,
    Moments,
}

fn of_kind(kind: Kind) -> Sort
    ensures { sort_meant result ≡ spec.sort_of_kind kind }
{
    match kind {
        Kind::Int => Sort::Numbers,
        Kind::BigInt => Sort::Numbers,
        Kind::Decimal(_, _) => Sort::Numbers,
        Kind::Boolean => Sort::Truths,
        Kind::Varchar(_) => Sort::Texts,
        Kind::Text => Sort::Texts,
        Kind::Moment => Sort::Moments,
    }
}

#[tactic(auto, unfolding(lq_base::specs::Value::into_kind))]
fn is_date(text: &str) -> bool
    ensures { result ≡ is_ok (into_kind (literal.Text text.now) kind.Moment) }
{
    moment_of(text.as_bytes()).is_some()
}

fn of_text(text: &str) -> Sort
    ensures { sort_meant result ≡ spec.sort_of_literal (literal.Text text.now) }
{
    if is_date(text) {
        Sort::Dates
    } else {
        Sort::Texts
    }
}

fn of_literal(literal: &Literal) -> Sort
    ensures { sort_meant result ≡ spec.sort_of_literal literal.now }
{
    match literal {
        Literal::Null => Sort::Anything,
        Literal::Int(_) => Sort::Numbers,
        Literal::Fixed { .. } => Sort::Numbers,
        Literal::Bool(_) => Sort::Truths,
        Literal::Text(text) => of_text(text.as_str()),
    }
}

/// The kind of the column of the name.
pub fn kind_of(columns: &[Column], name: &Name) -> Option<Kind>
    ensures { result ≡ kind_of name.now columns.now }
{
    for column in columns {
        if *name == column.name {
            return Some(column.kind);
        }
    }
    None
}

/// What an operand may be compared with.
pub fn sort_of(columns: &[Column], operand: &Operand) -> Sort
    ensures { sort_meant result ≡ spec.sort_of columns.now operand.now }
{
    match operand {
        Operand::Literal(literal) => of_literal(literal),
        Operand::Column(name) => match kind_of(columns, name) {
            Some(kind) => of_kind(kind),
            None => Sort::Anything,
        },
    }
}

/// Whether the two may be compared.
pub fn go_together(a: Sort, b: Sort) -> bool
    ensures { result ≡ spec.go_together (sort_meant a) (sort_meant b) }
{
    match a {
        Sort::Anything => true,
        Sort::Numbers => matches!(b, Sort::Numbers | Sort::Anything),
        Sort::Texts => matches!(b, Sort::Texts | Sort::Dates | Sort::Anything),
        Sort::Dates => matches!(
            b,
            Sort::Texts | Sort::Dates | Sort::Moments | Sort::Anything
        ),
        Sort::Moments => matches!(b, Sort::Dates | Sort::Moments | Sort::Anything),
        Sort::Truths => matches!(b, Sort::Truths | Sort::Anything),
    }
}
