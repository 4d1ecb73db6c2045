ghost use Rattle.std.specs.Prelude.{◌≡◌, ◌≤◌, ◌+◌, nat_le, IfOk};
ghost use Rattle.lq_model.specs.SqlParser.{Reads};
ghost use Rattle.lq_model.specs.Comparison.{levels};
ghost use Rattle.lq_model.specs.SqlTest as spec;
ghost use Rattle.lq_model.specs.declared.test.Test.TheVariants as test;
ghost use Rattle.lq_model.specs.declared.word.WordKind.TheVariants as word;
ghost use Rattle.lq_parse.specs.Kinds.{ReadsUpTo, joined};

use crate::cursor::Words;
use crate::part::{literal, name};
use lq_base::Boxed;
use lq_model::{Op, Operand, ParseFault, Test, WordKind};
use std::alloc::{AllocError, Global};

fn begins_literal(kind: WordKind) -> bool
    ensures { result ≡ spec.begins_literal kind }
{
    match kind {
        WordKind::Null | WordKind::True | WordKind::False | WordKind::Text | WordKind::Number =>
            true,
        _ => false,
    }
}

#[tactic(auto, unfolding(lq_model::specs::SqlTest::operand))]
fn operand(alloc: Global, words: &mut Words<'_>) -> Result<Operand, ParseFault>
    ensures { Reads (spec.operand words.old) result words.new }
{
    if begins_literal(words.peek()) {
        Ok(Operand::Literal(literal(alloc, words)?))
    } else {
        Ok(Operand::Column(name(alloc, words)?))
    }
}

#[tactic(auto, unfolding(lq_model::specs::SqlTest::operator))]
fn operator(words: &mut Words<'_>) -> Result<Op, ParseFault>
    ensures { Reads (spec.operator words.old) result words.new }
{
    let op = match words.peek() {
        WordKind::Equal => Op::Eq,
        WordKind::Unequal => Op::Ne,
        WordKind::Less => Op::Lt,
        WordKind::AtMost => Op::Le,
        WordKind::More => Op::Gt,
        WordKind::AtLeast => Op::Ge,
        _ => return Err(ParseFault::NotSql),
    };
    words.skip();
    Ok(op)
}

// After IS.
#[tactic(auto, unfolding(lq_model::specs::SqlTest::nullness))]
fn nullness(words: &mut Words<'_>, x: Operand) -> Result<Test, ParseFault>
    ensures { Reads (spec.nullness x words.old) result words.new }
{
    let negated = words.eat(WordKind::Not);
    words.expect(WordKind::Null)?;
    if negated {
        Ok(Test::NotNull(x))
    } else {
        Ok(Test::IsNull(x))
    }
}

fn boxed(alloc: Global, test: Test) -> Result<Boxed<Test>, AllocError>
    ensures { IfOk result (λ it. it ≡ test) }
{
    Boxed::new(alloc, test)
}

#[tactic(auto, unfolding(lq_model::specs::SqlTest::comparison))]
fn comparison(alloc: Global, words: &mut Words<'_>) -> Result<Boxed<Test>, ParseFault>
    ensures { Reads (spec.comparison words.old) result words.new }
{
    let x = operand(alloc, words)?;
    if words.eat(WordKind::Is) {
        return Ok(boxed(alloc, nullness(words, x)?)?);
    }
    let op = operator(words)?;
    let y = operand(alloc, words)?;
    Ok(boxed(alloc, Test::Compare { op, x, y })?)
}

// No more levels are made than a test may have: past them NotSql may stand for a test, which
// `any_test` refuses too.
const MOST: usize = 64;

// A test after NOT, of which at most `nots` follow.
#[cycle(formula)]
fn negation(
    alloc: Global,
    words: &mut Words<'_>,
    nots: usize,
    parentheses: usize,
) -> Result<Boxed<Test>, ParseFault>
    requires { nots ≤ 64 }
    ensures { ReadsUpTo nots (spec.term (spec.primary parentheses) words.old) result words.new }
{
    if !words.eat(WordKind::Not) {
        return primary(alloc, words, parentheses);
    }
    if nots == 0 {
        return Err(ParseFault::NotSql);
    }
    let inner = negation(alloc, words, nots - 1, parentheses)?;
    Ok(boxed(alloc, Test::Not(inner))?)
}

// What AND joins to `left`, which is so deep that at most `turns` levels are left.
#[cycle(formula)]
fn conjunction(
    alloc: Global,
    words: &mut Words<'_>,
    parentheses: usize,
    turns: usize,
    left: Boxed<Test>,
) -> Result<Boxed<Test>, ParseFault>
    requires bounded { turns ≤ 64 }
    requires deep { 64 ≤ levels left + turns }
    ensures { ReadsUpTo 64
        (joined test.And word.And (spec.term (spec.primary parentheses)) left words.old) result
        words.new }
{
    if !words.eat(WordKind::And) {
        return Ok(left);
    }
    if turns == 0 {
        return Err(ParseFault::NotSql);
    }
    let right = negation(alloc, words, MOST, parentheses)?;
    let both = boxed(alloc, Test::And(left, right))?;
    conjunction(alloc, words, parentheses, turns - 1, both)
}

#[cycle(formula)]
fn product(
    alloc: Global,
    words: &mut Words<'_>,
    parentheses: usize,
) -> Result<Boxed<Test>, ParseFault>
    ensures { ReadsUpTo 64 (spec.product (spec.primary parentheses) words.old) result words.new }
{
    let first = negation(alloc, words, MOST, parentheses)?;
    conjunction(alloc, words, parentheses, MOST, first)
}

// The same of OR.
#[cycle(formula)]
fn disjunction(
    alloc: Global,
    words: &mut Words<'_>,
    parentheses: usize,
    turns: usize,
    left: Boxed<Test>,
) -> Result<Boxed<Test>, ParseFault>
    requires bounded { turns ≤ 64 }
    requires deep { 64 ≤ levels left + turns }
    ensures { ReadsUpTo 64
        (joined test.Or word.Or (spec.product (spec.primary parentheses)) left words.old) result
        words.new }
{
    if !words.eat(WordKind::Or) {
        return Ok(left);
    }
    if turns == 0 {
        return Err(ParseFault::NotSql);
    }
    let right = product(alloc, words, parentheses)?;
    let both = boxed(alloc, Test::Or(left, right))?;
    disjunction(alloc, words, parentheses, turns - 1, both)
}

#[cycle(formula)]
fn sum(alloc: Global, words: &mut Words<'_>, parentheses: usize) -> Result<Boxed<Test>, ParseFault>
    ensures { ReadsUpTo 64 (spec.sum (spec.primary parentheses) words.old) result words.new }
{
    let first = product(alloc, words, parentheses)?;
    disjunction(alloc, words, parentheses, MOST, first)
}

#[cycle(formula)]
#[tactic(auto, unfolding(lq_model::specs::SqlTest::primary))]
fn primary(
    alloc: Global,
    words: &mut Words<'_>,
    parentheses: usize,
) -> Result<Boxed<Test>, ParseFault>
    ensures { ReadsUpTo 64 (spec.primary parentheses words.old) result words.new }
{
    if parentheses == 0 {
        return comparison(alloc, words);
    }
    if !words.eat(WordKind::Open) {
        return comparison(alloc, words);
    }
    let inner = sum(alloc, words, parentheses - 1)?;
    words.expect(WordKind::Close)?;
    Ok(inner)
}

#[tactic(auto, using(crate::proofs::Levels::none_and, crate::proofs::Levels::none_or, crate::proofs::Levels::none_not))]
fn is_flat(test: &Test) -> bool
    ensures { result ≡ nat_le (levels test.now) 0 }
{
    match test {
        Test::Compare { op: _, x: _, y: _ } | Test::IsNull(_) | Test::NotNull(_) => true,
        Test::And(_, _) | Test::Or(_, _) | Test::Not(_) => false,
    }
}

// Whether AND, OR and NOT stand in one another at most so deep.
#[tactic(auto, using(crate::proofs::Levels::within_and, crate::proofs::Levels::within_or, crate::proofs::Levels::within_not))]
fn is_within(test: &Test, most: usize) -> bool
    ensures { result ≡ nat_le (levels test.now) most }
{
    if most == 0 {
        return is_flat(test);
    }
    match test {
        Test::Compare { op: _, x: _, y: _ } | Test::IsNull(_) | Test::NotNull(_) => true,
        Test::And(a, b) => is_within(a.get(), most - 1) && is_within(b.get(), most - 1),
        Test::Or(a, b) => is_within(a.get(), most - 1) && is_within(b.get(), most - 1),
        Test::Not(a) => is_within(a.get(), most - 1),
    }
}

/// A test, in which at most 64 parentheses stand in one another, and at most 64 of AND, OR and NOT.
/// `NotSql` where none comes next.
#[tactic(auto, unfolding(lq_model::specs::SqlTest::any_test))]
pub fn any_test(alloc: Global, words: &mut Words<'_>) -> Result<Boxed<Test>, ParseFault>
    ensures { Reads (spec.any_test words.old) result words.new }
{
    let test = sum(alloc, words, MOST)?;
    if is_within(test.get(), MOST) {
        Ok(test)
    } else {
        Err(ParseFault::NotSql)
    }
}

/// The test after WHERE, or none where another word comes next. `NotSql` where WHERE stands without
/// a test.
#[tactic(auto, unfolding(lq_model::specs::SqlTest::where_test))]
pub fn where_test(alloc: Global, words: &mut Words<'_>) -> Result<Option<Test>, ParseFault>
    ensures { Reads (spec.where_test words.old) result words.new }
{
    if words.eat(WordKind::Where) {
        Ok(Some(any_test(alloc, words)?.into_inner()))
    } else {
        Ok(None)
    }
}
