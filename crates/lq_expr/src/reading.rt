ghost use Rattle.std.specs.Prelude.{◌≡◌, ◌⊎◌, ◌∷◌, ◌<◌, Err, length, IfSome, option_map};
ghost use Rattle.lq_expr.specs.Cuts.{place, rest_of, negated, enclosed, is_close};
ghost use Rattle.lq_expr.specs.Grammar as spec;
ghost use Rattle.lq_expr.specs.Spelled.{Gives};

use crate::expr::{Expr, ExprFault};
use crate::words::words;
use lq_base::{Boxed, Items, Text};
use lq_operators::{Operator, Word};
use std::alloc::Global;

/// At most so many parentheses and negations are open at a place.
const LEVELS: usize = 64;

/// The expression that a text spells. From loosest to tightest: `,` and `or`, which are both 'or',
/// then `and`, then `not` or `!`, parentheses and names. A name is a run of characters other than
/// blanks, `(`, `)`, `,` and `!`, is not one of the words `and`, `or` and `not`, and does not begin
/// with `@`. Words have any case. Blanks are space, tab and line ends. At most 64 parentheses and
/// negations are open at a place.
///
/// The forms are those of Liquibase's documentation, "Contexts" and "Labels".
pub fn parse(alloc: Global, text: &str) -> Result<Expr, ExprFault>
    ensures { (result ≡ Err ExprFault.OutOfMemory) ⊎ (result ≡ spec.parsed text.now) }
{
    let mut depth = 0;
    for byte in text.as_bytes() {
        if *byte == b'(' {
            depth += 1;
            if depth > LEVELS {
                return Err(ExprFault::NotExpr);
            }
            continue;
        }
        if *byte == b')' {
            depth = depth.saturating_sub(1);
            continue;
        }
    }
    let words = words(alloc, text)?;
    joined(alloc, Operator::Comma, words.as_slice(), LEVELS)
}

#[cycle(expression)]
fn joined(
    alloc: Global,
    operator: Operator,
    words: &[Word],
    levels: usize,
) -> Result<Expr, ExprFault>
    ensures { Gives (spec.joined operator (spec.tighter operator (spec.factor levels)) words.now)
        result }
{
    let mut parts = Items::new(alloc);
    let mut left = Some(words);
    while let Some(rest) = left {
        let (part, after) = first_part(operator, rest);
        parts.push(part_of(alloc, operator, part, levels)?)?;
        left = after;
    }
    Ok(join(operator, parts))
}

#[cycle(expression)]
fn part_of(
    alloc: Global,
    operator: Operator,
    words: &[Word],
    levels: usize,
) -> Result<Expr, ExprFault>
    ensures { Gives (spec.tighter operator (spec.factor levels) words.now) result }
{
    match operator {
        Operator::Comma => joined(alloc, Operator::Or, words, levels),
        Operator::Or => joined(alloc, Operator::And, words, levels),
        Operator::And => factor(alloc, words, levels),
    }
}

#[cycle(expression)]
fn factor(alloc: Global, words: &[Word], levels: usize) -> Result<Expr, ExprFault>
    ensures { Gives (spec.factor levels words.now) result }
{
    if levels == 0 {
        return name(alloc, words);
    }
    if let Some(negated) = negated(words) {
        return negation(alloc, negated, levels - 1);
    }
    if let Some(inside) = enclosed(words) {
        return joined(alloc, Operator::Comma, inside, levels - 1);
    }
    name(alloc, words)
}

#[cycle(expression)]
fn negation(alloc: Global, negated: &[Word], levels: usize) -> Result<Expr, ExprFault>
    ensures { Gives (option_map Expr.Not (spec.factor levels negated.now)) result }
{
    let inner = factor(alloc, negated, levels)?;
    Ok(Expr::Not(Boxed::new(alloc, inner)?))
}

// The words behind a negation's first word.
fn negated(words: &[Word]) -> Option<&[Word]>
    ensures { option_map (λ ws. ws.now) result ≡ negated words.now }
{
    match words {
        [Word::Not, rest @ ..] => Some(rest),
        _ => None,
    }
}

// The words between a parenthesis that opens first and one that closes last.
fn enclosed(words: &[Word]) -> Option<&[Word]>
    ensures { option_map (λ ws. ws.now) result ≡ enclosed words.now }
{
    match words {
        [Word::Open, rest @ ..] => before_close(rest),
        _ => None,
    }
}

fn before_close(words: &[Word]) -> Option<&[Word]>
    ensures { option_map (λ ws. ws.now) result ≡ spec.inside words.now }
{
    if words.is_empty() {
        return None;
    }
    let last = words.len() - 1;
    if is_close(&words[last]) {
        Some(&words[..last])
    } else {
        None
    }
}

fn is_close(word: &Word) -> bool
    ensures { result ≡ is_close word.now }
{
    match word {
        Word::Close => true,
        _ => false,
    }
}

fn name(alloc: Global, words: &[Word]) -> Result<Expr, ExprFault>
    ensures { Gives (spec.name words.now) result }
{
    match words {
        [Word::Name(name)] => named(alloc, name),
        _ => Err(ExprFault::NotExpr),
    }
}

fn named(alloc: Global, name: &Text) -> Result<Expr, ExprFault>
    ensures { Gives (spec.named name.now) result }
{
    if name.as_str().starts_with('@') {
        return Err(ExprFault::NotExpr);
    }
    Ok(Expr::Name(name.copy(alloc)?))
}

/// The words before the first such operator outside parentheses, and those behind it.
pub fn first_part<'a>(operator: Operator, words: &'a [Word]) -> (&'a [Word], Option<&'a [Word]>)
    ensures parts { spec.cut operator 0 words.now
        ≡ result.0.now ∷ rest_of operator (option_map (λ after. after.now) result.1) }
    ensures shorter { IfSome result.1 (λ after. length after.now < length words.now) }
{
    let place = place_of(operator, words);
    if place < words.len() {
        (&words[..place], Some(&words[place + 1..]))
    } else {
        (words, None)
    }
}

fn place_of(operator: Operator, words: &[Word]) -> usize
    ensures { result ≡ place operator 0 words.now }
{
    let mut depth: usize = 0;
    for i in 0..words.len() {
        let word = &words[i];
        if is_cut(operator, depth, word) {
            return i;
        }
        depth = depth_after(word, depth);
    }
    words.len()
}

fn is_cut(operator: Operator, depth: usize, word: &Word) -> bool
    ensures { result ≡ spec.is_cut operator depth word.now }
{
    depth == 0 && operator.is_word(word)
}

fn depth_after(word: &Word, depth: usize) -> usize
    requires { depth < usize.MAX }
    ensures { result ≡ spec.depth_after word.now depth }
{
    match word {
        Word::Open => depth + 1,
        Word::Close => depth.saturating_sub(1),
        _ => depth,
    }
}

fn join(operator: Operator, mut parts: Items<Expr>) -> Expr
    ensures { result ≡ spec.join operator parts }
{
    if parts.len() == 1 {
        if let Some(only) = parts.pop() {
            return only;
        }
    }
    match operator {
        Operator::Comma | Operator::Or => Expr::Any(parts),
        Operator::And => Expr::All(parts),
    }
}
