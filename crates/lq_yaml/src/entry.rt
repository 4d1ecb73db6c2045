ghost use Rattle.std.specs.Prelude.{◌≡◌, ◌+◌, ◌*◌, ◌<◌, ◌^◌, IfOk, length, option_map, List, [], ◌++◌};
ghost use Rattle.lq_yaml.specs.Line.{is_end, colon, value_if, scalar_token, behind_pair, header, value_token, value_tokens, key, behind_key, entry_tokens, is_dash, tokens_at};
ghost use Rattle.lq_yaml.specs.Laws.{shallow, enough, Gives};

use crate::chars::{begins_with, is_blank, is_word_end, text_of, without_blanks};
use crate::front::front_of;
use crate::token::{Chomping, Head, Token};
use lq_base::{Items, NoMemory};
use lq_tree::Node;
use std::alloc::Global;

/// Whether nothing but a comment follows.
fn is_end(rest: &[char]) -> bool
    ensures { result ≡ is_end rest.now }
{
    match rest {
        [] => true,
        [c, ..] => is_blank(*c) && begins_with('#', without_blanks(rest)),
    }
}

fn value_if(rank: usize, value: Node, rest: &[char]) -> Option<Token>
    ensures { result ≡ value_if rank value rest.now }
{
    if is_end(rest) {
        Some(Token::Value(rank, value))
    } else {
        None
    }
}

fn scalar_of(alloc: Global, rank: usize, from: &[char]) -> Result<Option<Token>, NoMemory>
    ensures { IfOk result (λ o. o ≡ scalar_token rank from.now) }
{
    match front_of(alloc, from)? {
        Some(front) => {
            let value = front.node(alloc)?;
            Ok(value_if(rank, value, front.rest))
        }
        None => Ok(None),
    }
}

/// What follows two signs.
fn behind_pair(first: char, second: char, from: &[char]) -> Option<&[char]>
    ensures { option_map (λ rest. rest.now) result ≡ behind_pair first second from.now }
{
    match from {
        [c, d, rest @ ..] => {
            if *c == first && *d == second {
                Some(rest)
            } else {
                None
            }
        }
        _ => None,
    }
}

/// The chomping that the header of a literal block says.
fn header(from: &[char]) -> Option<Chomping>
    ensures { result ≡ header from.now }
{
    match from {
        ['|'] => Some(Chomping::Clip),
        ['|', '-'] => Some(Chomping::Strip),
        _ => None,
    }
}

/// The value that fills the rest of a line.
fn value_of(alloc: Global, rank: usize, from: &[char]) -> Result<Option<Token>, NoMemory>
    ensures { IfOk result (λ o. o ≡ value_token rank from.now) }
{
    if let Some(rest) = behind_pair('[', ']', from) {
        return Ok(value_if(rank, Node::List(Items::new(alloc)), rest));
    }
    if let Some(rest) = behind_pair('{', '}', from) {
        return Ok(value_if(rank, Node::Map(Items::new(alloc)), rest));
    }
    match header(from) {
        Some(chomping) => Ok(Some(Token::LiteralHeader(rank, chomping))),
        None => scalar_of(alloc, rank, from),
    }
}

fn colon(from: &[char]) -> Option<&[char]>
    ensures { option_map (λ rest. rest.now) result ≡ colon from.now }
{
    match from {
        [':', rest @ ..] => { if is_word_end(rest) { Some(rest) } else { None } }
        _ => None,
    }
}

/// The key at the front, if one stands there, and what follows it.
fn key_of(alloc: Global, from: &[char]) -> Result<Option<(Vec<char>, &[char])>, NoMemory>
    ensures { IfOk result (λ o. Gives o (key from.now)) }
{
    match front_of(alloc, from)? {
        Some(front) => match colon(without_blanks(front.rest)) {
            Some(rest) => Ok(Some((front.chars, rest))),
            None => Ok(None),
        },
        None => Ok(None),
    }
}

fn with_value(
    alloc: Global,
    rank: usize,
    from: &[char],
    mut tokens: Vec<Token>,
) -> Result<Option<Vec<Token>>, NoMemory>
    ensures { IfOk result (λ o.
        option_map (λ v. v.items) o
        ≡ option_map (λ ts. tokens.items ++ ts) (value_tokens rank from.now)) }
{
    match value_of(alloc, rank, from)? {
        Some(token) => {
            tokens.push(token)?;
            Ok(Some(tokens))
        }
        None => Ok(None),
    }
}

fn with_rest(
    alloc: Global,
    rank: usize,
    rest: &[char],
    tokens: Vec<Token>,
) -> Result<Option<Vec<Token>>, NoMemory>
    ensures { IfOk result (λ o.
        option_map (λ v. v.items) o
        ≡ option_map (λ ts. tokens.items ++ ts) (behind_key rank rest.now)) }
{
    match rest {
        [] => Ok(Some(tokens)),
        [_first, ..] => with_value(alloc, rank, rest, tokens),
    }
}

/// The tokens with those of a key and its value, or of a value.
fn with_entry(
    alloc: Global,
    column: usize,
    from: &[char],
    mut tokens: Vec<Token>,
) -> Result<Option<Vec<Token>>, NoMemory>
    requires { column < 2 ^ 62 }
    ensures { IfOk result (λ o.
        option_map (λ v. v.items) o
        ≡ option_map (λ ts. tokens.items ++ ts) (entry_tokens column from.now)) }
{
    match key_of(alloc, from)? {
        Some((chars, rest)) => {
            let key = text_of(alloc, chars.as_slice())?;
            tokens.push(Token::Begin(2 * column + 1, Head::Key(key)))?;
            with_rest(alloc, 2 * column + 2, without_blanks(rest), tokens)
        }
        None => with_value(alloc, 2 * column + 1, from, tokens),
    }
}

fn is_dash(c: char, more: &[char]) -> bool
    ensures { result ≡ is_dash c more.now }
{
    c == '-' && is_word_end(more)
}

/// The tokens of what begins at a column. Of the dashes at its front 65 are enough: no tree may have
/// so many levels, whatever else the line has.
pub fn tokens_at(
    alloc: Global,
    column: usize,
    from: &[char],
) -> Result<Option<Vec<Token>>, NoMemory>
    requires { column + length from.now < 2 ^ 62 }
    ensures { IfOk result (λ o.
        option_map (λ v. v.items) o ≡ option_map (shallow enough) (tokens_at column from.now)) }
{
    let mut tokens = Vec::new(alloc);
    let mut column = column;
    let mut rest = from;
    while let [c, more @ ..] = rest {
        if *c == ' ' {
            rest = more;
            column += 1;
            continue;
        }
        if !is_dash(*c, more) {
            return with_entry(alloc, column, rest, tokens);
        }
        if tokens.len() > 64 {
            rest = more;
            column += 1;
            continue;
        }
        tokens.push(Token::Begin(2 * column + 2, Head::Dash))?;
        rest = more;
        column += 1;
    }
    Ok(Some(tokens))
}
