ghost use Rattle.std.specs.Prelude.{◌≡◌, ◌<◌, ◌≤◌, IfSome, option_map};
ghost use Rattle.lq_expr.specs.Grammar.{parsed, parsed_names};
ghost use Rattle.lq_cli.specs.Job.{Gives, found};
ghost use Rattle.lq_cli.specs.Options.{contexts_of, cut_at, definition_of, file_after, labels_of, number_from, tag_of, url_of};

use crate::fault::WordsFault;
use lq_base::{Dialect, Items, Text, char_count, has_control, plain_number};
use lq_expr::{Expr, ExprFault, parse, parse_names};
use std::alloc::Global;

/// The dialect and the path of the database that `postgresql:FILE` or `mysql:FILE` names. FILE has
/// at least one byte.
#[tactic(auto, unfolding(crate::specs::Options::url_of))]
pub fn url_of(text: &str) -> Option<(Dialect, &str)>
    ensures { option_map (λ url. (url.0, url.1.now)) result ≡ url_of text.now }
{
    if let Some(file) = file_after("postgresql:", text) {
        return Some((Dialect::Postgresql, file));
    }
    let file = file_after("mysql:", text)?;
    Some((Dialect::Mysql, file))
}

#[tactic(auto, using(crate::proofs::Starts::file_none))]
fn file_after<'a>(start: &str, text: &'a str) -> Option<&'a str>
    ensures { option_map (λ file. file.now) result ≡ file_after start.now text.now }
{
    match text.strip_prefix(start) {
        Some(file) => { if file.is_empty() { None } else { Some(file) } }
        None => None,
    }
}

/// The number that a text writes in decimal digits, without a sign or a leading zero, where it is
/// from `least` to `most`.
#[tactic(auto, unfolding(crate::specs::Options::number_from))]
pub fn number_from(least: u64, most: u64, text: &str) -> Option<u64>
    ensures value { result ≡ number_from least most text.now }
    ensures bound { IfSome result (λ n. n ≤ most) }
{
    let number = plain_number(text.as_bytes())?;
    if u128::from(least) <= number && number <= u128::from(most) {
        Some(number as u64)
    } else {
        None
    }
}

/// The tag of this text, of 1 to 255 characters without a control character.
#[tactic(auto, unfolding(crate::specs::Options::tag_of))]
pub fn tag_of(text: &str) -> Option<&str>
    ensures { option_map (λ tag. tag.now) result ≡ tag_of text.now }
{
    let count = char_count(text);
    if 1 <= count && count <= 255 && !has_control(text) {
        Some(text)
    } else {
        None
    }
}

/// The names of a context filter, with commas between and the blanks around a name dropped.
#[tactic(auto, unfolding(crate::specs::Options::contexts_of))]
pub fn contexts_of(alloc: Global, text: Option<&str>) -> Result<Items<Text>, WordsFault>
    ensures { Gives (contexts_of (option_map (λ t. t.now) text.entry)) result }
{
    match text {
        Some(text) => names(alloc, text),
        None => Ok(Items::new(alloc)),
    }
}

/// The expression of a label filter.
#[tactic(auto, unfolding(crate::specs::Options::labels_of))]
pub fn labels_of(alloc: Global, text: Option<&str>) -> Result<Option<Expr>, WordsFault>
    ensures { Gives (labels_of (option_map (λ t. t.now) text.entry)) result }
{
    match text {
        Some(text) => Ok(Some(expression(alloc, text)?)),
        None => Ok(None),
    }
}

fn names(alloc: Global, text: &str) -> Result<Items<Text>, WordsFault>
    ensures { Gives (found (parsed_names text.now)) result }
{
    match parse_names(alloc, text) {
        Ok(names) => Ok(names),
        Err(ExprFault::NotExpr) => Err(WordsFault::Usage),
        Err(ExprFault::OutOfMemory) => Err(WordsFault::OutOfMemory),
    }
}

fn expression(alloc: Global, text: &str) -> Result<Expr, WordsFault>
    ensures { Gives (found (parsed text.now)) result }
{
    match parse(alloc, text) {
        Ok(expr) => Ok(expr),
        Err(ExprFault::NotExpr) => Err(WordsFault::Usage),
        Err(ExprFault::OutOfMemory) => Err(WordsFault::OutOfMemory),
    }
}

/// The name and the value of a property that `name=value` defines. The name has at least one byte
/// and ends at the first `=`.
#[tactic(auto, unfolding(crate::specs::Options::definition_of))]
pub fn definition_of(text: &str) -> Option<(&str, &str)>
    ensures { option_map (λ parts. (parts.0.now, parts.1.now)) result ≡ definition_of text.now }
{
    let (name, value) = cut_at(text, '=')?;
    if name.is_empty() {
        return None;
    }
    Some((name, value))
}

fn cut_at(text: &str, mark: char) -> Option<(&str, &str)>
    requires { mark < 128 }
    ensures { option_map (λ parts. (parts.0.now, parts.1.now)) result ≡ cut_at mark text.now }
{
    text.split_once(mark)
}
