ghost use Rattle.std.specs.Prelude.{◌≡◌, ◌≤◌, ℕ, IfOk, length, map, option_map};
ghost use Rattle.lq_sqlfile.specs.Words.{has_name, known};
ghost use Rattle.lq_sqlfile.specs.Lines.{quoted, value, pair, new_pair, attributes_in};

use crate::cuts::{after, apart, behind_word, cut_at, cut_word, is_word};
use lq_base::{Items, NoMemory, Text};
use std::alloc::Global;

// Behind the first quote: the text up to the next one, at an end.
fn quoted(inside: &str) -> Option<(&str, &str)>
    ensures { option_map (λ p. (p.0.now, p.1.now)) result ≡ quoted inside.now }
{
    let (front, behind) = cut_at(inside, '"')?;
    let rest = apart(behind)?;
    Some((front, rest))
}

/// The value at the front of a text, and what stands behind it and the blanks that follow.
#[tactic(auto, unfolding(crate::specs::Lines::value))]
fn value(text: &str) -> Option<(&str, &str)>
    ensures { option_map (λ p. (p.0.now, p.1.now)) result ≡ value text.now }
{
    match after("\"", text) {
        Some(inside) => quoted(inside),
        None => {
            let (front, _) = cut_word(text);
            Some((front, behind_word(text)))
        }
    }
}

/// The name and the value at the front of a text, and what stands behind them.
#[tactic(auto, unfolding(crate::specs::Lines::pair))]
pub fn pair(text: &str) -> Option<(&str, &str, &str)>
    ensures { option_map (λ p. (p.0.now, p.1.now, p.2.now)) result ≡ pair text.now }
{
    let (name, behind) = cut_at(text, ':')?;
    let (value, rest) = value(behind)?;
    Some((name, value, rest))
}

/// The word that the name is in any ASCII case.
pub fn known<'a>(words: &[&'a str], name: &str) -> Option<&'a str>
    ensures { option_map (λ w. w.now) result ≡ known (map (λ w. w.now) words.now) name.now }
{
    for word in words {
        if is_word(name, word) {
            return Some(word);
        }
    }
    None
}

fn has_name(name: &str, pairs: &[(Text, Text)]) -> bool
    ensures { result ≡ has_name name.now pairs.now }
{
    for pair in pairs {
        if pair.0.as_str() == name {
            return true;
        }
    }
    false
}

// The next pair, if its name is one of the words and is not given yet.
#[tactic(auto, unfolding(crate::specs::Lines::new_pair))]
fn new_pair<'a, 'b>(
    words: &[&'b str],
    given: &[(Text, Text)],
    text: &'a str,
) -> Option<(&'b str, &'a str, &'a str)>
    ensures { option_map (λ p. (p.0.now, p.1.now, p.2.now)) result
        ≡ new_pair (map (λ w. w.now) words.now) given.now text.now }
{
    let (name, value, rest) = pair(text)?;
    let word = known(words, name)?;
    if has_name(word, given) {
        return None;
    }
    Some((word, value, rest))
}

/// The pairs that a text is made of, their names among the words and each at most once.
pub fn attributes(
    alloc: Global,
    words: &[&str],
    text: &str,
) -> Result<Option<Items<(Text, Text)>>, NoMemory>
    ensures { IfOk result (λ found. found
        ≡ attributes_in (map (λ w. w.now) words.now) text.now) }
{
    let mut given = Items::new(alloc);
    let mut rest = text;
    while !rest.is_empty() {
        let Some((name, value, behind)) = new_pair(words, given.as_slice(), rest) else {
            return Ok(None);
        };
        given.push((Text::new(alloc, name)?, Text::new(alloc, value)?))?;
        rest = behind;
    }
    Ok(Some(given))
}
