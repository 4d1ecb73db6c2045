ghost use Rattle.std.specs.Prelude.{◌≡◌, IfOk, Option, option_map};
ghost use Rattle.lq_yaml.specs.Line.{Found, front, plain_front, quoted_front, scalar_node};
ghost use Rattle.lq_yaml.specs.Laws.{Gives, shown_front};

use crate::chars::{text_of, trimmed};
use crate::plain::{ends_with_colon, is_plain, plain_length, plain_node};
use crate::quoted::{double_of, single_of};
use lq_base::NoMemory;
use lq_tree::Node;
use std::alloc::Global;

/// The scalar at the front of a line's rest.
#[derive(Drop)]
pub struct Front<'a> {
    pub chars: Vec<char>,
    pub plain: bool,
    pub rest: &'a [char],
}

impl<'a> Front<'a> {
    /// What the scalar means.
    pub fn node(&self, alloc: Global) -> Result<Node, NoMemory>
        ensures { IfOk result (λ n. n ≡ scalar_node (shown_front self.now)) }
    {
        let text = text_of(alloc, self.chars.as_slice())?;
        if self.plain {
            Ok(plain_node(text))
        } else {
            Ok(Node::Text(text))
        }
    }
}

/// The scalar at the front, if one stands there.
pub fn front_of(alloc: Global, from: &[char]) -> Result<Option<Front<'_>>, NoMemory>
    ensures { IfOk result (λ o. option_map shown_front o ≡ front from.now) }
{
    match from {
        [] => Ok(None),
        ['\'', more @ ..] => {
            let found = single_of(alloc, more)?;
            Ok(quoted(found))
        }
        ['"', more @ ..] => {
            let found = double_of(alloc, more)?;
            Ok(quoted(found))
        }
        _ => plain_front(alloc, from),
    }
}

fn quoted(found: Option<(Vec<char>, &[char])>) -> Option<Front<'_>>
    ensures { (meant : Option Found)
        → Gives found.entry meant
        → option_map shown_front result ≡ option_map quoted_front meant }
{
    match found {
        Some((chars, rest)) => Some(Front {
            chars,
            plain: false,
            rest,
        }),
        None => None,
    }
}

fn plain_front(alloc: Global, from: &[char]) -> Result<Option<Front<'_>>, NoMemory>
    ensures { IfOk result (λ o. option_map shown_front o ≡ plain_front from.now) }
{
    let length = plain_length(from);
    let text = trimmed(&from[..length]);
    if !is_plain(text) || ends_with_colon(text) {
        return Ok(None);
    }
    let chars = text.to_vec(alloc)?;
    Ok(Some(Front {
        chars,
        plain: true,
        rest: &from[length..],
    }))
}
