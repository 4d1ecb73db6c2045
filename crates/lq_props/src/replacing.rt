ghost use Rattle.std.specs.Prelude.{◌≡◌, ◌++◌, ◌<◌, OnOk, IfSome, length, option_map};
ghost use Rattle.lq_props.specs.Props.{value_of};
ghost use Rattle.lq_props.specs.Replaced.{cut_at, closed, replaced, use_behind};

use crate::props::Props;
use lq_base::{NoMemory, Text};

/// Appends a text with the values of its uses put in.
pub fn append_replaced(
    made: &mut Text,
    props: &Props,
    file: &str,
    text: &str,
) -> Result<(), NoMemory>
    ensures { OnOk result (made.new
        ≡ made.old ++ replaced (value_of props.now file.now) text.now) }
{
    let mut rest = text;
    while let Some((piece, behind)) = cut_at(rest, '}') {
        append_closed(made, props, file, piece)?;
        rest = behind;
    }
    made.push_str(rest)
}

// Appends what a piece of text and the `}` behind it become.
fn append_closed(made: &mut Text, props: &Props, file: &str, piece: &str) -> Result<(), NoMemory>
    ensures { OnOk result (made.new
        ≡ made.old ++ closed (value_of props.now file.now) piece.now) }
{
    let mut rest = piece;
    while let Some((before, behind)) = cut_at(rest, '$') {
        made.push_str(before)?;
        if let Some(value) = used_value(props, file, behind) {
            return made.push_str(value);
        }
        made.push_str("$")?;
        rest = behind;
    }
    made.push_str(rest)?;
    made.push_str("}")
}

// The value of the use whose `$` stands before these bytes.
fn used_value<'a>(props: &'a Props, file: &str, behind: &str) -> Option<&'a str>
    ensures { option_map (λ value. value.now) result
        ≡ use_behind (value_of props.now file.now) behind.now }
{
    match behind.strip_prefix('{') {
        Some(name) => props.value(file, name),
        None => None,
    }
}

// The text before the first such mark, and that behind it.
fn cut_at(text: &str, mark: char) -> Option<(&str, &str)>
    requires { mark < 128 }
    ensures parts { option_map (λ parts. (parts.0.now, parts.1.now)) result
        ≡ cut_at mark text.now }
    ensures shorter { IfSome result (λ parts. length parts.1.now < length text.now) }
{
    text.split_once(mark)
}
