ghost use Rattle.std.specs.Prelude.{◌≡◌, ◌<◌, IfNone, IfOk, IfSome, length, map};
ghost use Rattle.std.specs.Str.{IsUtf8};
ghost use Rattle.lq_tree.specs.Given.{comma_parts, without_blanks, without_end_blanks, without_front_blanks};

use std::alloc::{AllocError, Global};

/// The text without the spaces and tabs at both ends.
pub fn without_blanks(text: &str) -> &str
    ensures { result.now ≡ without_blanks text.now }
{
    without_end_blanks(without_front_blanks(text))
}

// Loops, since a file may have more blanks in a row than a stack has room for calls.
fn without_front_blanks(text: &str) -> &str
    ensures { result.now ≡ without_front_blanks text.now }
{
    let mut rest = text;
    while let Some(more) = behind_blank(rest) {
        rest = more;
    }
    rest
}

/// What follows a blank at the front.
fn behind_blank(text: &str) -> Option<&str>
    ensures same { IfSome result
        (λ rest. without_front_blanks rest.now ≡ without_front_blanks text.now) }
    ensures shorter { IfSome result (λ rest. length rest.now < length text.now) }
    ensures text { IfSome result (λ rest. IsUtf8 rest.now) }
    ensures none { IfNone result (without_front_blanks text.now ≡ text.now) }
{
    if let Some(rest) = text.strip_prefix(' ') {
        return Some(rest);
    }
    if let Some(rest) = text.strip_prefix('\t') {
        return Some(rest);
    }
    None
}

fn without_end_blanks(text: &str) -> &str
    ensures { result.now ≡ without_end_blanks text.now }
{
    let mut rest = text;
    while let Some(more) = before_blank(rest) {
        rest = more;
    }
    rest
}

/// What stands before a blank at the end.
fn before_blank(text: &str) -> Option<&str>
    ensures same { IfSome result
        (λ front. without_end_blanks front.now ≡ without_end_blanks text.now) }
    ensures shorter { IfSome result (λ front. length front.now < length text.now) }
    ensures text { IfSome result (λ front. IsUtf8 front.now) }
    ensures none { IfNone result (without_end_blanks text.now ≡ text.now) }
{
    if let Some(front) = text.strip_suffix(' ') {
        return Some(front);
    }
    if let Some(front) = text.strip_suffix('\t') {
        return Some(front);
    }
    None
}

/// The parts of a text with commas between: one more than it has commas.
pub fn comma_parts(alloc: Global, text: &str) -> Result<Vec<&str>, AllocError>
    ensures { IfOk result (λ parts. map (λ part. part.now) parts.items ≡ comma_parts text.now) }
{
    text.split(',').collect(alloc)
}
