ghost use Rattle.std.specs.Prelude.{◌≡◌, ◌++◌, ◌∷◌, [], None, OnOk, false};
ghost use Rattle.lq_uniform.specs.Uniform.{begins_comment, blank_if, folded, has_mark, is_passed, is_quote, is_space, quote_behind, uniform, without_front};

use lq_base::NoMemory;

/// Whether the byte is a blank: a space, a tab, a line feed or a carriage return.
pub fn is_space(b: u8) -> bool
    ensures { result ≡ is_space b }
{
    b == b' ' || b == b'\t' || b == b'\n' || b == b'\r'
}

/// Whether the byte is one of the three quotes of SQL: `'`, `"` or the grave accent.
pub fn is_quote(b: u8) -> bool
    ensures { result ≡ is_quote b }
{
    b == b'\'' || b == b'"' || b == b'`'
}

fn begins_comment(b: u8, rest: &[u8]) -> bool
    ensures { result ≡ begins_comment b rest.now }
{
    match rest {
        [] => false,
        [c, ..] => (b == b'-' && *c == b'-') || (b == b'/' && *c == b'*'),
    }
}

fn has_mark(text: &[u8]) -> bool
    ensures { result ≡ has_mark text.now }
{
    let mut rest = text;
    while let [b, after @ ..] = rest {
        if *b == b'#' || *b == b'\\' || begins_comment(*b, after) {
            return true;
        }
        rest = after;
    }
    false
}

fn without_front(text: &[u8]) -> &[u8]
    ensures { result.now ≡ without_front text.now }
{
    let mut rest = text;
    while let [b, after @ ..] = rest {
        if !is_space(*b) {
            return rest;
        }
        rest = after;
    }
    rest
}

fn is_passed(quote: Option<u8>, b: u8) -> bool
    ensures { result ≡ is_passed quote b }
{
    match quote {
        None => is_space(b),
        Some(_) => false,
    }
}

fn quote_behind(quote: Option<u8>, b: u8) -> Option<u8>
    ensures { result ≡ quote_behind quote b }
{
    match quote {
        None => if is_quote(b) { Some(b) } else { None },
        Some(q) => if b == q { None } else { Some(q) },
    }
}

fn append_one(to: &mut Vec<u8>, passed: bool, b: u8) -> Result<(), NoMemory>
    ensures { OnOk result (to.new.items ≡ to.old.items ++ (blank_if passed ++ b ∷ [])) }
{
    if passed {
        to.push(b' ')?;
    }
    to.push(b)?;
    Ok(())
}

fn append_folded(to: &mut Vec<u8>, text: &[u8]) -> Result<(), NoMemory>
    ensures { OnOk result (to.new.items ≡ to.old.items ++ folded None false text.now) }
{
    let mut quote = None;
    let mut passed = false;
    let mut rest = text;
    while let [b, after @ ..] = rest {
        if is_passed(quote, *b) {
            passed = true;
        } else {
            append_one(to, passed, *b)?;
            quote = quote_behind(quote, *b);
            passed = false;
        }
        rest = after;
    }
    Ok(())
}

/// Appends the text with one blank for each run of blanks outside its quoted stretches and none at its
/// ends, or as it is where it may have a comment or an escape.
#[tactic(auto, unfolding(crate::specs::Uniform::uniform))]
pub fn append_uniform(to: &mut Vec<u8>, text: &[u8]) -> Result<(), NoMemory>
    ensures { OnOk result (to.new.items ≡ to.old.items ++ uniform text.now) }
{
    if has_mark(text) {
        to.extend_from_slice(text)?;
        Ok(())
    } else {
        append_folded(to, without_front(text))
    }
}
