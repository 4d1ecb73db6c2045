ghost use Rattle.std.specs.Prelude.{◌≡◌, ◌<◌, ◌≤◌, length, IfSome};
ghost use Rattle.lq_base.specs.Sql.{begins_line_comment, begins_block_comment, closes, opens, comment_end, comment_length};

use crate::quoted::after;
use lq_base::Dialect;
use lq_marks::{begins, byte_at, from, is_blank};

pub(crate) fn begins_line_comment(dialect: Dialect, text: &[u8]) -> bool
    ensures { result ≡ begins_line_comment dialect text.now }
{
    match dialect {
        Dialect::Postgresql => begins(b"--", text),
        Dialect::Mysql => (begins(b"--", text) && is_blank(byte_at(text, 2))) || begins(b"#", text),
    }
}

pub(crate) fn begins_block_comment(dialect: Dialect, text: &[u8]) -> bool
    ensures { result ≡ begins_block_comment dialect text.now }
{
    match dialect {
        Dialect::Postgresql => begins(b"/*", text),
        Dialect::Mysql => begins(b"/*", text) && !begins(b"/*!", text),
    }
}

fn closes(first: u8, second: u8) -> bool
    ensures { result ≡ closes first second }
{
    first == b'*' && second == b'/'
}

fn opens(nesting: bool, first: u8, second: u8) -> bool
    ensures { result ≡ opens nesting first second }
{
    nesting && (first == b'/' && second == b'*')
}

#[tactic(auto, using(crate::proofs::EndSteps::after_more, crate::proofs::EndSteps::comment_two))]
fn comment_end(nesting: bool, text: &[u8]) -> Option<usize>
    ensures value { result ≡ comment_end nesting 1 text.now }
    ensures bound { IfSome result (λ end. end ≤ length text.now) }
    ensures some { IfSome result (λ end. 0 < end) }
{
    let mut outer: usize = 0;
    let mut passed = 0;
    let mut rest = text;
    while let [first, second, after @ ..] = rest {
        if closes(*first, *second) {
            if outer == 0 {
                return Some(passed + 2);
            }
            outer -= 1;
            passed += 2;
            rest = after;
        } else if opens(nesting, *first, *second) {
            outer += 1;
            passed += 2;
            rest = after;
        } else {
            passed += 1;
            rest = &rest[1..];
        }
    }
    None
}

pub(crate) fn comment_length(nesting: bool, text: &[u8]) -> Option<usize>
    ensures value { result ≡ comment_length nesting text.now }
    ensures bound { IfSome result (λ n. n ≤ length text.now) }
    ensures some { IfSome result (λ n. 0 < n) }
{
    after(2, comment_end(nesting, from(text, 2)))
}
