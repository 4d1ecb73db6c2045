ghost use Rattle.std.specs.Prelude.{◌≡◌, ◌+◌, ◌<◌, ◌≤◌, ◌^◌, length, IfSome};
ghost use Rattle.lq_base.specs.Sql.{after, is_pair, quoted_end, quoted_length};

use lq_marks::{byte_at, from};

pub(crate) fn after(count: usize, more: Option<usize>) -> Option<usize>
    requires { IfSome more (λ n. count + n < 2 ^ 64) }
    ensures { result ≡ after count more }
{
    match more {
        Some(n) => Some(count + n),
        None => None,
    }
}

fn is_pair(escaping: bool, quote: u8, first: u8, second: u8) -> bool
    ensures { result ≡ is_pair escaping quote first second }
{
    (first == quote && second == quote) || (escaping && first == b'\\')
}

#[tactic(auto, using(crate::proofs::EndSteps::after_more, crate::proofs::EndSteps::quoted_two))]
fn quoted_end(escaping: bool, quote: u8, text: &[u8]) -> Option<usize>
    ensures value { result ≡ quoted_end escaping quote text.now }
    ensures bound { IfSome result (λ end. end ≤ length text.now) }
    ensures some { IfSome result (λ end. 0 < end) }
{
    let mut passed = 0;
    let mut rest = text;
    while let [first, second, after @ ..] = rest {
        if is_pair(escaping, quote, *first, *second) {
            passed += 2;
            rest = after;
        } else if *first == quote {
            return Some(passed + 1);
        } else {
            passed += 1;
            rest = &rest[1..];
        }
    }
    match rest {
        [last] if *last == quote => Some(passed + 1),
        _ => None,
    }
}

pub(crate) fn quoted_length(escaping: bool, text: &[u8]) -> Option<usize>
    ensures value { result ≡ quoted_length escaping text.now }
    ensures bound { IfSome result (λ n. n ≤ length text.now) }
    ensures some { IfSome result (λ n. 0 < n) }
{
    after(1, quoted_end(escaping, byte_at(text, 0), from(text, 1)))
}
