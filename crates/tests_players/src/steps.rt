ghost use Rattle.std.specs.Prelude.{◌≡◌, ◌≤◌, All, true};

use std::alloc::Global;
use std::process::Abort;

/// Appends a number so many times.
pub fn push_times(rt: &impl Abort, number: u32, times: u32, to: &mut Vec<u32>) {
    for _ in 0..times {
        to.push(number).expect(rt, "memory");
    }
}

fn push_word(rt: &impl Abort, word: &str, to: &mut Vec<u32>) {
    let (number, times) = match word.split_once('*') {
        Some(parts) => parts,
        None => (word, "1"),
    };
    let number = number.parse::<u32>().expect(rt, "a number");
    let times = times.parse::<u32>().expect(rt, "a count");
    push_times(rt, number, times, to)
}

/// The steps of a schedule, as `1 2 1*14`: a step of the first command, one of the second and fourteen
/// more of the first.
pub fn steps(rt: &impl Abort, alloc: Global, text: &str) -> Vec<u32> {
    let mut steps = Vec::new(alloc);
    for word in text.split_ascii_whitespace() {
        push_word(rt, word, &mut steps);
    }
    steps
}

/// Whether these are numbers from 1 of so many.
pub fn are_numbers(steps: &[u32], count: usize) -> bool
    ensures { result ≡ true → All (λ n. (1 ≤ n) × (n ≤ count)) steps.now }
{
    for step in steps {
        if !is_number(*step, count) {
            return false;
        }
    }
    true
}

fn is_number(step: u32, count: usize) -> bool
    ensures { result ≡ true → (1 ≤ step) × (step ≤ count) }
{
    1 <= step && step as usize <= count
}
