ghost use Rattle.std.specs.Prelude.{◌≡◌, ◌++◌, IfOk, filter, map, option_map};
ghost use Rattle.std.specs.List.{flat_map, slice_split};
ghost use Rattle.lq_base.specs.Kind.{is_blank};
ghost use Rattle.lq_cli.specs.Options.{each};
ghost use Rattle.lq_lines.specs.File.{Gives, is_word, numbers_in, step_of, steps_of};

use crate::fault::LinesFault;
use lq_base::{Items, plain_number};
use std::alloc::{AllocError, Global};

/// The numbers in these lines, where there are so many command lines.
#[tactic(auto, unfolding(crate::specs::File::steps_of))]
pub fn steps_of(alloc: Global, count: u32, lines: &[&str]) -> Result<Items<u32>, LinesFault>
    ensures { Gives (steps_of count (map (λ line. line.now) lines.now)) result }
{
    let steps = each_line(alloc, count, lines)?;
    if steps.len() <= 1_000_000 {
        Ok(steps)
    } else {
        Err(LinesFault::Usage)
    }
}

fn each_line(alloc: Global, count: u32, lines: &[&str]) -> Result<Items<u32>, LinesFault>
    ensures { Gives (each (step_of count) (flat_map numbers_in (map (λ line. line.now) lines.now)))
        result }
{
    let mut steps = Items::new(alloc);
    for line in lines {
        steps = with_line(alloc, count, line, steps)?;
    }
    Ok(steps)
}

#[tactic(auto, unfolding(crate::specs::File::numbers_in))]
fn with_line(
    alloc: Global,
    count: u32,
    line: &str,
    steps: Items<u32>,
) -> Result<Items<u32>, LinesFault>
    ensures { Gives
        (option_map (λ more. steps ++ more) (each (step_of count) (numbers_in line.now))) result }
{
    let parts = parts_of(alloc, line.as_bytes())?;
    with_parts(count, &parts, steps)
}

fn parts_of(alloc: Global, line: &[u8]) -> Result<Vec<&[u8]>, AllocError>
    ensures { IfOk result
        (λ parts. map (λ part. part.now) parts.items ≡ slice_split is_blank line.now) }
{
    line.split(|byte| *byte == b' ' || *byte == b'\t')
        .collect(alloc)
}

fn with_parts(count: u32, parts: &[&[u8]], mut steps: Items<u32>) -> Result<Items<u32>, LinesFault>
    ensures { Gives
        (option_map (λ more. steps ++ more)
        (each (step_of count) (filter is_word (map (λ part. part.now) parts.now)))) result }
{
    for part in parts {
        if part.is_empty() {
            continue;
        }
        steps.push(step_of(count, part)?)?;
    }
    Ok(steps)
}

#[tactic(auto, unfolding(crate::specs::File::step_of, lq_cli::specs::Options::number_from))]
fn step_of(count: u32, word: &[u8]) -> Result<u32, LinesFault>
    ensures { Gives (step_of count word.now) result }
{
    match plain_number(word) {
        Some(number) if 1 <= number && number <= u128::from(count) => Ok(number as u32),
        _ => Err(LinesFault::Usage),
    }
}
