ghost use Rattle.std.specs.Prelude.{◌≡◌, ◌∷◌, IfOk, map, string_bytes};
ghost use Rattle.std.specs.List.{list_any};
ghost use Rattle.lq_cli.specs.Line.{line_of};
ghost use Rattle.lq_lines.specs.File.{command_of, is_empty, is_run, only_run, with_url, words_in, Gives};

use crate::fault::LinesFault;
use lq_cli::{Job, Line, WordsFault, read_words};
use std::alloc::{AllocError, Global};

/// What a command line asks for, with this option of the database behind the command's name.
#[tactic(auto, unfolding(crate::specs::File::command_of))]
pub fn command_of(alloc: Global, url: &str, text: &str) -> Result<Line, LinesFault>
    ensures { Gives (command_of url.now text.now) result }
{
    let words = words_in(alloc, text)?;
    if has_empty(&words) {
        return Err(LinesFault::Usage);
    }
    let given = with_url(alloc, url, &words)?;
    only_run(line_of(alloc, &given)?)
}

fn words_in(alloc: Global, text: &str) -> Result<Vec<&str>, AllocError>
    ensures { IfOk result (λ words. map (λ word. word.now) words.items ≡ words_in text.now) }
{
    text.split(' ').collect(alloc)
}

fn has_empty(words: &[&str]) -> bool
    ensures { result ≡ list_any is_empty (map (λ word. word.now) words.now) }
{
    for word in words {
        if word.is_empty() {
            return true;
        }
    }
    false
}

fn with_url(alloc: Global, url: &str, words: &[&str]) -> Result<Vec<String>, AllocError>
    ensures { IfOk result (λ given. map (λ word. string_bytes word) given.items
        ≡ with_url url.now (map (λ word. word.now) words.now)) }
{
    match words {
        [name, others @ ..] => named(alloc, name, url, others),
        [] => Ok(Vec::new(alloc)),
    }
}

fn named(alloc: Global, name: &str, url: &str, others: &[&str]) -> Result<Vec<String>, AllocError>
    ensures { IfOk result (λ given. map (λ word. string_bytes word) given.items
        ≡ name.now ∷ url.now ∷ map (λ word. word.now) others.now) }
{
    let mut given = Vec::new(alloc);
    given.push(String::from_str(alloc, name)?)?;
    given.push(String::from_str(alloc, url)?)?;
    for word in others {
        given.push(String::from_str(alloc, word)?)?;
    }
    Ok(given)
}

fn line_of(alloc: Global, words: &[String]) -> Result<Line, LinesFault>
    ensures { Gives (line_of (map (λ word. string_bytes word) words.now)) result }
{
    match read_words(alloc, words) {
        Ok(line) => Ok(line),
        Err(WordsFault::Usage) => Err(LinesFault::Usage),
        Err(WordsFault::OutOfMemory) => Err(LinesFault::OutOfMemory),
    }
}

fn only_run(line: Line) -> Result<Line, LinesFault>
    ensures { Gives (only_run line) result }
{
    if is_run(&line.job) {
        Ok(line)
    } else {
        Err(LinesFault::Usage)
    }
}

fn is_run(job: &Job) -> bool
    ensures { result ≡ is_run job.now }
{
    match job {
        Job::Run(_) => true,
        _ => false,
    }
}
