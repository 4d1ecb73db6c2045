ghost use Rattle.std.specs.Prelude.{◌≡◌, ◌<◌, ◌≤◌, ◌+◌, IfErr, IfOk, IfSome, drop, length, map, take};
ghost use Rattle.std.specs.List.{position};
ghost use Rattle.lq_cli.specs.Options.{each};
ghost use Rattle.lq_lines.specs.File.{command_of, url_word, both_of, cut_lines, is_steps, lines_in, lines_of, lines_with, HasForm, Gives};

use crate::command::command_of;
use crate::fault::LinesFault;
use crate::lines::Lines;
use crate::steps::steps_of;
use lq_base::{Dialect, Items, NoMemory, Text};
use lq_cli::Line;
use std::alloc::{AllocError, Global};

/// Reads the file of a drill on the database of this dialect and path. `Usage` comes exactly where
/// the bytes are no such file.
///
/// The file has 1 to 64 command lines, without `--url` and with one space between words; then a line
/// `steps`; then up to 1,000,000 numbers of command lines, from 1, with blanks or line feeds between.
pub fn read_lines(
    alloc: Global,
    dialect: Dialect,
    path: &str,
    file: &[u8],
) -> Result<Lines, LinesFault>
    ensures lines { IfOk result (λ lines. lines_of dialect path.now file.now ≡ Some lines) }
    ensures form { IfOk result (λ lines. HasForm lines) }
    ensures usage { IfErr result
        (λ fault. fault ≡ LinesFault.Usage → lines_of dialect path.now file.now ≡ None) }
{
    match lines_of(alloc, dialect, path, file) {
        Ok(lines) => Ok(lines),
        Err(LinesFault::Usage) => Err(LinesFault::Usage),
        Err(LinesFault::OutOfMemory) => Err(LinesFault::OutOfMemory),
    }
}

fn lines_of(alloc: Global, dialect: Dialect, path: &str, file: &[u8]) -> Result<Lines, LinesFault>
    ensures { Gives (lines_of dialect path.now file.now) result }
{
    let url = url_word(alloc, dialect, path)?;
    match str::from_utf8(file) {
        Ok(text) => lines_in_text(alloc, url.as_str(), text),
        Err(_) => Err(LinesFault::Usage),
    }
}

fn url_word(alloc: Global, dialect: Dialect, path: &str) -> Result<Text, NoMemory>
    ensures { IfOk result (λ word. word ≡ url_word dialect path.now) }
{
    let mut word = Text::new(alloc, "--url=")?;
    word.push_str(dialect.text())?;
    word.push_str(":")?;
    word.push_str(path)?;
    Ok(word)
}

fn lines_in_text(alloc: Global, url: &str, text: &str) -> Result<Lines, LinesFault>
    ensures { Gives (cut_lines url.now (lines_in text.now)) result }
{
    let lines = lines_in(alloc, text)?;
    cut_lines(alloc, url, &lines)
}

fn lines_in(alloc: Global, text: &str) -> Result<Vec<&str>, AllocError>
    ensures { IfOk result (λ lines. map (λ line. line.now) lines.items ≡ lines_in text.now) }
{
    text.split('\n').collect(alloc)
}

#[tactic(auto, unfolding(crate::specs::File::cut_lines))]
fn cut_lines(alloc: Global, url: &str, lines: &[&str]) -> Result<Lines, LinesFault>
    ensures { Gives (cut_lines url.now (map (λ line. line.now) lines.now)) result }
{
    match steps_place(lines) {
        Some(place) => lines_with(alloc, url, lines, place),
        None => Err(LinesFault::Usage),
    }
}

/// The place of the first line `steps`.
fn steps_place(lines: &[&str]) -> Option<usize>
    ensures place { result ≡ position is_steps (map (λ line. line.now) lines.now) }
    ensures within { IfSome result (λ place. place < length lines.now) }
{
    for place in 0..lines.len() {
        if is_steps(lines[place]) {
            return Some(place);
        }
    }
    None
}

fn is_steps(line: &str) -> bool
    ensures { result ≡ is_steps line.now }
{
    line == "steps"
}

#[tactic(auto, unfolding(crate::specs::File::lines_with))]
fn lines_with(alloc: Global, url: &str, lines: &[&str], place: usize) -> Result<Lines, LinesFault>
    requires { place < length lines.now }
    ensures { Gives
        (lines_with url.now (take place (map (λ line. line.now) lines.now))
        (drop (place + 1) (map (λ line. line.now) lines.now))) result }
{
    if 1 <= place && place <= 64 {
        both_of(alloc, url, lines, place)
    } else {
        Err(LinesFault::Usage)
    }
}

#[tactic(auto, unfolding(crate::specs::File::both_of))]
fn both_of(alloc: Global, url: &str, lines: &[&str], place: usize) -> Result<Lines, LinesFault>
    requires within { place < length lines.now }
    requires few { place ≤ 64 }
    ensures { Gives
        (both_of url.now (take place (map (λ line. line.now) lines.now))
        (drop (place + 1) (map (λ line. line.now) lines.now))) result }
{
    let commands = each_command(alloc, url, &lines[..place])?;
    let steps = steps_of(alloc, place as u32, &lines[place + 1..])?;
    Ok(Lines {
        lines: commands,
        steps,
    })
}

fn each_command(alloc: Global, url: &str, texts: &[&str]) -> Result<Items<Line>, LinesFault>
    ensures { Gives (each (command_of url.now) (map (λ text. text.now) texts.now)) result }
{
    let mut commands = Items::new(alloc);
    for text in texts {
        commands.push(command_of(alloc, url, text)?)?;
    }
    Ok(commands)
}
