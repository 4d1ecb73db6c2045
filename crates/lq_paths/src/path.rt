ghost use Rattle.std.specs.Prelude.{◌≡◌, ◌++◌, [], IfOk, OnOk, map, option_map, eqb};
ghost use Rattle.std.specs.List.{ends_with};
ghost use Rattle.lq_paths.specs.Paths.{Enters, ended, joined, with_ends, along, entered, is_passed, is_up, without_last, ends, folder_of, format_of, front, is_xml, parts, plain, with_slashes};

use lq_base::{Items, NoMemory, Text};
use std::alloc::{AllocError, Global};

/// What a file is written in.
#[derive(Clone, Copy, PartialEq, Eq)]
pub enum Format {
    Json,
    Yaml,
    Sql,
}

fn ends(path: &str, ending: &str) -> bool
    ensures { result ≡ ends path.now ending.now }
{
    path.ends_with(ending)
}

pub fn is_xml(path: &str) -> bool
    ensures { result ≡ is_xml path.now }
{
    ends(path, ".xml")
}

/// What the ending of a path says.
pub fn format_of(path: &str) -> Option<Format>
    ensures { result ≡ format_of path.now }
{
    if ends(path, ".json") {
        Some(Format::Json)
    } else if ends(path, ".yaml") || ends(path, ".yml") {
        Some(Format::Yaml)
    } else if ends(path, ".sql") {
        Some(Format::Sql)
    } else {
        None
    }
}

fn parts_of(alloc: Global, path: &str) -> Result<Vec<&str>, AllocError>
    ensures { IfOk result (λ found. map (λ part. part.now) found.items ≡ parts path.now) }
{
    path.split('/').collect(alloc)
}

fn is_passed(part: &str) -> bool
    ensures { result ≡ is_passed part.now }
{
    part == "" || part == "."
}

fn is_up(part: &str) -> bool
    ensures { result ≡ is_up part.now }
{
    part == ".."
}

/// Goes back one part, if there is one.
fn leave(way: &mut Items<&str>) -> bool
    ensures { Enters result (without_last (map (λ p. p.now) way.old)) (map (λ p. p.now) way.new) }
{
    way.pop().is_some()
}

/// Goes on along one more part, if it does not lead out.
fn enter<'a>(way: &mut Items<&'a str>, part: &'a str) -> Result<bool, NoMemory>
    ensures { IfOk result
        (λ so. Enters so (entered (map (λ p. p.now) way.old) part.now)
        (map (λ p. p.now) way.new)) }
{
    if is_passed(part) {
        return Ok(true);
    }
    if is_up(part) {
        return Ok(leave(way));
    }
    way.push(part)?;
    Ok(true)
}

/// The way along these parts, if it does not lead out of where it begins.
fn along<'a>(alloc: Global, parts: &[&'a str]) -> Result<Option<Items<&'a str>>, NoMemory>
    ensures { IfOk result
        (λ way. option_map (map (λ p. p.now)) way ≡ along [] (map (λ p. p.now) parts.now)) }
{
    let mut way = Items::new(alloc);
    for part in parts {
        if !enter(&mut way, part)? {
            return Ok(None);
        }
    }
    Ok(Some(way))
}

/// The parts with slashes between, behind the text.
fn append_parts(text: &mut Text, parts: &[&str]) -> Result<(), NoMemory>
    ensures { OnOk result (text.new ≡ text.old ++ with_slashes (map (λ p. p.now) parts.now)) }
{
    let Some((first, rest)) = parts.split_first() else {
        return Ok(());
    };
    text.push_str(first)?;
    for part in rest {
        text.push_str("/")?;
        text.push_str(part)?;
    }
    Ok(())
}

/// A path without empty parts, `.` and `..`, if it does not lead out of where it begins.
#[tactic(auto, unfolding(crate::specs::Paths::plain))]
pub fn plain(alloc: Global, path: &str) -> Result<Option<Text>, NoMemory>
    ensures { IfOk result (λ found. found ≡ plain path.now) }
{
    let parts = parts_of(alloc, path)?;
    let Some(way) = along(alloc, parts.as_slice())? else {
        return Ok(None);
    };
    let mut text = Text::new(alloc, if path.starts_with('/') { "/" } else { "" })?;
    append_parts(&mut text, way.as_slice())?;
    Ok(Some(text))
}

fn append_ended(text: &mut Text, parts: &[&str]) -> Result<(), NoMemory>
    ensures { OnOk result (text.new ≡ text.old ++ with_ends (map (λ p. p.now) parts.now)) }
{
    for part in parts {
        text.push_str(part)?;
        text.push_str("/")?;
    }
    Ok(())
}

fn append_folder(alloc: Global, text: &mut Text, path: &str) -> Result<(), NoMemory>
    ensures { OnOk result (text.new ≡ text.old ++ folder_of path.now) }
{
    let parts = parts_of(alloc, path)?;
    match parts.as_slice().split_last() {
        Some((_, front)) => append_ended(text, front),
        None => Ok(()),
    }
}

/// What an include in a file names.
pub fn joined(alloc: Global, including: &str, relative: bool, path: &str) -> Result<Text, NoMemory>
    ensures { IfOk result (λ text. text ≡ joined including.now relative path.now) }
{
    let mut text = Text::new(alloc, "")?;
    if relative {
        append_folder(alloc, &mut text, including)?;
    }
    text.push_str(path)?;
    Ok(text)
}
