ghost use Rattle.std.specs.Prelude.{◌≡◌, ◌++◌, ◌∷◌, ◌↔◌, IfOk, IsTrue, OnOk, Some, slice_get, List, ℕ};
ghost use Rattle.std.specs.List.{Contains};
ghost use Rattle.lq_outside.specs.Forms.{held_in, IsFound, IsListing, IsUnder, Notes};

use crate::Found;
use lq_base::{Items, NoMemory, Text};
use std::alloc::{AllocError, Global};

/// The first of the files at a path.
pub fn find(alloc: Global, files: &[(Text, Items<u8>)], path: &str) -> Result<Found, AllocError>
    ensures { IfOk result (IsFound (held_in files.now path.now)) }
{
    let mut rest = files;
    while let [first, after @ ..] = rest {
        if first.0.as_str() == path {
            return take_up(alloc, first.1.as_slice());
        }
        rest = after;
    }
    Ok(Found::Absent)
}

fn take_up(alloc: Global, bytes: &[u8]) -> Result<Found, AllocError>
    ensures { IfOk result (IsFound (Some bytes.now)) }
{
    if bytes.len() > 16_777_216 {
        return Ok(Found::TooLong);
    }
    Ok(Found::Bytes(Items::from_slice(alloc, bytes)?))
}

/// The paths of the files under a folder, each once.
pub fn paths_under(
    alloc: Global,
    files: &[(Text, Items<u8>)],
    folder: &str,
) -> Result<Items<Text>, NoMemory>
    ensures { IfOk result (IsListing (held_in files.now) folder.now) }
{
    let mut paths = Items::new(alloc);
    for file in files {
        note(alloc, &mut paths, folder, file.0.as_str())?;
    }
    Ok(paths)
}

// Adds a path that is under the folder, unless it is there.
fn note(alloc: Global, paths: &mut Items<Text>, folder: &str, path: &str) -> Result<(), NoMemory>
    ensures { OnOk result (Notes folder.now path.now paths.old paths.new) }
{
    if is_under(folder, path) && !is_among(paths.as_slice(), path) {
        paths.push(Text::new(alloc, path)?)?;
    }
    Ok(())
}

fn is_among(paths: &[Text], path: &str) -> bool
    ensures { IsTrue result ↔ Contains paths.now path.now }
{
    paths.iter().any(|other| other.as_str() == path)
}

fn is_under(folder: &str, path: &str) -> bool
    ensures { IsTrue result ↔ IsUnder folder.now path.now }
{
    if folder.is_empty() {
        return !is_rooted(path.as_bytes());
    }
    is_inside(folder.as_bytes(), path.as_bytes())
}

fn is_rooted(path: &[u8]) -> bool
    ensures { IsTrue result ↔ (slice_get path.now 0 ≡ Some 47) }
{
    match path {
        [b'/', ..] => true,
        _ => false,
    }
}

fn is_inside(folder: &[u8], path: &[u8]) -> bool
    ensures { IsTrue result ↔ ((rest : List ℕ) × (path.now ≡ folder.now ++ 47 ∷ rest)) }
{
    if path.len() <= folder.len() {
        return false;
    }
    let (front, back) = path.split_at(folder.len());
    front == folder && is_rooted(back)
}
