use lq_base::{Items, NoMemory, Text};
use lq_outside::SureFiles;
use std::alloc::Global;

/// A file's path and what it holds.
pub type File<'a> = (&'a str, &'a str);

/// Files by their paths.
pub type Held = Items<(Text, Items<u8>)>;

/// Adds a file of these bytes.
pub fn hold(alloc: Global, path: &str, bytes: &[u8], to: &mut Held) -> Result<(), NoMemory> {
    let path = Text::new(alloc, path)?;
    let bytes = Items::from_slice(alloc, bytes)?;
    to.push((path, bytes))?;
    Ok(())
}

/// These files.
pub fn held_of(alloc: Global, files: &[File<'_>]) -> Result<Held, NoMemory> {
    let mut held = Items::new(alloc);
    for file in files {
        hold(alloc, file.0, file.1.as_bytes(), &mut held)?;
    }
    Ok(held)
}

/// These files, in memory.
pub fn files_of(alloc: Global, files: &[File<'_>]) -> Result<SureFiles, NoMemory> {
    Ok(SureFiles::new(alloc, held_of(alloc, files)?))
}

fn push_pair(
    alloc: Global,
    pair: &(&str, &str),
    to: &mut Items<(Text, Text)>,
) -> Result<(), NoMemory> {
    let name = Text::new(alloc, pair.0)?;
    let value = Text::new(alloc, pair.1)?;
    to.push((name, value))?;
    Ok(())
}

/// Properties of the command line.
pub fn given_of(alloc: Global, pairs: &[(&str, &str)]) -> Result<Items<(Text, Text)>, NoMemory> {
    let mut given = Items::new(alloc);
    for pair in pairs {
        push_pair(alloc, pair, &mut given)?;
    }
    Ok(given)
}
