// All files under a folder.
ghost use Rattle.std.specs.Prelude.{◌≡◌, IfOk};
ghost use Rattle.lq_host.specs.Host.{joined};

use lq_base::{Items, NoMemory, Text};
use std::alloc::{AllocError, Global};
use std::fs;
use std::io::{self, ErrorKind};

// How far below the first folder others may lie.
const MAX_LEVELS: u64 = 64;

// How many files and folders may be met.
const MAX_ENTRIES: u64 = 1_000_000;

#[derive(Drop)]
struct Walk<'a> {
    rt: &'a HostRuntime,
    files: Items<Text>,
    entries: u64,
}

// What is found at a path, after all links.
#[derive(Clone, Copy, PartialEq, Eq)]
enum Node {
    Folder,
    File,
    Other,
}

/// The paths of all files under a folder, links followed, and none where there is no such folder. It
/// fails where a link leads nowhere, where a folder lies more than 64 levels below the first one, and
/// where there are more than 1,000,000 files and folders.
pub fn files_under(rt: &HostRuntime, folder: &str) -> io::Result<Items<Text>> {
    let mut walk = Walk {
        rt,
        files: Items::new(rt.alloc()),
        entries: 0,
    };
    if is_folder(rt, on_system(folder))? {
        walk.visit(folder, MAX_LEVELS)?;
    }
    let Walk { files, .. } = walk;
    Ok(files)
}

impl Walk<'_> {
    // Notes the files of a folder, below which others may lie so many levels deep.
    fn visit(&mut self, folder: &str, levels: u64) -> io::Result<()> {
        for entry in fs::read_dir(self.rt, on_system(folder))? {
            let entry = entry?;
            self.entries = self.entries.saturating_add(1);
            if self.entries > MAX_ENTRIES {
                return Err(ErrorKind::Unsupported.into());
            }
            let path = path_in(self.rt.alloc(), folder, entry.file_name()).map_err(|_| AllocError)?;
            match node_at(self.rt, path.as_str())? {
                Node::Folder if levels == 0 => return Err(ErrorKind::Unsupported.into()),
                Node::Folder => self.visit(path.as_str(), levels - 1)?,
                Node::File => self.files.push(path)?,
                Node::Other => {}
            }
        }
        Ok(())
    }
}

// Whether there is a folder at a path. It may be of nothing, or below a file.
fn is_folder(rt: &HostRuntime, path: &str) -> io::Result<bool> {
    match node_at(rt, path) {
        Ok(node) => Ok(node == Node::Folder),
        Err(error) => match error.kind() {
            ErrorKind::NotFound | ErrorKind::NotADirectory | ErrorKind::InvalidFilename => {
                Ok(false)
            }
            _ => Err(error),
        },
    }
}

fn node_at(rt: &HostRuntime, path: &str) -> io::Result<Node> {
    let found = fs::metadata(rt, path)?;
    if found.is_dir() {
        Ok(Node::Folder)
    } else if found.is_file() {
        Ok(Node::File)
    } else {
        Ok(Node::Other)
    }
}

// The current folder has the empty text here, and a dot for the system.
fn on_system(folder: &str) -> &str {
    if folder.is_empty() { "." } else { folder }
}

fn path_in(alloc: Global, folder: &str, name: &str) -> Result<Text, NoMemory>
    ensures { IfOk result (λ path. path ≡ joined folder.now name.now) }
{
    if folder.is_empty() {
        return Text::new(alloc, name);
    }
    let mut path = Text::new(alloc, folder)?;
    path.push_str("/")?;
    path.push_str(name)?;
    Ok(path)
}
