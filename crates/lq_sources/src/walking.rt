ghost use Rattle.std.specs.Prelude.{◌≡◌, ◌≤◌, ◌<◌, IsErrOf, false};
ghost use Rattle.lq_outside.specs.Forms.{Rose};
ghost use Rattle.lq_sources.specs.Faults.{Answers};
ghost use Rattle.lq_sources.specs.Walk.{contents, each, each_from, file, held, root_file, take_entry, take_folder, take_item, take_path, walked};
ghost use Rattle.lq_sources.specs.declared.fault.LoadFault.TheVariants.{Read};

use crate::fault::LoadFault;
use crate::gather::Gather;
use crate::gathering::gather_item;
use crate::item::Item;
use crate::listing::taken_under;
use crate::opening::{bytes_of, may_open, target_of, test_name};
use crate::reading::Reading;
use crate::taking::{entry_in, items_in, read_item, tree_in};
use crate::values::{changed, made_or};
use lq_base::Text;
use lq_outside::Files;
use lq_paths::Format;
use lq_tree::Node;
use std::alloc::Global;

/// What the parts of a loading share.
#[derive(Clone, Copy)]
struct Terms {
    alloc: Global,
    /// How many levels of includes may still be opened.
    levels: usize,
    is_root: bool,
}

#[cycle(file)]
fn read_file<F: Files, G: Gather>(
    terms: Terms,
    gather: &G,
    files: &mut F,
    path: &str,
    reading: &mut Reading,
    gathered: &mut G::Gathered,
) -> Result<(), LoadFault>
    ensures reads { Answers (F.told files.old) (λ source.
        file (G.means gather.now) source terms.levels terms.is_root path.now
        (held reading.old gathered.old)) result (held reading.new gathered.new) }
    ensures told { F.told files.new ≡ F.told files.old }
    ensures later { F.faults files.old ≤ F.faults files.new }
    ensures failed { IsErrOf result Read → Rose (F.faults files.old) (F.faults files.new) }
{
    let format = may_open(terms.alloc, path, terms.levels, reading)?;
    let terms = Terms {
        alloc: terms.alloc,
        levels: terms.levels - 1,
        is_root: terms.is_root,
    };
    read_contents(terms, gather, files, path, format, reading, gathered)
}

#[cycle(file)]
fn read_contents<F: Files, G: Gather>(
    terms: Terms,
    gather: &G,
    files: &mut F,
    path: &str,
    format: Format,
    reading: &mut Reading,
    gathered: &mut G::Gathered,
) -> Result<(), LoadFault>
    requires { reading.old.files < 10_000 }
    ensures reads { Answers (F.told files.old) (λ source.
        contents (G.means gather.now) source (file (G.means gather.now) source terms.levels false)
        terms.is_root path.now format (held reading.old gathered.old)) result
        (held reading.new gathered.new) }
    ensures told { F.told files.new ≡ F.told files.old }
    ensures later { F.faults files.old ≤ F.faults files.new }
    ensures failed { IsErrOf result Read → Rose (F.faults files.old) (F.faults files.new) }
{
    let bytes = bytes_of(terms.alloc, files, path, reading)?;
    let tree = tree_in(terms.alloc, gather, path, format, bytes.as_slice())?;
    let items = items_in(terms.alloc, path, &tree)?;
    reading.count_file(bytes.len());
    take_items(terms, gather, files, path, items, reading, gathered)
}

#[cycle(file)]
fn take_items<F: Files, G: Gather>(
    terms: Terms,
    gather: &G,
    files: &mut F,
    path: &str,
    items: &[Node],
    reading: &mut Reading,
    gathered: &mut G::Gathered,
) -> Result<(), LoadFault>
    ensures reads { Answers (F.told files.old) (λ source.
        each_from
        (take_item (G.means gather.now) source (file (G.means gather.now) source terms.levels false)
        terms.is_root path.now) 0 items.now (held reading.old gathered.old)) result
        (held reading.new gathered.new) }
    ensures told { F.told files.new ≡ F.told files.old }
    ensures later { F.faults files.old ≤ F.faults files.new }
    ensures failed { IsErrOf result Read → Rose (F.faults files.old) (F.faults files.new) }
{
    for (i, node) in items.iter().enumerate() {
        take_item(terms, gather, files, path, i, node, reading, gathered)?;
    }
    Ok(())
}

#[cycle(file)]
fn take_item<F: Files, G: Gather>(
    terms: Terms,
    gather: &G,
    files: &mut F,
    path: &str,
    i: usize,
    node: &Node,
    reading: &mut Reading,
    gathered: &mut G::Gathered,
) -> Result<(), LoadFault>
    ensures reads { Answers (F.told files.old) (λ source.
        take_item (G.means gather.now) source (file (G.means gather.now) source terms.levels false)
        terms.is_root path.now i node.now (held reading.old gathered.old)) result
        (held reading.new gathered.new) }
    ensures told { F.told files.new ≡ F.told files.old }
    ensures later { F.faults files.old ≤ F.faults files.new }
    ensures failed { IsErrOf result Read → Rose (F.faults files.old) (F.faults files.new) }
{
    let made = changed(terms.alloc, &reading.props, path, node)?;
    let node = made_or(&made, node);
    let entry = entry_in(terms.alloc, path, i, node)?;
    take_entry(terms, gather, files, path, i, entry, reading, gathered)
}

#[cycle(file)]
fn take_entry<F: Files, G: Gather>(
    terms: Terms,
    gather: &G,
    files: &mut F,
    path: &str,
    i: usize,
    entry: &(Text, Node),
    reading: &mut Reading,
    gathered: &mut G::Gathered,
) -> Result<(), LoadFault>
    ensures reads { Answers (F.told files.old) (λ source.
        take_entry (G.means gather.now) source (file (G.means gather.now) source terms.levels false)
        terms.is_root path.now i entry.now.0 entry.now.1 (held reading.old gathered.old)) result
        (held reading.new gathered.new) }
    ensures told { F.told files.new ≡ F.told files.old }
    ensures later { F.faults files.old ≤ F.faults files.new }
    ensures failed { IsErrOf result Read → Rose (F.faults files.old) (F.faults files.new) }
{
    let item = read_item(terms.alloc, gather, path, i, entry)?;
    match item {
        Item::Property(it) => Ok(reading.define(terms.alloc, path, it)?),
        Item::Other => {
            gather_item(
                terms.alloc,
                gather,
                files,
                terms.is_root,
                path,
                i,
                entry,
                reading,
                gathered,
            )
        }
        Item::Include(it) => {
            let target = target_of(terms.alloc, path, &it)?;
            read_path(terms, gather, files, target.as_str(), reading, gathered)
        }
        Item::IncludeAll(it) => {
            let folder = target_of(terms.alloc, path, &it)?;
            read_folder(terms, gather, files, folder.as_str(), reading, gathered)
        }
    }
}

/// Reads the files under a folder that an includeAll takes.
#[cycle(file)]
fn read_folder<F: Files, G: Gather>(
    terms: Terms,
    gather: &G,
    files: &mut F,
    folder: &str,
    reading: &mut Reading,
    gathered: &mut G::Gathered,
) -> Result<(), LoadFault>
    ensures reads { Answers (F.told files.old) (λ source.
        take_folder (file (G.means gather.now) source terms.levels false) source folder.now
        (held reading.old gathered.old)) result (held reading.new gathered.new) }
    ensures told { F.told files.new ≡ F.told files.old }
    ensures later { F.faults files.old ≤ F.faults files.new }
    ensures failed { IsErrOf result Read → Rose (F.faults files.old) (F.faults files.new) }
{
    let paths = taken_under(terms.alloc, files, folder)?;
    read_paths(terms, gather, files, paths.as_slice(), reading, gathered)
}

#[cycle(file)]
fn read_paths<F: Files, G: Gather>(
    terms: Terms,
    gather: &G,
    files: &mut F,
    paths: &[Text],
    reading: &mut Reading,
    gathered: &mut G::Gathered,
) -> Result<(), LoadFault>
    ensures reads { Answers (F.told files.old) (λ source.
        each (take_path (file (G.means gather.now) source terms.levels false)) paths.now
        (held reading.old gathered.old)) result (held reading.new gathered.new) }
    ensures told { F.told files.new ≡ F.told files.old }
    ensures later { F.faults files.old ≤ F.faults files.new }
    ensures failed { IsErrOf result Read → Rose (F.faults files.old) (F.faults files.new) }
{
    for path in paths {
        read_path(terms, gather, files, path.as_str(), reading, gathered)?;
    }
    Ok(())
}

/// Reads the file at a path that an include or includeAll leads to.
#[cycle(file)]
fn read_path<F: Files, G: Gather>(
    terms: Terms,
    gather: &G,
    files: &mut F,
    path: &str,
    reading: &mut Reading,
    gathered: &mut G::Gathered,
) -> Result<(), LoadFault>
    ensures reads { Answers (F.told files.old) (λ source.
        take_path (file (G.means gather.now) source terms.levels false) path.now
        (held reading.old gathered.old)) result (held reading.new gathered.new) }
    ensures told { F.told files.new ≡ F.told files.old }
    ensures later { F.faults files.old ≤ F.faults files.new }
    ensures failed { IsErrOf result Read → Rose (F.faults files.old) (F.faults files.new) }
{
    test_name(terms.alloc, path)?;
    let terms = Terms {
        alloc: terms.alloc,
        levels: terms.levels,
        is_root: false,
    };
    read_file(terms, gather, files, path, reading, gathered)
}

/// Reads the root and 32 levels of includes below it.
#[tactic(auto, unfolding(crate::specs::Walk::root_file))]
fn read_root<F: Files, G: Gather>(
    alloc: Global,
    gather: &G,
    files: &mut F,
    root: &str,
    reading: &mut Reading,
    gathered: &mut G::Gathered,
) -> Result<(), LoadFault>
    ensures reads { Answers (F.told files.old)
        (λ source. root_file (G.means gather.now) source root.now (held reading.old gathered.old))
        result (held reading.new gathered.new) }
    ensures told { F.told files.new ≡ F.told files.old }
    ensures later { F.faults files.old ≤ F.faults files.new }
    ensures failed { IsErrOf result Read → Rose (F.faults files.old) (F.faults files.new) }
{
    let terms = Terms {
        alloc,
        levels: 33,
        is_root: true,
    };
    read_file(terms, gather, files, root, reading, gathered)
}

/// Gathers what stands in the file `root` and in those that it includes, in order, with the
/// properties of the command line (Liquibase's documentation, "include", "includeAll" and "Property
/// Substitution in Changelogs"). The first fault is told, depth first: a whole file's tree before its items.
#[tactic(auto, unfolding(crate::specs::Walk::walked))]
pub fn walk<F: Files, G: Gather>(
    alloc: Global,
    gather: &G,
    files: &mut F,
    root: &str,
    given: &[(Text, Text)],
    gathered: &mut G::Gathered,
) -> Result<(), LoadFault>
    ensures reads { Answers (F.told files.old)
        (λ source. walked (G.means gather.now) source root.now given.now gathered.old) result
        gathered.new }
    ensures told { F.told files.new ≡ F.told files.old }
    ensures later { F.faults files.old ≤ F.faults files.new }
    ensures failed { IsErrOf result Read → Rose (F.faults files.old) (F.faults files.new) }
{
    test_name(alloc, root)?;
    let mut reading = Reading::new(alloc, given)?;
    let result = read_root(alloc, gather, files, root, &mut reading, gathered);
    drop(reading);
    match result {
        Ok(()) => Ok(()),
        Err(fault) => Err(fault),
    }
}
