ghost use Rattle.std.specs.Prelude.{◌≡◌, ◌≤◌, IfOk, IsErrOf, Ok};
ghost use Rattle.std.specs.List.{filter};
ghost use Rattle.std.specs.List.Sorted.{IsPermutation, IsSorted};
ghost use Rattle.lq_base.specs.Name.{text_cmp};
ghost use Rattle.lq_outside.specs.Forms.{Rose};
ghost use Rattle.lq_sources.specs.Faults.{Finds, map_ok};
ghost use Rattle.lq_sources.specs.Walk.{is_taken, taken_under};
ghost use Rattle.lq_sources.specs.declared.fault.LoadFault.TheVariants.{Read};

use crate::fault::LoadFault;
use lq_base::{Items, NoMemory, Text};
use lq_outside::Files;
use lq_paths::{format_of, is_xml};
use std::alloc::Global;

fn is_taken(path: &str) -> bool
    ensures { result ≡ is_taken path.now }
{
    is_xml(path) || format_of(path).is_some()
}

/// The paths moved into a list that can be put in order.
fn vec_of(alloc: Global, paths: Items<Text>) -> Result<Vec<Text>, NoMemory>
    ensures { IfOk result (λ moved. IsPermutation paths moved.items) }
{
    let mut paths = paths;
    let mut moved = Vec::new(alloc);
    while let Some(path) = paths.pop() {
        moved.push(path)?;
    }
    Ok(moved)
}

/// The paths in order of their bytes.
fn in_order(alloc: Global, paths: Items<Text>) -> Result<Vec<Text>, NoMemory>
    ensures moved { IfOk result (λ sorted. IsPermutation paths sorted.items) }
    ensures order { IfOk result (λ sorted. IsSorted text_cmp sorted.items) }
{
    let mut sorted = vec_of(alloc, paths)?;
    sorted.sort_unstable();
    Ok(sorted)
}

/// The paths of all files under a folder, in order of their bytes.
fn paths_under<F: Files>(alloc: Global, files: &mut F, folder: &str) -> Result<Vec<Text>, LoadFault>
    ensures found { Finds (F.told files.old) (λ source. Ok (source.under folder.now))
        (map_ok (λ paths. paths.items) result) }
    ensures told { F.told files.new ≡ F.told files.old }
    ensures later { F.faults files.old ≤ F.faults files.new }
    ensures failed { IsErrOf result Read → Rose (F.faults files.old) (F.faults files.new) }
{
    let paths = files.list(folder)?;
    Ok(in_order(alloc, paths)?)
}

/// Those of the paths that an includeAll takes.
fn taken_of(paths: Vec<Text>) -> Items<Text>
    ensures { result ≡ filter is_taken paths.items }
{
    let mut kept = paths;
    kept.retain(|path| is_taken(path.as_str()));
    Items::from_vec(kept)
}

/// The files under a folder that an includeAll takes, in order of the bytes of their paths.
#[tactic(auto, unfolding(crate::specs::Walk::taken_under))]
pub fn taken_under<F: Files>(
    alloc: Global,
    files: &mut F,
    folder: &str,
) -> Result<Items<Text>, LoadFault>
    ensures found { Finds (F.told files.old) (λ source. taken_under source folder.now) result }
    ensures told { F.told files.new ≡ F.told files.old }
    ensures later { F.faults files.old ≤ F.faults files.new }
    ensures failed { IsErrOf result Read → Rose (F.faults files.old) (F.faults files.new) }
{
    let paths = paths_under(alloc, files, folder)?;
    let taken = taken_of(paths);
    if taken.is_empty() {
        return Err(LoadFault::NoFile(Text::new(alloc, folder)?));
    }
    Ok(taken)
}
