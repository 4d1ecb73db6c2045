//! An item of a file gathered, with the files that it wants.
ghost use Rattle.std.specs.Prelude.{◌≡◌, ◌≤◌, ◌<◌, ◌+◌, ◌-◌, ◌&&◌, IfOk, IsErrOf, cond, false, length, nat_le};
ghost use Rattle.lq_outside.specs.Forms.{Rose};
ghost use Rattle.lq_sources.specs.Faults.{Answers, Finds, Loads, map_ok};
ghost use Rattle.lq_sources.specs.Items.{so_far, with_set};
ghost use Rattle.lq_sources.specs.Walk.{held, is_set, item_gathered, item_with_files, tried, wanted_bytes};
ghost use Rattle.lq_sources.specs.declared.fault.LoadFault.TheVariants.{Read};

use crate::blame::in_item;
use crate::fault::{Lack, LoadFault};
use crate::gather::Gather;
use crate::item::Included;
use crate::opening::{bytes_of, target_of, test_name};
use crate::reading::Reading;
use lq_base::{Items, Text};
use lq_outside::Files;
use lq_tree::Node;
use std::alloc::Global;

/// Whether an item is a changeset too many.
fn is_too_many(key: &str, reading: &Reading) -> bool
    ensures { result ≡ (is_set key.now && nat_le 10000 (so_far reading.now).sets) }
{
    key == "changeSet" && reading.sets >= 10_000
}

/// Counts an item that is a changeset.
fn count_item(key: &str, reading: &mut Reading)
    requires { (is_set key.now && nat_le 10000 (so_far reading.old).sets) ≡ false }
    ensures { so_far reading.new
        ≡ cond (is_set key.now) (with_set (so_far reading.old)) (so_far reading.old) }
{
    if key == "changeSet" {
        reading.count_set();
    }
}

/// Gathers an item with the bytes of the files that it wanted so far: `None`, or the file that it wants
/// too, and nothing is gathered.
fn try_item<G: Gather>(
    alloc: Global,
    gather: &G,
    given: &[Items<u8>],
    is_root: bool,
    path: &str,
    i: usize,
    entry: &(Text, Node),
    gathered: &mut G::Gathered,
) -> Result<Option<Included>, LoadFault>
    ensures { Loads
        (tried (G.means gather.now) path.now i gathered.old
        ((G.means gather.now).gathers given.now is_root path.now entry.now.0 entry.now.1
        gathered.old)) (map_ok (λ wants. (wants, gathered.new)) result) }
{
    match gather.gather(
        alloc,
        given,
        is_root,
        path,
        entry.0.as_str(),
        &entry.1,
        gathered,
    ) {
        Ok(()) => Ok(None),
        Err(Lack::File(it)) => Ok(Some(it)),
        Err(Lack::Wrong(what)) => Err(in_item(alloc, path, i, what)),
    }
}

/// The bytes of the file that an item of the file at a path wants.
fn wanted_bytes<F: Files>(
    alloc: Global,
    files: &mut F,
    path: &str,
    it: &Included,
    reading: &Reading,
) -> Result<Items<u8>, LoadFault>
    ensures found { Finds (F.told files.old)
        (λ source. wanted_bytes source path.now it.now (so_far reading.now)) result }
    ensures told { F.told files.new ≡ F.told files.old }
    ensures later { F.faults files.old ≤ F.faults files.new }
    ensures failed { IsErrOf result Read → Rose (F.faults files.old) (F.faults files.new) }
    ensures few { IfOk result (λ _. reading.now.files < 10_000) }
    ensures room { IfOk result (λ bytes. reading.now.bytes + length bytes ≤ 67_108_864) }
{
    let place = target_of(alloc, path, it)?;
    test_name(alloc, place.as_str())?;
    if reading.files >= 10_000 {
        return Err(LoadFault::TooMany);
    }
    let bytes = bytes_of(alloc, files, place.as_str(), reading)?;
    Ok(bytes)
}

/// Gathers an item: each file that it wants is read and given to it, in turn.
#[tactic(auto, unfolding(crate::specs::Walk::item_with_files))]
fn take_wanted<F: Files, G: Gather>(
    alloc: Global,
    gather: &G,
    files: &mut F,
    is_root: bool,
    path: &str,
    i: usize,
    entry: &(Text, Node),
    reading: &mut Reading,
    gathered: &mut G::Gathered,
) -> Result<(), LoadFault>
    ensures reads { Answers (F.told files.old) (λ source.
        item_with_files (G.means gather.now) source is_root path.now i entry.now.0 entry.now.1
        (held reading.old gathered.old)) result (held reading.new gathered.new) }
    ensures told { F.told files.new ≡ F.told files.old }
    ensures later { F.faults files.old ≤ F.faults files.new }
    ensures failed { IsErrOf result Read → Rose (F.faults files.old) (F.faults files.new) }
    ensures sets { reading.new.sets ≡ reading.old.sets }
{
    let mut given = Items::new(alloc);
    let mut wants = try_item(
        alloc,
        gather,
        given.as_slice(),
        is_root,
        path,
        i,
        entry,
        gathered,
    )?;
    while let Some(it) = wants {
        let bytes = wanted_bytes(alloc, files, path, &it, reading)?;
        reading.count_file(bytes.len());
        given.push(bytes)?;
        let next = try_item(
            alloc,
            gather,
            given.as_slice(),
            is_root,
            path,
            i,
            entry,
            gathered,
        )?;
        wants = next;
    }
    Ok(())
}

/// Gathers an item of a file.
#[tactic(auto, unfolding(crate::specs::Walk::item_gathered))]
pub fn gather_item<F: Files, G: Gather>(
    alloc: Global,
    gather: &G,
    files: &mut F,
    is_root: bool,
    path: &str,
    i: usize,
    entry: &(Text, Node),
    reading: &mut Reading,
    gathered: &mut G::Gathered,
) -> Result<(), LoadFault>
    ensures reads { Answers (F.told files.old) (λ source.
        item_gathered (G.means gather.now) source is_root path.now i entry.now.0 entry.now.1
        (held reading.old gathered.old)) result (held reading.new gathered.new) }
    ensures told { F.told files.new ≡ F.told files.old }
    ensures later { F.faults files.old ≤ F.faults files.new }
    ensures failed { IsErrOf result Read → Rose (F.faults files.old) (F.faults files.new) }
{
    if is_too_many(entry.0.as_str(), reading) {
        return Err(LoadFault::TooMany);
    }
    take_wanted(
        alloc, gather, files, is_root, path, i, entry, reading, gathered,
    )?;
    count_item(entry.0.as_str(), reading);
    Ok(())
}
