ghost use Rattle.std.specs.Prelude.{◌≡◌, ◌≤◌, ◌<◌, ◌+◌, length, Err, IfOk, IsErrOf, Ok};
ghost use Rattle.lq_outside.specs.Forms.{Rose};
ghost use Rattle.lq_sources.specs.Faults.{Finds, Holds, Loads};
ghost use Rattle.lq_paths.specs.Paths.{joined};
ghost use Rattle.lq_sources.specs.Items.{so_far};
ghost use Rattle.lq_sources.specs.Walk.{bytes_read, may_name, may_open, named, target, written};
ghost use Rattle.lq_sources.specs.declared.fault.LoadFault.TheVariants.{Read, TooMany};

use crate::fault::{LoadFault, What};
use crate::item::Included;
use crate::reading::Reading;
use lq_base::{Items, Text, char_count, has_control};
use lq_outside::{Files, Found};
use lq_paths::{Format, format_of, is_xml, joined, plain};
use std::alloc::Global;

fn may_name(path: &str) -> bool
    ensures { result ≡ may_name path.now }
{
    let count = char_count(path);
    1 <= count && count <= 255 && !has_control(path)
}

/// Tests that a path may name a file.
pub fn test_name(alloc: Global, path: &str) -> Result<(), LoadFault>
    ensures { Holds (named path.now) result path.now }
{
    if may_name(path) {
        return Ok(());
    }
    Err(LoadFault::Fault {
        path: Text::new(alloc, path)?,
        what: What::BadPath,
    })
}

/// The path that an include or includeAll leads to.
#[tactic(auto, unfolding(crate::specs::Walk::target))]
pub fn target_of(alloc: Global, path: &str, it: &Included) -> Result<Text, LoadFault>
    ensures { Loads (target (joined path.now it.now.relative it.now.path)) result }
{
    let joined = joined(alloc, path, it.relative, it.path.as_str())?;
    match plain(alloc, joined.as_str())? {
        Some(path) => Ok(path),
        None => Err(LoadFault::Fault {
            path: joined,
            what: What::BadPath,
        }),
    }
}

/// What the file at a path is written in.
#[tactic(auto, unfolding(crate::specs::Walk::written))]
fn written(alloc: Global, path: &str) -> Result<Format, LoadFault>
    ensures loads { Loads (written path.now) result }
    ensures known { IfOk (written path.now) (λ format. result ≡ Ok format) }
{
    if is_xml(path) {
        return Err(LoadFault::Xml(Text::new(alloc, path)?));
    }
    match format_of(path) {
        Some(format) => Ok(format),
        None => Err(LoadFault::Fault {
            path: Text::new(alloc, path)?,
            what: What::UnknownFormat,
        }),
    }
}

/// Tests a path before its file is read.
pub fn may_open(
    alloc: Global,
    path: &str,
    levels: usize,
    reading: &Reading,
) -> Result<Format, LoadFault>
    ensures format { Loads (may_open path.now levels (so_far reading.now)) result }
    ensures many { may_open path.now levels (so_far reading.now) ≡ Err TooMany
        → result ≡ Err TooMany }
    ensures room { IfOk result (λ _. reading.now.files < 10_000) }
{
    let format = written(alloc, path)?;
    if levels == 0 {
        return Err(LoadFault::TooDeep(Text::new(alloc, path)?));
    }
    if reading.files >= 10_000 {
        return Err(LoadFault::TooMany);
    }
    Ok(format)
}

/// The bytes of a file, which is not too long.
#[tactic(auto, unfolding(crate::specs::Walk::bytes_read))]
pub fn bytes_of<F: Files>(
    alloc: Global,
    files: &mut F,
    path: &str,
    reading: &Reading,
) -> Result<Items<u8>, LoadFault>
    ensures found { Finds (F.told files.old)
        (λ source. bytes_read path.now (source.content path.now) (so_far reading.now)) result }
    ensures told { F.told files.new ≡ F.told files.old }
    ensures later { F.faults files.old ≤ F.faults files.new }
    ensures failed { IsErrOf result Read → Rose (F.faults files.old) (F.faults files.new) }
    ensures room { IfOk result (λ bytes. reading.now.bytes + length bytes ≤ 67_108_864) }
{
    match files.read(path)? {
        Found::Bytes(bytes) => {
            let length = bytes.len() as u64;
            if reading.bytes.saturating_add(length) > 67_108_864 {
                return Err(LoadFault::TooLong(Text::new(alloc, path)?));
            }
            Ok(bytes)
        }
        Found::Absent => Err(LoadFault::NoFile(Text::new(alloc, path)?)),
        Found::TooLong => Err(LoadFault::TooLong(Text::new(alloc, path)?)),
    }
}
