ghost use Rattle.std.specs.Prelude.{◌+◌};

use lq_base::{Items, Text};
use lq_outside::{
    Clock, Disk, DiskFailed, Files, FilesFault, Found, Fuse, MemDisk, MemFiles, MemSink, SetClock,
    Sink, SinkFailed, SureDisk, SureFiles, SureSink, write_all,
};
use std::alloc::Global;
use std::test::Fail;

fn file(alloc: Global, path: &str, text: &str) -> Result<(Text, Items<u8>), Fail> {
    let path = Text::new(alloc, path)?;
    Ok((path, Items::from_slice(alloc, text.as_bytes())?))
}

// Three files in two folders, and one beside them.
fn files(alloc: Global) -> Result<Items<(Text, Items<u8>)>, Fail> {
    let mut files = Items::new(alloc);
    for (path, text) in [
        ("db/2.sql", "two"),
        ("db/old/1.sql", "one"),
        ("dbs.sql", "beside"),
        ("/db/3.sql", "rooted"),
        ("db/2.sql", "hidden"),
    ] {
        let made = file(alloc, path, text)?;
        files.push(made)?;
    }
    Ok(files)
}

// What a read gives, as one line.
fn shown<F: Files>(files: &mut F, path: &str, want: &str) -> bool {
    match files.read(path) {
        Ok(Found::Bytes(bytes)) => bytes.as_slice() == want.as_bytes(),
        Ok(Found::Absent) => want == "absent",
        Ok(Found::TooLong) => want == "too long",
        Err(FilesFault::Failed) => want == "failed",
        Err(FilesFault::OutOfMemory) => false,
    }
}

// Whether a folder has these paths, in any order.
fn lists<F: Files>(files: &mut F, folder: &str, want: &[&str]) -> bool {
    match files.list(folder) {
        Ok(paths) => {
            paths.len() == want.len()
                && want.iter().all(|path| paths
                    .as_slice()
                    .iter()
                    .any(|found| found.as_str() == *path))
        }
        Err(_) => false,
    }
}

#[test]
fn files_are_found_and_listed(rt: HostRuntime) -> Result<(), Fail> {
    let mut sure = SureFiles::new(rt.alloc(), files(rt.alloc())?);
    for (path, want) in [
        ("db/2.sql", "two"),
        ("db/old/1.sql", "one"),
        ("db", "absent"),
        ("db/2.sq", "absent"),
    ] {
        assert!(rt; shown(&mut sure, path, want), "{path}");
    }
    assert!(rt; lists(&mut sure, "db", &["db/2.sql", "db/old/1.sql"]));
    assert!(rt; lists(&mut sure, "db/old", &["db/old/1.sql"]));
    assert!(rt; lists(&mut sure, "", &["db/2.sql", "db/old/1.sql", "dbs.sql"]));
    assert!(rt; lists(&mut sure, "d", &[]));
    assert!(rt; lists(&mut sure, "db/2.sql", &[]));
    Ok(())
}

#[test]
fn files_fail_at_their_numbers(rt: HostRuntime) -> Result<(), Fail> {
    let files = files(rt.alloc())?;
    let fail = Vec::from_slice(rt.alloc(), &[2, 3])?;
    let mut some = MemFiles::new(rt.alloc(), files, fail);
    for (path, want) in [
        ("dbs.sql", "beside"),
        ("dbs.sql", "failed"),
        ("absent", "failed"),
        ("dbs.sql", "beside"),
    ] {
        assert!(rt; shown(&mut some, path, want), "{path}");
    }
    assert!(rt; lists(&mut some, "db/old", &["db/old/1.sql"]));
    Ok(())
}

// One file of so many bytes.
fn of_length(alloc: Global, path: &str, len: usize) -> Result<Items<(Text, Items<u8>)>, Fail> {
    let path = Text::new(alloc, path)?;
    let bytes = vec![in alloc; 7u8; len]?;
    let mut files = Items::new(alloc);
    files.push((path, Items::from_vec(bytes)))?;
    Ok(files)
}

// Whether the file is read as a whole of so many bytes, or is too long.
fn is_whole<F: Files>(files: &mut F, path: &str, len: usize) -> Option<bool> {
    match files.read(path) {
        Ok(Found::Bytes(bytes)) => { if bytes.len() == len { Some(true) } else { None } }
        Ok(Found::TooLong) => Some(false),
        _ => None,
    }
}

#[test]
fn files_have_at_most_16_mebibytes(rt: HostRuntime) -> Result<(), Fail> {
    for (len, whole) in [(16_777_216, true), (16_777_217, false)] {
        let mut files = SureFiles::new(rt.alloc(), of_length(rt.alloc(), "long", len)?);
        assert_eq!(rt; is_whole(&mut files, "long", len), Some(whole), "{len}");
    }
    Ok(())
}

// One call of each kind: which of them succeed.
fn calls<D: Disk>(disk: &mut D) -> [bool; 4] {
    let wrote = disk.write_at(0, b"abcd").is_ok();
    let synced = disk.sync().is_ok();
    let sized = disk.size().is_ok();
    let read = disk.read(0, &mut []).is_ok();
    [wrote, synced, sized, read]
}

// A disk of two bytes, of which this call fails.
fn failing(alloc: Global, call: u64) -> Result<MemDisk, Fail> {
    let fail = Vec::from_slice(alloc, &[call])?;
    Ok(MemDisk::new(Vec::from_slice(alloc, b"xy")?, fail))
}

// What is on the disk after one call of each kind, where the first of them may fail.
fn left(first_fails: bool) -> &'static [u8] {
    if first_fails { b"xy" } else { b"abcd" }
}

#[test]
fn disks_fail_at_their_numbers(rt: HostRuntime) -> Result<(), Fail> {
    for n in 1..6u64 {
        let mut disk = failing(rt.alloc(), n)?;
        assert_eq!(rt; calls(&mut disk), [n != 1, n != 2, n != 3, n != 4], "{n}");
        assert_eq!(rt; disk.bytes(), left(n == 1), "{n}");
    }
    Ok(())
}

#[test]
fn disks_fail_from_their_numbers_on(rt: HostRuntime) -> Result<(), Fail> {
    for n in 1..6u64 {
        let whole = SureDisk::new(Vec::from_slice(rt.alloc(), b"xy")?);
        let mut fuse = Fuse::new(whole, n - 1);
        assert_eq!(rt; calls(&mut fuse), [n > 1, n > 2, n > 3, n > 4], "{n}");
        assert_eq!(rt; fuse.into_inner().bytes(), left(n == 1), "{n}");
    }
    Ok(())
}

#[test]
fn a_disk_keeps_what_is_written(rt: HostRuntime) -> Result<(), Fail> {
    let mut disk = SureDisk::new(Vec::from_slice(rt.alloc(), b"abcdef")?);
    let mut two = [0; 2];
    disk.write_at(4, b"EFGH")?;
    assert_eq!(rt; disk.bytes(), b"abcdEFGH".as_slice());
    assert_eq!(rt; disk.size()?, 8);
    assert_eq!(rt; disk.bytes().len(), 8);
    disk.read(3, &mut two)?;
    assert_eq!(rt; two, *b"dE");
    Ok(())
}

// A disk whose first write fails in its middle: the first half of its bytes is on the disk.
#[derive(Drop)]
struct TornDisk<D: Disk> {
    disk: D,
    torn: bool,
    refused: u64,
}

impl<D: Disk> Disk for TornDisk<D> {
    ghost told = { λ d. D.Disk.told d.disk };

    ghost faults = { λ d. D.Disk.faults d.disk + d.refused };

    ghost crashes = { λ d. D.Disk.crashes d.disk };

    ghost sound = { λ d. D.Disk.sound d.disk };

    fn size(&mut self) -> Result<u64, DiskFailed> {
        self.disk.size()
    }

    fn read(&mut self, at: u64, into: &mut [u8]) -> Result<(), DiskFailed> {
        self.disk.read(at, into)
    }

    fn write_at(&mut self, at: u64, bytes: &[u8]) -> Result<(), DiskFailed> {
        if self.torn {
            return self.disk.write_at(at, bytes);
        }
        let _ = self.disk.write_at(at, &bytes[..bytes.len() / 2]);
        self.torn = true;
        self.refused = self.refused.saturating_add(1);
        Err(DiskFailed)
    }

    fn sync(&mut self) -> Result<(), DiskFailed> {
        self.disk.sync()
    }
}

// Whether the disk has these bytes, at most 8, by its size and a read.
fn reads<D: Disk>(disk: &mut D, want: &[u8]) -> bool {
    let mut bytes = [0; 8];
    if want.len() > 8 || disk.size() != Ok(want.len() as u64) {
        return false;
    }
    let into = &mut bytes[..want.len()];
    disk.read(0, into).is_ok() && &*into == want
}

// Writes where the place is on the disk, and says whether that succeeded.
fn writes<D: Disk>(disk: &mut D, at: u64, bytes: &[u8]) -> bool {
    match disk.size() {
        Ok(size) => at <= size && disk.write_at(at, bytes).is_ok(),
        Err(DiskFailed) => false,
    }
}

#[test]
fn a_torn_write_is_read_back(rt: HostRuntime) -> Result<(), Fail> {
    // A place, what is written there, what the failed write leaves and what the next one does.
    for (at, bytes, torn, whole) in [
        (0, "WXYZ", "WXcd", "WXYZ"),
        (2, "YZ", "abYd", "abYZ"),
        (2, "WXYZ", "abWX", "abWXYZ"),
        (4, "WXYZ", "abcdWX", "abcdWXYZ"),
        (1, "X", "abcd", "aXcd"),
    ] {
        let mut disk = TornDisk {
            disk: SureDisk::new(Vec::from_slice(rt.alloc(), b"abcd")?),
            torn: false,
            refused: 0,
        };
        assert!(rt; !writes(&mut disk, at, bytes.as_bytes()), "{torn}");
        assert!(rt; reads(&mut disk, torn.as_bytes()), "{torn}");
        assert!(rt; writes(&mut disk, at, bytes.as_bytes()), "{whole}");
        assert!(rt; reads(&mut disk, whole.as_bytes()), "{whole}");
    }
    Ok(())
}

// A sink that takes one byte at a time.
#[derive(Drop)]
struct ByteSink {
    sink: MemSink,
}

impl Sink for ByteSink {
    ghost told = { λ s. ⟦<MemSink as Sink>⟧.told s.sink };

    ghost faults = { λ s. ⟦<MemSink as Sink>⟧.faults s.sink };

    fn write(&mut self, piece: &[u8]) -> Result<usize, SinkFailed> {
        let some = piece.len().min(1);
        self.sink.write(&piece[..some])
    }
}

#[test]
fn pieces_are_written_whole(rt: HostRuntime) -> Result<(), Fail> {
    let mut sure = SureSink::new(rt.alloc());
    write_all(&mut sure, b"one ")?;
    write_all(&mut sure, b"piece")?;
    assert_eq!(rt; sure.bytes(), b"one piece".as_slice());
    Ok(())
}

#[test]
fn a_front_of_a_piece_is_written(rt: HostRuntime) -> Result<(), Fail> {
    for (n, front) in [(1, ""), (3, "he"), (5, "hell"), (6, "hello")] {
        let fail = Vec::from_slice(rt.alloc(), &[n])?;
        let mut bytes = ByteSink {
            sink: MemSink::new(rt.alloc(), fail),
        };
        assert_eq!(rt; write_all(&mut bytes, b"hello").is_ok(), n > 5, "{n}");
        assert_eq!(rt; bytes.sink.bytes(), front.as_bytes(), "{n}");
    }
    Ok(())
}

#[test]
fn a_set_clock_repeats_its_last_reading(rt: HostRuntime) -> Result<(), Fail> {
    let mut clock = SetClock::new(Vec::from_slice(rt.alloc(), &[9, 5, 7])?);
    for want in [9, 5, 7, 7, 7] {
        assert_eq!(rt; clock.now(), want);
    }
    Ok(())
}
