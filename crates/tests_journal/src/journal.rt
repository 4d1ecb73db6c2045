ghost use Rattle.std.specs.Prelude.{IfSome};
ghost use Rattle.lq_journal.specs.State.{IsReady, disk_of};

use lq_base::{Dialect, Items, Text};
use lq_frames::{Body, Encoded, EncodedEntry, EncodedState, Entry};
use lq_journal::{AppendFault, Journal, LoadFault};
use lq_model::Room;
use lq_outside::{Disk, Fuse, MemDisk, SureDisk};
use std::alloc::{AllocError, Global};
use std::test::Fail;

pub const PGSQL: &[u8] = b"LQJOURNAL1 PGSQL";

const ONE: &[u8] = b"\x01\x00\x00\x00\x13T\x00\x00\x00\x0eDROP TABLE \"t\"\x00";

fn push_texts(line: &mut String, texts: &[Text]) -> Result<(), AllocError> {
    for text in texts {
        line.push_str(" ")?;
        line.push_str(text.as_str())?;
    }
    Ok(())
}

fn push_entry(line: &mut String, entry: &Entry) -> Result<(), AllocError> {
    let at = entry.at;
    write!(line, ", {at}")?;
    match &entry.body {
        Body::Texts(texts) => push_texts(line, texts.as_slice()),
        Body::State(bytes) => {
            let size = bytes.len();
            write!(line, " state of {size}")
        }
    }
}

fn push_entries(line: &mut String, used: u64, entries: &[Entry]) -> Result<(), AllocError> {
    write!(line, "{used} used")?;
    for entry in entries {
        push_entry(line, entry)?;
    }
    Ok(())
}

fn push_fault(line: &mut String, fault: LoadFault) -> Result<(), AllocError> {
    match fault {
        LoadFault::Disk => line.push_str("disk fault"),
        LoadFault::Damaged { at } => write!(line, "damaged at {at}"),
        LoadFault::OutOfMemory => line.push_str("out of memory"),
    }
}

// What is loaded of these bytes, as one line.
fn push_loaded(
    alloc: Global,
    line: &mut String,
    dialect: Dialect,
    bytes: Vec<u8>,
) -> Result<(), AllocError> {
    match Journal::load(alloc, SureDisk::new(bytes), dialect, 8192) {
        Ok((journal, entries)) => push_entries(line, journal.used(), entries.as_slice()),
        Err(refused) => push_fault(line, refused.fault),
    }
}

// Whether these bytes are loaded so.
fn is_loaded(
    alloc: Global,
    dialect: Dialect,
    bytes: Vec<u8>,
    want: &str,
) -> Result<bool, AllocError> {
    let mut line = String::new(alloc);
    push_loaded(alloc, &mut line, dialect, bytes)?;
    Ok(line.as_str() == want)
}

/// Whether a file of this head, and of what comes behind it, is loaded so.
pub fn is_read(
    alloc: Global,
    dialect: Dialect,
    head: &[u8],
    rest: &[u8],
    want: &str,
) -> Result<bool, AllocError> {
    let mut bytes = Vec::from_slice(alloc, head)?;
    bytes.extend_from_slice(rest)?;
    is_loaded(alloc, dialect, bytes, want)
}

#[test]
fn an_entry_is_encoded(rt: HostRuntime) -> Result<(), Fail> {
    let entry = EncodedEntry::new(rt.alloc(), "DROP TABLE \"t\"")?;
    assert_eq!(rt;
        entry.bytes(),
        b"\x00\x00\x00\x13T\x00\x00\x00\x0eDROP TABLE \"t\"\x00".as_slice()
    );
    assert_eq!(rt; entry.size(), 24);
    Ok(())
}

#[test]
fn an_entry_grows(rt: HostRuntime) -> Result<(), Fail> {
    let mut entry = EncodedEntry::new(rt.alloc(), "DROP TABLE \"t\"")?;
    entry.push("x")?;
    assert_eq!(rt;
        entry.bytes(),
        b"\x00\x00\x00\x18T\x00\x00\x00\x0eDROP TABLE \"t\"\x00\x00\x00\x01x\x00".as_slice()
    );
    Ok(())
}

#[test]
fn texts_are_encoded(rt: HostRuntime) -> Result<(), Fail> {
    let mut texts = Items::new(rt.alloc());
    texts.push(Text::new(rt.alloc(), "")?)?;
    texts.push(Text::new(rt.alloc(), "é")?)?;
    let entry = EncodedEntry::from_texts(rt.alloc(), texts.as_slice())?;
    assert_eq!(rt;
        entry.bytes(),
        b"\x00\x00\x00\x0bT\x00\x00\x00\x00\x00\x00\x00\x02\xc3\xa9\x00".as_slice()
    );
    Ok(())
}

#[test]
fn a_state_is_encoded(rt: HostRuntime) -> Result<(), Fail> {
    let state = EncodedState::new(rt.alloc(), b"xy")?;
    assert_eq!(rt; state.bytes(), b"\x00\x00\x00\x03Sxy\x00".as_slice());
    assert_eq!(rt; state.size(), 8);
    Ok(())
}

// A state clears what was before it, and any bytes are one; the form of each entry counts.
#[test]
fn journals_begin_with_the_last_state(rt: HostRuntime) -> Result<(), Fail> {
    let rows: [(&[u8], &str); 8] = [
        (b"\x01\x00\x00\x00\x01S\x00", "23 used, 17 state of 0"),
        (
            b"\x01\x00\x00\x00\x06S\x00\x00\x00\x01\xff\x00",
            "28 used, 17 state of 5",
        ),
        (
            b"\x01\x00\x00\x00\x06T\x00\x00\x00\x01x\x01\x00\x00\x00\x02Sy\x00",
            "35 used, 28 state of 1",
        ),
        (
            b"\x01\x00\x00\x00\x02Sa\x01\x00\x00\x00\x03Sbc\x01\x00\x00\x00\x06T\x00\x00\x00\x01x\x00",
            "43 used, 24 state of 2, 32 x",
        ),
        (
            b"\x01\x00\x00\x00\x02Sa\x01\x00\x00\x00\x06T\x00\x00\x00\x01x\x00\x01",
            "35 used, 17 state of 1, 24 x",
        ),
        (
            b"\x01\x00\x00\x00\x06T\x00\x00\x00\x01\xff\x01\x00\x00\x00\x02Sy\x00",
            "damaged at 17",
        ),
        (
            b"\x01\x00\x00\x00\x02Sa\x01\x00\x00\x00\x01T\x00",
            "damaged at 24",
        ),
        (b"\x01\x00\x00\x00\x03Sa\x00", "damaged at 17"),
    ];
    for (rest, want) in rows {
        let holds = is_read(rt.alloc(), Dialect::Postgresql, PGSQL, rest, want)?;
        assert!(rt; holds, "{want}");
    }
    Ok(())
}

#[test]
fn journals_are_read(rt: HostRuntime) -> Result<(), Fail> {
    let rows: [(&[u8], &str); 14] = [
        (b"\x00", "17 used"),
        (b"\x07\x01\x01\x01", "17 used"),
        (b"\x01\x00\x00\x00\x13", "damaged at 17"),
        (
            b"\x01\x00\x00\x00\x13T\x00\x00\x00\x0eDROP TABLE \"t\"\x00",
            "41 used, 17 DROP TABLE \"t\"",
        ),
        (
            b"\x01\x00\x00\x00\x13T\x00\x00\x00\x0eDROP TABLE \"t\"\x02rest",
            "41 used, 17 DROP TABLE \"t\"",
        ),
        (
            b"\x00\x00\x00\x00\x13T\x00\x00\x00\x0eDROP TABLE \"t\"\x00",
            "17 used",
        ),
        (
            b"\x01\x00\x00\x00\x13T\x00\x00\x00\x0eDROP TABLE \"t\"",
            "damaged at 17",
        ),
        (
            b"\x01\x00\x00\x00\x13T\x00\x00\x00\x0eDROP TABLE \"t\"\x01\x00\x00\x00\x01T\x00",
            "damaged at 41",
        ),
        (
            b"\x01\x00\x00\x00\x0bT\x00\x00\x00\x00\x00\x00\x00\x02\xc3\xa9\x00",
            "33 used, 17  é",
        ),
        (b"\x01\x00\x00\x00\x01T\x00", "damaged at 17"),
        (b"\x01\x00\x00\x00\x00\x00", "damaged at 17"),
        (
            b"\x01\x00\x00\x00\x06U\x00\x00\x00\x01x\x00",
            "damaged at 17",
        ),
        (
            b"\x01\x00\x00\x00\x07T\x00\x00\x00\x01xy\x00",
            "damaged at 17",
        ),
        (
            b"\x01\x00\x00\x00\x06T\x00\x00\x00\x01\xff\x00",
            "damaged at 17",
        ),
    ];
    for (rest, want) in rows {
        let holds = is_read(rt.alloc(), Dialect::Postgresql, PGSQL, rest, want)?;
        assert!(rt; holds, "{want}");
    }
    Ok(())
}

#[test]
fn files_are_tested(rt: HostRuntime) -> Result<(), Fail> {
    for (byte, len, want) in [
        (b'x', 0, "17 used"),
        (b'x', 10, "17 used"),
        (b'x', 17, "17 used"),
        (b'x', 18, "damaged at 0"),
        (b'x', 40, "damaged at 0"),
        (b'x', 8192, "damaged at 0"),
        (b'x', 8193, "damaged at 8192"),
    ] {
        let bytes = vec![in rt.alloc(); byte; len]?;
        let holds = is_loaded(rt.alloc(), Dialect::Postgresql, bytes, want)?;
        assert!(rt; holds, "{len}");
    }
    Ok(())
}

#[test]
fn headers_are_tested(rt: HostRuntime) -> Result<(), Fail> {
    for (dialect, head, want) in [
        (
            Dialect::Postgresql,
            b"LQJOURNAL1 PGSQL",
            "41 used, 17 DROP TABLE \"t\"",
        ),
        (Dialect::Mysql, b"LQJOURNAL1 PGSQL", "damaged at 0"),
        (Dialect::Postgresql, b"LQJOURNAL1 MYSQL", "damaged at 0"),
        (
            Dialect::Mysql,
            b"LQJOURNAL1 MYSQL",
            "41 used, 17 DROP TABLE \"t\"",
        ),
    ] {
        let holds = is_read(rt.alloc(), dialect, head, ONE, want)?;
        assert!(rt; holds, "{want}");
    }
    Ok(())
}

// Appends one entry to what stands on a disk, and gives the disk and whether each call succeeded.
fn append_one<D: Disk, B: Encoded>(alloc: Global, disk: D, entry: &B) -> (D, bool) {
    match Journal::load(alloc, disk, Dialect::Postgresql, 8192) {
        Ok((mut journal, _)) => match journal.prepare() {
            Ok(()) => {
                let done = journal.append(entry, Room::Ordinary).is_ok();
                (journal.into_disk(), done)
            }
            Err(_) => (journal.into_disk(), false),
        },
        Err(refused) => (refused.disk, false),
    }
}

// Whether an appending on a disk that fails after so many calls is answered so, and its file is then
// loaded so.
fn stops<B: Encoded>(
    alloc: Global,
    entry: &B,
    calls: u64,
    done: bool,
    want: &str,
) -> Result<bool, AllocError> {
    let fuse = Fuse::new(SureDisk::new(Vec::new(alloc)), calls);
    let (fuse, answered) = append_one(alloc, fuse, entry);
    let disk = fuse.into_inner();
    let holds = is_read(alloc, Dialect::Postgresql, disk.bytes(), b"", want)?;
    Ok(holds && answered == done)
}

#[test]
fn a_stop_leaves_the_entry_or_not(rt: HostRuntime) -> Result<(), Fail> {
    let entry = EncodedEntry::new(rt.alloc(), "DROP TABLE \"t\"")?;
    // Loading makes three calls, preparing two and appending four: it writes and syncs the entry, and
    // then writes and syncs the gate.
    for calls in 0..11u64 {
        let want = if calls < 8 {
            "17 used"
        } else {
            "41 used, 17 DROP TABLE \"t\""
        };
        let holds = stops(rt.alloc(), &entry, calls, calls >= 9, want)?;
        assert!(rt; holds, "{calls}");
    }
    Ok(())
}

#[test]
fn a_stop_leaves_the_state_or_not(rt: HostRuntime) -> Result<(), Fail> {
    let state = EncodedState::new(rt.alloc(), b"xy")?;
    for calls in 0..11u64 {
        let want = if calls < 8 {
            "17 used"
        } else {
            "25 used, 17 state of 2"
        };
        let holds = stops(rt.alloc(), &state, calls, calls >= 9, want)?;
        assert!(rt; holds, "{calls}");
    }
    Ok(())
}

// Whether an appending on a disk of which this one call fails does so, and its file is then loaded so.
fn fails(alloc: Global, entry: &EncodedEntry, call: u64, want: &str) -> Result<bool, AllocError> {
    let disk = MemDisk::new(Vec::new(alloc), Vec::from_slice(alloc, &[call])?);
    let (disk, answered) = append_one(alloc, disk, entry);
    let holds = is_read(alloc, Dialect::Postgresql, disk.bytes(), b"", want)?;
    Ok(holds && !answered)
}

#[test]
fn a_failure_leaves_the_entry_or_not(rt: HostRuntime) -> Result<(), Fail> {
    let entry = EncodedEntry::new(rt.alloc(), "DROP TABLE \"t\"")?;
    // The eighth call is the third write.
    for call in 1..10u64 {
        let want = if call < 9 {
            "17 used"
        } else {
            "41 used, 17 DROP TABLE \"t\""
        };
        let holds = fails(rt.alloc(), &entry, call, want)?;
        assert!(rt; holds, "{call}");
    }
    Ok(())
}

fn of_length(alloc: Global, len: usize) -> Result<EncodedEntry, Fail> {
    let text = String::from_utf8(vec![in alloc; b'x'; len]?)?;
    Ok(EncodedEntry::new(alloc, text.as_str())?)
}

// A journal with one entry.
fn filled(alloc: Global, entry: &EncodedEntry) -> Option<Journal<SureDisk>>
    ensures { IfSome result (λ journal. IsReady (⟦<SureDisk as Disk>⟧.told (disk_of journal))
        journal) }
{
    let disk = SureDisk::new(Vec::new(alloc));
    let Ok((mut journal, _)) = Journal::load(alloc, disk, Dialect::Mysql, 8192) else {
        return None;
    };
    match journal.prepare() {
        Ok(()) => match journal.append(entry, Room::Ordinary) {
            Ok(()) => Some(journal),
            Err(_) => None,
        },
        Err(_) => None,
    }
}

#[test]
fn a_full_journal_has_room_for_a_release(rt: HostRuntime) -> Result<(), Fail> {
    let small = EncodedEntry::new(rt.alloc(), "DROP TABLE \"t\"")?;
    let large = of_length(rt.alloc(), 4069)?;
    assert_eq!(rt; large.size(), 4079);
    let Some(mut journal) = filled(rt.alloc(), &large) else {
        assert!(rt; false);
        return Ok(());
    };
    assert_eq!(rt; journal.used(), 4096);
    let full = AppendFault::Full {
        used: 4096,
        next: 24,
    };
    assert_eq!(rt; journal.append(&small, Room::Ordinary), Err(full));
    assert_eq!(rt; journal.used(), 4096);
    assert!(rt; journal.append(&small, Room::Release).is_ok());
    assert_eq!(rt; journal.used(), 4120);
    let disk = journal.into_disk();
    assert_eq!(rt; disk.bytes().len(), 4120);
    assert!(rt; disk.bytes().starts_with(b"LQJOURNAL1 MYSQL\x01"));
    Ok(())
}
