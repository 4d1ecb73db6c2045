use lq_base::{Items, Text};
use lq_outside::{Disk, Fuse, SetClock, SureDisk, SureFiles, SureSink};
use lq_top::{Ended, run};
use std::alloc::Global;
use std::process::Abort;
use std::str;

/// A file's path and its text.
pub type FileText = (&'static str, &'static str);

/// What a command told: its status's code, its output and its log.
#[derive(Drop)]
pub struct Told {
    pub code: u8,
    pub out: Vec<u8>,
    pub log: Vec<u8>,
}

/// What a command told, and the bytes that it left on the disk.
#[derive(Drop)]
pub struct Ran {
    pub told: Told,
    pub bytes: Vec<u8>,
}

/// What the clock reads when a command begins, in milliseconds since 1970 began, and how many calls of
/// the disk it makes before it is stopped.
#[derive(Clone, Copy)]
pub struct Span {
    pub reading: u64,
    pub calls: u64,
}

/// A second after 1970 began, and no stop.
pub const WHOLE: Span = Span {
    reading: 1000,
    calls: u64::MAX,
};

pub fn copied(rt: &impl Abort, alloc: Global, bytes: &[u8]) -> Vec<u8> {
    Vec::from_slice(alloc, bytes).expect(rt, "memory")
}

fn file_of(rt: &impl Abort, alloc: Global, file: FileText) -> (Text, Items<u8>) {
    let path = Text::new(alloc, file.0).expect(rt, "memory");
    let bytes = Items::from_slice(alloc, file.1.as_bytes()).expect(rt, "memory");
    (path, bytes)
}

fn files_of(rt: &impl Abort, alloc: Global, files: &[FileText]) -> SureFiles {
    let mut held = Items::new(alloc);
    for file in files {
        held.push(file_of(rt, alloc, *file)).expect(rt, "memory");
    }
    SureFiles::new(alloc, held)
}

// The words of a line with a blank between.
fn words_of(rt: &impl Abort, alloc: Global, line: &str) -> Vec<String> {
    let mut words = Vec::new(alloc);
    for word in line.split(' ') {
        let word = String::from_str(alloc, word).expect(rt, "memory");
        words.push(word).expect(rt, "memory");
    }
    words
}

/// Runs a line of words over files and a disk, and gives the disk back.
pub fn run_on<D: Disk + Drop>(
    rt: &impl Abort,
    alloc: Global,
    line: &str,
    files: &[FileText],
    reading: u64,
    disk: D,
) -> (Told, D) {
    let words = words_of(rt, alloc, line);
    let mut files = files_of(rt, alloc, files);
    let mut clock = SetClock::new(Vec::from_slice(alloc, &[reading]).expect(rt, "memory"));
    let mut out = SureSink::new(alloc);
    let mut log = SureSink::new(alloc);
    let Ended { status, disk } = run(
        alloc, &words, "ci", &mut files, disk, &mut clock, &mut out, &mut log,
    );
    let told = Told {
        code: status.code(),
        out: copied(rt, alloc, out.bytes()),
        log: copied(rt, alloc, log.bytes()),
    };
    (told, disk)
}

/// Runs a line of words over files and a database file of these bytes, for a span.
pub fn run_for(
    rt: &impl Abort,
    alloc: Global,
    line: &str,
    files: &[FileText],
    bytes: &[u8],
    span: Span,
) -> Ran {
    let disk = Fuse::new(SureDisk::new(copied(rt, alloc, bytes)), span.calls);
    let (told, disk) = run_on(rt, alloc, line, files, span.reading, disk);
    let bytes = copied(rt, alloc, disk.into_inner().bytes());
    Ran { told, bytes }
}

/// What a command tells: its status's code, its output and its log.
pub type End = (u8, &'static str, &'static str);

/// A line of words, and what it tells.
pub type Step = (&'static str, End);

fn shown(bytes: &[u8]) -> &str {
    str::from_utf8(bytes).unwrap_or("no UTF-8")
}

pub fn assert_told(rt: &impl Abort, told: &Told, end: End) {
    let (code, out, log) = end;
    assert_eq!(rt; shown(&told.log), log);
    assert_eq!(rt; shown(&told.out), out);
    assert_eq!(rt; told.code, code);
}

/// Runs commands one after another over the same files, and gives the bytes that they leave.
pub fn play(
    rt: &impl Abort,
    alloc: Global,
    files: &[FileText],
    bytes: &[u8],
    steps: &[Step],
) -> Vec<u8> {
    let mut now = copied(rt, alloc, bytes);
    for step in steps {
        let (words, end) = *step;
        let ran = run_for(rt, alloc, words, files, &now, WHOLE);
        assert_told(rt, &ran.told, end);
        now = ran.bytes;
    }
    now
}
