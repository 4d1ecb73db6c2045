use lq_base::{Items, Text};
use lq_outside::{Files, MemDisk, MemFiles, MemSink, SetClock};
use lq_top::run;
use std::alloc::Global;
use std::process::Abort;
use std::str;

/// What a run left: its status's code, the disk's bytes, and what it wrote.
#[derive(Drop)]
pub struct Ran {
    pub code: u8,
    pub bytes: Vec<u8>,
    pub out: Vec<u8>,
    pub log: Vec<u8>,
}

/// A file's path and its text.
pub type FileText = (&'static str, &'static str);

/// Which call of each is to fail, counted from 1; 0 for none.
#[derive(Clone, Copy)]
pub struct Failing {
    pub files: u64,
    pub disk: u64,
    pub out: u64,
    pub log: u64,
}

pub const NONE: Failing = Failing {
    files: 0,
    disk: 0,
    out: 0,
    log: 0,
};

/// Who runs a command, and what the clock reads first; then it reads 2000, and from then on 3000.
#[derive(Clone, Copy)]
pub struct By {
    pub who: &'static str,
    pub reading: u64,
}

/// A second after 1970 began.
pub const CI: By = By {
    who: "ci",
    reading: 1000,
};

fn one_call(rt: &impl Abort, alloc: Global, number: u64) -> Vec<u64> {
    let mut calls = Vec::new(alloc);
    if number > 0 {
        calls.push(number).expect(rt, "memory");
    }
    calls
}

fn copied(rt: &impl Abort, alloc: Global, bytes: &[u8]) -> Vec<u8> {
    Vec::from_slice(alloc, bytes).expect(rt, "memory")
}

fn file_of(rt: &impl Abort, alloc: Global, file: FileText) -> (Text, Items<u8>) {
    let path = Text::new(alloc, file.0).expect(rt, "memory");
    let bytes = Items::from_slice(alloc, file.1.as_bytes()).expect(rt, "memory");
    (path, bytes)
}

/// These files in memory, of which one call is to fail.
pub fn files_of(rt: &impl Abort, alloc: Global, files: &[FileText], failing: u64) -> MemFiles {
    let mut held = Items::new(alloc);
    for file in files {
        held.push(file_of(rt, alloc, *file)).expect(rt, "memory");
    }
    MemFiles::new(alloc, held, one_call(rt, alloc, failing))
}

// The words of a line with a blank between.
fn words_of(rt: &impl Abort, alloc: Global, line: &str) -> Vec<String> {
    let mut words = Vec::new(alloc);
    for word in line.split(' ') {
        let word = String::from_str(alloc, word).expect(rt, "memory");
        words.push(word).expect(rt, "memory");
    }
    words
}

/// Runs a line of words over files and a database file of these bytes.
pub fn run_by<F: Files + Drop>(
    rt: &impl Abort,
    alloc: Global,
    by: By,
    line: &str,
    files: F,
    bytes: &[u8],
    failing: Failing,
) -> Ran {
    let words = words_of(rt, alloc, line);
    let mut files = files;
    let disk = MemDisk::new(copied(rt, alloc, bytes), one_call(rt, alloc, failing.disk));
    let readings = Vec::from_slice(alloc, &[by.reading, 2000, 3000]).expect(rt, "memory");
    let mut clock = SetClock::new(readings);
    let mut out = MemSink::new(alloc, one_call(rt, alloc, failing.out));
    let mut log = MemSink::new(alloc, one_call(rt, alloc, failing.log));
    let ended = run(
        alloc, &words, by.who, &mut files, disk, &mut clock, &mut out, &mut log,
    );
    Ran {
        code: ended.status.code(),
        bytes: copied(rt, alloc, ended.disk.bytes()),
        out: copied(rt, alloc, out.bytes()),
        log: copied(rt, alloc, log.bytes()),
    }
}

/// Runs a line of words over files and a database file of these bytes, a second after 1970 began.
pub fn run_over(
    rt: &impl Abort,
    alloc: Global,
    line: &str,
    files: &[FileText],
    bytes: &[u8],
    failing: Failing,
) -> Ran {
    let files = files_of(rt, alloc, files, failing.files);
    run_by(rt, alloc, CI, line, files, bytes, failing)
}

/// A command, and what is told of it: its status's code, its output and its log.
#[derive(Clone, Copy)]
pub struct Step {
    pub words: &'static str,
    pub code: u8,
    pub out: &'static str,
    pub log: &'static str,
}

/// The bytes as a text.
pub fn shown(bytes: &[u8]) -> &str {
    str::from_utf8(bytes).unwrap_or("no UTF-8")
}

/// The command told what the step says.
pub fn assert_step(rt: &impl Abort, step: Step, ran: &Ran) {
    assert_eq!(rt; shown(&ran.log), step.log);
    assert_eq!(rt; shown(&ran.out), step.out);
    assert_eq!(rt; ran.code, step.code);
}

/// Runs commands one after another over the same files, and gives the bytes that they leave.
pub fn play(
    rt: &impl Abort,
    alloc: Global,
    files: &[FileText],
    bytes: &[u8],
    steps: &[Step],
) -> Vec<u8> {
    let mut now = copied(rt, alloc, bytes);
    for step in steps {
        let ran = run_over(rt, alloc, step.words, files, &now, NONE);
        assert_step(rt, *step, &ran);
        now = ran.bytes;
    }
    now
}
