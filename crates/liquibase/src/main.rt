//! The program: the command line, and the real files, database file, clock and outputs that a command
//! is run with.
#![tactic(auto)]

use lq_base::NoMemory;
use lq_host::{FileDisk, HostClock, HostFiles, Stream};
use lq_outside::{Disk, SureDisk, write_all};
use lq_top::{database_path, run};
use std::env::{self, VarError};
use std::io::ErrorKind;
use std::process::ExitCode;

// The status of want of memory.
const OUT_OF_MEMORY: u8 = 15;

fn main(rt: HostRuntime) -> ExitCode {
    match command(&rt) {
        Ok(code) => ExitCode::from(code),
        Err(NoMemory) => {
            let mut log = Stream::new(rt.stderr());
            let _dropped = write_all(&mut log, b"liquibase: out of memory\n");
            ExitCode::from(OUT_OF_MEMORY)
        }
    }
}

// Runs the command of the arguments, and gives its status's code.
fn command(rt: &HostRuntime) -> Result<u8, NoMemory> {
    let words = words(rt)?;
    let who = who(rt)?;
    match database_path(rt.alloc(), &words)? {
        Some(path) => {
            let disk = FileDisk::open(rt, path.as_str());
            Ok(run_on(rt, &words, &who, disk))
        }
        None => {
            let disk = SureDisk::new(Vec::new(rt.alloc()));
            Ok(run_on(rt, &words, &who, disk))
        }
    }
}

fn run_on<D: Disk + Drop>(rt: &HostRuntime, words: &[String], who: &str, disk: D) -> u8 {
    let mut files = HostFiles::new(rt);
    let mut clock = HostClock::new(rt);
    let mut out = Stream::new(rt.stdout());
    let mut log = Stream::new(rt.stderr());
    let ended = run(
        rt.alloc(),
        words,
        who,
        &mut files,
        disk,
        &mut clock,
        &mut out,
        &mut log,
    );
    ended.status.code()
}

// The arguments without the program's name. Where one is not a text, there are none, which is a faulty
// command line too.
fn words(rt: &HostRuntime) -> Result<Vec<String>, NoMemory> {
    let mut words = Vec::new(rt.alloc());
    match env::args(rt) {
        Ok(args) => {
            for word in args.skip(1) {
                words.push(word)?;
            }
            Ok(words)
        }
        Err(error) if error.kind() == ErrorKind::OutOfMemory => Err(NoMemory),
        Err(_) => Ok(words),
    }
}

// Who takes a lock: the user's name, or `unknown` where the environment has none that is a text.
fn who(rt: &HostRuntime) -> Result<String, NoMemory> {
    match env::var(rt, "USER") {
        Ok(name) => Ok(name),
        Err(VarError::OutOfMemory) => Err(NoMemory),
        Err(_) => Ok(String::from_str(rt.alloc(), "unknown")?),
    }
}
