ghost use Rattle.std.specs.Prelude.{◌≡◌, ◌≤◌, None, Ok, IfOk, IsErrOf, OnOk};
ghost use Rattle.lq_outside.specs.Forms.{Rose, IsWithinLimit};
ghost use Rattle.lq_outside.specs.declared.files.FilesFault.TheVariants.{Failed};

use crate::running::{CI, NONE, Step, assert_step, run_by};
use lq_base::{Items, Text};
use lq_outside::{Files, FilesFault, Found};

// Files that there is no memory for.
#[derive(Drop)]
struct NoMemory;

impl Files for NoMemory {
    ghost told = { λ _. None };

    ghost faults = { λ _. 0 };

    fn read(&mut self, path: &str) -> Result<Found, FilesFault> {
        Err(FilesFault::OutOfMemory)
    }

    fn list(&mut self, folder: &str) -> Result<Items<Text>, FilesFault> {
        Err(FilesFault::OutOfMemory)
    }
}

const LINES: [&str; 3] = [
    "update --url=postgresql:db --changelog-file=db/a.json",
    "validate --url=postgresql:db --changelog-file=db/a.json",
    "drill --url=postgresql:db --runs=runs",
];

#[test]
fn files_without_memory_end_a_command(rt: HostRuntime) {
    let bytes = b"no journal, but not read".as_slice();
    for words in LINES {
        let ran = run_by(&rt, rt.alloc(), CI, words, NoMemory, bytes, NONE);
        let step = Step {
            words,
            code: 15,
            out: "",
            log: "liquibase: out of memory\n",
        };
        assert_step(&rt, step, &ran);
        assert!(rt; ran.bytes.as_slice() == bytes, "{words}");
    }
}
