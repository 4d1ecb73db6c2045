//! Runs rows of tests of the bytes of database states. Each line of the input is a kind of row, what
//! the call is given and what must come of it, with tabs between them. The lines that do not hold are
//! printed, and then how many rows there were.
#![tactic(auto)]

mod notation;
mod rows;
mod shown;
mod states;

use rows::SnapKinds;
use std::io;
use tests_table::told;

fn main(rt: HostRuntime) -> io::Result<()> {
    let mut count: u64 = 0;
    for line in rt.lines(rt.alloc()) {
        let line = line?;
        if let Some(wrong) = told(rt.alloc(), &SnapKinds, line.as_str()) {
            println!(rt; "{wrong}")?;
        }
        count = count.saturating_add(1);
    }
    println!(rt; "{count} rows")
}
