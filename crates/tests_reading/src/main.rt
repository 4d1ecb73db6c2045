//! Runs rows of tests of SQL texts: how they are cut, and what they spell in each dialect. Each line
//! of the input is a kind of row, what the call is given and what must come of it, with tabs between
//! them. The lines that do not hold are printed, and then how many rows there were.
#![tactic(auto)]

mod lexemes;
mod printed;
mod rows;
mod spelled;

use rows::ReadingKinds;
use std::io;
use tests_table::told;

fn main(rt: HostRuntime) -> io::Result<()> {
    let mut count: u64 = 0;
    for line in rt.lines(rt.alloc()) {
        let line = line?;
        if let Some(wrong) = told(rt.alloc(), &ReadingKinds, line.as_str()) {
            println!(rt; "{wrong}")?;
        }
        count = count.saturating_add(1);
    }
    println!(rt; "{count} rows")
}
