use lq_base::{NoMemory, Text};
use lq_chain::Chain;
use std::alloc::{AllocError, Global};
use tests_table::count;

fn row(field: &str) -> u32 {
    field.parse::<u32>().unwrap_or(0)
}

// Makes the call where the chain has the place or the mark, and says whether it was made.
fn make(chain: &mut Chain<u32>, step: &[&str]) -> bool {
    match step {
        ["push", it] => chain.push_back(row(it)).is_ok(),
        ["unlink", at] => unlink(chain, count(at)),
        ["replace", at, it] => replace(chain, count(at), row(it)),
        ["undo to", mark] => undo_to(chain, count(mark) as u64),
        ["undo"] => {
            chain.undo();
            true
        }
        ["forget"] => {
            chain.forget();
            true
        }
        _ => false,
    }
}

fn unlink(chain: &mut Chain<u32>, at: usize) -> bool {
    at < chain.len() && chain.unlink(at).is_ok()
}

fn replace(chain: &mut Chain<u32>, at: usize, by: u32) -> bool {
    at < chain.len() && chain.replace(at, by).is_ok()
}

fn undo_to(chain: &mut Chain<u32>, mark: u64) -> bool {
    if mark > chain.mark() {
        return false;
    }
    chain.undo_to(mark);
    true
}

fn show(chain: &Chain<u32>, out: &mut String) -> Result<(), AllocError> {
    for row in chain.iter() {
        write!(out, "{row} ")?;
    }
    if chain.is_empty() {
        out.push_str("empty ")?;
    }
    let (len, mark) = (chain.len(), chain.mark());
    write!(out, "({len}, {mark}) ")
}

/// The rows, how many they are, and the mark, before and after each step of a list of them.
pub fn steps(alloc: Global, field: &str) -> Result<String, NoMemory> {
    let mut chain: Chain<u32> = Chain::new(alloc);
    let mut out = String::new(alloc);
    show(&chain, &mut out)?;
    for step in field.split(';') {
        let words: Vec<&str> = step.split(':').collect(alloc)?;
        if !make(&mut chain, words.as_slice()) {
            out.push_str("not made ")?;
        }
        show(&chain, &mut out)?;
    }
    Ok(out)
}

// A row that cannot be cloned.
#[derive(Drop)]
struct Named {
    name: Text,
}

fn make_row(alloc: Global, name: &str) -> Result<Named, NoMemory> {
    let name = Text::new(alloc, name)?;
    Ok(Named { name })
}

fn show_names(chain: &Chain<Named>, out: &mut String) -> Result<(), AllocError> {
    for row in chain.iter() {
        out.push_str(row.name.as_str())?;
    }
    out.push_str(" ")
}

fn change(alloc: Global, chain: &mut Chain<Named>) -> Result<(), NoMemory> {
    if chain.len() != 2 {
        return Ok(());
    }
    chain.replace(0, make_row(alloc, "c")?)?;
    chain.push_back(make_row(alloc, "d")?)?;
    chain.unlink(1)
}

/// Rows that cannot be cloned, changed and undone.
pub fn no_clone(alloc: Global) -> Result<String, NoMemory> {
    let mut chain = Chain::new(alloc);
    let mut out = String::new(alloc);
    for name in ["a", "b"] {
        chain.push_back(make_row(alloc, name)?)?;
    }
    chain.forget();
    change(alloc, &mut chain)?;
    show_names(&chain, &mut out)?;
    chain.undo();
    show_names(&chain, &mut out)?;
    Ok(out)
}

/// Many rows, which are not copied.
pub fn many(alloc: Global) -> Result<String, NoMemory> {
    let mut chain: Chain<u32> = Chain::new(alloc);
    for n in 0..100_000u32 {
        chain.push_back(n)?;
    }
    for n in 0..50_000u32 {
        chain.forget();
        chain.push_back(n)?;
        chain.undo();
    }
    Ok(format!(in alloc; "{}", chain.len())?)
}
