use crate::fields::text;
use lq_base::NoMemory;
use std::alloc::Global;

/// The kinds of rows of a table.
pub trait Kinds {
    /// What comes of a row of a kind, as a text.
    fn outcome(&self, alloc: Global, kind: &str, given: &[&str]) -> Result<String, NoMemory>;
}

/// What comes of a row of no known kind.
pub fn no_kind(alloc: Global) -> Result<String, NoMemory> {
    Ok(String::from_str(alloc, "no kind of row")?)
}

/// What is to be printed of a row: nothing where it holds.
pub fn told<K: Kinds>(alloc: Global, kinds: &K, line: &str) -> Option<String> {
    match wrong(alloc, kinds, line) {
        Ok(told) => told,
        Err(NoMemory) => String::from_str(alloc, "out of memory").ok(),
    }
}

fn wrong<K: Kinds>(alloc: Global, kinds: &K, line: &str) -> Result<Option<String>, NoMemory> {
    let parts: Vec<&str> = line.split('\t').collect(alloc)?;
    match parts.as_slice() {
        [kind, given @ .., want] => {
            let want = text(alloc, want)?;
            let got = kinds.outcome(alloc, kind, given)?;
            compared(alloc, line, got.as_str(), want.as_str())
        }
        _ => Ok(Some(format!(in alloc; "no row: {line}")?)),
    }
}

fn compared(alloc: Global, line: &str, got: &str, want: &str) -> Result<Option<String>, NoMemory> {
    if got == want {
        return Ok(None);
    }
    Ok(Some(format!(in alloc; "{line}: gives {got}")?))
}
