ghost use Rattle.std.specs.Prelude.{◌≡◌, ◌++◌, IfOk, List, [], ℕ};
ghost use Rattle.lq_base.specs.declared.dialect.Dialect.{Dialect};
ghost use Rattle.lq_base.specs.declared.fault.KindFault.TheVariants.{Bad, Missing, NotFor, Unknown};
ghost use Rattle.lq_tree.specs.Look.{Tells, below, placed, placed_list};

use lq_base::{Dialect, KindFault, NoMemory, Text};
use std::alloc::Global;

/// The path of what is at `path` below `key`.
fn below(alloc: Global, key: &str, path: &str) -> Result<Text, NoMemory>
    ensures { IfOk result (λ joined. joined ≡ below key.now path.now) }
{
    let mut joined = Text::new(alloc, key)?;
    if !path.is_empty() {
        joined.push_all(&[".", path])?;
    }
    Ok(joined)
}

/// The fault of a node as that of the map in which it stands at `key`: its path begins with the key,
/// with a dot behind it where the path was not empty.
pub fn placed(alloc: Global, key: &str, fault: KindFault) -> KindFault
    ensures { Tells (placed key.now fault) result }
{
    match fault {
        KindFault::Missing(path) => missing_at(below(alloc, key, path.as_str())),
        KindFault::Unknown(path) => unknown_at(below(alloc, key, path.as_str())),
        KindFault::Bad(path) => bad_at(below(alloc, key, path.as_str())),
        KindFault::NotFor { path, dialect } => {
            not_for_at(below(alloc, key, path.as_str()), dialect)
        }
        KindFault::OutOfMemory => KindFault::OutOfMemory,
    }
}

fn joined(alloc: Global, key: &str, path: &str) -> Result<Text, NoMemory>
    ensures { IfOk result (λ made. made ≡ key.now ++ path.now) }
{
    let mut made = Text::new(alloc, key)?;
    made.push_str(path)?;
    Ok(made)
}

/// The fault of a list as that of the map in which it stands at `key`: the place of an item follows
/// the key without a dot, as in `preConditions[0].onFail`.
pub fn placed_list(alloc: Global, key: &str, fault: KindFault) -> KindFault
    ensures { Tells (placed_list key.now fault) result }
{
    match fault {
        KindFault::Missing(path) => missing_at(joined(alloc, key, path.as_str())),
        KindFault::Unknown(path) => unknown_at(joined(alloc, key, path.as_str())),
        KindFault::Bad(path) => bad_at(joined(alloc, key, path.as_str())),
        KindFault::NotFor { path, dialect } => {
            not_for_at(joined(alloc, key, path.as_str()), dialect)
        }
        KindFault::OutOfMemory => KindFault::OutOfMemory,
    }
}

fn missing_at(path: Result<Text, NoMemory>) -> KindFault
    ensures { (meant : List ℕ) → IfOk path (λ p. p ≡ meant)
        → Tells (Missing meant) result }
{
    match path {
        Ok(path) => KindFault::Missing(path),
        Err(_) => KindFault::OutOfMemory,
    }
}

fn unknown_at(path: Result<Text, NoMemory>) -> KindFault
    ensures { (meant : List ℕ) → IfOk path (λ p. p ≡ meant)
        → Tells (Unknown meant) result }
{
    match path {
        Ok(path) => KindFault::Unknown(path),
        Err(_) => KindFault::OutOfMemory,
    }
}

fn bad_at(path: Result<Text, NoMemory>) -> KindFault
    ensures { (meant : List ℕ) → IfOk path (λ p. p ≡ meant) → Tells (Bad meant) result }
{
    match path {
        Ok(path) => KindFault::Bad(path),
        Err(_) => KindFault::OutOfMemory,
    }
}

fn not_for_at(path: Result<Text, NoMemory>, dialect: Dialect) -> KindFault
    ensures { (meant : List ℕ) → IfOk path (λ p. p ≡ meant)
        → Tells (NotFor meant dialect) result }
{
    match path {
        Ok(path) => KindFault::NotFor { path, dialect },
        Err(_) => KindFault::OutOfMemory,
    }
}

/// The fault of a node whose value is bad.
pub fn bad(alloc: Global) -> KindFault
    ensures { Tells (Bad []) result }
{
    bad_at(Text::new(alloc, ""))
}

/// The fault of a map in which the value of a key is bad.
pub fn bad_key(alloc: Global, key: &str) -> KindFault
    ensures { Tells (Bad key.now) result }
{
    bad_at(Text::new(alloc, key))
}

/// The fault of a map in which a key is missing.
pub fn missing(alloc: Global, key: &str) -> KindFault
    ensures { Tells (Missing key.now) result }
{
    missing_at(Text::new(alloc, key))
}

/// The fault of a map that has a key which is none of those that are read there.
pub fn unknown(alloc: Global, key: &str) -> KindFault
    ensures { Tells (Unknown key.now) result }
{
    unknown_at(Text::new(alloc, key))
}

/// The fault of a node that is not for a dialect.
pub fn not_for(alloc: Global, dialect: Dialect) -> KindFault
    ensures { Tells (NotFor [] dialect) result }
{
    not_for_at(Text::new(alloc, ""), dialect)
}
