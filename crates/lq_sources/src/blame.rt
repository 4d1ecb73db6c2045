ghost use Rattle.std.specs.Prelude.{◌≡◌, ◌⊎◌, false, true, IfOk, Ok, Err};
ghost use Rattle.lq_sources.specs.Faults.{is_read, fault_in, is_memory, placed_what};
ghost use Rattle.lq_sources.specs.Items.{place};
ghost use Rattle.lq_sources.specs.declared.fault.LoadFault.TheVariants.{OutOfMemory};

use crate::fault::{LoadFault, What};
use crate::item::place_of;
use lq_base::{KindFault, Text};
use lq_tree::placed;
use std::alloc::Global;

fn is_memory(what: &What) -> bool
    ensures { result ≡ is_memory what.now }
{
    match what {
        What::Key(KindFault::OutOfMemory) => true,
        _ => false,
    }
}

/// The fault of a file in which something is wrong.
pub fn in_file(alloc: Global, path: &str, what: What) -> LoadFault
    ensures fault { (result ≡ OutOfMemory) ⊎ (result ≡ fault_in path.now what) }
    ensures memory { is_memory what ≡ true → result ≡ OutOfMemory }
    ensures told { is_read result ≡ false }
{
    if is_memory(&what) {
        return LoadFault::OutOfMemory;
    }
    match Text::new(alloc, path) {
        Ok(path) => LoadFault::Fault { path, what },
        Err(_) => LoadFault::OutOfMemory,
    }
}

/// What is wrong in a tree, with its place below that of an item.
fn below_item(alloc: Global, i: usize, what: What) -> What
    ensures what { (is_memory result ≡ true) ⊎ (result ≡ placed_what (place i) what) }
    ensures memory { is_memory what ≡ true → is_memory result ≡ true }
{
    let What::Key(fault) = what else {
        return what;
    };
    match place_of(alloc, i) {
        Ok(place) => What::Key(placed(alloc, place.as_str(), fault)),
        Err(_) => What::Key(KindFault::OutOfMemory),
    }
}

/// The fault of a file in an item of which something is wrong.
pub fn in_item(alloc: Global, path: &str, i: usize, what: What) -> LoadFault
    ensures fault { (result ≡ OutOfMemory)
        ⊎ (result ≡ fault_in path.now (placed_what (place i) what)) }
    ensures memory { is_memory what ≡ true → result ≡ OutOfMemory }
    ensures told { is_read result ≡ false }
{
    in_file(alloc, path, below_item(alloc, i, what))
}
