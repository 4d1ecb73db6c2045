ghost use Rattle.std.specs.Prelude.{◌≡◌, ◌↔◌, IsTrue, IfOk};

use crate::memory::NoMemory;
use sqlite_items::{Boxed, Items};
use std::alloc::Global;

/// A copy of its own, which is the same value.
pub trait Duplicate: Sized {
    fn duplicate(&self, alloc: Global) -> Result<Self, NoMemory>
        ensures { IfOk result (λ copy. copy ≡ self.now) };
}

/// Whether two are the same value.
pub trait Same {
    fn same(&self, other: &Self) -> bool
        ensures { IsTrue result ↔ (self.now ≡ other.now) };
}

impl<T: Duplicate + Drop> Duplicate for Items<T> {
    fn duplicate(&self, alloc: Global) -> Result<Items<T>, NoMemory> {
        let mut copy = Items::new(alloc);
        for item in self.as_slice() {
            copy.push(item.duplicate(alloc)?)?;
        }
        Ok(copy)
    }
}

impl<T: Duplicate + Drop> Duplicate for Boxed<T> {
    fn duplicate(&self, alloc: Global) -> Result<Boxed<T>, NoMemory> {
        Ok(Boxed::new(alloc, self.get().duplicate(alloc)?)?)
    }
}

impl<T: Duplicate + Drop> Duplicate for Option<T> {
    fn duplicate(&self, alloc: Global) -> Result<Option<T>, NoMemory> {
        match self {
            None => Ok(None),
            Some(it) => Ok(Some(it.duplicate(alloc)?)),
        }
    }
}

impl<A: Duplicate + Drop, B: Duplicate + Drop> Duplicate for (A, B) {
    fn duplicate(&self, alloc: Global) -> Result<(A, B), NoMemory> {
        let first = self.0.duplicate(alloc)?;
        let second = self.1.duplicate(alloc)?;
        Ok((first, second))
    }
}

impl<T: Same> Same for Items<T> {
    fn same(&self, other: &Items<T>) -> bool {
        same_items(self.as_slice(), other.as_slice())
    }
}

impl<T: Same> Same for Boxed<T> {
    fn same(&self, other: &Boxed<T>) -> bool {
        self.get().same(other.get())
    }
}

impl<T: Same> Same for Option<T> {
    fn same(&self, other: &Option<T>) -> bool {
        match (self, other) {
            (None, None) => true,
            (Some(a), Some(b)) => a.same(b),
            _ => false,
        }
    }
}

impl<A: Same, B: Same> Same for (A, B) {
    fn same(&self, other: &(A, B)) -> bool {
        self.0.same(&other.0) && self.1.same(&other.1)
    }
}

fn same_items<T: Same>(a: &[T], b: &[T]) -> bool
    ensures { IsTrue result ↔ (a.now ≡ b.now) }
{
    if a.len() != b.len() {
        return false;
    }
    for i in 0..a.len() {
        if !a[i].same(&b[i]) {
            return false;
        }
    }
    true
}
