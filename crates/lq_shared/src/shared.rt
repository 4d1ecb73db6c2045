ghost use Rattle.std.specs.Prelude.{◌≡◌, IfOk, IfSome};

use std::alloc::{AllocError, Global};
use std::marker::Model;
use std::rc::Rc;

/// A value with one owner or several, each of which only reads it. Contracts see the value.
#[derive(Drop)]
pub struct Shared<T> {
    inner: Rc<T>,
}

impl<T> Model for Shared<T> {
    ghost Value = { T };

    ghost coded = { T.code };

    ghost view = { λ s. s.inner.value };
}

impl<T> Shared<T> {
    /// The value.
    pub fn get(&self) -> &T
        ensures { result.now ≡ self.now }
    {
        self.inner.as_ref()
    }
}

impl<T: Drop> Shared<T> {
    /// A value with one owner. It fails only for want of memory.
    pub fn new(alloc: Global, value: T) -> Result<Shared<T>, AllocError>
        ensures { IfOk result (λ s. s ≡ value) }
    {
        match Rc::new(alloc, value) {
            Ok(inner) => Ok(Shared { inner }),
            Err(_) => Err(AllocError),
        }
    }

    /// One more owner of the same value. It fails only where their count is full.
    pub fn again(&self) -> Result<Shared<T>, AllocError>
        ensures { IfOk result (λ s. s ≡ self.now) }
    {
        Ok(Shared {
            inner: self.inner.clone()?,
        })
    }

    /// The value, for its last owner.
    pub fn into_inner(self) -> Option<T>
        ensures { IfSome result (λ value. value ≡ self) }
    {
        let Shared { inner } = self;
        Rc::into_inner(inner)
    }
}
