//! What inputs are made of: each part can be copied, and compared with another.

ghost use Rattle.std.specs.Prelude.{◌≡◌, ◌↔◌, IfOk, IsTrue};

use link_names::{Name, Seq};
use std::alloc::{AllocError, Global};

/// A part of inputs.
pub(crate) trait Part: Sized + Drop {
    /// A copy. Its only refusal is want of memory.
    fn try_copy(&self, alloc: Global) -> Result<Self, AllocError>
        ensures { IfOk result (λ copy. copy ≡ self.now) };

    /// The two are equal. Takes no memory.
    fn same(&self, other: &Self) -> bool
        ensures { IsTrue result ↔ (self.now ≡ other.now) };
}

impl Part for u32 {
    fn try_copy(&self, _alloc: Global) -> Result<Self, AllocError> {
        Ok(*self)
    }

    fn same(&self, other: &Self) -> bool {
        *self == *other
    }
}

impl Part for Name {
    fn try_copy(&self, alloc: Global) -> Result<Self, AllocError> {
        Name::from_slice(alloc, self.as_slice())
    }

    fn same(&self, other: &Self) -> bool {
        self.as_slice() == other.as_slice()
    }
}

impl<T: Part> Part for Option<T> {
    fn try_copy(&self, alloc: Global) -> Result<Self, AllocError> {
        match self {
            Some(part) => Ok(Some(part.try_copy(alloc)?)),
            None => Ok(None),
        }
    }

    fn same(&self, other: &Self) -> bool {
        match (self, other) {
            (Some(part), Some(other)) => part.same(other),
            (None, None) => true,
            _ => false,
        }
    }
}

impl<T: Part> Part for Seq<T> {
    fn try_copy(&self, alloc: Global) -> Result<Self, AllocError> {
        let mut copies = Seq::new(alloc);
        for part in self.as_slice() {
            copies.push(part.try_copy(alloc)?)?;
        }
        Ok(copies)
    }

    fn same(&self, other: &Self) -> bool {
        let parts = self.as_slice();
        let others = other.as_slice();
        if parts.len() != others.len() {
            return false;
        }
        for (part, other) in parts.iter().zip(others) {
            if !part.same(other) {
                return false;
            }
        }
        true
    }
}
