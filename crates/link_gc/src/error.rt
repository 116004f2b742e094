//! Why live sections are not found.

use std::alloc::AllocError;

/// Why live sections are not found.
#[derive(Clone, Copy, Debug, PartialEq, Eq)]
pub enum GcError {
    /// Memory ran out.
    Memory,
}

impl From<AllocError> for GcError {
    ghost use Rattle.std.specs.Prelude.{◌≡◌};
    ghost use Rattle.link_gc.specs.declared.error.GcError.TheVariants.{Memory};

    ghost from_gives = { λ _ error. error ≡ Memory };

    fn from(_: AllocError) -> Self {
        GcError::Memory
    }
}
