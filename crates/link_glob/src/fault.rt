//! Why a pattern could not be compiled.

ghost use Rattle.std.specs.Prelude.{◌≡◌};
ghost use Rattle.link_glob.specs.declared.fault.GlobError.TheVariants.{Memory};

use std::alloc::{AllocError, AllocFailed};
use thiserror::Error;

/// Why a pattern could not be compiled.
#[derive(Clone, Copy, Debug, PartialEq, Eq, Error)]
pub enum GlobError {
    /// The bytes are not UTF-8.
    #[error("the pattern is not UTF-8")]
    InvalidUtf8,
    /// A class is not closed, or two stars are adjacent where that has no meaning.
    #[error("the pattern has an unclosed class or adjacent stars")]
    InvalidGlob,
    /// Memory ran out.
    #[error("out of memory")]
    Memory,
}

impl From<AllocError> for GlobError {
    ghost from_gives = { λ _ e. e ≡ Memory };

    fn from(_e: AllocError) -> GlobError {
        GlobError::Memory
    }
}

impl<T: Drop> From<AllocFailed<T>> for GlobError {
    ghost from_gives = { λ _ e. e ≡ Memory };

    fn from(_e: AllocFailed<T>) -> GlobError {
        GlobError::Memory
    }
}
