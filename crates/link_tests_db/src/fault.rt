//! Why the cases can't be gone through.

use std::alloc::{AllocError, AllocFailed};
use thiserror::Error;

/// Why what a line says can't be done.
#[derive(Clone, Copy, Debug, PartialEq, Eq, Error)]
pub enum Fault {
    #[error("memory ran out")]
    Memory,
    #[error("a stream fails")]
    Stream,
    #[error("no case of a platform, with a line `new`")]
    Case,
    #[error("no such line")]
    Line,
    #[error("no such word")]
    Word,
    #[error("a word is no number")]
    Number,
    #[error("no such placement")]
    Placement,
    #[error("no file to which it belongs")]
    File,
    #[error("an object's table is refused")]
    Table,
    #[error("1 to 256 workers, and objects of a group")]
    Limits,
    #[error("no such symbol")]
    Symbol,
    #[error("no batch can follow")]
    Batch,
    #[error("no group can follow, or no symbol of the linker")]
    Room,
}

impl From<AllocError> for Fault {
    fn from(_: AllocError) -> Self {
        Fault::Memory
    }
}

impl<T: Drop> From<AllocFailed<T>> for Fault {
    fn from(_: AllocFailed<T>) -> Self {
        Fault::Memory
    }
}
