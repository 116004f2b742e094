//! The plain state that steps change, one at a time. It is what contracts speak of: no value of these types is made.

use link_closure::Mark;
use std::collections::LinkedList;

/// A worker set the claim bit of a file.
pub struct Claimed {
    pub worker: usize,
    pub file: usize,
}

/// A worker set the begin bit of an item.
pub struct Begun {
    pub worker: usize,
    pub item: usize,
}

/// A worker joined the bits of a mark to its symbol's flags.
pub struct Marked {
    pub worker: usize,
    pub mark: Mark,
}

/// A state of the work: the bits and flags, and what each worker did to come there, the latest first.
pub struct Core {
    /// Whether each file is claimed.
    pub claimed: LinkedList<bool>,
    /// Whether each item is begun.
    pub begun: LinkedList<bool>,
    /// The flags of each symbol.
    pub flags: LinkedList<u32>,
    pub claims: LinkedList<Claimed>,
    pub begins: LinkedList<Begun>,
    pub marks: LinkedList<Marked>,
}

/// One atomic step of a worker.
pub enum Step {
    /// Sets the claim bit of a file.
    Claim { worker: usize, file: usize },
    /// Sets the begin bit of an item.
    Begin { worker: usize, item: usize },
    /// Joins bits to the flags of a symbol.
    Mark { worker: usize, mark: Mark },
    /// Reads a bit or flags.
    Read { worker: usize },
}
