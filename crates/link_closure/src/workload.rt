//! A workload: what is to be done where files are read item by item. It is what contracts speak of: no value of these
//! types is made.

use std::collections::LinkedList;

/// Bits to join to the flags of a symbol.
pub struct Mark {
    /// The number of the symbol.
    pub symbol: u32,
    /// The bits, as in `ValueFlags`.
    pub bits: u32,
}

/// A part of a file that is read at once: which files it requests, and which flags it marks.
pub struct Item {
    pub file: usize,
    pub requests: LinkedList<usize>,
    pub marks: LinkedList<Mark>,
}

/// What is to be done.
pub struct Workload {
    /// How many files there are. A file is a number below it.
    pub files: usize,
    /// The files that are asked for from the start.
    pub roots: LinkedList<usize>,
    /// The marks that are made from the start.
    pub root_marks: LinkedList<Mark>,
    /// The flags that each symbol begins with.
    pub opening: LinkedList<u32>,
    pub items: LinkedList<Item>,
}
