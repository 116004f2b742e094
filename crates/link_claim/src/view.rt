//! What one worker knows and has done.

use link_closure::{Mark, Workload};
use std::collections::LinkedList;

/// What the holder of a seat knows and has done. It is what contracts speak of: no value of it is made.
pub struct View {
    /// False once the seat was joined to another.
    pub live: bool,
    /// The work that all seats share.
    pub work: Workload,
    /// Files whose claim word was seen to be set.
    pub known: LinkedList<usize>,
    /// Items whose begin word was seen to be set.
    pub known_items: LinkedList<usize>,
    /// Files that this seat claimed.
    pub claims: LinkedList<usize>,
    /// Items that this seat began.
    pub begins: LinkedList<usize>,
    /// Marks whose bits are known to be in their words.
    pub marks: LinkedList<Mark>,
    /// Marks of which this seat saw a bit missing.
    pub missed: LinkedList<Mark>,
    /// Marks whose bits this seat wrote.
    pub writes: LinkedList<Written>,
}

/// The bits of a mark were joined to its symbol's word.
pub struct Written {
    pub mark: Mark,
    /// The flags that the step found.
    pub found: u32,
}
