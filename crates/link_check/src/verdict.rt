//! What a check comes to.

/// How a claim of a link is judged: by the first part of it that fails.
#[derive(Clone, Copy, Debug, PartialEq, Eq)]
pub enum Verdict {
    /// All of it holds.
    Holds,
    /// Other objects are loaded, or a reason is none.
    FailsLoaded,
    /// Other COMDAT groups are kept.
    FailsKept,
    /// The table differs at this id, and at none that is less: its entry is another one, or it ends there, or the table that is due does.
    FailsTable(usize),
}
