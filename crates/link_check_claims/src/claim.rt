//! Claims.

use link_names::Seq;

/// An object that is claimed to be loaded.
#[derive(Clone, Copy, Debug, PartialEq, Eq)]
pub struct ClaimedObject {
    /// Its place among all objects of the link, from 0.
    pub object: usize,
    /// Greater than the rank of the object whose reference it is loaded by.
    pub rank: usize,
    /// The id of the reference that it is loaded by; none where it is loaded whatever refers to it.
    pub by: Option<usize>,
}

/// A COMDAT group that is claimed to be kept.
#[derive(Clone, Copy, Debug, PartialEq, Eq)]
pub struct ClaimedGroup {
    /// The place of its object among all objects of the link, from 0.
    pub object: usize,
    /// Its place among the groups of the object, from 0.
    pub group: usize,
}

/// What is claimed of a link of one batch.
#[derive(Debug, Drop)]
pub struct Claim {
    /// The loaded objects.
    pub loaded: Seq<ClaimedObject>,
    /// The COMDAT groups that are kept.
    pub kept: Seq<ClaimedGroup>,
    /// For each symbol, with those that the linker makes, the id of the one that it points to.
    pub table: Seq<usize>,
}
