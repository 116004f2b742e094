//! What the parts of a link's answer are.

use link_ids::SymbolId;
use link_names::Name;

/// A COMDAT group that was kept (ELF gABI, "Section Groups", `GRP_COMDAT`): the place of its object among the objects,
/// its own place among the groups of the object, both from 0, and its signature.
#[derive(Debug, Drop)]
pub struct KeptGroup {
    pub object: usize,
    pub group: usize,
    pub signature: Name,
}

/// The version that the version script gives a symbol: its number in the output, where 1 is the global one.
#[derive(Debug, Drop)]
pub struct GivenVersion {
    pub symbol: SymbolId,
    pub index: u16,
}
