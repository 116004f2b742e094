//! Definitions that are to be added.

use crate::label::Label;

/// A symbol that defines a name.
#[derive(Clone, Copy, Debug, PartialEq, Eq)]
pub struct Definition {
    /// The hash number of the name, or of the name and version.
    pub hash: u64,
    /// What leads to the name.
    pub label: Label,
    /// The id of the symbol.
    pub id: u32,
}
