//! How strongly a symbol binds.

/// How much a definition of a name counts beside the others. Mirrors Wild's `SymbolStrength`.
#[derive(Clone, Copy, Debug, PartialEq, Eq, Hash)]
pub enum SymbolStrength {
    /// It defines nothing.
    Undefined,
    /// A weak definition (`STB_WEAK`).
    Weak,
    /// A definition that is unique in the process (`STB_GNU_UNIQUE`).
    GnuUnique,
    /// A global definition (`STB_GLOBAL`).
    Strong,
    /// A tentative definition (`SHN_COMMON`) of this many bytes.
    Common(u64),
}
