//! What may follow in a link.

/// What the last groups of a link are, which says what may follow them.
#[derive(Clone, Copy, Debug)]
pub enum Stage {
    /// Those of batches, so many at most: another batch can follow.
    Batches(u32),
    /// Those that the linker adds, of which the last is of its symbols: another symbol can follow.
    Symbols,
    /// Those that the linker adds.
    Groups,
}
