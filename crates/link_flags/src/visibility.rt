//! How far a symbol can be seen.

ghost use Rattle.std.specs.Prelude.{◌≡◌};

/// The visibility of a symbol (ELF gABI, "Symbol Table", `st_other`), from the least strict to the strictest. Mirrors
/// Wild's `Visibility`.
#[derive(Clone, Copy, Debug, PartialEq, Eq, PartialOrd, Ord, Hash)]
pub enum Visibility {
    /// Seen by other modules, which may put their own definition in its place.
    Default,
    /// Seen by other modules, but its own module always means its own definition.
    Protected,
    /// Not seen by other modules.
    Hidden,
}

impl Visibility {
    ghost use Rattle.link_flags.specs.Strictness.{strictest};

    /// The stricter of two: hidden before protected, protected before default.
    pub fn strictest(self, other: Visibility) -> Visibility
        ensures { result ≡ strictest self other }
    {
        self.max(other)
    }
}
