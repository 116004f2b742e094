//! What there can be too many of in a link.

/// What there can be too many of.
#[derive(Clone, Copy, Debug, PartialEq, Eq)]
pub enum TooManyKind {
    /// Regular objects and shared ones.
    Objects,
    LinkerScripts,
    StubLibraries,
    /// The sections of regular objects.
    Sections,
    /// The symbols of all files, and two for each custom section.
    Symbols,
}
