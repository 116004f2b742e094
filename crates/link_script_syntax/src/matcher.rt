//! Names and patterns of a script, and its entries.

use link_glob::Pattern;
use link_names::{Name, Seq};

/// Which names a pattern of a script means. Mirrors Wild's `SymbolMatcher`.
#[derive(Debug, Drop)]
pub enum SymbolMatcher {
    /// This name.
    Exact(Name),
    /// This name, which was written with backslashes.
    EscapedExact(Name),
    /// A glob with a star.
    StarGlob(Pattern),
    /// A glob without one.
    NonstarGlob(Pattern),
    /// Every name: a bare `*`.
    MatchesAll,
}

/// One entry of a script. Mirrors Wild's `ParsedSymbolMatcher`.
#[derive(Debug, Drop)]
pub enum ParsedSymbolMatcher {
    /// A name or a pattern outside extern blocks.
    Single(SymbolMatcher),
    /// Those of an `extern "C"` block.
    Multiple(Seq<SymbolMatcher>),
    /// Those of an `extern "C++"` block.
    CxxMatchers(Seq<SymbolMatcher>),
}
