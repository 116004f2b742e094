//! A file of a link, once it is known which objects are loaded.

use crate::resolved_inputs::{
    ResolvedLinkerScript, ResolvedPrelude, ResolvedStubLibrary, ResolvedSyntheticSymbols,
};
use crate::resolved_objects::{NotLoaded, ResolvedDynamic, ResolvedObject};
use link_input::Platform;
use std::fmt;

/// A file of a link, once it is known which objects are loaded. Mirrors Wild's `ResolvedFile`.
#[derive(Drop)]
pub enum ResolvedFile<'a, P: Platform> {
    NotLoaded(NotLoaded<'a, P>),
    Prelude(ResolvedPrelude<'a>),
    Object(ResolvedObject<'a, P>),
    Dynamic(ResolvedDynamic<'a, P>),
    LinkerScript(ResolvedLinkerScript<'a>),
    StubLibrary(ResolvedStubLibrary<'a>),
    SyntheticSymbols(ResolvedSyntheticSymbols<'a>),
}

/// The files of a group, in order. Mirrors Wild's `ResolvedGroup`.
#[derive(Drop)]
pub struct ResolvedGroup<'a, P: Platform> {
    pub files: Vec<ResolvedFile<'a, P>>,
}

impl<P: Platform> ResolvedFile<'_, P> {
    ghost use Rattle.std.specs.Prelude.{◌≡◌};
    ghost use Rattle.link_resolve_files.specs.ResolvedFiles.{is_linked, resolved_file};

    /// Whether it is linked: only an object may not be.
    pub fn is_loaded(&self) -> bool
        ensures { result ≡ is_linked (resolved_file self.now) }
    {
        !matches!(self, ResolvedFile::NotLoaded(_))
    }
}

impl<P: Platform> fmt::Display for ResolvedFile<'_, P> {
    ghost use Rattle.std.specs.Prelude.{Some};
    ghost use Rattle.link_resolve_files.specs.ResolvedFiles.{resolved_file};
    ghost use Rattle.link_resolve_files.specs.ResolvedText.{resolved_text};

    ghost output = { λ f. Some (resolved_text (resolved_file f)) };

    fn fmt<W: fmt::Write>(&self, f: &mut fmt::Formatter<W>) -> fmt::Result {
        match self {
            ResolvedFile::NotLoaded(_) => f.write_str("<not loaded>"),
            ResolvedFile::Prelude(_) => f.write_str("<prelude>"),
            ResolvedFile::Object(object) => object.common.input().fmt(f),
            ResolvedFile::Dynamic(object) => object.common.input().fmt(f),
            ResolvedFile::LinkerScript(script) => script.input().fmt(f),
            ResolvedFile::StubLibrary(stub) => stub.input().fmt(f),
            ResolvedFile::SyntheticSymbols(_) => f.write_str("<synthetic>"),
        }
    }
}
