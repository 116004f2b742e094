//! The files of a link, and all that goes with them.

use crate::internal_symbols::InternalSymDefInfo;
use crate::options::Options;
use crate::parsed_object::ParsedInputObject;
use crate::platform::Platform;
use link_names::{Name, Seq};

/// A linker script, of which its entry, its version script and its symbols are kept.
#[derive(Debug, Drop)]
pub struct ProcessedLinkerScript {
    pub input: Name,
    pub entry: Option<Name>,
    /// The text of its `VERSION` command.
    pub version: Option<Name>,
    pub symbol_defs: Seq<InternalSymDefInfo>,
}

/// A stub library (Mach-O `.tbd`): the names that a shared library will define.
#[derive(Debug, Drop)]
pub struct StubLibrary {
    pub input: Name,
    pub strong: Seq<Name>,
    pub weak: Seq<Name>,
}

/// A symbol that a stub library defines.
#[derive(Debug, Drop)]
pub struct StubSymbol {
    pub name: Name,
    /// It is a weak definition.
    pub is_weak: bool,
}

/// The files of a link, each kind in the order of the command line.
#[derive(Drop)]
pub struct Inputs<P: Platform> {
    pub objects: Seq<ParsedInputObject<P>>,
    pub scripts: Seq<ProcessedLinkerScript>,
    pub stubs: Seq<StubLibrary>,
}

/// The texts of the version script and of the export list.
#[derive(Debug, Drop)]
pub struct Scripts {
    pub version_script: Option<Name>,
    pub export_list: Option<Name>,
}

/// All that a link on a platform is given.
#[derive(Drop)]
pub struct World<P: Platform> {
    /// The files of the first batch.
    pub inputs: Inputs<P>,
    /// The files of the batches that come behind it, one after another.
    pub later: Seq<Inputs<P>>,
    pub options: Options,
    pub scripts: Scripts,
}
