//! Why a link is refused.

use link_input::TooManyKind;
use link_names::{Name, Seq};
use link_script_syntax::ScriptError;
use std::alloc::AllocError;

/// Which text of a link a script is. Forced export names and linker scripts count from 0.
#[derive(Clone, Copy, Debug, PartialEq, Eq)]
pub enum ScriptOrigin {
    VersionScript,
    ExportList,
    ForcedExport(usize),
    /// The version script in this linker script.
    LinkerScript(usize),
}

/// Why a link is refused. Where several causes stand together, the first one in this order is told: a text of the options
/// that is no script; then, batch after batch, its linker scripts, the limits, no object, and a section in two groups of an
/// object that is loaded by then; behind the last batch the duplicates, and a version that isn't declared.
#[derive(Debug, Drop)]
pub enum LinkError {
    /// A text is no script: the version script, the export list, forced export names, and linker scripts, in this order.
    Script {
        origin: ScriptOrigin,
        error: ScriptError,
    },
    /// This linker script has a version script, and one was given before.
    MultipleVersionScripts(usize),
    /// This linker script has a version script, but its batch is not the first, and none was given before.
    LateVersionScript(usize),
    /// More of these than ids can name.
    TooMany {
        kind: TooManyKind,
        count: u128,
    },
    /// There is no object.
    NoInputs,
    /// A loaded object of this file lists a section as a member twice.
    SectionInTwoGroups {
        file: Name,
        section: u32,
    },
    /// Names that two loaded objects define: a line for each, sorted by their bytes.
    DuplicateSymbols(Seq<Name>),
    /// A definition asks for a version that the version script doesn't declare.
    UndefinedVersion {
        name: Name,
        version: Name,
    },
    /// Memory ran out. It may come in place of any other answer.
    Memory,
}

impl From<AllocError> for LinkError {
    ghost use Rattle.std.specs.Prelude.{◌≡◌};
    ghost use Rattle.link_rules.specs.declared.refusal.LinkError.TheVariants.{Memory};

    ghost from_gives = { λ _ e. e ≡ Memory };

    fn from(_: AllocError) -> Self {
        LinkError::Memory
    }
}
