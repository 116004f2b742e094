//! What the user asks of a link.

ghost use Rattle.std.specs.Prelude.{◌≡◌};
ghost use Rattle.link_input.specs.Defaults.{default_options};

use crate::internal_symbols::InternalSymDefInfo;
use link_names::{Name, Seq};
use link_script_syntax::ScriptProfile;
use std::alloc::Global;

/// What is linked.
#[derive(Clone, Copy, Debug, PartialEq, Eq)]
pub enum OutputKind {
    StaticExecutable,
    DynamicExecutable,
    SharedObject,
    /// A partial link (`-r`), whose output is an object again.
    Partial,
}

/// The options of a link.
#[derive(Debug)]
pub struct Options {
    pub output: OutputKind,
    /// The name of the entry point (`--entry`).
    pub entry: Option<Name>,
    /// The platform's name of it, where neither an option nor a linker script gives one.
    pub default_entry: Option<Name>,
    /// Two definitions of a name are allowed (`--allow-multiple-definition`).
    pub allow_multiple: bool,
    /// At most how many objects are read as one group: 1 to 256.
    pub files_per_group: u32,
    /// The wrapped names (`--wrap`), in order.
    pub wrap: Seq<Name>,
    /// Names that are to be defined (`--undefined`), in order.
    pub force_undefined: Seq<Name>,
    /// Names that are to be exported (`--export-dynamic-symbol`), in order.
    pub force_export: Seq<Name>,
    /// Redirects (`--defsym`), in order.
    pub defsym: Seq<InternalSymDefInfo>,
    /// The symbols that the linker defines for this platform, in order.
    pub linker_symbols: Seq<InternalSymDefInfo>,
    /// Names of output sections that get start and stop symbols; no two are equal.
    pub custom_sections: Seq<Name>,
    /// Names are shown demangled.
    pub demangle: bool,
    /// How the version scripts and the GNU export list are read, linker scripts' version texts too.
    pub script_profile: ScriptProfile,
    /// The name under which programs find the output where it is a shared object (`-soname`).
    pub soname: Option<Name>,
}

// By hand, so that what lets one go makes one call and does not name its parts.
impl Drop for Options {
    fn drop(self) {
        let Self {
            output: _,
            entry: _,
            default_entry: _,
            allow_multiple: _,
            files_per_group: _,
            wrap: _,
            force_undefined: _,
            force_export: _,
            defsym: _,
            linker_symbols: _,
            custom_sections: _,
            demangle: _,
            script_profile: _,
            soname: _,
        } = self;
    }
}

impl Options {
    /// The options where the user gives none: a static executable, and scripts as Wild reads them. Takes no memory.
    pub fn new(alloc: Global) -> Self
        ensures { result ≡ default_options }
    {
        Options {
            output: OutputKind::StaticExecutable,
            entry: None,
            default_entry: None,
            allow_multiple: false,
            files_per_group: 256,
            wrap: Seq::new(alloc),
            force_undefined: Seq::new(alloc),
            force_export: Seq::new(alloc),
            defsym: Seq::new(alloc),
            linker_symbols: Seq::new(alloc),
            custom_sections: Seq::new(alloc),
            demangle: false,
            script_profile: ScriptProfile::Wild,
            soname: None,
        }
    }
}
