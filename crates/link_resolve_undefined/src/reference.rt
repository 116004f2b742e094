//! What an undefined reference says.

ghost use Rattle.std.specs.Prelude.{◌≡◌, ◌<◌, Some, length, slice_get};
ghost use Rattle.link_db_files.specs.GroupFiles.{symbols_in};
ghost use Rattle.link_input.specs.Symbols.{Symbol};
ghost use Rattle.link_rules.specs.Marking.{visibility_flags};

use crate::asked_name::AskedName;
use bitflags::Flags;
use link_db_files::Files;
use link_flags::{ValueFlags, Visibility};
use link_ids::SymbolId;
use link_input::{OutputKind, Platform};

/// What a reference says that stays undefined.
#[derive(Drop)]
pub(crate) struct Reference<'a> {
    pub(crate) name: AskedName<'a>,
    pub(crate) is_weak: bool,
    /// Other files may see it.
    pub(crate) is_open: bool,
    pub(crate) visibility: Visibility,
}

/// The flags of a symbol to which a reference of this visibility passes it.
pub(crate) fn passed_flags(visibility: Visibility, is_dynamic: bool) -> ValueFlags
    ensures { result.0 ≡ visibility_flags visibility is_dynamic }
{
    match visibility {
        Visibility::Default => ValueFlags::empty(),
        Visibility::Protected if is_dynamic => ValueFlags::empty(),
        Visibility::Protected => ValueFlags::NON_INTERPOSABLE,
        Visibility::Hidden => ValueFlags::NON_INTERPOSABLE.union(ValueFlags::DOWNGRADE_TO_LOCAL),
    }
}

impl<'a> Reference<'a> {
    ghost use Rattle.link_resolve_undefined.specs.Flagged.{own_flags};
    ghost use Rattle.link_resolve_undefined.specs.Says.{Says, is_bound_late};

    /// What the symbol of this id says.
    pub(crate) fn of<P: Platform>(files: &'a Files<P>, id: SymbolId) -> Self
        requires { id < length (symbols_in files.now.groups) }
        ensures { (x : Symbol) × ((slice_get (symbols_in files.now.groups) id ≡ Some x) × Says result x) }
    {
        let name = AskedName::of(files, id);
        match files.symbol_row(id) {
            Some(row) => Reference {
                name,
                is_weak: row.is_weak(),
                is_open: matches!(row.visibility(), Visibility::Default),
                visibility: row.visibility(),
            },
            None => Reference {
                name,
                is_weak: false,
                is_open: false,
                visibility: Visibility::Default,
            },
        }
    }

    /// Whether its name is left to the dynamic loader in such an output.
    fn is_bound_late(&self, output: OutputKind) -> bool
        ensures { (x : Symbol) → Says self.now x → result ≡ is_bound_late output x }
    {
        let by_output = match output {
            OutputKind::SharedObject => true,
            OutputKind::DynamicExecutable => self.is_weak,
            OutputKind::StaticExecutable | OutputKind::Partial => false,
        };
        self.is_open && by_output
    }

    /// What it has for itself in such an output, where its id and what it points to are these.
    pub(crate) fn own_flags(&self, output: OutputKind, id: SymbolId, target: SymbolId) -> ValueFlags
        ensures { (x : Symbol) → Says self.now x → result.0 ≡ own_flags output x id target }
    {
        let weak = if self.is_weak {
            ValueFlags::UNDEFINED_WEAK
        } else {
            ValueFlags::empty()
        };
        let binding = if !self.name.is_plain() || target != id {
            ValueFlags::empty()
        } else if self.is_bound_late(output) {
            ValueFlags::DYNAMIC
        } else {
            ValueFlags::NON_INTERPOSABLE
        };
        weak.union(binding)
    }
}
