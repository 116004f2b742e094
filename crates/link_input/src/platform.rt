//! What differs from platform to platform.

ghost use Rattle.std.specs.Prelude.{◌≡◌, ℕ, Bool, true, false, List, Option, Result, Ok, IfOk, IfErr};
ghost use Rattle.link_script_syntax.specs.declared.fault.Fault.{Fault};
ghost use Rattle.link_script_syntax.specs.declared.profile.ScriptProfile.{ScriptProfile};
ghost use Rattle.link_script_syntax.specs.Fault.{Refuses};
ghost use Rattle.link_script.specs.ListedNames.{ListedNames, IsListNamed, gnu_names, macho_names};
ghost use Rattle.link_input.specs.declared.symbol_entry.SymbolEntry.{SymbolEntry};
ghost use Rattle.link_input.specs.declared.options.OutputKind.{OutputKind};
ghost use Rattle.link_input.specs.Interposition.{keeps_place};

use crate::options::OutputKind;
use crate::symbol_row::SymbolRow;
use link_flags::Visibility;
use link_script::ExportList;
use link_script_syntax::{ScriptFault, ScriptProfile};
use std::alloc::Global;

/// A platform: its constants, and rules that are functions of their arguments. Mirrors Wild's `Platform`.
pub trait Platform: Sized + Drop {
    /// Entry 0 of a symbol table stands for no symbol (ELF gABI, "Symbol Table", index 0).
    const HAS_NULL_SYMBOL_ENTRY: bool;

    /// Weak definitions are taken before tentative ones.
    const WEAK_SYMBOLS_OVERRIDE_COMMON: bool;

    /// An export list keeps back the symbols that it lacks, also where they would be exported without one.
    const EXPORT_LIST_RESTRICTS_DEFAULT_EXPORTS: bool;

    /// The constants, as contracts see them.
    ghost HAS_NULL_SYMBOL_ENTRY: { Bool };

    ghost WEAK_SYMBOLS_OVERRIDE_COMMON: { Bool };

    ghost EXPORT_LIST_RESTRICTS_DEFAULT_EXPORTS: { Bool };

    /// The rule of `non_interposable`.
    ghost is_non_interposable: { SymbolEntry → OutputKind → Option Bool → Bool };

    /// No other file may take the place of the symbol at run time. `listed` says whether the export list has its name;
    /// it is `None` exactly where no export list is given and no export name is forced.
    fn non_interposable(symbol: &SymbolRow, output: OutputKind, listed: Option<bool>) -> bool
        ensures { result ≡ is_non_interposable symbol.now output listed };

    /// What the text of an export list says in a profile, or its first fault.
    ghost read_export_list: { ScriptProfile → List ℕ → Result ListedNames Fault };

    /// The export list that a text spells, in the form that the platform's linkers read: the names that it exports, and those
    /// that must be defined. The profile counts for GNU lists alone.
    ///
    /// A text that is no such list is refused with its first fault and that fault's place, and `Memory` comes where memory ran
    /// out.
    fn parse_export_list(
        alloc: Global,
        text: &[u8],
        profile: ScriptProfile,
    ) -> Result<ExportList, ScriptFault>
        ensures read { IfOk result (λ list. (names : ListedNames) × (read_export_list profile text.now ≡ Ok names) × IsListNamed names list) }
        ensures refused { IfErr result (λ error. Refuses error text.now (read_export_list profile text.now)) };
}

/// Platforms whose objects are like ELF's.
#[derive(Clone, Copy, Debug)]
pub struct ElfLike;

/// Platforms whose objects are like Mach-O's.
#[derive(Clone, Copy, Debug)]
pub struct MachLike;

impl Platform for ElfLike {
    const HAS_NULL_SYMBOL_ENTRY: bool = true;

    const WEAK_SYMBOLS_OVERRIDE_COMMON: bool = false;

    const EXPORT_LIST_RESTRICTS_DEFAULT_EXPORTS: bool = false;

    ghost HAS_NULL_SYMBOL_ENTRY = { true };

    ghost WEAK_SYMBOLS_OVERRIDE_COMMON = { false };

    ghost EXPORT_LIST_RESTRICTS_DEFAULT_EXPORTS = { false };

    ghost is_non_interposable = { keeps_place false };

    fn non_interposable(symbol: &SymbolRow, output: OutputKind, listed: Option<bool>) -> bool {
        keeps_place(false, symbol, output, listed)
    }

    ghost read_export_list = { gnu_names };

    fn parse_export_list(
        alloc: Global,
        text: &[u8],
        profile: ScriptProfile,
    ) -> Result<ExportList, ScriptFault> {
        ExportList::parse_gnu(alloc, text, profile)
    }
}

impl Platform for MachLike {
    const HAS_NULL_SYMBOL_ENTRY: bool = false;

    const WEAK_SYMBOLS_OVERRIDE_COMMON: bool = true;

    const EXPORT_LIST_RESTRICTS_DEFAULT_EXPORTS: bool = true;

    ghost HAS_NULL_SYMBOL_ENTRY = { false };

    ghost WEAK_SYMBOLS_OVERRIDE_COMMON = { true };

    ghost EXPORT_LIST_RESTRICTS_DEFAULT_EXPORTS = { true };

    ghost is_non_interposable = { keeps_place true };

    fn non_interposable(symbol: &SymbolRow, output: OutputKind, listed: Option<bool>) -> bool {
        keeps_place(true, symbol, output, listed)
    }

    ghost read_export_list = { λ profile. macho_names };

    fn parse_export_list(
        alloc: Global,
        text: &[u8],
        _profile: ScriptProfile,
    ) -> Result<ExportList, ScriptFault> {
        ExportList::parse_macho(alloc, text)
    }
}

/// The rule of both platforms, of which one has lists that restrict.
fn keeps_place(
    lists_restrict: bool,
    symbol: &SymbolRow,
    output: OutputKind,
    listed: Option<bool>,
) -> bool
    ensures { result ≡ keeps_place lists_restrict symbol.now output listed }
{
    symbol.is_local()
        || symbol.visibility() != Visibility::Default
        || (!symbol.is_undefined()
            && (!output.is_shared_object() || (lists_restrict && listed == Some(false))))
}
