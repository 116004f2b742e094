//! What is asked of symbols.

use crate::database::SymbolDb;
use crate::entry::entry_of_scripts;
use crate::mangled::find_mangled;
use link_db_display::SymbolNameDisplay;
use link_flags::{FlagsForSymbol, SymbolStrength, ValueFlags, Visibility};
use link_ids::{FileId, SymbolId};
use link_input::{InternalSymDefInfo, Platform};
use link_input_groups::SequencedInput;
use link_names::{NameView, is_mapping_symbol_name};
use link_script::Demangler;

impl<P: Platform> SymbolDb<P> {
    ghost use Rattle.std.specs.Prelude.{◌≡◌, ◌<◌, ◌^◌, None, Some, is_some, IsTrue, drop, if◌then◌else◌, length, option_map, slice_get};
    ghost use Rattle.std.specs.Int.RustNames.{bit_and, bit_or};
    ghost use Rattle.link_flags.specs.FlagBits as flag;
    ghost use Rattle.link_flags.specs.FlagWords.{bits_at};
    ghost use Rattle.link_input_groups.specs.SequencedInputs.{sequenced_file};
    ghost use Rattle.link_db_files.specs.GroupFiles.{file_at, IsFileOf};
    ghost use Rattle.link_db_files.specs.HeldFiles.{is_undefined_in, prelude_definition_of, strength_of, version_of, visibility_of};
    ghost use Rattle.link_db_files.specs.Inputs.{objects_in, scripts_in};
    ghost use Rattle.link_names.specs.SpecialNames.{is_mapping_name};
    ghost use Rattle.link_rules.specs.Loading.{entry_name};
    ghost use Rattle.link_rules.specs.Places.{first_of, places_from};
    ghost use Rattle.link_rules.specs.Rivals.{two_steps};
    ghost use Rattle.link_rules.specs.World.{Stage};
    ghost use Rattle.link_db.specs.Database.{HasTable, symbol_names};
    ghost use Rattle.link_db.specs.Mangled.{stands_for};
    ghost use Rattle.link_db.specs.Seen.{seen};

    /// How many symbols there are.
    pub fn num_symbols(&self) -> usize
        ensures value { result ≡ length (symbol_names (seen self.now)) }
        ensures fits { result < 2 ^ 32 }
    {
        self.files().num_symbols()
    }

    /// How many objects there are, regular and shared ones.
    pub fn num_regular_objects(&self) -> usize
        ensures { result ≡ length (objects_in (seen self.now).mapping.files.groups) }
    {
        self.files().num_objects()
    }

    /// The number of the group that would follow.
    pub fn next_group_index(&self) -> usize
        ensures { result ≡ length (seen self.now).mapping.files.groups }
    {
        self.files().next_group_index()
    }

    /// The file with this id. It can be asked for the ids of its symbols.
    pub fn file(&self, id: FileId) -> SequencedInput<'_, P>
        requires { IsTrue (is_some (file_at (seen self.now).mapping.files.groups id)) }
        ensures value { file_at (seen self.now).mapping.files.groups id ≡ Some (sequenced_file result) }
        ensures fits { (sequenced_file result).symbols.len < 2 ^ 32 }
    {
        self.files().file(id)
    }

    /// The file that has the symbol.
    pub fn file_id_for_symbol(&self, id: SymbolId) -> FileId
        requires { id < length (symbol_names (seen self.now)) }
        ensures { IsFileOf (seen self.now).mapping.files.groups id result }
    {
        self.files().file_id_for_symbol(id)
    }

    /// The name of the symbol.
    pub fn symbol_name(&self, id: SymbolId) -> NameView<'_>
        requires { id < length (symbol_names (seen self.now)) }
        ensures { slice_get (symbol_names (seen self.now)) id ≡ Some result }
    {
        self.files().symbol_name(id)
    }

    /// The name of the symbol as messages show it: demangled where the options say so.
    pub fn symbol_name_for_display<'a, D: Demangler>(
        &'a self,
        id: SymbolId,
        demangler: &'a D,
    ) -> SymbolNameDisplay<'a, D>
        requires { id < length (symbol_names (seen self.now)) }
        ensures name { slice_get (symbol_names (seen self.now)) id ≡ Some result.name }
        ensures demangler { option_map (λ d. d.now) result.demangler ≡ (if (seen self.now).options.demangle then Some demangler.now else None) }
    {
        SymbolNameDisplay {
            name: self.symbol_name(id),
            demangler: self.options.demangle.then_some(demangler),
        }
    }

    /// The version of the symbol, where it has one: only symbols of objects have.
    pub fn symbol_version_debug(&self, id: SymbolId) -> Option<NameView<'_>>
        requires { id < length (symbol_names (seen self.now)) }
        ensures { result ≡ version_of (seen self.now).mapping.files id }
    {
        self.files().symbol_version(id)
    }

    /// The visibility of the symbol: only symbols of objects have another than the default one.
    pub fn input_symbol_visibility(&self, id: SymbolId) -> Visibility
        requires { id < length (symbol_names (seen self.now)) }
        ensures { result ≡ visibility_of (seen self.now).mapping.files id }
    {
        self.files().symbol_visibility(id)
    }

    /// How strongly the symbol binds, whether its file is loaded or not.
    pub fn input_symbol_strength(&self, id: SymbolId) -> SymbolStrength
        requires { id < length (symbol_names (seen self.now)) }
        ensures { result ≡ strength_of (seen self.now).mapping.files id }
    {
        self.files().symbol_strength(id)
    }

    /// The definition of a symbol of the prelude.
    pub fn prelude_symbol_def(&self, id: SymbolId) -> Option<&InternalSymDefInfo>
        requires { id < length (symbol_names (seen self.now)) }
        ensures { option_map (λ d. d.now) result ≡ prelude_definition_of (seen self.now).mapping.files id }
    {
        self.files().prelude_symbol_def(id)
    }

    /// Whether it is an undefined symbol of an object.
    pub fn is_undefined(&self, id: SymbolId) -> bool
        requires { id < length (symbol_names (seen self.now)) }
        ensures { result ≡ is_undefined_in (seen self.now).mapping.files id }
    {
        self.files().is_undefined(id)
    }

    /// Whether the name is that of a mapping symbol, which tells code from data.
    pub fn is_mapping_symbol(&self, id: SymbolId) -> bool
        requires { id < length (symbol_names (seen self.now)) }
        ensures { option_map is_mapping_name (slice_get (symbol_names (seen self.now)) id) ≡ Some result }
    {
        is_mapping_symbol_name(self.symbol_name(id).as_slice())
    }

    /// The flags of what the symbol means, and that it can't be interposed if its own flags say so.
    pub fn flags_for_symbol<F: FlagsForSymbol>(&self, flags: &F, id: SymbolId) -> ValueFlags
        requires table { HasTable (seen self.now) }
        requires within { id < length (symbol_names (seen self.now)) }
        requires flags { length (F.words flags.now) ≡ length (symbol_names (seen self.now)) }
        ensures { result.0 ≡ bit_or (bits_at (F.words flags.now) (two_steps (seen self.now).table id)) (bit_and (bits_at (F.words flags.now) id) flag.non_interposable) }
    {
        let mut found = flags.flags_for_symbol(self.definition(id));
        found.merge(flags.flags_for_symbol(id));
        found
    }

    /// The name of the entry point: that of the options, else that of the last linker script that has one, else the platform's.
    pub fn entry_symbol_name(&self) -> Option<&[u8]>
        ensures { (w : Stage) → w.options ≡ (seen self.now).options → w.scripts ≡ scripts_in (seen self.now).mapping.files.groups → option_map (λ n. n.now) result ≡ entry_name w }
    {
        let given = self.options.entry.as_ref();
        let known = self.options.default_entry.as_ref();
        let name = given.or(entry_of_scripts(self.groups())).or(known)?;
        Some(name.as_slice())
    }

    /// The first symbol, behind the undefined one, whose name is text that demangles to the target. It looks at all names.
    pub fn find_mangled_name<D: Demangler>(&self, demangler: &D, target: &[u8]) -> Option<SymbolId>
        ensures { result ≡ first_of (places_from (stands_for (D.demangled demangler.now) target.now) 1 (drop 1 (symbol_names (seen self.now)))) }
    {
        find_mangled(self.files(), demangler, target)
    }
}
