//! Symbols as messages show them.

use crate::database::SymbolDb;
use link_db_display::{SymbolDebug, SymbolPlace};
use link_flags::FlagsForSymbol;
use link_ids::{SectionIndex, SymbolId};
use link_input::Platform;

impl<P: Platform> SymbolDb<P> {
    ghost use Rattle.std.specs.Prelude.{◌≡◌, ◌<◌, Some, length, option_and_then, slice_get};
    ghost use Rattle.link_flags.specs.FlagWords.{bits_at};
    ghost use Rattle.link_db_files.specs.HeldFiles.{entry_of};
    ghost use Rattle.link_input.specs.Entries.{section_of};
    ghost use Rattle.link_rules.specs.Rivals.{two_steps};
    ghost use Rattle.link_db.specs.Database.{HasTable, symbol_names};
    ghost use Rattle.link_db.specs.Places.{IsPlaceOf};
    ghost use Rattle.link_db.specs.Seen.{seen};

    /// Where the symbol stands.
    fn place_of(&self, id: SymbolId) -> SymbolPlace<'_, P>
        requires { id < length (symbol_names (seen self.now)) }
        ensures { IsPlaceOf (seen self.now).mapping.files id result }
    {
        let file_id = self.file_id_for_symbol(id);
        let file = self.file(file_id);
        let offset = file.symbol_id_range().id_to_offset(id);
        SymbolPlace {
            id,
            file_id,
            file,
            offset,
        }
    }

    /// The section of its object that the symbol stands in.
    fn section_of(&self, id: SymbolId) -> Option<SectionIndex>
        requires { id < length (symbol_names (seen self.now)) }
        ensures { result ≡ option_and_then (λ e. section_of e.place) (entry_of (seen self.now).mapping.files id) }
    {
        self.files().symbol_row(id)?.section()
    }

    /// The symbol with its file, its definition and its own flags, as messages show it. The table may not be taken.
    pub fn symbol_debug<F: FlagsForSymbol>(&self, flags: &F, id: SymbolId) -> SymbolDebug<'_, P>
        requires table { HasTable (seen self.now) }
        requires within { id < length (symbol_names (seen self.now)) }
        requires flags { length (F.words flags.now) ≡ length (symbol_names (seen self.now)) }
        ensures place { IsPlaceOf (seen self.now).mapping.files id result.place }
        ensures name { slice_get (symbol_names (seen self.now)) id ≡ Some result.name }
        ensures section { result.section ≡ option_and_then (λ e. section_of e.place) (entry_of (seen self.now).mapping.files id) }
        ensures definition { IsPlaceOf (seen self.now).mapping.files (two_steps (seen self.now).table id) result.definition }
        ensures flags { result.flags.0 ≡ bits_at (F.words flags.now) id }
    {
        SymbolDebug {
            place: self.place_of(id),
            name: self.symbol_name(id),
            section: self.section_of(id),
            definition: self.place_of(self.definition(id)),
            flags: flags.flags_for_symbol(id),
        }
    }
}
