//! What reads the symbols of objects.

use crate::listing::listing_of_row;
use crate::read_symbols::ReadSymbols;
use link_db_texts::{TextRules, flags_of_row};
use link_flags::ValueFlags;
use link_ids::SymbolId;
use link_input::{OutputKind, Platform, SymbolRow};
use link_input_groups::SequencedInputObject;
use link_script::Demangler;
use std::alloc::AllocError;

/// What reads the symbols of the objects of one kind on a platform. Mirrors Wild's `SymbolLoader`.
pub trait SymbolLoader<P: Platform> {
    ghost use Rattle.std.specs.Prelude.{◌≡◌, ◌+◌, ◌++◌, [], ◌∷◌, ℕ, Bool, length, OnOk};
    ghost use Rattle.link_input_groups.specs.Asked.{HasIdsForAll};
    ghost use Rattle.link_input_groups.specs.Groups.{object_file};
    ghost use Rattle.link_rules.specs.Opening.{opening_flags};
    ghost use Rattle.link_rules.specs.World.{Stage, is_concealed};
    ghost use Rattle.link_db_ingest.specs.Definitions.{definitions_by};
    ghost use Rattle.link_db_ingest.specs.Files.{entry_symbol, file_definitions, file_flags, numbers_of};

    /// Its objects are shared ones.
    ghost is_dynamic: { Bool };

    /// The stages of the links that it reads for.
    ghost reads_for: { Self → Stage → Type 0 };

    /// The flags of a symbol as its object is read.
    fn compute_value_flags(&self, row: &SymbolRow) -> ValueFlags
        ensures { (w : Stage) → reads_for self.now w → result.0 ≡ opening_flags w (entry_symbol is_dynamic row.now) };

    /// Whether a symbol neither defines a name nor refers to one.
    fn should_ignore_symbol(&self, row: &SymbolRow) -> bool
        ensures { result ≡ is_concealed (entry_symbol is_dynamic row.now).origin };

    /// Adds a symbol of an object. Its only refusal is want of memory.
    fn load_symbol(
        &self,
        id: SymbolId,
        row: &SymbolRow,
        read: &mut ReadSymbols,
    ) -> Result<(), AllocError>
        ensures definitions { OnOk result (read.new.definitions.items ≡ read.old.definitions.items ++ definitions_by id (entry_symbol is_dynamic row.now)) }
        ensures flags { OnOk result ((w : Stage) → reads_for self.now w
            → numbers_of read.new.flags.items ≡ numbers_of read.old.flags.items ++ opening_flags w (entry_symbol is_dynamic row.now) ∷ []) }
        ensures count { OnOk result (length read.new.flags.items ≡ length read.old.flags.items + 1) }
    {
        let flags = self.compute_value_flags(row);
        let listing = listing_of_row(self.should_ignore_symbol(row), row);
        let name = row.name().as_slice();
        read.add_symbol(id, name, row.version_bytes(), flags, listing)
    }

    /// Adds the symbols of an object. Its only refusal is want of memory.
    fn load_symbols(
        &self,
        object: &SequencedInputObject<P>,
        read: &mut ReadSymbols,
    ) -> Result<(), AllocError>
        requires kind { object.now.parsed.object.is_dynamic ≡ is_dynamic }
        requires table { HasIdsForAll (object_file object.now) }
        ensures definitions { OnOk result (read.new.definitions.items ≡ read.old.definitions.items ++ file_definitions (object_file object.now)) }
        ensures flags { OnOk result ((w : Stage) → reads_for self.now w
            → numbers_of read.new.flags.items ≡ numbers_of read.old.flags.items ++ file_flags w (object_file object.now)) }
        ensures count { OnOk result (length read.new.flags.items ≡ length read.old.flags.items + object.now.symbol_id_range.len) }
    {
        for offset in 0..object.symbol_id_range.len() {
            let id = object.symbol_id_range.offset_to_id(offset);
            let row = object.symbol_row(id);
            self.load_symbol(id, &row, read)?;
        }
        Ok(())
    }
}

/// Reads the symbols of regular objects, by the rules of a link, its output, and how names demangle. Mirrors Wild's
/// `RegularObjectSymbolLoader`.
#[derive(Drop)]
pub struct RegularObjectSymbolLoader<'a, P: Platform, D: Demangler> {
    pub rules: &'a TextRules<P>,
    pub output: OutputKind,
    pub demangler: &'a D,
}

impl<P: Platform, D: Demangler> SymbolLoader<P> for RegularObjectSymbolLoader<'_, P, D> {
    ghost use Rattle.std.specs.Prelude.{false};
    ghost use Rattle.link_db_texts.specs.Holds.{platform_of};
    ghost use Rattle.link_db_ingest.specs.Files.{IsStageBy};

    ghost is_dynamic = { false };

    ghost reads_for = { λ l w. IsStageBy (platform_of P.Platform) (D.demangled l.demangler.now) l.rules.now l.output w };

    fn compute_value_flags(&self, row: &SymbolRow) -> ValueFlags {
        flags_of_row(self.rules, self.output, self.demangler, false, row)
    }

    fn should_ignore_symbol(&self, _row: &SymbolRow) -> bool {
        false
    }
}

/// Reads the symbols of shared objects, by the rules of a link, its output, and how names demangle. Mirrors Wild's
/// `DynamicObjectSymbolLoader`.
#[derive(Drop)]
pub struct DynamicObjectSymbolLoader<'a, P: Platform, D: Demangler> {
    pub rules: &'a TextRules<P>,
    pub output: OutputKind,
    pub demangler: &'a D,
}

impl<P: Platform, D: Demangler> SymbolLoader<P> for DynamicObjectSymbolLoader<'_, P, D> {
    ghost use Rattle.std.specs.Prelude.{true};
    ghost use Rattle.link_db_texts.specs.Holds.{platform_of};
    ghost use Rattle.link_db_ingest.specs.Files.{IsStageBy};

    ghost is_dynamic = { true };

    ghost reads_for = { λ l w. IsStageBy (platform_of P.Platform) (D.demangled l.demangler.now) l.rules.now l.output w };

    fn compute_value_flags(&self, row: &SymbolRow) -> ValueFlags {
        flags_of_row(self.rules, self.output, self.demangler, true, row)
    }

    fn should_ignore_symbol(&self, row: &SymbolRow) -> bool {
        row.is_hidden()
    }
}
