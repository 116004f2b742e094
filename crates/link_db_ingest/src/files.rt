//! Reads the symbols of files that are no objects.

ghost use Rattle.std.specs.Prelude.{◌≡◌, ◌+◌, ◌++◌, ◌<◌, ◌^◌, length, OnOk};
ghost use Rattle.link_input_groups.specs.Asked.{HasIdsForAll};
ghost use Rattle.link_input_groups.specs.Groups.{script_file, sequenced_prelude, stub_file};
ghost use Rattle.link_rules.specs.World.{Stage};
ghost use Rattle.link_db_ingest.specs.Files.{file_definitions, file_flags, numbers_of};

use crate::listing::{listing_of_definition, listing_of_script_symbol, listing_of_stub_symbol};
use crate::read_symbols::ReadSymbols;
use link_db_texts::{flags_of_definition, flags_of_script_symbol, flags_of_stub_symbol};
use link_ids::SymbolId;
use link_input::Prelude;
use link_input_groups::{SequencedLinkerScript, SequencedStubLibrary};
use std::alloc::AllocError;

/// Adds the symbols of the prelude. Its only refusal is want of memory.
pub fn load_prelude(prelude: &Prelude, read: &mut ReadSymbols) -> Result<(), AllocError>
    requires { length prelude.now < 2 ^ 32 }
    ensures definitions { OnOk result (read.new.definitions.items ≡ read.old.definitions.items ++ file_definitions (sequenced_prelude prelude.now)) }
    ensures flags { OnOk result ((w : Stage) → numbers_of read.new.flags.items ≡ numbers_of read.old.flags.items ++ file_flags w (sequenced_prelude prelude.now)) }
    ensures count { OnOk result (length read.new.flags.items ≡ length read.old.flags.items + length prelude.now) }
{
    for (place, definition) in prelude.symbols().iter().enumerate() {
        let id = SymbolId::from_usize(place);
        let flags = flags_of_definition(definition);
        let listing = listing_of_definition(definition);
        read.add_symbol(id, definition.name.as_slice(), None, flags, listing)?;
    }
    Ok(())
}

/// Adds the symbols of a linker script. Its only refusal is want of memory.
pub fn load_script(script: &SequencedLinkerScript, read: &mut ReadSymbols) -> Result<(), AllocError>
    requires { HasIdsForAll (script_file script.now) }
    ensures definitions { OnOk result (read.new.definitions.items ≡ read.old.definitions.items ++ file_definitions (script_file script.now)) }
    ensures flags { OnOk result ((w : Stage) → numbers_of read.new.flags.items ≡ numbers_of read.old.flags.items ++ file_flags w (script_file script.now)) }
    ensures count { OnOk result (length read.new.flags.items ≡ length read.old.flags.items + script.now.symbol_id_range.len) }
{
    let ids = script.symbol_id_range;
    for (place, definition) in script.parsed.symbol_defs.as_slice().iter().enumerate() {
        let id = ids.offset_to_id(place);
        let flags = flags_of_script_symbol(definition);
        let listing = listing_of_script_symbol(definition);
        read.add_symbol(id, definition.name.as_slice(), None, flags, listing)?;
    }
    Ok(())
}

/// Adds the symbols of a stub library. Its only refusal is want of memory.
pub fn load_stub(stub: &SequencedStubLibrary, read: &mut ReadSymbols) -> Result<(), AllocError>
    requires { HasIdsForAll (stub_file stub.now) }
    ensures definitions { OnOk result (read.new.definitions.items ≡ read.old.definitions.items ++ file_definitions (stub_file stub.now)) }
    ensures flags { OnOk result ((w : Stage) → numbers_of read.new.flags.items ≡ numbers_of read.old.flags.items ++ file_flags w (stub_file stub.now)) }
    ensures count { OnOk result (length read.new.flags.items ≡ length read.old.flags.items + stub.now.symbol_id_range.len) }
{
    let ids = stub.symbol_id_range;
    let flags = flags_of_stub_symbol();
    let listing = listing_of_stub_symbol();
    for (place, symbol) in stub.defined_symbols.as_slice().iter().enumerate() {
        let id = ids.offset_to_id(place);
        read.add_symbol(id, symbol.name.as_slice(), None, flags, listing)?;
    }
    Ok(())
}
