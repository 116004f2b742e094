//! Reads the symbols of a group.

ghost use Rattle.std.specs.Prelude.{◌≡◌, ◌+◌, ◌++◌, length, map, IfOk, OnOk};
ghost use Rattle.std.specs.List.{AllByRecursion, flat_map};
ghost use Rattle.link_input_groups.specs.Asked.{HasIdsForAll};
ghost use Rattle.link_input_groups.specs.Groups.{files_of, length_of_spans, object_file, script_file, stub_file, symbol_spans};
ghost use Rattle.link_rules.specs.World.{Stage};
ghost use Rattle.link_db_texts.specs.Holds.{platform_of};
ghost use Rattle.link_db_ingest.specs.Files.{CanBeRead, IsStageBy, file_definitions, file_flags, numbers_of};
ghost use Rattle.link_db_ingest.specs.Parts.{HasAllFlags};

use crate::files::{load_prelude, load_script, load_stub};
use crate::loader::{DynamicObjectSymbolLoader, RegularObjectSymbolLoader, SymbolLoader};
use crate::read_symbols::ReadSymbols;
use link_db_texts::TextRules;
use link_input::{OutputKind, Platform};
use link_input_groups::{Group, SequencedInputObject, SequencedLinkerScript, SequencedStubLibrary};
use link_script::Demangler;
use std::alloc::{AllocError, Global};

/// Adds the symbols of an object, which may be a shared one. Its only refusal is want of memory.
fn load_object<P: Platform, D: Demangler>(
    rules: &TextRules<P>,
    output: OutputKind,
    demangler: &D,
    object: &SequencedInputObject<P>,
    read: &mut ReadSymbols,
) -> Result<(), AllocError>
    requires { HasIdsForAll (object_file object.now) }
    ensures definitions { OnOk result (read.new.definitions.items ≡ read.old.definitions.items ++ file_definitions (object_file object.now)) }
    ensures flags { OnOk result ((w : Stage) → IsStageBy (platform_of P.Platform) (D.demangled demangler.now) rules.now output w
        → numbers_of read.new.flags.items ≡ numbers_of read.old.flags.items ++ file_flags w (object_file object.now)) }
    ensures count { OnOk result (length read.new.flags.items ≡ length read.old.flags.items + object.now.symbol_id_range.len) }
{
    if object.is_dynamic() {
        let loader = DynamicObjectSymbolLoader {
            rules,
            output,
            demangler,
        };
        loader.load_symbols(object, read)
    } else {
        let loader = RegularObjectSymbolLoader {
            rules,
            output,
            demangler,
        };
        loader.load_symbols(object, read)
    }
}

/// Adds the symbols of objects.
fn load_objects<P: Platform, D: Demangler>(
    rules: &TextRules<P>,
    output: OutputKind,
    demangler: &D,
    objects: &[SequencedInputObject<P>],
    read: &mut ReadSymbols,
) -> Result<(), AllocError>
    requires { AllByRecursion HasIdsForAll (map (λ o. object_file o) objects.now) }
    ensures definitions { OnOk result (read.new.definitions.items
        ≡ read.old.definitions.items ++ flat_map file_definitions (map (λ o. object_file o) objects.now)) }
    ensures flags { OnOk result ((w : Stage) → IsStageBy (platform_of P.Platform) (D.demangled demangler.now) rules.now output w
        → numbers_of read.new.flags.items ≡ numbers_of read.old.flags.items ++ flat_map (file_flags w) (map (λ o. object_file o) objects.now)) }
    ensures count { OnOk result (length read.new.flags.items ≡ length read.old.flags.items + length_of_spans (map (λ o. o.symbol_id_range) objects.now)) }
{
    for object in objects {
        load_object(rules, output, demangler, object, read)?;
    }
    Ok(())
}

/// Adds the symbols of linker scripts.
fn load_scripts(scripts: &[SequencedLinkerScript], read: &mut ReadSymbols) -> Result<(), AllocError>
    requires { AllByRecursion HasIdsForAll (map script_file scripts.now) }
    ensures definitions { OnOk result (read.new.definitions.items ≡ read.old.definitions.items ++ flat_map file_definitions (map script_file scripts.now)) }
    ensures flags { OnOk result ((w : Stage)
        → numbers_of read.new.flags.items ≡ numbers_of read.old.flags.items ++ flat_map (file_flags w) (map script_file scripts.now)) }
    ensures count { OnOk result (length read.new.flags.items ≡ length read.old.flags.items + length_of_spans (map (λ s. s.symbol_id_range) scripts.now)) }
{
    for script in scripts {
        load_script(script, read)?;
    }
    Ok(())
}

/// Adds the symbols of stub libraries.
fn load_stubs(stubs: &[SequencedStubLibrary], read: &mut ReadSymbols) -> Result<(), AllocError>
    requires { AllByRecursion HasIdsForAll (map stub_file stubs.now) }
    ensures definitions { OnOk result (read.new.definitions.items ≡ read.old.definitions.items ++ flat_map file_definitions (map stub_file stubs.now)) }
    ensures flags { OnOk result ((w : Stage)
        → numbers_of read.new.flags.items ≡ numbers_of read.old.flags.items ++ flat_map (file_flags w) (map stub_file stubs.now)) }
    ensures count { OnOk result (length read.new.flags.items ≡ length read.old.flags.items + length_of_spans (map (λ s. s.symbol_id_range) stubs.now)) }
{
    for stub in stubs {
        load_stub(stub, read)?;
    }
    Ok(())
}

/// Adds the symbols of a group.
fn load_group<P: Platform, D: Demangler>(
    rules: &TextRules<P>,
    output: OutputKind,
    demangler: &D,
    group: &Group<P>,
    read: &mut ReadSymbols,
) -> Result<(), AllocError>
    requires { CanBeRead group.now }
    ensures definitions { OnOk result (read.new.definitions.items ≡ read.old.definitions.items ++ flat_map file_definitions (files_of group.now)) }
    ensures flags { OnOk result ((w : Stage) → IsStageBy (platform_of P.Platform) (D.demangled demangler.now) rules.now output w
        → numbers_of read.new.flags.items ≡ numbers_of read.old.flags.items ++ flat_map (file_flags w) (files_of group.now)) }
    ensures count { OnOk result (length read.new.flags.items ≡ length read.old.flags.items + length_of_spans (symbol_spans group.now)) }
{
    match group {
        Group::Prelude(prelude) => load_prelude(prelude, read),
        Group::Objects(objects) => {
            load_objects(rules, output, demangler, objects.as_slice(), read)
        }
        Group::LinkerScripts(scripts) => load_scripts(scripts.as_slice(), read),
        Group::StubLibraries(stubs) => load_stubs(stubs.as_slice(), read),
        Group::SyntheticSymbols(_) => Ok(()),
    }
}

/// For how many symbols room is made at once: those of a group's objects, which are most of a link's.
/// The number is left open: room changes nothing that a contract sees.
fn room_for<P: Platform>(group: &Group<P>) -> usize {
    let Group::Objects(objects) = group else {
        return 0;
    };
    let mut symbols = 0usize;
    for object in objects.as_slice() {
        symbols = symbols.saturating_add(object.symbol_id_range.len());
    }
    symbols
}

/// What is read of the symbols of a group, by the rules of a link, its output, and how names demangle. Its only refusal is want
/// of memory.
pub fn read_group<P: Platform, D: Demangler>(
    alloc: Global,
    rules: &TextRules<P>,
    output: OutputKind,
    demangler: &D,
    group: &Group<P>,
) -> Result<ReadSymbols, AllocError>
    requires { CanBeRead group.now }
    ensures definitions { IfOk result (λ read. read.definitions.items ≡ flat_map file_definitions (files_of group.now)) }
    ensures flags { IfOk result (λ read. (w : Stage) → IsStageBy (platform_of P.Platform) (D.demangled demangler.now) rules.now output w
        → numbers_of read.flags.items ≡ flat_map (file_flags w) (files_of group.now)) }
    ensures count { IfOk result (HasAllFlags group.now) }
{
    let mut read = ReadSymbols::with_room(alloc, room_for(group))?;
    load_group(rules, output, demangler, group, &mut read)?;
    Ok(read)
}
