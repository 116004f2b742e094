//! All symbols of a link in the order of their ids.

ghost use Rattle.std.specs.Prelude.{◌≡◌, ◌++◌, IfOk, OnOk, map};
ghost use Rattle.std.specs.List.{flat_map};
ghost use Rattle.link_input.specs.InputFiles.{batch_of};
ghost use Rattle.link_input.specs.InputFiles as file;
ghost use Rattle.link_input.specs.Symbols.{file_symbols, symbols_of};
ghost use Rattle.link_check_symbols.specs.Gathered.{library_symbols, link_symbols, listed_symbol, script_symbols};

use crate::view::{SymbolOrigin, SymbolView};
use link_input::{
    Inputs, InternalSymDefInfo, ParsedInputObject, Platform, Prelude, ProcessedLinkerScript,
    StubLibrary,
};
use link_names::Name;
use std::alloc::{AllocError, Global};

/// Adds the symbols of the prelude.
fn push_prelude<'a>(
    symbols: &mut Vec<SymbolView<'a>>,
    definitions: &'a [InternalSymDefInfo],
) -> Result<(), AllocError>
    ensures { OnOk result (symbols.new.items ≡ symbols.old.items ++ file_symbols 0 (file.prelude definitions.now)) }
{
    for definition in definitions {
        symbols.push(SymbolView::new(SymbolOrigin::Prelude(definition)))?;
    }
    Ok(())
}

/// Adds the symbols of the object at this place among all objects.
fn push_object<'a, P: Platform>(
    symbols: &mut Vec<SymbolView<'a>>,
    place: usize,
    object: &'a ParsedInputObject<P>,
) -> Result<(), AllocError>
    ensures { OnOk result (symbols.new.items ≡ symbols.old.items ++ file_symbols place (file.object object.now)) }
{
    let table = object.object();
    let is_dynamic = object.is_dynamic();
    for index in 0..table.num_symbols() {
        let row = table.symbol_at(index);
        symbols.push(SymbolView::new(SymbolOrigin::Object {
            place,
            is_dynamic,
            row,
        }))?;
    }
    Ok(())
}

/// Adds the symbols of objects, which are all that a link has.
fn push_objects<'a, P: Platform>(
    symbols: &mut Vec<SymbolView<'a>>,
    objects: &'a [ParsedInputObject<P>],
) -> Result<(), AllocError>
    ensures { OnOk result (symbols.new.items ≡ symbols.old.items ++ symbols_of 0 (map file.object objects.now)) }
{
    for (place, object) in objects.iter().enumerate() {
        push_object(symbols, place, object)?;
    }
    Ok(())
}

/// Adds the symbols of linker scripts.
fn push_scripts<'a>(
    symbols: &mut Vec<SymbolView<'a>>,
    scripts: &'a [ProcessedLinkerScript],
) -> Result<(), AllocError>
    ensures { OnOk result (symbols.new.items ≡ symbols.old.items ++ flat_map script_symbols scripts.now) }
{
    for script in scripts {
        push_script(symbols, script)?;
    }
    Ok(())
}

/// Adds the symbols of a linker script.
fn push_script<'a>(
    symbols: &mut Vec<SymbolView<'a>>,
    script: &'a ProcessedLinkerScript,
) -> Result<(), AllocError>
    ensures { OnOk result (symbols.new.items ≡ symbols.old.items ++ script_symbols script.now) }
{
    for definition in script.symbol_defs.as_slice() {
        symbols.push(SymbolView::new(SymbolOrigin::Script(definition)))?;
    }
    Ok(())
}

/// Adds the symbols of a list of names of a stub library.
fn push_names<'a>(
    symbols: &mut Vec<SymbolView<'a>>,
    names: &'a [Name],
    is_weak: bool,
) -> Result<(), AllocError>
    ensures { OnOk result (symbols.new.items ≡ symbols.old.items ++ map (listed_symbol is_weak) names.now) }
{
    for name in names {
        symbols.push(SymbolView::new(SymbolOrigin::Stub { name, is_weak }))?;
    }
    Ok(())
}

/// Adds the symbols of a stub library: the strong ones, and then the weak ones.
fn push_library<'a>(
    symbols: &mut Vec<SymbolView<'a>>,
    library: &'a StubLibrary,
) -> Result<(), AllocError>
    ensures { OnOk result (symbols.new.items ≡ symbols.old.items ++ library_symbols library.now) }
{
    push_names(symbols, library.strong.as_slice(), false)?;
    push_names(symbols, library.weak.as_slice(), true)
}

/// Adds the symbols of stub libraries.
fn push_libraries<'a>(
    symbols: &mut Vec<SymbolView<'a>>,
    libraries: &'a [StubLibrary],
) -> Result<(), AllocError>
    ensures { OnOk result (symbols.new.items ≡ symbols.old.items ++ flat_map library_symbols libraries.now) }
{
    for library in libraries {
        push_library(symbols, library)?;
    }
    Ok(())
}

/// The symbols of a link of these inputs, in the order of their ids: those of the prelude, of the objects, of the linker scripts,
/// and of the stub libraries. The only refusal is want of memory.
pub fn symbols<'a, P: Platform>(
    alloc: Global,
    prelude: &'a Prelude,
    inputs: &'a Inputs<P>,
) -> Result<Vec<SymbolView<'a>>, AllocError>
    ensures { IfOk result (λ symbols. symbols.items ≡ link_symbols prelude.now (batch_of inputs.now)) }
{
    let mut symbols = Vec::new(alloc);
    push_prelude(&mut symbols, prelude.symbols())?;
    push_objects(&mut symbols, inputs.objects.as_slice())?;
    push_scripts(&mut symbols, inputs.scripts.as_slice())?;
    push_libraries(&mut symbols, inputs.stubs.as_slice())?;
    Ok(symbols)
}
