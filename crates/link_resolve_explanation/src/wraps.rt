//! The names that wraps map anew (`--wrap`), with the first definition of each.

ghost use Rattle.std.specs.Prelude.{◌≡◌, ◌++◌, ℕ, IfOk, List, None, OnOk, Option, Some, codes, if◌then◌else◌, option_map};
ghost use Rattle.link_db_files.specs.GroupFiles.{symbols_in};
ghost use Rattle.link_names.specs.Names.{value_in};
ghost use Rattle.link_resolve_explanation.specs.Wraps.{is_wrap_of, is_wrapped, lacks_first, with_definition, wrapped_first};

use crate::listing::is_listed;
use link_db_files::Files;
use link_db_symbols::{SymbolView, symbols};
use link_ids::SymbolId;
use link_input::Platform;
use link_names::{Name, NameMap};
use std::alloc::{AllocError, Global};

/// The name by which a wrapper asks for what it wraps.
fn real_name(alloc: Global, name: &Name) -> Result<Name, AllocError>
    ensures { IfOk result (λ real. real ≡ codes "__real_" ++ name.now) }
{
    let mut real = Vec::from_slice(alloc, b"__real_")?;
    real.extend_from_slice(name.as_slice())?;
    Ok(Name::new(real))
}

/// Notes the names that a wrap maps anew, with no definition yet.
fn note_wrap(
    alloc: Global,
    firsts: &mut NameMap<Option<SymbolId>>,
    name: &Name,
) -> Result<(), AllocError>
    ensures { OnOk result ((asked : List ℕ) → value_in firsts.new asked ≡ (if is_wrap_of asked name.now then Some None else value_in firsts.old asked)) }
{
    firsts.note(real_name(alloc, name)?, None)?;
    firsts.note(name.clone()?, None)?;
    Ok(())
}

/// The names that wraps map anew, with no definitions yet.
fn wrapped_names(alloc: Global, wraps: &[Name]) -> Result<NameMap<Option<SymbolId>>, AllocError>
    ensures { IfOk result (λ firsts. (asked : List ℕ) → value_in firsts asked ≡ (if is_wrapped wraps.now asked then Some None else None)) }
{
    let mut firsts = NameMap::new(alloc);
    for name in wraps {
        note_wrap(alloc, &mut firsts, name)?;
    }
    Ok(firsts)
}

/// The name is one of these, and has no definition yet.
fn lacks_first(firsts: &NameMap<Option<SymbolId>>, name: &[u8]) -> bool
    ensures { result ≡ lacks_first (value_in firsts.now name.now) }
{
    matches!(firsts.get(name), Some(None))
}

/// Notes a symbol as the first definition of its name, where the name is one of these and has none yet.
fn note_definition(
    alloc: Global,
    firsts: &mut NameMap<Option<SymbolId>>,
    id: SymbolId,
    symbol: &SymbolView,
) -> Result<(), AllocError>
    ensures { OnOk result ((asked : List ℕ) → value_in firsts.new asked ≡ option_map (with_definition id symbol.now asked) (value_in firsts.old asked)) }
{
    if !is_listed(symbol) {
        return Ok(());
    }
    let name = symbol.name();
    if !lacks_first(firsts, name.as_slice()) {
        return Ok(());
    }
    firsts.note(Name::from_slice(alloc, name.as_slice())?, Some(id))?;
    Ok(())
}

/// The names that wraps map anew, each with its first definition, if it has one. The only refusal is want of memory.
pub(crate) fn wrapped_firsts<P: Platform>(
    alloc: Global,
    files: &Files<P>,
    wraps: &[Name],
) -> Result<NameMap<Option<SymbolId>>, AllocError>
    ensures { IfOk result (λ firsts. (asked : List ℕ) → value_in firsts asked ≡ wrapped_first wraps.now (symbols_in files.now.groups) asked) }
{
    let mut firsts = wrapped_names(alloc, wraps)?;
    for (id, symbol) in symbols(files) {
        note_definition(alloc, &mut firsts, id, &symbol)?;
    }
    Ok(firsts)
}
