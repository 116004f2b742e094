//! What each symbol of a link says, by its id.

ghost use Rattle.std.specs.Prelude.{◌≡◌, ◌++◌, ◌∷◌, [], IfOk, OnOk, map};
ghost use Rattle.link_db_files.specs.GroupFiles.{symbols_in};
ghost use Rattle.link_input.specs.Symbols.{is_shared, object_in, visibility_in};
ghost use Rattle.link_rules.specs.Rivals.{is_in_loaded_regular};

use link_db_files::Files;
use link_db_symbols::{SymbolOrigin, SymbolView, symbols};
use link_flags::Visibility;
use link_input::Platform;
use std::alloc::{AllocError, Global};

/// The place of the object that holds the symbol, among all objects of the link, for each symbol of the files, by its id. The only refusal is
/// want of memory.
pub fn object_places<P: Platform>(
    alloc: Global,
    files: &Files<P>,
) -> Result<Vec<Option<usize>>, AllocError>
    ensures { IfOk result (λ column. column.items ≡ map (λ x. object_in x.origin) (symbols_in files.now.groups)) }
{
    let mut column = Vec::with_capacity(alloc, files.num_symbols())?;
    for (_, symbol) in symbols(files) {
        column.push(symbol.object())?;
    }
    Ok(column)
}

/// What the settling of rivals asks of each symbol of the files, in columns by the ids of symbols.
#[derive(Drop)]
pub struct RivalColumns {
    /// Whether a shared object or a stub library gives the symbol.
    pub dynamic: Vec<bool>,
    /// How far the symbol can be seen.
    pub visibilities: Vec<Visibility>,
}

/// Adds what a symbol says to the columns.
fn push_symbol(columns: &mut RivalColumns, symbol: &SymbolView) -> Result<(), AllocError>
    ensures dynamic { OnOk result (columns.new.dynamic.items ≡ columns.old.dynamic.items ++ is_shared symbol.now.origin ∷ []) }
    ensures visibilities { OnOk result (columns.new.visibilities.items ≡ columns.old.visibilities.items ++ visibility_in symbol.now.origin ∷ []) }
{
    columns.dynamic.push(symbol.is_shared())?;
    columns.visibilities.push(symbol.visibility())?;
    Ok(())
}

/// These columns of the files, by one pass over their symbols. The only refusal is want of memory.
pub fn rival_columns<P: Platform>(
    alloc: Global,
    files: &Files<P>,
) -> Result<RivalColumns, AllocError>
    ensures dynamic { IfOk result (λ columns. columns.dynamic.items ≡ map (λ x. is_shared x.origin) (symbols_in files.now.groups)) }
    ensures visibilities { IfOk result (λ columns. columns.visibilities.items ≡ map (λ x. visibility_in x.origin) (symbols_in files.now.groups)) }
{
    let count = files.num_symbols();
    let mut columns = RivalColumns {
        dynamic: Vec::with_capacity(alloc, count)?,
        visibilities: Vec::with_capacity(alloc, count)?,
    };
    for (_, symbol) in symbols(files) {
        push_symbol(&mut columns, &symbol)?;
    }
    Ok(columns)
}

/// Whether a loaded regular object holds the symbol.
fn is_held(symbol: &SymbolView, loaded: &[bool]) -> bool
    ensures { result ≡ is_in_loaded_regular loaded.now symbol.now.origin }
{
    match symbol.origin() {
        SymbolOrigin::Object {
            place,
            is_dynamic,
            ..
        } => match loaded.get(*place) {
            Some(is_loaded) => *is_loaded && !*is_dynamic,
            None => false,
        },
        _ => false,
    }
}

/// Whether a loaded regular object holds the symbol, for each symbol of the files, by its id. The only refusal is want of memory.
pub fn held_symbols<P: Platform>(
    alloc: Global,
    files: &Files<P>,
    loaded: &[bool],
) -> Result<Vec<bool>, AllocError>
    ensures { IfOk result (λ column. column.items ≡ map (λ x. is_in_loaded_regular loaded.now x.origin) (symbols_in files.now.groups)) }
{
    let mut column = Vec::with_capacity(alloc, files.num_symbols())?;
    for (_, symbol) in symbols(files) {
        column.push(is_held(&symbol, loaded))?;
    }
    Ok(column)
}
