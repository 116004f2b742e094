//! Which references stay undefined.

ghost use Rattle.std.specs.Prelude.{◌≡◌, Bool, IfOk, List, map};
ghost use Rattle.link_closure.specs.Closure.{is_marked};
ghost use Rattle.link_db_files.specs.GroupFiles.{symbols_in};
ghost use Rattle.link_rules.specs.Loading.{is_origin_loaded};
ghost use Rattle.link_rules.specs.Selection.{Selection};
ghost use Rattle.link_rules.specs.Undefined.{left_undefined};
ghost use Rattle.link_resolve_undefined.specs.Records.{AreSome, TellsOf, numbered_at};
ghost use Rattle.link_resolve_undefined.specs.Remaining.{held_by, is_missing_in, remaining_from, stays_in};

use link_closure::is_marked;
use link_db_files::Files;
use link_db_symbols::{SymbolView, symbols, target_of};
use link_ids::SymbolId;
use link_input::Platform;
use std::alloc::{AllocError, Global};

/// Whether the file of the symbol is loaded, where these objects are.
fn is_file_loaded(loaded: &[bool], symbol: &SymbolView) -> bool
    ensures { result ≡ is_origin_loaded loaded.now symbol.now.origin }
{
    match symbol.object() {
        Some(object) => is_marked(loaded, object),
        None => true,
    }
}

/// Whether the file of each symbol is loaded, by the id of the symbol.
fn symbols_of_loaded<P: Platform>(
    alloc: Global,
    files: &Files<P>,
    loaded: &[bool],
) -> Result<Vec<bool>, AllocError>
    ensures { IfOk result (λ held. held.items ≡ held_by loaded.now (symbols_in files.now.groups)) }
{
    let mut held = Vec::with_capacity(alloc, files.num_symbols())?;
    for (_, symbol) in symbols(files) {
        held.push(is_file_loaded(loaded, &symbol))?;
    }
    Ok(held)
}

/// Whether nothing that is loaded stands for a reference of a loaded object. Where the target's file isn't loaded, the reference is weak:
/// a strong one has the file loaded.
fn is_target_missing(held: &[bool], symbol: &SymbolView, target: Option<SymbolId>) -> bool
    ensures { result ≡ is_missing_in held.now symbol.now target }
{
    match target {
        Some(target) => symbol.is_weak() && !is_marked(held, target.as_usize()),
        None => true,
    }
}

/// Whether the symbol is a reference of a loaded object that stays undefined.
fn stays_undefined(
    loaded: &[bool],
    held: &[bool],
    targets: &[Option<SymbolId>],
    id: SymbolId,
    symbol: &SymbolView,
) -> bool
    ensures { result ≡ stays_in loaded.now held.now targets.now (id, symbol.now) }
{
    symbol.is_reference()
        && is_file_loaded(loaded, symbol)
        && is_target_missing(held, symbol, target_of(targets, id))
}

/// The ids of the references of loaded objects that stay undefined, in rising order.
fn ids_left<P: Platform>(
    alloc: Global,
    files: &Files<P>,
    loaded: &[bool],
    held: &[bool],
    targets: &[Option<SymbolId>],
) -> Result<Vec<SymbolId>, AllocError>
    ensures { IfOk result (λ left. left.items ≡ map (λ u. u.0) (remaining_from loaded.now held.now targets.now 0 (symbols_in files.now.groups))) }
{
    let mut left = Vec::new(alloc);
    for (id, symbol) in symbols(files) {
        if stays_undefined(loaded, held, targets, id, &symbol) {
            left.push(id)?;
        }
    }
    Ok(left)
}

/// The ids of the references of loaded objects that stay undefined, in rising order. Objects and targets are those of a link of these
/// files. The only refusal is want of memory.
pub fn references_left<P: Platform>(
    alloc: Global,
    files: &Files<P>,
    loaded: &[bool],
    targets: &[Option<SymbolId>],
) -> Result<Vec<SymbolId>, AllocError>
    ensures ids { IfOk result (λ left. (l : Selection) → TellsOf (symbols_in files.now.groups) loaded.now targets.now l → left.items ≡ map (λ u. u.0) (left_undefined l)) }
    ensures records { IfOk result (λ left. (l : Selection) → TellsOf (symbols_in files.now.groups) loaded.now targets.now l → numbered_at (symbols_in files.now.groups) left.items ≡ left_undefined l) }
    ensures some { IfOk result (λ left. AreSome (symbols_in files.now.groups) left.items) }
{
    let held = symbols_of_loaded(alloc, files, loaded)?;
    let left = ids_left(alloc, files, loaded, held.as_slice(), targets)?;
    Ok(left)
}
