//! What the references of loaded files stand for.

ghost use Rattle.std.specs.Prelude.{◌≡◌, IfOk};
ghost use Rattle.link_rules.specs.Loading.{is_origin_loaded};
ghost use Rattle.link_rules.specs.Places.{each_from};
ghost use Rattle.link_rules.specs.Selection.{loaded_target};
ghost use Rattle.link_rules.specs.World.{Stage};
ghost use Rattle.link_check_targets.specs.Stages.{stage_targets};
ghost use Rattle.link_check_targets.specs.Tables.{target_at};
ghost use Rattle.link_check.specs.Columns.{loaded_target_at};

use link_check_symbols::SymbolView;
use link_closure::is_marked;
use link_ids::SymbolId;
use std::alloc::{AllocError, Global};

/// Whether the file of a symbol is loaded; all but objects always are.
fn is_origin_loaded(marks: &[bool], symbol: &SymbolView) -> bool
    ensures { result ≡ is_origin_loaded marks.now symbol.now.origin }
{
    match symbol.object() {
        Some(object) => is_marked(marks, object),
        None => true,
    }
}

/// The target that a column has for the symbol of this id.
fn target_at(targets: &[Option<SymbolId>], id: usize) -> Option<SymbolId>
    ensures { result ≡ target_at targets.now id }
{
    match targets.get(id) {
        Some(target) => *target,
        None => None,
    }
}

/// The same, where the file of the symbol is loaded.
fn loaded_target_at(
    marks: &[bool],
    targets: &[Option<SymbolId>],
    id: usize,
    symbol: &SymbolView,
) -> Option<SymbolId>
    ensures { result ≡ loaded_target_at marks.now targets.now id symbol.now }
{
    if is_origin_loaded(marks, symbol) {
        target_at(targets, id)
    } else {
        None
    }
}

/// The targets of those references whose file is loaded, by the ids of symbols. The targets are those of all references. The only refusal is
/// want of memory.
pub(crate) fn loaded_targets(
    alloc: Global,
    symbols: &[SymbolView],
    targets: &[Option<SymbolId>],
    marks: &[bool],
) -> Result<Vec<Option<SymbolId>>, AllocError>
    ensures { IfOk result (λ column. (w : Stage) → w.symbols ≡ symbols.now → targets.now ≡ stage_targets w
        → column.items ≡ each_from (loaded_target w marks.now) 0 w.symbols) }
{
    let mut column = Vec::with_capacity(alloc, symbols.len())?;
    for (id, symbol) in symbols.iter().enumerate() {
        column.push(loaded_target_at(marks, targets, id, symbol))?;
    }
    Ok(column)
}
