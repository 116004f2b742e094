//! What is asked for and marked from the start.

ghost use Rattle.std.specs.Prelude.{◌≡◌, ◌<◌, ◌++◌, ℕ, All, IfOk, IfSome, OnOk, filter, length, map, option_to_list};
ghost use Rattle.link_flags.specs.FlagBits as flag;
ghost use Rattle.std.specs.List.{range_with_len};
ghost use Rattle.link_closure.specs.Closure.{is_marked};
ghost use Rattle.link_db_mapping.specs.Mapped.{mapping_of};
ghost use Rattle.link_resolve_marks.specs.Marks.{mark_on, marks_on_names};
ghost use Rattle.link_claim_pool.specs.Marks.{mark_of_pair};
ghost use Rattle.link_db.specs.Database.{symbol_names};
ghost use Rattle.link_db.specs.Seen.{seen};

use link_db::SymbolDb;
use link_flags::ValueFlags;
use link_ids::SymbolId;
use link_input::Platform;
use link_names::NameView;
use std::alloc::{AllocError, Global};

/// The places of the marks that are set.
pub(crate) fn marked_places(alloc: Global, marks: &[bool]) -> Result<Vec<usize>, AllocError>
    ensures { IfOk result (λ places. places.items ≡ filter (is_marked marks.now) (range_with_len 0 (length marks.now))) }
{
    let mut places = Vec::new(alloc);
    for place in 0..marks.len() {
        if marks[place] {
            places.push(place)?;
        }
    }
    Ok(places)
}

/// Adds the mark on what a name is mapped to, if it is.
fn push_mark(
    marks: &mut Vec<(SymbolId, ValueFlags)>,
    symbol: Option<SymbolId>,
) -> Result<(), AllocError>
    ensures marks { OnOk result (map mark_of_pair marks.new.items ≡ map mark_of_pair marks.old.items ++ map (λ t. mark_on t flag.has_non_ir_ref) (option_to_list symbol)) }
    ensures within { OnOk result ((n : ℕ) → IfSome symbol (λ t. t < n) → All (λ m. m.0 < n) marks.old.items → All (λ m. m.0 < n) marks.new.items) }
{
    if let Some(symbol) = symbol {
        marks.push((symbol, ValueFlags::HAS_NON_IR_REF))?;
    }
    Ok(())
}

/// The marks on what names are mapped to: that something refers to it.
pub(crate) fn marks_of_names<P: Platform>(
    alloc: Global,
    db: &SymbolDb<P>,
    names: &[NameView],
) -> Result<Vec<(SymbolId, ValueFlags)>, AllocError>
    ensures marks { IfOk result (λ marks. map mark_of_pair marks.items ≡ marks_on_names (mapping_of (seen db.now).mapping) names.now) }
    ensures within { IfOk result (λ marks. All (λ m. m.0 < length (symbol_names (seen db.now))) marks.items) }
{
    let mut marks = Vec::new(alloc);
    for name in names {
        push_mark(&mut marks, db.get_unversioned(name.as_slice()))?;
    }
    Ok(marks)
}
