//! The objects that are loaded whatever refers to them, and the symbols of root names.

ghost use Rattle.std.specs.Prelude.{◌≡◌, ◌||◌, ◌++◌, ◌<◌, ◌≤◌, ℕ, IfOk, OnOk, filter_map, length, option_to_list, slice_get};
ghost use Rattle.std.specs.List.{list_any};
ghost use Rattle.std.specs.Option.{option_and_then};
ghost use Rattle.link_closure.specs.Closure.{is_marked};
ghost use Rattle.link_db_files.specs.Inputs.{objects_in};
ghost use Rattle.link_db_texts.specs.Holds.{platform_of};
ghost use Rattle.link_db_files.specs.Sources.{sources_of};
ghost use Rattle.link_db_mapping.specs.Mapped.{mapping_of};
ghost use Rattle.link_rules.specs.Loading.{holds_name, is_root, root_symbols};
ghost use Rattle.link_rules.specs.Names.{first_definition};
ghost use Rattle.link_rules.specs.Places.{Bytes, is_number};
ghost use Rattle.link_rules.specs.World.{Stage, object_of};
ghost use Rattle.link_db.specs.Seen.{seen};
ghost use Rattle.link_db_stage.specs.AtStage.{IsAtStage};

use crate::names::root_names;
use crate::objects::object_marks;
use link_db::SymbolDb;
use link_db_symbols::SymbolSource;
use link_ids::SymbolId;
use link_input::Platform;
use link_names::NameView;
use std::alloc::{AllocError, Global};

/// The object that holds the symbol of this id.
fn object_at(sources: &[SymbolSource], id: SymbolId) -> Option<usize>
    ensures { result ≡ option_and_then (λ s. s.object) (slice_get sources.now id) }
{
    sources.get(id.as_usize())?.object
}

/// The object that holds what the name is mapped to. The sources are those of the database's files (`link_db_files`).
pub fn object_of_name<P: Platform>(
    db: &SymbolDb<P>,
    sources: &[SymbolSource],
    name: &NameView,
) -> Option<usize>
    ensures { (demangle : Bytes → Bytes) (w : Stage) → IsAtStage (platform_of P.Platform) demangle (seen db.now) w → sources.now ≡ sources_of w.symbols
        → result ≡ option_and_then (object_of w) (first_definition w name.now) }
{
    let id = db.get_unversioned(name.as_slice())?;
    object_at(sources, id)
}

/// Marks an object, if it is given.
fn mark(marks: &mut [bool], object: Option<usize>)
    ensures { (f : ℕ) → f < length marks.old → is_marked marks.new f ≡ (is_marked marks.old f || is_number object f) }
{
    if let Some(at) = object {
        if at < marks.len() {
            marks[at] = true;
        }
    }
}

/// Marks the objects that hold what names are mapped to.
fn mark_holders<P: Platform>(
    db: &SymbolDb<P>,
    sources: &[SymbolSource],
    marks: &mut [bool],
    names: &[NameView],
)
    ensures { (demangle : Bytes → Bytes) (w : Stage) → IsAtStage (platform_of P.Platform) demangle (seen db.now) w → sources.now ≡ sources_of w.symbols
        → (f : ℕ) → f < length marks.old → is_marked marks.new f ≡ (is_marked marks.old f || list_any (holds_name w f) names.now) }
{
    for name in names {
        mark(marks, object_of_name(db, sources, name));
    }
}

/// A mark for each object that is loaded whatever refers to it: an earlier batch had it loaded, it isn't optional, or it holds what a root
/// name is mapped to. The only refusal is want of memory.
pub fn root_objects<P: Platform>(
    alloc: Global,
    db: &SymbolDb<P>,
    loaded_before: &[bool],
) -> Result<Vec<bool>, AllocError>
    requires loaded { length loaded_before.now ≤ length (objects_in (seen db.now).mapping.files.groups) }
    ensures each { IfOk result (λ roots. length roots.items ≡ length (objects_in (seen db.now).mapping.files.groups)) }
    ensures roots { IfOk result (λ roots. (demangle : Bytes → Bytes) (w : Stage) → IsAtStage (platform_of P.Platform) demangle (seen db.now) w
        → w.earlier.loaded ≡ loaded_before.now → (f : ℕ) → is_marked roots.items f ≡ is_root w f) }
{
    let mut roots = object_marks(alloc, db.files(), loaded_before)?;
    let names = root_names(alloc, db)?;
    mark_holders(db, db.files().sources(), &mut roots, &names);
    Ok(roots)
}

/// Adds a symbol, if it is given.
fn push_given(ids: &mut Vec<SymbolId>, id: Option<SymbolId>) -> Result<(), AllocError>
    ensures { OnOk result (ids.new.items ≡ ids.old.items ++ option_to_list id) }
{
    if let Some(id) = id {
        ids.push(id)?;
    }
    Ok(())
}

/// The symbols that these names are mapped to, in their order; a name that nothing defines has none.
fn symbols_of_names<P: Platform>(
    alloc: Global,
    db: &SymbolDb<P>,
    names: &[NameView],
) -> Result<Vec<SymbolId>, AllocError>
    ensures { IfOk result (λ ids. ids.items ≡ filter_map (mapping_of (seen db.now).mapping) names.now) }
{
    let mut ids = Vec::new(alloc);
    for name in names {
        push_given(&mut ids, db.get_unversioned(name.as_slice()))?;
    }
    Ok(ids)
}

/// The symbols that root names are mapped to, in the order of the names: what a link wants whatever refers to it. The only refusal is
/// want of memory.
pub fn root_symbols<P: Platform>(
    alloc: Global,
    db: &SymbolDb<P>,
) -> Result<Vec<SymbolId>, AllocError>
    ensures { IfOk result (λ ids. (demangle : Bytes → Bytes) (w : Stage) → IsAtStage (platform_of P.Platform) demangle (seen db.now) w → ids.items ≡ root_symbols w) }
{
    let names = root_names(alloc, db)?;
    let ids = symbols_of_names(alloc, db, &names)?;
    Ok(ids)
}
