//! What is found for root names with a batch stands behind what was found before.

ghost use Rattle.std.specs.Prelude.{◌≡◌, ◌++◌, ◌<◌, ◌≤◌, [], ℕ, OnOk, length, option_and_then, option_map, option_to_list, slice_get};
ghost use Rattle.std.specs.List.{slice_index_or, slice_set};
ghost use Rattle.link_db.specs.Seen.{seen};
ghost use Rattle.link_db_stage.specs.AtStage.{IsAtStage};
ghost use Rattle.link_db_texts.specs.Holds.{platform_of};
ghost use Rattle.link_rules.specs.FoundRoots.{found_at, lasting_names};
ghost use Rattle.link_rules.specs.Loading.{entry_name};
ghost use Rattle.link_rules.specs.Names.{first_definition};
ghost use Rattle.link_rules.specs.Places.{Bytes};
ghost use Rattle.link_rules.specs.World.{Stage, object_of};

use link_db::SymbolDb;
use link_input::Platform;
use link_names::{Name, NameView, Seq};
use link_resolve_requests::{lasting_names, object_of_name};
use link_rules::FoundRoot;
use std::alloc::{AllocError, Global};

/// The object that holds what the name is mapped to.
fn object_found<P: Platform>(db: &SymbolDb<P>, name: &NameView) -> Option<usize>
    ensures { (demangle : Bytes → Bytes) (w : Stage) → IsAtStage (platform_of P.Platform) demangle (seen db.now) w
        → result ≡ option_and_then (object_of w) (first_definition w name.now) }
{
    object_of_name(db, db.files().sources(), name)
}

/// Adds what is found for a name: the object, if there is one, with the name.
fn push_object(
    found: &mut Seq<FoundRoot>,
    alloc: Global,
    name: &NameView,
    object: Option<usize>,
) -> Result<(), AllocError>
    ensures { OnOk result (found.new ≡ found.old ++ option_to_list (option_map (λ f. record { name = name.now; object = f }) object)) }
{
    if let Some(object) = object {
        let name = Name::from_slice(alloc, name.as_slice())?;
        found.push(FoundRoot { name, object })?;
    }
    Ok(())
}

/// Adds what is found for a name by the database.
fn push_found<P: Platform>(
    found: &mut Seq<FoundRoot>,
    alloc: Global,
    db: &SymbolDb<P>,
    name: &NameView,
) -> Result<(), AllocError>
    ensures { OnOk result ((demangle : Bytes → Bytes) (w : Stage) → IsAtStage (platform_of P.Platform) demangle (seen db.now) w
        → found.new ≡ found.old ++ option_to_list (found_at w name.now)) }
{
    let object = object_found(db, name);
    push_object(found, alloc, name, object)?;
    Ok(())
}

/// Notes what is found for the entry, if there is one.
pub(crate) fn note_entry<P: Platform>(
    entries: &mut Seq<FoundRoot>,
    alloc: Global,
    db: &SymbolDb<P>,
) -> Result<(), AllocError>
    ensures { OnOk result ((demangle : Bytes → Bytes) (w : Stage) → IsAtStage (platform_of P.Platform) demangle (seen db.now) w
        → entries.new ≡ entries.old ++ option_to_list (option_and_then (found_at w) (entry_name w))) }
{
    if let Some(name) = db.entry_symbol_name() {
        push_found(entries, alloc, db, &NameView::new(name))?;
    }
    Ok(())
}

/// Makes lists for so many names, where there are fewer.
fn make_lists(
    others: &mut Vec<Seq<FoundRoot>>,
    alloc: Global,
    count: usize,
) -> Result<(), AllocError>
    ensures same { OnOk result ((i : ℕ) → slice_index_or others.new.items i [] ≡ slice_index_or others.old.items i []) }
    ensures each { OnOk result (count ≤ length others.new.items) }
{
    for _place in others.len()..count {
        others.push(Seq::new(alloc))?;
    }
    Ok(())
}

/// Notes what is found for a name behind the list at its place.
fn note_name<P: Platform>(
    lists: &mut [Seq<FoundRoot>],
    place: usize,
    alloc: Global,
    db: &SymbolDb<P>,
    name: &NameView,
) -> Result<(), AllocError>
    requires { place < length lists.old }
    ensures { OnOk result ((demangle : Bytes → Bytes) (w : Stage) → IsAtStage (platform_of P.Platform) demangle (seen db.now) w
        → lists.new ≡ slice_set lists.old place (slice_index_or lists.old place [] ++ option_to_list (found_at w name.now))) }
{
    push_found(&mut lists[place], alloc, db, name)?;
    Ok(())
}

/// Notes what is found for names, each behind the list at its place.
fn note_names<P: Platform>(
    lists: &mut [Seq<FoundRoot>],
    alloc: Global,
    db: &SymbolDb<P>,
    names: &[NameView],
) -> Result<(), AllocError>
    requires { length names.now ≤ length lists.old }
    ensures { OnOk result ((demangle : Bytes → Bytes) (w : Stage) → IsAtStage (platform_of P.Platform) demangle (seen db.now) w → (i : ℕ)
        → slice_index_or lists.new i [] ≡ slice_index_or lists.old i [] ++ option_to_list (option_and_then (found_at w) (slice_get names.now i))) }
{
    for (place, name) in names.iter().enumerate() {
        note_name(lists, place, alloc, db, name)?;
    }
    Ok(())
}

/// Notes what is found for the root names but for the entry, each behind the list at its place.
pub(crate) fn note_others<P: Platform>(
    others: &mut Vec<Seq<FoundRoot>>,
    alloc: Global,
    db: &SymbolDb<P>,
) -> Result<(), AllocError>
    ensures { OnOk result ((demangle : Bytes → Bytes) (w : Stage) → IsAtStage (platform_of P.Platform) demangle (seen db.now) w → (i : ℕ)
        → slice_index_or others.new.items i [] ≡ slice_index_or others.old.items i [] ++ option_to_list (option_and_then (found_at w) (slice_get (lasting_names w) i))) }
{
    let names = lasting_names(alloc, db)?;
    make_lists(others, alloc, names.len())?;
    note_names(others, alloc, db, &names)?;
    Ok(())
}
