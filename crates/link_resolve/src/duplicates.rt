//! The lines of names of which two strong definitions are left.

ghost use Rattle.std.specs.Prelude.{◌≡◌, ◌++◌, [], All, IfOk, OnOk, codes, length, map, slice_get};
ghost use Rattle.std.specs.Option.{option_and_then, option_map_or};
ghost use Rattle.link_names.specs.NameText.{name_text};
ghost use Rattle.link_db_files.specs.GroupFiles.{symbols_in};
ghost use Rattle.link_db_files.specs.Inputs.{objects_in};
ghost use Rattle.link_input.specs.Symbols.{object_in};
ghost use Rattle.link_db_texts.specs.Causes.{TellsCause};
ghost use Rattle.link_resolve_rivals.specs.Settled.{IsInside, clash_line};
ghost use Rattle.link_rules.specs.Refusals.{file_name, unless_none};
ghost use Rattle.link_rules.specs.Sorting.{sorted_texts};
ghost use Rattle.link_rules.specs.World.{Stage};
ghost use Rattle.link_db.specs.Database.{symbol_names};
ghost use Rattle.link_db.specs.Seen.{seen};
ghost use Rattle.link_resolve.specs.Known.{IsListed};

use link_db::SymbolDb;
use link_ids::SymbolId;
use link_input::Platform;
use link_input_groups::{Group, SequencedInputObject};
use link_names::{Name, NameView, Seq};
use link_resolve_marks::object_places;
use link_resolve_requests::objects_of;
use link_resolve_rivals::Clash;
use link_rules::LinkError;
use std::alloc::{AllocError, Global};

/// Adds the names of the files of objects.
fn push_file_names<'a, P: Platform>(
    names: &mut Vec<NameView<'a>>,
    objects: &'a [SequencedInputObject<P>],
) -> Result<(), AllocError>
    ensures { OnOk result (names.new.items ≡ names.old.items ++ map (λ o. o.input) (map (λ o. o.parsed) objects.now)) }
{
    for object in objects {
        names.push(NameView::new(object.parsed.input().as_slice()))?;
    }
    Ok(())
}

/// The name of the file of each object of groups, by the place of the object.
fn file_names<'a, P: Platform>(
    alloc: Global,
    groups: &'a [Group<P>],
) -> Result<Vec<NameView<'a>>, AllocError>
    ensures { IfOk result (λ names. names.items ≡ map (λ o. o.input) (objects_in groups.now)) }
{
    let mut names = Vec::new(alloc);
    for group in groups {
        push_file_names(&mut names, objects_of(group))?;
    }
    Ok(names)
}

/// The name at a place; empty past the last one.
fn name_at<'a>(names: &[NameView<'a>], place: usize) -> NameView<'a>
    ensures { result ≡ option_map_or (λ name. name) (slice_get names.now place) [] }
{
    match names.get(place) {
        Some(name) => NameView::new(name.as_slice()),
        None => NameView::new(&[]),
    }
}

/// The place of the object that holds the symbol.
fn object_at(places: &[Option<usize>], id: SymbolId) -> Option<usize>
    ensures { result ≡ option_and_then (λ place. place) (slice_get places.now id) }
{
    match places.get(id.as_usize()) {
        Some(place) => *place,
        None => None,
    }
}

/// The name of the file of a symbol; empty where no object holds it.
fn file_name<'a>(names: &[NameView<'a>], places: &[Option<usize>], id: SymbolId) -> NameView<'a>
    ensures { (w : Stage) → names.now ≡ map (λ o. o.input) w.objects → places.now ≡ map (λ x. object_in x.origin) w.symbols
        → result ≡ file_name w id }
{
    match object_at(places, id) {
        Some(place) => name_at(names, place),
        None => NameView::new(&[]),
    }
}

/// Adds a name as it prints.
fn push_name(alloc: Global, line: &mut Vec<u8>, name: &NameView) -> Result<(), AllocError>
    ensures { OnOk result (line.new.items ≡ line.old.items ++ name_text name.now) }
{
    let text = name.to_string(alloc)?;
    line.extend_from_slice(text.as_bytes())?;
    Ok(())
}

/// The line of a clash: the name, and the files of the two definitions.
fn duplicate_line(
    alloc: Global,
    name: &NameView,
    first: &NameView,
    second: &NameView,
) -> Result<Name, AllocError>
    ensures { IfOk result (λ line. line ≡ name_text name.now ++ codes ", defined in " ++ name_text first.now ++ codes " and " ++ name_text second.now) }
{
    let mut line = Vec::new(alloc);
    push_name(alloc, &mut line, name)?;
    line.extend_from_slice(b", defined in ")?;
    push_name(alloc, &mut line, first)?;
    line.extend_from_slice(b" and ")?;
    push_name(alloc, &mut line, second)?;
    Ok(Name::new(line))
}

/// The line of a clash.
fn clash_line<P: Platform>(
    alloc: Global,
    db: &SymbolDb<P>,
    names: &[NameView],
    places: &[Option<usize>],
    clash: &Clash,
) -> Result<Name, AllocError>
    requires listed { IsListed (seen db.now) }
    requires inside { IsInside (length (symbol_names (seen db.now))) clash.now }
    ensures { IfOk result (λ line. (w : Stage) → w.symbols ≡ symbols_in (seen db.now).mapping.files.groups
        → names.now ≡ map (λ o. o.input) w.objects → places.now ≡ map (λ x. object_in x.origin) w.symbols
        → line ≡ clash_line w clash.now) }
{
    let name = db.symbol_name(clash.head);
    let first = file_name(names, places, clash.first);
    let second = file_name(names, places, clash.second);
    let line = duplicate_line(alloc, &name, &first, &second)?;
    Ok(line)
}

/// Adds the lines of clashes.
fn push_lines<P: Platform>(
    alloc: Global,
    db: &SymbolDb<P>,
    names: &[NameView],
    places: &[Option<usize>],
    clashes: &[Clash],
    lines: &mut Vec<Name>,
) -> Result<(), AllocError>
    requires listed { IsListed (seen db.now) }
    requires inside { All (IsInside (length (symbol_names (seen db.now)))) clashes.now }
    ensures { OnOk result ((w : Stage) → w.symbols ≡ symbols_in (seen db.now).mapping.files.groups
        → names.now ≡ map (λ o. o.input) w.objects → places.now ≡ map (λ x. object_in x.origin) w.symbols
        → lines.new.items ≡ lines.old.items ++ map (clash_line w) clashes.now) }
{
    for clash in clashes {
        lines.push(clash_line(alloc, db, names, places, clash)?)?;
    }
    Ok(())
}

/// Sorts lines by their bytes.
fn sort_lines(lines: &mut Vec<Name>) -> Result<(), AllocError>
    ensures { OnOk result (lines.new.items ≡ sorted_texts lines.old.items) }
{
    lines.sort()?;
    Ok(())
}

/// The lines of the clashes of plain names and of names with versions, in the order of their bytes.
fn duplicate_lines<P: Platform>(
    alloc: Global,
    db: &SymbolDb<P>,
    plain: &[Clash],
    versioned: &[Clash],
) -> Result<Vec<Name>, AllocError>
    requires listed { IsListed (seen db.now) }
    requires plain { All (IsInside (length (symbol_names (seen db.now)))) plain.now }
    requires versioned { All (IsInside (length (symbol_names (seen db.now)))) versioned.now }
    ensures { IfOk result (λ lines. (w : Stage) → w.symbols ≡ symbols_in (seen db.now).mapping.files.groups
        → w.objects ≡ objects_in (seen db.now).mapping.files.groups
        → lines.items ≡ sorted_texts (map (clash_line w) plain.now ++ map (clash_line w) versioned.now)) }
{
    let names = file_names(alloc, db.groups())?;
    let places = object_places(alloc, db.files())?;
    let mut lines = Vec::new(alloc);
    push_lines(alloc, db, &names, &places, plain, &mut lines)?;
    push_lines(alloc, db, &names, &places, versioned, &mut lines)?;
    sort_lines(&mut lines)?;
    Ok(lines)
}

/// Refuses a link with clashes, with a line for each.
pub fn refuse_duplicates<P: Platform>(
    alloc: Global,
    db: &SymbolDb<P>,
    plain: &[Clash],
    versioned: &[Clash],
) -> Result<(), LinkError>
    requires listed { IsListed (seen db.now) }
    requires plain { All (IsInside (length (symbol_names (seen db.now)))) plain.now }
    requires versioned { All (IsInside (length (symbol_names (seen db.now)))) versioned.now }
    ensures { (w : Stage) → w.symbols ≡ symbols_in (seen db.now).mapping.files.groups
        → w.objects ≡ objects_in (seen db.now).mapping.files.groups
        → TellsCause (unless_none (sorted_texts (map (clash_line w) plain.now ++ map (clash_line w) versioned.now))) result }
{
    if plain.is_empty() && versioned.is_empty() {
        return Ok(());
    }
    let lines = duplicate_lines(alloc, db, plain, versioned)?;
    if lines.is_empty() {
        return Ok(());
    }
    Err(LinkError::DuplicateSymbols(Seq::from_vec(lines)))
}
