//! How what undefined references ask for is collected.

ghost use Rattle.std.specs.Prelude.{◌≡◌, ◌&&◌, ◌+◌, ◌≤◌, ◌<◌, ◌^◌, All, IfOk, List, is_none, length, map, option_map, position};
ghost use Rattle.link_db_files.specs.GroupFiles.{symbols_in};
ghost use Rattle.link_rules.specs.Places.{Bytes, is_number};
ghost use Rattle.link_rules.specs.Undefined.{asks_same, last_alike};
ghost use Rattle.link_resolve_undefined.specs.Boundaries.{Marks, is_mark_of, makers_by, makes_new};
ghost use Rattle.link_resolve_undefined.specs.Keys.{name_of, version_of};
ghost use Rattle.link_resolve_undefined.specs.NameIds.{Answers};
ghost use Rattle.link_resolve_undefined.specs.Records.{numbered_at};

use crate::asked_name::AskedName;
use crate::boundaries::SectionMarks;
use crate::name_ids::NameIds;
use link_db_files::Files;
use link_ids::SymbolId;
use link_input::Platform;
use std::alloc::{AllocError, Global};

/// The last of these references that asks for each name.
pub(crate) fn last_asked<'a, P: Platform>(
    alloc: Global,
    files: &'a Files<P>,
    left: &[SymbolId],
) -> Result<NameIds<'a>, AllocError>
    requires { All (λ s. s < length (symbols_in files.now.groups)) left.now }
    ensures { IfOk result (λ last. Answers last (last_alike (numbered_at (symbols_in files.now.groups) left.now))) }
{
    let mut last = NameIds::new(alloc);
    for id in left {
        last.note(AskedName::of(files, *id), id.as_usize() as u32)?;
    }
    Ok(last)
}

/// It is this id.
fn is_id(found: Option<u32>, id: SymbolId) -> bool
    ensures { result ≡ is_number found id }
{
    match found {
        Some(found) => found as usize == id.as_usize(),
        None => false,
    }
}

/// Whether a plain name is asked for that marks the start or the end of a custom section.
fn is_boundary(marks: &SectionMarks, asked: AskedName) -> bool
    ensures { (sections : List Bytes) → Marks marks.now sections → result ≡ is_none (version_of asked.entry) && is_mark_of sections (name_of asked.entry) }
{
    asked.is_plain() && marks.contains(asked.name)
}

/// Whether a new symbol is made for the reference: the last to the start or the end of a custom section.
pub(crate) fn is_maker<'a>(
    marks: &SectionMarks,
    last: &NameIds<'a>,
    asked: AskedName<'a>,
    id: SymbolId,
) -> bool
    ensures { (sections : List Bytes) → Marks marks.now sections → result ≡ makes_new sections last.now (name_of asked.entry) (version_of asked.entry) id }
{
    is_boundary(marks, asked) && is_id(last.get(asked), id)
}

/// The references for which new symbols are made, in falling order.
pub(crate) fn makers_among<'a, P: Platform>(
    alloc: Global,
    files: &'a Files<P>,
    left: &[SymbolId],
    marks: &SectionMarks,
    last: &NameIds<'a>,
) -> Result<Vec<SymbolId>, AllocError>
    requires { All (λ s. s < length (symbols_in files.now.groups)) left.now }
    ensures { IfOk result (λ makers. (sections : List Bytes) → Marks marks.now sections → makers.items ≡ map (λ u. u.0) (makers_by sections last.now (numbered_at (symbols_in files.now.groups) left.now))) }
{
    let mut makers = Vec::new(alloc);
    for id in left {
        if is_maker(marks, last, AskedName::of(files, *id), *id) {
            makers.push(*id)?;
        }
    }
    makers.reverse();
    Ok(makers)
}

/// The new symbols that are made for these references, one after another, by the names that these ask for.
pub(crate) fn new_symbols<'a, P: Platform>(
    alloc: Global,
    files: &'a Files<P>,
    makers: &[SymbolId],
    first_new: SymbolId,
) -> Result<NameIds<'a>, AllocError>
    requires inside { All (λ s. s < length (symbols_in files.now.groups)) makers.now }
    requires fits { first_new + length makers.now ≤ 2 ^ 32 }
    ensures { IfOk result (λ made. Answers made (λ x. option_map (λ i. first_new + i) (position (λ m. asks_same m.1 x) (numbered_at (symbols_in files.now.groups) makers.now)))) }
{
    let mut made = NameIds::new(alloc);
    for (place, id) in makers.iter().enumerate() {
        let new = first_new.as_usize() + place;
        made.note_first(AskedName::of(files, *id), new as u32)?;
    }
    Ok(made)
}
