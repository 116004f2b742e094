//! The symbols that name groups whose headers stay, for an output that is an object again.

ghost use Rattle.std.specs.Prelude.{◌≡◌, ◌+◌, ◌<◌, ◌≤◌, ◌^◌, ◌++◌, ℕ, List, Bool, All, None, Some, IfOk, OnOk, length, map, unwrap_or, if◌then◌else◌};
ghost use Rattle.std.specs.List.{enumerate_from, flat_map};
ghost use Rattle.std.specs.Option.{option_or};
ghost use Rattle.link_db_files.specs.GroupFiles.{symbols_in};
ghost use Rattle.link_db_files.specs.Inputs.{objects_in};
ghost use Rattle.link_rules.specs.FinalFlags.{groups_with_header};
ghost use Rattle.link_rules.specs.Places.{is_number};
ghost use Rattle.link_rules.specs.World.{Stage, first_symbol_of};
ghost use Rattle.link_resolve_discarded.specs.Indexed.{AreGroupsOf, index_at};
ghost use Rattle.link_resolve_discarded.specs.Signatures.{first_id, signatures_at, signatures_from, signatures_of};

use crate::loaded_groups::LoadedGroups;
use crate::placed::placed_objects;
use link_db_files::Files;
use link_db_symbols::symbols;
use link_ids::SymbolId;
use link_input::{InputObject, Platform};
use link_resolve_comdat::{Candidate, ObjectSectionGroups};
use std::alloc::{AllocError, Global};

/// Notes a symbol as the first one of its object, unless one was noted before.
fn note_first(firsts: &mut [Option<SymbolId>], id: SymbolId, object: Option<usize>)
    ensures { (f : ℕ) → f < length firsts.old
        → index_at firsts.new f ≡ option_or (index_at firsts.old f) (if is_number object f then Some id else None) }
{
    if let Some(place) = object {
        if place < firsts.len() && firsts[place].is_none() {
            firsts[place] = Some(id);
        }
    }
}

/// The first symbol of each object, by the place of the object, of which there are so many. None where an object has no symbol.
pub fn first_symbols<P: Platform>(
    alloc: Global,
    files: &Files<P>,
    objects: usize,
) -> Result<Vec<Option<SymbolId>>, AllocError>
    ensures { IfOk result (λ firsts. (f : ℕ) → f < objects
        → index_at firsts.items f ≡ first_id f 0 (symbols_in files.now.groups)) }
{
    let mut firsts = vec![in alloc; None; objects]?;
    for (id, symbol) in symbols(files) {
        note_first(firsts.as_mut_slice(), id, symbol.object());
    }
    Ok(firsts)
}

/// The first symbol of the object at this place; 0 where it has none.
pub fn first_symbol(firsts: &[Option<SymbolId>], object: usize) -> usize
    ensures { result ≡ unwrap_or (index_at firsts.now object) 0 }
{
    match firsts.get(object).copied().flatten() {
        Some(id) => id.as_usize(),
        None => 0,
    }
}

/// Adds the symbols that name the groups of an object whose headers stay. Its first symbol has this id.
fn push_signatures<P: Platform>(
    ids: &mut Vec<SymbolId>,
    first: usize,
    object: &InputObject<P>,
    groups: &ObjectSectionGroups,
) -> Result<(), AllocError>
    requires { first + length object.now.symbols ≤ 2 ^ 32 }
    ensures ids { OnOk result (ids.new.items ≡ ids.old.items ++ signatures_of first groups.now object.now.groups) }
    ensures within { OnOk result (All (λ g. g.signature_symbol < length object.now.symbols) object.now.groups) }
{
    for place in 0..object.groups().len() {
        let group = object.group(place);
        if !groups.is_discarded(group.index) {
            ids.push(SymbolId::from_usize(first + group.signature_symbol as usize))?;
        }
    }
    Ok(())
}

/// Adds the symbols that name the groups of an object whose headers stay; none, where it isn't a loaded regular one. Its first symbol has
/// this id.
fn push_object<P: Platform>(
    ids: &mut Vec<SymbolId>,
    first: usize,
    object: &Candidate<'_, P>,
    kept: &LoadedGroups,
) -> Result<(), AllocError>
    requires { first + length object.now.1.object.symbols ≤ 2 ^ 32 }
    ensures ids { OnOk result (ids.new.items ≡ ids.old.items ++ signatures_from first kept.now object.now) }
    ensures below { OnOk result ((count : ℕ) → first + length object.now.1.object.symbols ≤ count
        → All (λ s. s < count) ids.old.items → All (λ s. s < count) ids.new.items) }
{
    match kept.section_groups(object.place) {
        Some(groups) => {
            push_signatures(ids, first, object.parsed.object(), groups)?;
            Ok(())
        }
        None => Ok(()),
    }
}

/// The symbols that name groups whose headers stay, object by object.
fn listed_signatures<P: Platform>(
    alloc: Global,
    files: &Files<P>,
    kept: &LoadedGroups,
) -> Result<Vec<SymbolId>, AllocError>
    ensures ids { IfOk result (λ ids. ids.items
        ≡ flat_map (signatures_at kept.now (symbols_in files.now.groups)) (enumerate_from 0 (objects_in files.now.groups))) }
    ensures below { IfOk result (λ ids. All (λ s. s < length (symbols_in files.now.groups)) ids.items) }
{
    // So ids name all of them.
    prove!(files.num_symbols() < 1 << 32);
    let objects = placed_objects(alloc, files.groups())?;
    let firsts = first_symbols(alloc, files, objects.len())?;
    let mut ids = Vec::new(alloc);
    for object in &objects {
        let first = first_symbol(&firsts, object.place);
        push_object(&mut ids, first, object, kept)?;
    }
    Ok(ids)
}

/// The symbols that name the groups of loaded regular objects whose headers stay, in the order of the objects and of the groups in each.
/// In an output that is an object again these are the signatures of its groups. The only refusal is want of memory.
pub fn signature_ids<P: Platform>(
    alloc: Global,
    files: &Files<P>,
    kept: &LoadedGroups,
) -> Result<Vec<SymbolId>, AllocError>
    ensures ids { IfOk result (λ ids. (w : Stage) (marks : List Bool) → w.objects ≡ objects_in files.now.groups
        → w.symbols ≡ symbols_in files.now.groups → AreGroupsOf marks w.objects kept.now
        → ids.items ≡ map (λ g. first_symbol_of w g.place.0 + g.group.signature_symbol) (groups_with_header w marks)) }
    ensures below { IfOk result (λ ids. All (λ s. s < length (symbols_in files.now.groups)) ids.items) }
{
    let ids = listed_signatures(alloc, files, kept)?;
    Ok(ids)
}
