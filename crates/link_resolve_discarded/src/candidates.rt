//! The objects whose groups compete.

ghost use Rattle.std.specs.Prelude.{◌≡◌, ◌++◌, [], ◌∷◌, IfOk, OnOk, length, map};
ghost use Rattle.std.specs.List.{list_any};
ghost use Rattle.std.specs.List.Sorted.{IsStrictlyIncreasing};
ghost use Rattle.link_closure.specs.Closure.{is_marked};
ghost use Rattle.link_db_files.specs.Inputs.{objects_in};
ghost use Rattle.link_db_files.specs.Outlines.{outline_of};
ghost use Rattle.link_input.specs.SequencedFiles.{SequencedFile};
ghost use Rattle.link_rules.specs.Places.{each_from};
ghost use Rattle.link_db_symbols.specs.Walk.{objects_among};
ghost use Rattle.link_resolve_discarded.specs.Checked.{grouped_among, is_grouped};
ghost use Rattle.link_resolve_discarded.specs.Regular.{regular_among};

use crate::placed::placed_objects;
use link_closure::is_marked;
use link_db_files::{FileOutline, Files};
use link_input::Platform;
use link_input_groups::Group;
use link_resolve_comdat::Candidate;
use std::alloc::{AllocError, Global};

/// The objects of groups that are loaded and not shared, each with its place among all. There is a mark for each loaded object, by its
/// place. The only refusal is want of memory.
pub fn regular_candidates<'a, P: Platform>(
    alloc: Global,
    groups: &'a [Group<P>],
    loaded: &[bool],
) -> Result<Vec<Candidate<'a, P>>, AllocError>
    ensures value { IfOk result (λ candidates. candidates.items ≡ regular_among loaded.now (objects_in groups.now)) }
    ensures rise { IfOk result (λ candidates. IsStrictlyIncreasing (map (λ o. o.0) candidates.items)) }
{
    let mut candidates = placed_objects(alloc, groups)?;
    candidates.retain(|object| is_marked(loaded, object.place) && !object.parsed.is_dynamic());
    Ok(candidates)
}

/// Adds the mark of a file of this outline, if it is an object: that it is loaded, isn't shared and has section groups.
fn push_grouped(
    marks: &mut Vec<bool>,
    loaded: &[bool],
    outline: &FileOutline,
) -> Result<(), AllocError>
    ensures { OnOk result ((f : SequencedFile) → outline.now ≡ outline_of f.file
        → marks.new.items ≡ marks.old.items ++ each_from (is_grouped loaded.now) (length marks.old.items) (objects_among (f ∷ []))) }
{
    if outline.is_object {
        let is_grouped = is_marked(loaded, marks.len()) && !outline.is_shared && outline.has_groups;
        marks.push(is_grouped)?;
    }
    Ok(())
}

/// A mark for each object of files: that it is loaded, isn't shared and has section groups. It is read of the outlines, so the objects are left alone.
fn grouped_marks<P: Platform>(
    alloc: Global,
    files: &Files<P>,
    loaded: &[bool],
) -> Result<Vec<bool>, AllocError>
    ensures { IfOk result (λ marks. marks.items ≡ each_from (is_grouped loaded.now) 0 (objects_in files.now.groups)) }
{
    let mut marks = Vec::with_capacity(alloc, files.num_objects())?;
    let outlines = files.outlines();
    for outline in outlines {
        push_grouped(&mut marks, loaded, outline)?;
    }
    Ok(marks)
}

/// Whether a mark is set.
fn is_any_set(marks: &[bool]) -> bool
    ensures { result ≡ list_any (λ mark. mark) marks.now }
{
    marks.iter().any(|mark| *mark)
}

/// Those of `regular_candidates` that have section groups. The only refusal is want of memory.
pub(crate) fn grouped_candidates<'a, P: Platform>(
    alloc: Global,
    files: &'a Files<P>,
    loaded: &[bool],
) -> Result<Vec<Candidate<'a, P>>, AllocError>
    ensures value { IfOk result (λ candidates. candidates.items ≡ grouped_among loaded.now (objects_in files.now.groups)) }
    ensures rise { IfOk result (λ candidates. IsStrictlyIncreasing (map (λ o. o.0) candidates.items)) }
{
    let marks = grouped_marks(alloc, files, loaded)?;
    // Mostly there are none: then no places are listed.
    if !is_any_set(&marks) {
        return Ok(Vec::new(alloc));
    }
    let mut candidates = placed_objects(alloc, files.groups())?;
    candidates.retain(|object| is_marked(&marks, object.place));
    Ok(candidates)
}
