//! The objects that are loaded before any name is looked up.

ghost use Rattle.std.specs.Prelude.{◌≡◌, ◌++◌, [], ◌∷◌, IfOk, OnOk, length, map};
ghost use Rattle.link_closure.specs.Closure.{is_marked};
ghost use Rattle.link_db_files.specs.Inputs.{objects_in};
ghost use Rattle.link_db_files.specs.Outlines.{outline_of};
ghost use Rattle.link_input.specs.SequencedFiles.{SequencedFile};
ghost use Rattle.link_resolve_requests.specs.Objects.{is_kept, kept_marks};
ghost use Rattle.link_rules.specs.Places.{each_from};
ghost use Rattle.link_db_symbols.specs.Walk.{objects_among};

use link_closure::is_marked;
use link_db_files::{FileOutline, Files};
use link_input::Platform;
use link_input_groups::{Group, SequencedInputObject};
use std::alloc::{AllocError, Global};

/// The objects of a group; another group has none.
pub fn objects_of<P: Platform>(group: &Group<P>) -> &[SequencedInputObject<P>]
    ensures { map (λ o. o.parsed) result.now ≡ objects_in (group.now ∷ []) }
{
    match group {
        Group::Objects(objects) => objects.as_slice(),
        _ => &[],
    }
}

/// Adds the mark of a file of this outline, if it is an object: that an earlier batch had it loaded, or that it isn't optional.
fn push_mark(
    marks: &mut Vec<bool>,
    earlier: &[bool],
    outline: &FileOutline,
) -> Result<(), AllocError>
    ensures { OnOk result ((f : SequencedFile) → outline.now ≡ outline_of f.file
        → marks.new.items ≡ marks.old.items ++ each_from (is_kept earlier.now) (length marks.old.items) (objects_among (f ∷ []))) }
{
    if outline.is_object {
        let is_kept = is_marked(earlier, marks.len()) || !outline.is_optional;
        marks.push(is_kept)?;
    }
    Ok(())
}

/// A mark for each object of files: that an earlier batch had it loaded, or that it isn't optional.
pub fn object_marks<P: Platform>(
    alloc: Global,
    files: &Files<P>,
    earlier: &[bool],
) -> Result<Vec<bool>, AllocError>
    ensures { IfOk result (λ marks. marks.items ≡ kept_marks earlier.now (objects_in files.now.groups)) }
{
    let mut marks = Vec::with_capacity(alloc, files.num_objects())?;
    let outlines = files.outlines();
    for outline in outlines {
        push_mark(&mut marks, earlier, outline)?;
    }
    Ok(marks)
}
