//! The section groups of objects, as these are loaded batch by batch.

ghost use Rattle.std.specs.Prelude.{◌≡◌, ◌&&◌, ℕ, IfOk, filter_map, not};
ghost use Rattle.link_closure.specs.Closure.{is_marked};
ghost use Rattle.link_db_files.specs.Inputs.{objects_in};
ghost use Rattle.link_db_texts.specs.Causes.{TellsCause};
ghost use Rattle.link_rules.specs.Comdat.{loaded_regular};
ghost use Rattle.link_rules.specs.Places.{each_from, first_of};
ghost use Rattle.link_rules.specs.Refusals.{group_cause};
ghost use Rattle.link_rules.specs.World.{Stage};
ghost use Rattle.link_resolve_discarded.specs.Checked.{WereGroupsFine, is_new};

use crate::candidates::grouped_candidates;
use link_closure::is_marked;
use link_db_files::Files;
use link_input::Platform;
use link_resolve_comdat::Selection;
use link_rules::LinkError;
use std::alloc::{AllocError, Global};

/// Of marks for objects those that earlier batches didn't set.
fn newly_loaded(alloc: Global, earlier: &[bool], loaded: &[bool]) -> Result<Vec<bool>, AllocError>
    ensures { IfOk result (λ marks. marks.items ≡ each_from (is_new earlier.now) 0 loaded.now) }
{
    let mut marks = Vec::with_capacity(alloc, loaded.len())?;
    for mark in loaded {
        let is_new = *mark && !is_marked(earlier, marks.len());
        marks.push(is_new)?;
    }
    Ok(marks)
}

/// Checks the groups of the regular objects that a batch loads. There is a mark for each object that is loaded now, and for each that earlier
/// batches had loaded, by their places. The objects of the latter, whose groups were checked then, are left alone.
///
/// It is refused with `SectionInTwoGroups` for the first loaded regular object that lists a section as a member twice, with its first member
/// that was listed before. The only other refusal is want of memory.
pub fn check_groups<P: Platform>(
    alloc: Global,
    files: &Files<P>,
    earlier: &[bool],
    loaded: &[bool],
) -> Result<(), LinkError>
    ensures cause { (w : Stage) → w.objects ≡ objects_in files.now.groups → w.earlier.loaded ≡ earlier.now → WereGroupsFine w
        → TellsCause (first_of (filter_map group_cause (loaded_regular w loaded.now))) result }
{
    let marks = newly_loaded(alloc, earlier, loaded)?;
    // An object without groups lists no section twice, so nothing is made for it.
    let candidates = grouped_candidates(alloc, files, &marks)?;
    let _selection = Selection::select(alloc, &candidates)?;
    Ok(())
}
