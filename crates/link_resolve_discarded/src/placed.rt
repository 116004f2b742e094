//! The objects of groups, each with its place among all.

ghost use Rattle.std.specs.Prelude.{◌≡◌, ◌++◌, [], ◌∷◌, IfOk, OnOk, length, map};
ghost use Rattle.std.specs.List.{enumerate_from};
ghost use Rattle.link_db_files.specs.Inputs.{objects_in};

use link_input::Platform;
use link_input_groups::{Group, SequencedInputObject};
use link_resolve_comdat::Candidate;
use std::alloc::{AllocError, Global};

/// The objects of a group; another group has none.
fn objects_of<P: Platform>(group: &Group<P>) -> &[SequencedInputObject<P>]
    ensures { map (λ o. o.parsed) result.now ≡ objects_in (group.now ∷ []) }
{
    match group {
        Group::Objects(objects) => objects.as_slice(),
        _ => &[],
    }
}

/// Adds objects, whose places follow those of the ones that there are.
fn push_objects<'a, P: Platform>(
    placed: &mut Vec<Candidate<'a, P>>,
    objects: &'a [SequencedInputObject<P>],
) -> Result<(), AllocError>
    ensures { OnOk result (placed.new.items
        ≡ placed.old.items ++ enumerate_from (length placed.old.items) (map (λ o. o.parsed) objects.now)) }
{
    for object in objects {
        let place = placed.len();
        placed.push(Candidate {
            place,
            parsed: &object.parsed,
        })?;
    }
    Ok(())
}

/// The objects of groups, regular and shared ones, each with its place among all. The only refusal is want of memory.
pub fn placed_objects<'a, P: Platform>(
    alloc: Global,
    groups: &'a [Group<P>],
) -> Result<Vec<Candidate<'a, P>>, AllocError>
    ensures { IfOk result (λ placed. placed.items ≡ enumerate_from 0 (objects_in groups.now)) }
{
    let mut placed = Vec::new(alloc);
    for group in groups {
        push_objects(&mut placed, objects_of(group))?;
    }
    Ok(placed)
}
