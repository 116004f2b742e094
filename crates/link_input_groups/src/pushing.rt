//! Groups of files are added one after another, behind those that are held.

ghost use Rattle.std.specs.Prelude.{◌≡◌, ◌+◌, ◌<◌, ◌≤◌, ◌^◌, [], ◌∷◌, ◌++◌, OnOk, length, map};
ghost use Rattle.std.specs.List.{flat_map, AllByRecursion};
ghost use Rattle.link_input.specs.InputFiles.{object, linker_script, symbol_count, section_count, stub_input};
ghost use Rattle.link_input.specs.Limits.{total};
ghost use Rattle.link_input_groups.specs.GroupsAdded.{Adds, one_group};

use crate::group::Group;
use crate::sequencing::{NextIds, sequence_objects, sequence_scripts, sequence_stubs};
use link_input::{ParsedInputObject, Platform, ProcessedLinkerScript, StubLibrary};
use link_names::Seq;
use std::alloc::{AllocError, Global};

/// Adds a group of objects.
fn push_objects<P: Platform>(
    alloc: Global,
    objects: Vec<ParsedInputObject<P>>,
    held: &[Group<P>],
    groups: &mut Vec<Group<P>>,
    next: &mut NextIds,
) -> Result<(), AllocError>
    requires group { length held.now + length groups.old.items < 2 ^ 24 }
    requires few { length objects.items ≤ 256 }
    requires symbols { next.old.symbols + total symbol_count (map object objects.items) < 2 ^ 32 }
    requires sections { next.old.sections + total section_count (map object objects.items) < 2 ^ 32 }
    ensures adds { OnOk result (Adds (held.now ++ groups.old.items) (held.now ++ groups.new.items) next.old next.new (map object objects.items ∷ [])) }
    ensures one { OnOk result (length groups.new.items ≡ length groups.old.items + 1) }
{
    let files = sequence_objects(alloc, objects, held.len() + groups.len(), next)?;
    groups.push(Group::Objects(Seq::from_vec(files)))?;
    Ok(())
}

/// Adds groups of objects.
pub(crate) fn push_object_groups<P: Platform>(
    alloc: Global,
    cuts: Vec<Vec<ParsedInputObject<P>>>,
    held: &[Group<P>],
    groups: &mut Vec<Group<P>>,
    next: &mut NextIds,
) -> Result<(), AllocError>
    requires group { length held.now + length groups.old.items + length cuts.items ≤ 2 ^ 24 }
    requires few { AllByRecursion (λ cut. length cut.items ≤ 256) cuts.items }
    requires symbols { next.old.symbols + total symbol_count (flat_map (λ cut. map object cut.items) cuts.items) < 2 ^ 32 }
    requires sections { next.old.sections + total section_count (flat_map (λ cut. map object cut.items) cuts.items) < 2 ^ 32 }
    ensures adds { OnOk result (Adds (held.now ++ groups.old.items) (held.now ++ groups.new.items) next.old next.new (map (λ cut. map object cut.items) cuts.items)) }
    ensures each { OnOk result (length groups.new.items ≡ length groups.old.items + length cuts.items) }
{
    for objects in cuts {
        push_objects(alloc, objects, held, groups, next)?;
    }
    Ok(())
}

/// Adds the linker scripts as one group, if there are any.
pub(crate) fn push_scripts<P: Platform>(
    alloc: Global,
    scripts: Vec<ProcessedLinkerScript>,
    held: &[Group<P>],
    groups: &mut Vec<Group<P>>,
    next: &mut NextIds,
) -> Result<(), AllocError>
    requires group { length held.now + length groups.old.items < 2 ^ 24 }
    requires few { length scripts.items ≤ 256 }
    requires symbols { next.old.symbols + total symbol_count (map linker_script scripts.items) < 2 ^ 32 }
    ensures adds { OnOk result (Adds (held.now ++ groups.old.items) (held.now ++ groups.new.items) next.old next.new (one_group (map linker_script scripts.items))) }
    ensures one { OnOk result (length groups.new.items ≤ length groups.old.items + 1) }
{
    if scripts.is_empty() {
        return Ok(());
    }
    let files = sequence_scripts(alloc, scripts, held.len() + groups.len(), next)?;
    groups.push(Group::LinkerScripts(Seq::from_vec(files)))?;
    Ok(())
}

/// Adds the stub libraries as one group, if there are any.
pub(crate) fn push_stubs<P: Platform>(
    alloc: Global,
    stubs: Vec<StubLibrary>,
    held: &[Group<P>],
    groups: &mut Vec<Group<P>>,
    next: &mut NextIds,
) -> Result<(), AllocError>
    requires group { length held.now + length groups.old.items < 2 ^ 24 }
    requires few { length stubs.items ≤ 256 }
    requires symbols { next.old.symbols + total symbol_count (map stub_input stubs.items) < 2 ^ 32 }
    ensures { OnOk result (Adds (held.now ++ groups.old.items) (held.now ++ groups.new.items) next.old next.new (one_group (map stub_input stubs.items))) }
{
    if stubs.is_empty() {
        return Ok(());
    }
    let files = sequence_stubs(alloc, stubs, held.len() + groups.len(), next)?;
    groups.push(Group::StubLibraries(Seq::from_vec(files)))?;
    Ok(())
}
