//! How the files of groups are resolved, once it is known which objects are loaded.

ghost use Rattle.std.specs.Prelude.{◌≡◌, ◌+◌, ◌∷◌, [], ℕ, Bool, IfOk, List, None, OnOk, Some, if◌then◌else◌, length, map};
ghost use Rattle.link_closure.specs.Closure.{is_marked};
ghost use Rattle.link_input_groups.specs.Groups.{script_file, stub_file};
ghost use Rattle.link_resolve_files.specs.Places.{AreFrom};
ghost use Rattle.link_resolve_files.specs.ResolvedFiles.{other, resolved_file, resolved_group};
ghost use Rattle.link_resolve_files.specs.Resolving.{num_objects, resolved_from, resolved_in, resolved_object, resolved_objects};

use crate::loaded_places::LoadedPlaces;
use crate::resolved_file::{ResolvedFile, ResolvedGroup};
use crate::resolved_inputs::{
    ResolvedLinkerScript, ResolvedPrelude, ResolvedStubLibrary, ResolvedSyntheticSymbols,
};
use crate::resolved_objects::{NotLoaded, ResolvedCommon, ResolvedDynamic, ResolvedObject};
use link_input::Platform;
use link_input_groups::{Group, SequencedInputObject, SequencedLinkerScript, SequencedStubLibrary};
use link_resolve_discarded::LoadedGroups;
use std::alloc::{AllocError, Global};

/// An object, of which this is the place, where it is loaded.
fn resolved_object<'a, P: Platform>(
    object: &'a SequencedInputObject<P>,
    place: Option<usize>,
    kept: &'a LoadedGroups,
) -> ResolvedFile<'a, P>
    ensures { (marks : List Bool) → (n : ℕ) → place ≡ (if is_marked marks n then Some n else None)
        → resolved_file result ≡ resolved_object marks kept.now n object.now }
{
    let Some(place) = place else {
        return ResolvedFile::NotLoaded(NotLoaded { sequenced: object });
    };
    let common = ResolvedCommon { sequenced: object };
    if object.is_dynamic() {
        return ResolvedFile::Dynamic(ResolvedDynamic { common });
    }
    ResolvedFile::Object(ResolvedObject {
        common,
        section_groups: kept.section_groups(place),
    })
}

/// The objects of a group.
fn resolved_objects<'a, P: Platform>(
    alloc: Global,
    objects: &'a [SequencedInputObject<P>],
    places: &mut LoadedPlaces,
    kept: &'a LoadedGroups,
) -> Result<Vec<ResolvedFile<'a, P>>, AllocError>
    ensures files { IfOk result (λ files. (marks : List Bool) → (n : ℕ) → AreFrom marks n places.old
        → map resolved_file files.items ≡ resolved_objects marks kept.now n objects.now) }
    ensures rest { OnOk result ((marks : List Bool) → (n : ℕ) → AreFrom marks n places.old → AreFrom marks (n + length objects.now) places.new) }
{
    let mut files = Vec::with_capacity(alloc, objects.len())?;
    for object in objects {
        let file = resolved_object(object, places.next_loaded(), kept);
        files.push(file)?;
    }
    Ok(files)
}

/// The linker scripts of a group.
fn resolved_scripts<'a, P: Platform>(
    alloc: Global,
    scripts: &'a [SequencedLinkerScript],
) -> Result<Vec<ResolvedFile<'a, P>>, AllocError>
    ensures { IfOk result (λ files. map resolved_file files.items ≡ map (λ s. other (script_file s) s.file_id) scripts.now) }
{
    let mut files = Vec::with_capacity(alloc, scripts.len())?;
    for sequenced in scripts {
        files.push(ResolvedFile::LinkerScript(ResolvedLinkerScript { sequenced }))?;
    }
    Ok(files)
}

/// The stub libraries of a group.
fn resolved_stubs<'a, P: Platform>(
    alloc: Global,
    stubs: &'a [SequencedStubLibrary],
) -> Result<Vec<ResolvedFile<'a, P>>, AllocError>
    ensures { IfOk result (λ files. map resolved_file files.items ≡ map (λ s. other (stub_file s) s.file_id) stubs.now) }
{
    let mut files = Vec::with_capacity(alloc, stubs.len())?;
    for sequenced in stubs {
        files.push(ResolvedFile::StubLibrary(ResolvedStubLibrary { sequenced }))?;
    }
    Ok(files)
}

/// A file alone.
fn one_file<'a, P: Platform>(
    alloc: Global,
    file: ResolvedFile<'a, P>,
) -> Result<Vec<ResolvedFile<'a, P>>, AllocError>
    ensures { IfOk result (λ files. files.items ≡ file.entry ∷ []) }
{
    let mut files = Vec::with_capacity(alloc, 1)?;
    files.push(file)?;
    Ok(files)
}

/// The files of a group.
fn resolved_files<'a, P: Platform>(
    alloc: Global,
    group: &'a Group<P>,
    places: &mut LoadedPlaces,
    kept: &'a LoadedGroups,
) -> Result<Vec<ResolvedFile<'a, P>>, AllocError>
    ensures files { IfOk result (λ files. (marks : List Bool) → (n : ℕ) → AreFrom marks n places.old
        → map resolved_file files.items ≡ resolved_in marks kept.now n group.now) }
    ensures rest { OnOk result ((marks : List Bool) → (n : ℕ) → AreFrom marks n places.old → AreFrom marks (n + num_objects group.now) places.new) }
{
    match group {
        Group::Prelude(prelude) => {
            one_file(alloc, ResolvedFile::Prelude(ResolvedPrelude { prelude }))
        }
        Group::Objects(objects) => resolved_objects(alloc, objects.as_slice(), places, kept),
        Group::LinkerScripts(scripts) => resolved_scripts(alloc, scripts.as_slice()),
        Group::StubLibraries(stubs) => resolved_stubs(alloc, stubs.as_slice()),
        Group::SyntheticSymbols(sequenced) => one_file(
            alloc,
            ResolvedFile::SyntheticSymbols(ResolvedSyntheticSymbols { sequenced }),
        ),
    }
}

/// The files of groups, group by group, where there is a mark for each loaded object, by its place, and these are the section groups of the
/// loaded regular ones. They borrow from the groups. The only refusal is want of memory. Mirrors what Wild's resolver answers.
pub fn resolved_groups<'a, P: Platform>(
    alloc: Global,
    groups: &'a [Group<P>],
    loaded: &[bool],
    kept: &'a LoadedGroups,
) -> Result<Vec<ResolvedGroup<'a, P>>, AllocError>
    ensures { IfOk result (λ resolved. map resolved_group resolved.items ≡ resolved_from loaded.now kept.now 0 groups.now) }
{
    let mut places = LoadedPlaces::new(loaded);
    let mut resolved = Vec::with_capacity(alloc, groups.len())?;
    for group in groups {
        let files = resolved_files(alloc, group, &mut places, kept)?;
        resolved.push(ResolvedGroup { files })?;
    }
    Ok(resolved)
}
