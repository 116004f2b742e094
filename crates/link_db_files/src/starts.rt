//! Where the ids of files begin.

ghost use Rattle.std.specs.Prelude.{◌≡◌, [], ◌∷◌, IfOk, map};
ghost use Rattle.link_db_files.specs.Starts.{group_starts, start_of, starts_of};

use link_ids::{FileId, PRELUDE_FILE_ID, SymbolId};
use link_input::Platform;
use link_input_groups::{Group, SequencedInputObject, SequencedLinkerScript, SequencedStubLibrary};
use std::alloc::{AllocError, Global};

/// A file, and the id of its first symbol, or where it would stand.
#[derive(Clone, Copy, Debug)]
pub struct FileStart {
    pub start: SymbolId,
    pub id: FileId,
}

/// Those of objects.
fn object_starts<P: Platform>(
    alloc: Global,
    objects: &[SequencedInputObject<P>],
) -> Result<Vec<FileStart>, AllocError>
    ensures { IfOk result (λ starts. starts.items ≡ map (λ o. start_of o.symbol_id_range o.file_id) objects.now) }
{
    objects
        .iter()
        .map(|object| FileStart {
            start: object.symbol_id_range.start(),
            id: object.file_id,
        })
        .collect(alloc)
}

/// Those of linker scripts.
fn script_starts(
    alloc: Global,
    scripts: &[SequencedLinkerScript],
) -> Result<Vec<FileStart>, AllocError>
    ensures { IfOk result (λ starts. starts.items ≡ map (λ s. start_of s.symbol_id_range s.file_id) scripts.now) }
{
    let mut starts = Vec::new(alloc);
    for script in scripts {
        starts.push(FileStart {
            start: script.symbol_id_range.start(),
            id: script.file_id,
        })?;
    }
    Ok(starts)
}

/// Those of stub libraries.
fn stub_starts(alloc: Global, stubs: &[SequencedStubLibrary]) -> Result<Vec<FileStart>, AllocError>
    ensures { IfOk result (λ starts. starts.items ≡ map (λ s. start_of s.symbol_id_range s.file_id) stubs.now) }
{
    stubs
        .iter()
        .map(|stub| FileStart {
            start: stub.symbol_id_range.start(),
            id: stub.file_id,
        })
        .collect(alloc)
}

/// That of one file.
fn one_start(alloc: Global, start: SymbolId, id: FileId) -> Result<Vec<FileStart>, AllocError>
    ensures { IfOk result (λ starts. starts.items ≡ record { start = start; id = id } ∷ []) }
{
    let mut starts = Vec::new(alloc);
    starts.push(FileStart { start, id })?;
    Ok(starts)
}

/// The files of a group.
pub fn group_starts<P: Platform>(
    alloc: Global,
    group: &Group<P>,
) -> Result<Vec<FileStart>, AllocError>
    ensures { IfOk result (λ starts. starts.items ≡ group_starts group.now) }
{
    match group {
        Group::Prelude(_) => one_start(alloc, SymbolId::zero(), PRELUDE_FILE_ID),
        Group::Objects(objects) => object_starts(alloc, objects.as_slice()),
        Group::LinkerScripts(scripts) => script_starts(alloc, scripts.as_slice()),
        Group::StubLibraries(stubs) => stub_starts(alloc, stubs.as_slice()),
        Group::SyntheticSymbols(synthetic) => {
            one_start(alloc, synthetic.symbol_id_range.start(), synthetic.file_id)
        }
    }
}

/// The files of groups.
pub fn starts_of<P: Platform>(
    alloc: Global,
    groups: &[Group<P>],
) -> Result<Vec<FileStart>, AllocError>
    ensures { IfOk result (λ starts. starts.items ≡ starts_of groups.now) }
{
    let mut starts = Vec::new(alloc);
    for group in groups {
        let mut more = group_starts(alloc, group)?;
        starts.append(&mut more)?;
    }
    Ok(starts)
}
