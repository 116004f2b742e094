//! That files are resolved where memory is ample, and how they are shown. What they are is in the contracts.

ghost use Rattle.std.specs.Prelude.{◌≤◌};

use crate::fixtures::object;
use link_ids::{FileId, SymbolId, SymbolIdRange};
use link_input::{
    ElfLike, Inputs, ObjectTable, Options, ParsedInputObject, Platform, ProcessedLinkerScript,
    StubLibrary,
};
use link_input_groups::{Group, GroupsError, SyntheticSymbols, create_groups};
use link_names::{Name, PreHashedSymbolName, Seq};
use link_resolve_discarded::LoadedGroups;
use link_resolve_files::{ResolvedGroup, UndefinedSymbol, resolved_groups};
use std::alloc::{AllocError, Global};
use std::test::Fail;

/// The tables of an object without symbols.
fn table(alloc: Global, is_dynamic: bool) -> Result<ObjectTable, AllocError> {
    Ok(ObjectTable {
        is_dynamic,
        lib_name: Name::from_slice(alloc, b"")?,
        sections: 1,
        symbols: Seq::new(alloc),
        groups: Seq::new(alloc),
        section_references: Seq::new(alloc),
        retained_sections: Seq::new(alloc),
    })
}

/// Two regular objects and a shared one.
fn objects(alloc: Global) -> Result<Seq<ParsedInputObject<ElfLike>>, Fail> {
    let mut objects = Seq::new(alloc);
    objects.push(object(alloc, b"a.o", table(alloc, false)?)?)?;
    objects.push(object(alloc, b"b.o", table(alloc, false)?)?)?;
    objects.push(object(alloc, b"c.so", table(alloc, true)?)?)?;
    Ok(objects)
}

/// A linker script.
fn scripts(alloc: Global) -> Result<Seq<ProcessedLinkerScript>, AllocError> {
    let input = Name::from_slice(alloc, b"x.ld")?;
    let mut scripts = Seq::new(alloc);
    scripts.push(ProcessedLinkerScript {
        input,
        entry: None,
        version: None,
        symbol_defs: Seq::new(alloc),
    })?;
    Ok(scripts)
}

/// A stub library.
fn stubs(alloc: Global) -> Result<Seq<StubLibrary>, AllocError> {
    let input = Name::from_slice(alloc, b"libS.tbd")?;
    let mut stubs = Seq::new(alloc);
    stubs.push(StubLibrary {
        input,
        strong: Seq::new(alloc),
        weak: Seq::new(alloc),
    })?;
    Ok(stubs)
}

/// Two regular objects, a shared one, a linker script and a stub library.
/// What they hold is left to the tests that ask of them: no clause says it.
pub fn inputs(alloc: Global) -> Result<Inputs<ElfLike>, Fail> {
    Ok(Inputs {
        objects: objects(alloc)?,
        scripts: scripts(alloc)?,
        stubs: stubs(alloc)?,
    })
}

/// The groups of these inputs.
fn grouped(
    alloc: Global,
    options: &Options,
    inputs: Inputs<ElfLike>,
) -> Result<Vec<Group<ElfLike>>, GroupsError>
    requires { (1 ≤ options.now.files_per_group) × (options.now.files_per_group ≤ 256) }
{
    create_groups(alloc, options, &[], inputs, 1)
}

/// What the files of groups show, one after another.
fn texts<P: Platform>(alloc: Global, groups: &[ResolvedGroup<'_, P>]) -> Result<String, Fail> {
    let mut text = String::new(alloc);
    for group in groups {
        for file in &group.files {
            text.push_str(format!(in alloc; "{file};")?.as_str())?;
        }
    }
    Ok(text)
}

/// A reference that the file of this id may define.
fn reference(alloc: Global, file: FileId) -> Result<UndefinedSymbol, Fail> {
    Ok(UndefinedSymbol {
        ignore_if_loaded: Some(file),
        name: PreHashedSymbolName::from_raw(Name::from_slice(alloc, b"foo")?, None),
        symbol_id: SymbolId::undefined(),
    })
}

/// The groups of all inputs, and one for symbols of the linker's own.
fn all_groups(alloc: Global) -> Result<Vec<Group<ElfLike>>, Fail> {
    let inputs = inputs(alloc)?;
    let mut groups = grouped(alloc, &Options::new(alloc), inputs)?;
    groups.push(Group::SyntheticSymbols(SyntheticSymbols {
        file_id: FileId::new(4, 0),
        symbol_id_range: SymbolIdRange::empty(),
    }))?;
    Ok(groups)
}

/// Whether resolved files show this text, and a reference that `b.o` may define is not ignored.
fn show(alloc: Global, resolved: &[ResolvedGroup<'_, ElfLike>], want: &str) -> Result<bool, Fail> {
    let text = texts(alloc, resolved)?;
    let undefined = reference(alloc, FileId::new(1, 1))?;
    Ok(text.as_str() == want && !undefined.is_ignored(resolved))
}

/// Whether that is so of the files of these groups, where these objects are loaded.
fn show_once_resolved(
    alloc: Global,
    groups: &[Group<ElfLike>],
    loaded: &[bool],
    want: &str,
) -> Result<bool, Fail> {
    let kept = LoadedGroups::select(alloc, groups, loaded)?;
    let resolved = resolved_groups(alloc, groups, loaded, &kept)?;
    show(alloc, resolved.as_slice(), want)
}

#[test]
fn files_are_shown(rt: HostRuntime) -> Result<(), Fail> {
    let groups = all_groups(rt.alloc())?;
    let shown = show_once_resolved(
        rt.alloc(),
        groups.as_slice(),
        &[true, false, true],
        "<prelude>;a.o;<not loaded>;c.so;x.ld;libS.tbd;<synthetic>;",
    );
    drop(groups);
    let shown = shown?;
    assert!(rt; shown);
    Ok(())
}
