//! That groups are made where memory is ample, and how they and their files are shown. Which ones they are is in the contracts.

ghost use Rattle.std.specs.Prelude.{◌≤◌};

use crate::fixtures::{object, symbol};
use link_ids::{FileId, SymbolIdRange};
use link_input::{
    Inputs, MachLike, ObjectTable, Options, ParsedInputObject, Place, Platform,
    ProcessedLinkerScript, StubLibrary, SymbolBinding,
};
use link_input_groups::{Group, GroupsError, SyntheticSymbols, create_groups};
use link_names::{Name, Seq};
use std::alloc::{AllocError, Global};
use std::test::Fail;

/// The tables of an object with so many symbols and sections.
fn table(alloc: Global, symbols: usize, sections: u32) -> Result<ObjectTable, AllocError> {
    let mut entries = Seq::new(alloc);
    for _ in 0..symbols {
        entries.push(symbol(alloc, b"foo", SymbolBinding::Global, Place::Absolute)?)?;
    }
    Ok(ObjectTable {
        is_dynamic: false,
        lib_name: Name::from_slice(alloc, b"")?,
        sections,
        symbols: entries,
        groups: Seq::new(alloc),
        section_references: Seq::new(alloc),
        retained_sections: Seq::new(alloc),
    })
}

/// A linker script without symbols.
fn script(alloc: Global) -> Result<ProcessedLinkerScript, AllocError> {
    Ok(ProcessedLinkerScript {
        input: Name::from_slice(alloc, b"x.ld")?,
        entry: None,
        version: None,
        symbol_defs: Seq::new(alloc),
    })
}

/// One name.
fn names(alloc: Global, name: &[u8]) -> Result<Seq<Name>, AllocError> {
    let mut names = Seq::new(alloc);
    names.push(Name::from_slice(alloc, name)?)?;
    Ok(names)
}

/// A stub library with a strong symbol and a weak one.
fn stub(alloc: Global) -> Result<StubLibrary, AllocError> {
    Ok(StubLibrary {
        input: Name::from_slice(alloc, b"libS.tbd")?,
        strong: names(alloc, b"open")?,
        weak: names(alloc, b"close")?,
    })
}

/// Inputs of this object alone.
fn inputs_of(
    alloc: Global,
    object: ParsedInputObject<MachLike>,
) -> Result<Inputs<MachLike>, AllocError> {
    let mut objects = Seq::new(alloc);
    objects.push(object)?;
    Ok(Inputs {
        objects,
        scripts: Seq::new(alloc),
        stubs: Seq::new(alloc),
    })
}

/// An object, a linker script and a stub library.
fn first_batch(alloc: Global) -> Result<Inputs<MachLike>, Fail> {
    let mut inputs = inputs_of(alloc, object(alloc, b"a.o", table(alloc, 2, 3)?)?)?;
    inputs.scripts.push(script(alloc)?)?;
    inputs.stubs.push(stub(alloc)?)?;
    Ok(inputs)
}

/// Another object.
fn second_batch(alloc: Global) -> Result<Inputs<MachLike>, Fail> {
    Ok(inputs_of(alloc, object(alloc, b"b.o", table(alloc, 4, 1)?)?)?)
}

/// The groups of a first batch, and those of a second one.
fn grouped_twice(
    alloc: Global,
    options: &Options,
    first: Inputs<MachLike>,
    second: Inputs<MachLike>,
) -> Result<(Vec<Group<MachLike>>, Vec<Group<MachLike>>), GroupsError>
    requires { (1 ≤ options.now.files_per_group) × (options.now.files_per_group ≤ 256) }
{
    let none = Vec::new(alloc);
    let groups = create_groups(alloc, options, none.as_slice(), first, 1)?;
    let more = create_groups(alloc, options, groups.as_slice(), second, 1)?;
    Ok((groups, more))
}

/// What the groups show.
fn texts<P: Platform>(alloc: Global, groups: &[Group<P>]) -> Result<String, AllocError> {
    let mut text = String::new(alloc);
    for group in groups {
        text.push_str(format!(in alloc; "{group};")?.as_str())?;
    }
    Ok(text)
}

/// What the files of the groups show.
fn texts_of_files<P: Platform>(alloc: Global, groups: &[Group<P>]) -> Result<String, AllocError> {
    let mut text = String::new(alloc);
    for group in groups {
        for place in 0..group.num_files() {
            let file = group.file(place);
            text.push_str(format!(in alloc; "{file};")?.as_str())?;
        }
    }
    Ok(text)
}

/// Whether groups and their files show these texts.
fn show<P: Platform>(
    alloc: Global,
    groups: &[Group<P>],
    want: &str,
    want_of_files: &str,
) -> Result<bool, AllocError> {
    let is_shown = texts(alloc, groups)?.as_str() == want;
    let are_shown = texts_of_files(alloc, groups)?.as_str() == want_of_files;
    Ok(is_shown && are_shown)
}

/// The groups of the two batches, behind the second of which stands one for symbols of the linker's own.
fn grouped(alloc: Global) -> Result<(Vec<Group<MachLike>>, Vec<Group<MachLike>>), Fail> {
    let first = first_batch(alloc)?;
    let second = second_batch(alloc)?;
    let (groups, mut more) = grouped_twice(alloc, &Options::new(alloc), first, second)?;
    more.push(Group::SyntheticSymbols(SyntheticSymbols {
        file_id: FileId::new(5, 0),
        symbol_id_range: SymbolIdRange::empty(),
    }))?;
    Ok((groups, more))
}

#[test]
fn groups_and_files_are_shown(rt: HostRuntime) -> Result<(), Fail> {
    let (groups, more) = grouped(rt.alloc())?;
    let first = show(
        rt.alloc(),
        groups.as_slice(),
        "<prelude>;num_objects: 1 num_symbols: 2;1 linker script(s);1 Mach-O stub library(s);",
        "<prelude>;a.o;x.ld;libS.tbd;",
    );
    drop(groups);
    let second = show(
        rt.alloc(),
        more.as_slice(),
        "num_objects: 1 num_symbols: 4;<epilogue>;",
        "b.o;<epilogue>;",
    );
    drop(more);
    assert!(rt; first? && second?);
    Ok(())
}
