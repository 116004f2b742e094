//! That reasons come where memory is ample, for links that are worked out by hand. What they are is in the contract.

ghost use Rattle.std.specs.Prelude.{◌≤◌, IfOk};
ghost use Rattle.link_db_files.specs.GroupFiles.{AreGroupsOfLink};

use link_db_files::Files;
use link_flags::Visibility;
use link_ids::SymbolId;
use link_input::{
    ElfLike, InputObject, Inputs, Modifiers, ObjectTable, Options, ParsedInputObject, Place,
    SymbolBinding, SymbolEntry, SymbolKind,
};
use link_input_groups::{Group, GroupsError, create_groups};
use link_names::{Name, Seq};
use link_resolve_reasons::loaded_reasons;
use link_rules::{FoundRoot, LoadedReason, Reason};
use std::alloc::{AllocError, Global};
use std::test::Fail;

/// A symbol of this name, defined in section 1 or not at all.
fn symbol(alloc: Global, name: &[u8], is_defined: bool) -> Result<SymbolEntry, AllocError> {
    let binding = if name.is_empty() {
        SymbolBinding::Local
    } else {
        SymbolBinding::Global
    };
    let place = if is_defined {
        Place::Section(1)
    } else {
        Place::Undefined
    };
    Ok(SymbolEntry {
        name: Name::from_slice(alloc, name)?,
        version: None,
        is_default: true,
        binding,
        visibility: Visibility::Default,
        kind: SymbolKind::Plain,
        size: 0,
        place,
    })
}

/// The table of an object with these symbols behind the null entry.
fn table(alloc: Global, symbols: &[(&[u8], bool)]) -> Result<ObjectTable, AllocError> {
    let mut entries = Seq::new(alloc);
    entries.push(symbol(alloc, b"", false)?)?;
    for &(name, is_defined) in symbols {
        entries.push(symbol(alloc, name, is_defined)?)?;
    }
    Ok(ObjectTable {
        is_dynamic: false,
        lib_name: Name::from_slice(alloc, b"")?,
        sections: 2,
        symbols: entries,
        groups: Seq::new(alloc),
        section_references: Seq::new(alloc),
        retained_sections: Seq::new(alloc),
    })
}

/// An object of an archive or not, with these symbols.
fn object(
    alloc: Global,
    archive: bool,
    symbols: &[(&[u8], bool)],
) -> Result<ParsedInputObject<ElfLike>, Fail> {
    let modifiers = Modifiers {
        archive,
        whole_archive: false,
        as_needed: false,
    };
    let object = InputObject::new(alloc, table(alloc, symbols)?)?;
    let name = Name::from_slice(alloc, b"a.o")?;
    Ok(ParsedInputObject::new(name, object, modifiers))
}

/// An object that refers to `foo`, a member that defines it and refers to `bar`, one that defines that, and one that nothing asks
/// for.
fn inputs(alloc: Global) -> Result<Inputs<ElfLike>, Fail> {
    let mut objects = Seq::new(alloc);
    objects.push(object(alloc, false, &[(b"foo", false)])?)?;
    objects.push(object(alloc, true, &[(b"foo", true), (b"bar", false)])?)?;
    objects.push(object(alloc, true, &[(b"bar", true)])?)?;
    objects.push(object(alloc, true, &[(b"baz", true)])?)?;
    Ok(Inputs {
        objects,
        scripts: Seq::new(alloc),
        stubs: Seq::new(alloc),
    })
}

/// The groups of these inputs.
fn grouped(
    alloc: Global,
    options: &Options,
    inputs: Inputs<ElfLike>,
) -> Result<Vec<Group<ElfLike>>, GroupsError>
    requires { (1 ≤ options.now.files_per_group) × (options.now.files_per_group ≤ 256) }
    ensures { IfOk result (λ groups. AreGroupsOfLink groups.items) }
{
    create_groups(alloc, options, &[], inputs, 1)
}

/// The files of these groups.
fn held(alloc: Global, groups: Vec<Group<ElfLike>>) -> Result<Files<ElfLike>, AllocError>
    requires { AreGroupsOfLink groups.items }
{
    let mut files = Files::new(alloc);
    files.add_groups(alloc, groups)?;
    Ok(files)
}

/// All files of the link.
fn files(alloc: Global) -> Result<Files<ElfLike>, Fail> {
    let groups = grouped(alloc, &Options::new(alloc), inputs(alloc)?)?;
    Ok(held(alloc, groups)?)
}

/// What the references of the first two objects stand for, and nothing else.
fn targets(alloc: Global) -> Result<Vec<Option<SymbolId>>, AllocError> {
    let mut targets = vec![in alloc; None; 10]?;
    targets[2] = Some(SymbolId::from_usize(4));
    targets[5] = Some(SymbolId::from_usize(7));
    Ok(targets)
}

/// The reasons as words, one after another.
fn words(alloc: Global, reasons: &[LoadedReason]) -> Result<String, Fail> {
    let mut text = String::new(alloc);
    for reason in reasons {
        let object = reason.object;
        let line = match &reason.reason {
            Reason::Required => format!(in alloc; "{object} required;")?,
            Reason::Root(_) => format!(in alloc; "{object} root;")?,
            Reason::Reference { symbol, object: of } => {
                let id = symbol.as_usize();
                format!(in alloc; "{object} symbol {id} of {of};")?
            }
        };
        text.push_str(line.as_str())?;
    }
    Ok(text)
}

/// Whether the reasons of the first three objects are these.
fn tells(alloc: Global, roots: &[FoundRoot], want: &str) -> Result<bool, Fail> {
    let files = files(alloc)?;
    let targets = targets(alloc)?;
    let loaded = [true, true, true, false];
    let reasons = loaded_reasons(alloc, &files, &loaded, &targets, roots)?;
    let text = words(alloc, &reasons)?;
    Ok(text.as_str() == want)
}

#[test]
fn a_member_is_asked_for_by_a_member(rt: HostRuntime) -> Result<(), Fail> {
    let alloc = rt.alloc();
    assert!(rt; tells(alloc, &[], "0 required;1 symbol 2 of 0;2 symbol 5 of 1;")?);
    let root = FoundRoot {
        name: Name::from_slice(alloc, b"bar")?,
        object: 2,
    };
    assert!(rt; tells(alloc, &[root], "0 required;1 symbol 2 of 0;2 root;")?);
    Ok(())
}
