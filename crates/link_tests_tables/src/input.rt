//! Tests of the texts of redirects, of the readers of export lists, and that definitions are made, inputs are copied and a table is
//! kept where there is enough memory. Which tables are refused is in the contracts, and in worked examples (`checked_tables`); what the options give the
//! prelude, and what is read back of tables, the built program shows.

use crate::resolved::inputs;
use link_input::{
    ElfLike, InputObject, InternalSymDefInfo, InternalSymbolsBuilder, MachLike, ObjectTable,
    Platform, RedirectKind, SymbolPlacement,
};
use link_names::{Name, Seq};
use link_script::{ExportList, Plain};
use link_script_syntax::{ScriptFault, ScriptProfile};
use std::alloc::{AllocError, Global};
use std::test::Fail;

/// What is said of `x` where it is missing and a symbol is redirected to it.
fn missing_target(alloc: Global, kind: RedirectKind) -> Result<String, AllocError> {
    kind.missing_target(alloc, &Name::from_slice(alloc, b"x")?)
}

/// What is said of `x` where it is redirected to a symbol that is missing.
fn missing_resolution(alloc: Global, kind: RedirectKind) -> Result<String, AllocError> {
    kind.missing_resolution(alloc, &Name::from_slice(alloc, b"x")?)
}

#[test]
fn missing_symbols_are_named(rt: HostRuntime) -> Result<(), Fail> {
    assert_eq!(rt;
        missing_target(rt.alloc(), RedirectKind::DefSym)?.as_str(),
        "Symbol 'x' referenced by --defsym does not exist"
    );
    assert_eq!(rt;
        missing_resolution(rt.alloc(), RedirectKind::Provide)?.as_str(),
        "Symbol 'x' referenced by linker script has no resolution."
    );
    Ok(())
}

/// The names of the definitions that `add_sections` and `add_symbols` add, and which are hidden.
const BUILT: &[(&[u8], bool)] = &[
    (b"start", false),
    (b"end", false),
    (b"group_end", true),
    (b"base", false),
    (b"load", true),
];

/// Whether there are these definitions and no more.
fn are_built(definitions: &[InternalSymDefInfo]) -> bool {
    for (place, &(name, hidden)) in BUILT.iter().enumerate() {
        match definitions.get(place) {
            Some(found) if found.name.is(name) && found.hidden == hidden => {}
            _ => return false,
        }
    }
    definitions.len() == BUILT.len()
}

/// Adds a definition by each call for a section; the end of a group is hidden.
fn add_sections(alloc: Global, builder: &mut InternalSymbolsBuilder) -> Result<(), AllocError> {
    builder.section_start(1, Name::from_slice(alloc, b"start")?)?;
    builder.section_end(1, Name::from_slice(alloc, b"end")?)?;
    builder
        .section_group_end(1, Name::from_slice(alloc, b"group_end")?)?
        .hide();
    Ok(())
}

/// Adds a definition by each other call; the one that is added whole is hidden.
fn add_symbols(alloc: Global, builder: &mut InternalSymbolsBuilder) -> Result<(), AllocError> {
    builder.platform_specific(Name::from_slice(alloc, b"base")?)?;
    let name = Name::from_slice(alloc, b"load")?;
    let load = InternalSymDefInfo::new(SymbolPlacement::LoadBaseAddress, name);
    builder.add_symbol(load)?.hide();
    Ok(())
}

#[test]
fn definitions_are_built_one_by_one(rt: HostRuntime) -> Result<(), Fail> {
    let mut builder = InternalSymbolsBuilder::new(rt.alloc());
    add_sections(rt.alloc(), &mut builder)?;
    add_symbols(rt.alloc(), &mut builder)?;
    let built = are_built(builder.definitions());
    drop(builder);
    assert!(rt; built);
    Ok(())
}

#[test]
fn inputs_are_copied(rt: HostRuntime) -> Result<(), Fail> {
    let given = inputs(rt.alloc())?;
    let copy = given.copied(rt.alloc())?;
    assert!(rt; copy.same(&given));
    Ok(())
}

#[test]
fn a_table_is_kept(rt: HostRuntime) -> Result<(), Fail> {
    let alloc = rt.alloc();
    let lib_name = Name::from_slice(alloc, b"")?;
    let table = ObjectTable {
        is_dynamic: false,
        lib_name,
        sections: 3,
        symbols: Seq::new(alloc),
        groups: Seq::new(alloc),
        section_references: Seq::new(alloc),
        retained_sections: Seq::new(alloc),
    };
    let kept = InputObject::<MachLike>::new(alloc, table);
    assert!(rt; kept.is_ok());
    Ok(())
}

/// Which of the names `_foo`, `_bar` and `_open` a list has, and how many it requires.
type Listed = (bool, bool, bool, usize);

/// Whether a list is so.
fn is_list(list: &ExportList, want: Listed) -> bool {
    list.contains(b"_foo", &Plain) == want.0
        && list.contains(b"_bar", &Plain) == want.1
        && list.contains(b"_open", &Plain) == want.2
        && list.required_symbols().len() == want.3
}

/// Whether a platform reads a text as this list, or says this of it.
fn is_told<P: Platform>(
    alloc: Global,
    text: &[u8],
    want: Result<Listed, &str>,
) -> Result<bool, AllocError> {
    match (P::parse_export_list(alloc, text, ScriptProfile::Wild), want) {
        (Ok(list), Ok(listed)) => Ok(is_list(&list, listed)),
        (Err(ScriptFault::Text(error)), Err(fault)) => {
            Ok(format!(in alloc; "{error}")?.as_str() == fault)
        }
        _ => Ok(false),
    }
}

/// Entries in braces.
const OF_ELF: &[(&[u8], Result<Listed, &str>)] = &[
    (b"{ _foo; _b*; };", Ok((true, true, false, 0))),
    (b"_foo\n", Err("Syntax error at 0")),
];

/// Lines.
const OF_MACH: &[(&[u8], Result<Listed, &str>)] = &[
    (b"_foo\n_b* # globs\n", Ok((true, true, false, 1))),
    (b"_a\n[b\n", Err("Invalid glob pattern at 3")),
];

#[test]
fn each_platform_has_its_lists(rt: HostRuntime) -> Result<(), Fail> {
    for &(text, want) in OF_ELF {
        assert!(rt; is_told::<ElfLike>(rt.alloc(), text, want)?, "{text:?}");
    }
    for &(text, want) in OF_MACH {
        assert!(rt; is_told::<MachLike>(rt.alloc(), text, want)?, "{text:?}");
    }
    Ok(())
}
