//! The road that the program takes to live sections: `link_symbols`, `collect`, `section_text`. What they are is in the contracts. Where one thread alone marks,
//! the first of these tests fails.

use crate::meeting::Meeting;
use link_claim::{Gate, OpenGate};
use link_core::link_symbols;
use link_core_answer::Linked;
use link_flags::Visibility;
use link_gc::{LiveSections, collect, section_text};
use link_input::{
    ElfLike, InputObject, Inputs, Modifiers, ObjectTable, Options, ParsedInputObject, Place,
    Scripts, SectionReference, SymbolBinding, SymbolEntry, SymbolKind,
};
use link_names::{Name, Seq};
use link_rules::LinkError;
use link_script::Plain;
use std::alloc::{AllocError, Global};
use std::sync::atomic::Ordering;
use std::test::Fail;
use std::thread::Threads;

/// A local symbol of no name: undefined, or at the start of a section.
fn symbol(alloc: Global, place: Place) -> SymbolEntry {
    SymbolEntry {
        name: Name::new(Vec::new(alloc)),
        version: None,
        is_default: true,
        binding: SymbolBinding::Local,
        visibility: Visibility::Default,
        kind: SymbolKind::Plain,
        size: 0,
        place,
    }
}

/// The sections that are kept in any case, the section that the last of these refers to, and one to which nothing refers.
const RETAINED: u32 = 4;

const NEEDED: u32 = 4;

const UNUSED: u32 = 5;

/// The table of an object with these sections.
fn table(alloc: Global) -> Result<ObjectTable, AllocError> {
    let mut symbols = Seq::new(alloc);
    symbols.push(symbol(alloc, Place::Undefined))?;
    symbols.push(symbol(alloc, Place::Section(NEEDED)))?;
    let mut section_references = Seq::new(alloc);
    section_references.push(SectionReference {
        from: RETAINED - 1,
        to: 1,
    })?;
    let mut retained_sections = Seq::new(alloc);
    for section in 0..RETAINED {
        retained_sections.push(section)?;
    }
    Ok(ObjectTable {
        is_dynamic: false,
        lib_name: Name::new(Vec::new(alloc)),
        sections: UNUSED + 1,
        symbols,
        groups: Seq::new(alloc),
        section_references,
        retained_sections,
    })
}

/// The files of the link: that object, which stands by itself.
fn files(alloc: Global) -> Result<Inputs<ElfLike>, AllocError> {
    let modifiers = Modifiers {
        archive: false,
        whole_archive: false,
        as_needed: false,
    };
    // The table passes every check, so what is refused is want of memory.
    let Ok(object) = InputObject::new(alloc, table(alloc)?) else {
        return Err(AllocError);
    };
    let mut objects = Seq::new(alloc);
    let input = Name::from_slice(alloc, b"object")?;
    objects.push(ParsedInputObject::new(input, object, modifiers))?;
    Ok(Inputs {
        objects,
        scripts: Seq::new(alloc),
        stubs: Seq::new(alloc),
    })
}

/// The link of these files.
fn linked<R: Threads + Sync>(rt: &R, alloc: Global) -> Result<Linked<ElfLike>, LinkError> {
    let scripts = Scripts {
        version_script: None,
        export_list: None,
    };
    let options = Options::new(alloc);
    link_symbols(
        rt,
        alloc,
        &OpenGate,
        files(alloc)?,
        options,
        scripts,
        &Plain,
        1,
    )
}

/// Which sections of the one object are live, by the answer of `is_live`.
fn are_wanted(live: &LiveSections) -> bool {
    (0..UNUSED).all(|section| live.is_live(0, section)) && !live.is_live(0, UNUSED)
}

/// The same as it is written.
const TEXT: &[u8] = b"live 0 0\nlive 0 1\nlive 0 2\nlive 0 3\nlive 0 4\ndead 0 5\n";

#[test]
fn four_workers_mark_beside_each_other(rt: HostRuntime) -> Result<(), Fail> {
    let linked = linked(&rt, rt.alloc())?;
    let gate = Meeting::of(4);
    let live = collect(&rt, rt.alloc(), &gate, 4, &linked)?;
    let met = gate.came.load(Ordering::SeqCst) == 5 && gate.late.load(Ordering::SeqCst) == 0;
    assert!(rt; met && are_wanted(&live));
    Ok(())
}

#[test]
fn the_sections_are_told_for_every_number_of_workers(rt: HostRuntime) -> Result<(), Fail> {
    let linked = linked(&rt, rt.alloc())?;
    for workers in [1usize, 2, 7, 256] {
        let workers = workers.max(1).min(256);
        let live = collect(&rt, rt.alloc(), &OpenGate, workers, &linked)?;
        let text = section_text(rt.alloc(), &linked, &live)?;
        assert!(rt; text.as_slice() == TEXT, "by {workers} workers");
    }
    Ok(())
}
