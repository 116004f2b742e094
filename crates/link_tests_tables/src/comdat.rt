//! That groups are selected where memory is ample.

ghost use Rattle.std.specs.Prelude.{map};
ghost use Rattle.std.specs.List.Sorted.{IsStrictlyIncreasing};

use crate::fixtures::{object, symbol};
use link_input::{
    ElfLike, ObjectTable, ParsedInputObject, Place, SectionGroup, SymbolBinding, SymbolEntry,
};
use link_names::{Name, Seq};
use link_resolve_comdat::{Candidate, Selection};
use std::alloc::{AllocError, Global};
use std::test::Fail;

/// No symbol, and the symbol `f`.
fn symbols(alloc: Global) -> Result<Seq<SymbolEntry>, AllocError> {
    let mut symbols = Seq::new(alloc);
    symbols.push(symbol(alloc, b"", SymbolBinding::Local, Place::Undefined)?)?;
    symbols.push(symbol(alloc, b"f", SymbolBinding::Global, Place::Undefined)?)?;
    Ok(symbols)
}

/// One COMDAT group, of the signature `f`: section 1 is its header, and section 2 its member.
fn groups(alloc: Global) -> Result<Seq<SectionGroup>, AllocError> {
    let members = Seq::from_vec(vec![in alloc; 2u32]?);
    let mut groups = Seq::new(alloc);
    groups.push(SectionGroup {
        index: 1,
        signature_symbol: 1,
        is_comdat: true,
        members,
    })?;
    Ok(groups)
}

/// The tables of an object with this group.
fn table(alloc: Global) -> Result<ObjectTable, AllocError> {
    Ok(ObjectTable {
        is_dynamic: false,
        lib_name: Name::from_slice(alloc, b"")?,
        sections: 3,
        symbols: symbols(alloc)?,
        groups: groups(alloc)?,
        section_references: Seq::new(alloc),
        retained_sections: Seq::new(alloc),
    })
}

/// How many groups are kept; none where the objects are refused.
fn kept_of(alloc: Global, candidates: &[Candidate<'_, ElfLike>]) -> Option<usize>
    requires { IsStrictlyIncreasing (map (λ o. o.0) candidates.now) }
{
    match Selection::select(alloc, candidates) {
        Ok(selection) => Some(selection.kept_comdats().len()),
        Err(_) => None,
    }
}

/// How many groups of two objects are kept.
fn kept_of_two(
    alloc: Global,
    first: &ParsedInputObject<ElfLike>,
    last: &ParsedInputObject<ElfLike>,
) -> Option<usize> {
    let candidates = [
        Candidate {
            place: 0,
            parsed: first,
        },
        Candidate {
            place: 3,
            parsed: last,
        },
    ];
    kept_of(alloc, &candidates)
}

#[test]
fn of_two_groups_one_is_kept(rt: HostRuntime) -> Result<(), Fail> {
    let main = object(rt.alloc(), b"a.o", table(rt.alloc())?)?;
    let member = object(rt.alloc(), b"b.o", table(rt.alloc())?)?;
    let kept = kept_of_two(rt.alloc(), &main, &member);
    drop(main);
    drop(member);
    assert_eq!(rt; kept, Some(1));
    Ok(())
}
