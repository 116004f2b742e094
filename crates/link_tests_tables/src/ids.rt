//! Tests of what no contract says.

ghost use Rattle.std.specs.Prelude.{◌≡◌, ◌<◌, ◌^◌};

use crate::fixtures::shows;
use link_ids::{
    FileId, InputSectionId, InputSectionIndex, PRELUDE_FILE_ID, SectionIdRange, SectionIndex,
    ShardKey, SymbolId, SymbolIdRange, SymbolIndex,
};
use link_names::order_and_hash_agree_with_eq;
use std::test::Fail;

/// What the iterator over the ids 10 to 12 answers, call after call.
const ANSWERED: &[Option<usize>] = &[Some(10), Some(11), Some(12), None, None];

/// Whether the id of this number is found, or none where none is wanted.
fn is_found(found: Option<SymbolId>, want: Option<usize>) -> bool {
    match (found, want) {
        (Some(id), Some(number)) => id.as_usize() == number,
        (None, None) => true,
        _ => false,
    }
}

#[test]
fn ranges_give_ids_and_offsets(rt: HostRuntime) {
    let range = SymbolIdRange::input(SymbolId::from_usize(10), 3);
    let mut ids = range.into_iter();
    for &want in ANSWERED {
        assert!(rt; is_found(ids.next(), want));
    }
    let last = SymbolId::from_usize(12);
    assert!(rt; range.id_to_offset(last) == 2 && last.to_input(range) == SymbolIndex::new(2));
}

#[test]
fn ranges_cover_ranges(rt: HostRuntime) {
    let first = SymbolIdRange::input(SymbolId::from_usize(10), 3);
    let last = SymbolIdRange::input(SymbolId::from_usize(15), 2);
    let covering = SymbolIdRange::covering(first, last);
    let numbers = covering.as_usize();
    assert!(rt; covering.start() == SymbolId::from_usize(10) && covering.len() == 7);
    assert!(rt; numbers.start == 10 && numbers.end == 17);
}

#[test]
fn ranges_give_ids_of_sections(rt: HostRuntime) {
    let sections = SectionIdRange::input(InputSectionId::from_usize(4), 2);
    let section = sections.input_to_id(InputSectionIndex::from(SectionIndex::new(1)));
    assert_eq!(rt; section.as_usize(), 5);
}

#[test]
fn numbers_from_2_to_the_32_are_refused(rt: HostRuntime) -> Result<(), Fail> {
    assert!(rt; is_found(SymbolId::try_from(4_294_967_295).ok(), Some(4_294_967_295)));
    match SymbolId::try_from(4_294_967_296) {
        Ok(_) => Err(Fail::from("an id of 33 bits")),
        Err(error) => {
            assert_eq!(rt; error.0, 4_294_967_296);
            shows(&rt, rt.alloc(), &error, "too many symbols: 4294967296")
        }
    }
}

/// The key n places behind the first, as code that cuts any table makes it.
fn key<K: ShardKey>(n: usize) -> K
    requires { n < 2 ^ 32 }
    ensures { K.number result ≡ n }
{
    K::zero().add_usize(n)
}

#[test]
fn keys_agree_with_their_numbers(rt: HostRuntime) {
    order_and_hash_agree_with_eq::<SymbolId>();
    order_and_hash_agree_with_eq::<InputSectionId>();
    order_and_hash_agree_with_eq::<SymbolIndex>();
    order_and_hash_agree_with_eq::<SectionIndex>();
    order_and_hash_agree_with_eq::<InputSectionIndex>();
    order_and_hash_agree_with_eq::<FileId>();
    assert!(rt;
        key::<SymbolId>(7) == SymbolId::from_usize(7)
            && key::<InputSectionId>(7) == InputSectionId::from_usize(7)
    );
}

#[test]
fn files_are_ordered_by_group(rt: HostRuntime) {
    let first = FileId::new(2, 0);
    assert!(rt;
        FileId::new(1, 9) < first
            && first < FileId::new(2, 1)
            && PRELUDE_FILE_ID == FileId::new(0, 0)
    );
}

#[test]
fn ids_are_shown(rt: HostRuntime) -> Result<(), Fail> {
    let id = SymbolId::from_usize(4_294_967_295);
    shows(&rt, rt.alloc(), &id, "4294967295")?;
    let file = FileId::new(16_777_215, 255);
    shows(&rt, rt.alloc(), &file, "16777215/255")
}
