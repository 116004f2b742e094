//! Tests of what no contract says.

use link_names::{
    Name, NameView, PassThroughHasher, PreHashed, PreHashedSymbolName, Seq, UnversionedSymbolName,
    VersionedSymbolName, hash_bytes, is_mapping_symbol_name, number_in_map, parse_number, text_of,
};
use std::alloc::{AllocError, Global};
use std::collections::HashMap;
use std::fmt;
use std::process::Abort;
use std::test::Fail;

/// The value prints as this text.
/// That it fails otherwise is left to the tests that call it: no clause says it.
pub fn shows<D: fmt::Display>(
    rt: &impl Abort,
    alloc: Global,
    value: &D,
    want: &str,
) -> Result<(), Fail> {
    assert_eq!(rt; format!(in alloc; "{value}")?.as_str(), want);
    Ok(())
}

const NAMES: &[(&[u8], bool, &str)] = &[
    (b"main", true, "main"),
    (b"", true, ""),
    (b"\xc3\xa9", true, "é"),
    (b"\xff", false, "INVALID UTF-8([255])"),
    (b"\xff\x00", false, "INVALID UTF-8([255, 0])"),
];

/// A copy of the name.
fn copied(alloc: Global, bytes: &[u8]) -> Result<Name, AllocError> {
    let name = Name::from_slice(alloc, bytes)?;
    name.clone()
}

#[test]
fn names_are_shown(rt: HostRuntime) -> Result<(), Fail> {
    for &(bytes, is_text, want) in NAMES {
        shows(&rt, rt.alloc(), &Name::from_slice(rt.alloc(), bytes)?, want)?;
        shows(&rt, rt.alloc(), &NameView::new(bytes), want)?;
        let unversioned = UnversionedSymbolName::new(copied(rt.alloc(), bytes)?);
        shows(&rt, rt.alloc(), &unversioned, want)?;
        assert_eq!(rt; text_of(bytes).is_some(), is_text);
    }
    Ok(())
}

#[test]
fn a_list_grows(rt: HostRuntime) -> Result<(), Fail> {
    let mut seq = Seq::new(rt.alloc());
    seq.push(3)?;
    let grown = matches!(seq.as_slice(), [3]);
    drop(seq);
    assert!(rt; grown);
    Ok(())
}

/// Of the authors' test suite of FNV.
const HASHES: &[(&[u8], u64)] = &[
    (b"", 0xcbf2_9ce4_8422_2325),
    (b"a", 0xaf63_dc4c_8601_ec8c),
    (b"foobar", 0x8594_4171_f739_67e8),
];

/// The number in a map of a name with no version.
fn unversioned_number(alloc: Global, bytes: &[u8]) -> Result<u64, AllocError> {
    let name = UnversionedSymbolName::prehashed(Name::from_slice(alloc, bytes)?);
    Ok(number_in_map(name))
}

/// The number of a name with a version.
fn versioned_number(alloc: Global, bytes: &[u8]) -> Result<u64, AllocError> {
    let version = Name::from_slice(alloc, b"V1")?;
    let name = Name::from_slice(alloc, bytes)?;
    Ok(PreHashedSymbolName::from_raw(name, Some(version)).hash())
}

#[test]
fn names_carry_their_numbers(rt: HostRuntime) -> Result<(), Fail> {
    for &(bytes, want) in HASHES {
        let unversioned = unversioned_number(rt.alloc(), bytes)?;
        let versioned = versioned_number(rt.alloc(), bytes)?;
        assert!(rt; hash_bytes(bytes) == want && unversioned == want && versioned == want);
    }
    Ok(())
}

fn versioned(alloc: Global, version: &[u8]) -> Result<PreHashed<VersionedSymbolName>, Fail> {
    let name = Name::from_slice(alloc, b"f")?;
    let version = Name::from_slice(alloc, version)?;
    Ok(VersionedSymbolName::prehashed(name, version))
}

/// Numbers of names with versions.
type Ids = HashMap<PreHashed<VersionedSymbolName>, u32, PassThroughHasher>;

/// Gives each of two versions a number.
fn number_versions(alloc: Global, ids: &mut Ids) -> Result<(), Fail> {
    ids.insert(versioned(alloc, b"V1")?, 1)?;
    ids.insert(versioned(alloc, b"V2")?, 2)?;
    Ok(())
}

/// The number of this version.
fn number_of(alloc: Global, ids: &Ids, version: &[u8]) -> Result<Option<u32>, Fail> {
    let name = versioned(alloc, version)?;
    Ok(ids.get(&name).copied())
}

/// Numbers two versions. The number of each, and that of a third.
fn numbers(alloc: Global, ids: &mut Ids) -> Result<[Option<u32>; 3], Fail> {
    number_versions(alloc, ids)?;
    let first = number_of(alloc, ids, b"V1")?;
    let second = number_of(alloc, ids, b"V2")?;
    let third = number_of(alloc, ids, b"V3")?;
    Ok([first, second, third])
}

#[test]
fn versions_are_told_apart_in_a_map(rt: HostRuntime) -> Result<(), Fail> {
    let mut ids = HashMap::with_hasher(rt.alloc(), PassThroughHasher::default());
    let found = numbers(rt.alloc(), &mut ids);
    drop(ids);
    let found = found?;
    assert!(rt; matches!(found, [Some(1), Some(2), None]));
    Ok(())
}

const NUMBERS: &[(&str, Result<u64, ()>)] = &[
    ("0x10", Ok(16)),
    ("12", Ok(12)),
    ("0x", Err(())),
    ("+5", Ok(5)),
    ("0x+fF", Ok(255)),
    ("+0x5", Err(())),
    ("++5", Err(())),
    ("", Err(())),
    ("+", Err(())),
    ("-1", Err(())),
    ("1a", Err(())),
    ("0X10", Err(())),
    ("18446744073709551615", Ok(18_446_744_073_709_551_615)),
    ("18446744073709551616", Err(())),
];

const MAPPING_NAMES: &[(&[u8], bool)] = &[
    (b"$x", true),
    (b"$d.1", true),
    (b"$a", false),
    (b"L0\x01", true),
    (b"L0\x01x", false),
    (b"", false),
];

#[test]
fn numbers_and_mapping_names_are_read(rt: HostRuntime) {
    for &(text, want) in NUMBERS {
        assert_eq!(rt; parse_number(text), want, "{text}");
    }
    for &(name, want) in MAPPING_NAMES {
        assert_eq!(rt; is_mapping_symbol_name(name), want);
    }
}
