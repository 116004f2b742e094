//! Tests of what no contract says: hashes and an image from outside, and that calls succeed where there is memory.

use link_names::{Name, Seq};
use link_script::VersionScript;
use link_script_syntax::ScriptProfile;
use link_verdef::{
    ReadError, VersionItem, VersionItems, WriteError, items_of, read_verdef, sysv_hash,
    write_verdef,
};
use std::alloc::{AllocError, Global};
use std::test::Fail;

/// Names with the hash that `elf_hash` of the ELF gABI gives, those of the GNU C library as binutils shows them.
const HASHES: &[(&[u8], u32)] = &[
    (b"", 0),
    (b"V1", 0x0591),
    (b"V2", 0x0592),
    (b"printf", 0x0779_05a6),
    (b"exit", 0x0006_cf04),
    (b"syscall", 0x0b09_985c),
    // Here bits come to the top, and are folded back.
    (b"GLIBC_2.2.5", 0x0969_1a75),
    (b"GLIBC_2.17", 0x0696_9197),
    (b"GCC_3.0", 0x0b79_2650),
    // Here the sum passes 32 bits.
    (b"\xff\xff\xff\xff\xff\xff\xff", 0xff),
    (b"\xff\xff\xff\xff\xff\xff\xff\xff", 0x10ef),
];

#[test]
fn names_have_their_hashes(rt: HostRuntime) {
    for &(name, hash) in HASHES {
        assert_eq!(rt; sysv_hash(name), hash, "of {name:?}");
    }
}

/// Two versions, of which the second extends the first.
const SCRIPT: &[u8] = b"V1 { global: a; }; V2 { b; } V1;";

/// Their records, with `l` for the soname.
const RECORDS: &[u8] = &[
    1, 0, 1, 0, 1, 0, 1, 0, 0x6c, 0, 0, 0, 20, 0, 0, 0, 28, 0, 0, 0, // l
    1, 0, 0, 0, 0, 0, 0, 0, //
    1, 0, 0, 0, 2, 0, 1, 0, 0x91, 5, 0, 0, 20, 0, 0, 0, 28, 0, 0, 0, // V1
    3, 0, 0, 0, 0, 0, 0, 0, //
    1, 0, 0, 0, 3, 0, 2, 0, 0x92, 5, 0, 0, 20, 0, 0, 0, 0, 0, 0, 0, // V2
    6, 0, 0, 0, 8, 0, 0, 0, //
    3, 0, 0, 0, 0, 0, 0, 0, // which extends V1
];

/// Their strings.
const STRINGS: &[u8] = b"\0l\0V1\0V2\0";

/// The items of a script, with `l` for the soname.
fn items_of_text(alloc: Global, text: &[u8]) -> Result<VersionItems, Fail> {
    let Ok(script) = VersionScript::parse(alloc, text, ScriptProfile::Wild) else {
        return Err(Fail::from("a version script"));
    };
    match VersionItems::new(items_of(alloc, &script, b"l")?) {
        Some(items) => Ok(items),
        None => Err(Fail::from("items that can be defined")),
    }
}

/// Whether the items of the text have these records and strings, and are read again from them.
fn has_image(alloc: Global, text: &[u8], records: &[u8], strings: &[u8]) -> Result<bool, Fail> {
    let items = items_of_text(alloc, text)?;
    let Ok(image) = write_verdef(alloc, &items) else {
        return Ok(false);
    };
    match read_verdef(alloc, records, strings) {
        Ok(read) => Ok(image.is(records, strings) && read.as_slice() == items.as_slice()),
        Err(_) => Ok(false),
    }
}

#[test]
fn scripts_have_their_images(rt: HostRuntime) -> Result<(), Fail> {
    assert!(rt; has_image(rt.alloc(), SCRIPT, RECORDS, STRINGS)?);
    // Neither an empty script nor a body without a name has versions, nor a script of the Rust form.
    assert!(rt; has_image(rt.alloc(), b"", b"", b"\0")?);
    assert!(rt; has_image(rt.alloc(), b"{ a; local: b; };", b"", b"\0")?);
    assert!(rt; has_image(rt.alloc(), b"{ global: a; local: *; };", b"", b"\0")?);
    Ok(())
}

/// The bytes, but that the one at this place has other bits.
fn changed(alloc: Global, bytes: &[u8], place: usize, bits: u8) -> Result<Vec<u8>, AllocError> {
    bytes
        .iter()
        .enumerate()
        .map(|(i, byte)| if i == place { byte ^ bits } else { *byte })
        .collect(alloc)
}

/// Whether the bytes are refused, or read as items with another image than the first one.
fn is_other(alloc: Global, records: &[u8], strings: &[u8]) -> Result<bool, Fail> {
    match read_verdef(alloc, records, strings) {
        Ok(items) => match write_verdef(alloc, &items) {
            Ok(image) => Ok(!image.is(RECORDS, STRINGS)),
            Err(_) => Ok(false),
        },
        Err(ReadError::NotVerdef) => Ok(true),
        Err(ReadError::Memory) => Ok(false),
    }
}

#[test]
fn another_byte_is_another_image(rt: HostRuntime) -> Result<(), Fail> {
    for bits in [1, 2, 0x80] {
        for place in 0..RECORDS.len() {
            let records = changed(rt.alloc(), RECORDS, place, bits)?;
            assert!(rt;
                is_other(rt.alloc(), records.as_slice(), STRINGS)?,
                "record byte {place}"
            );
        }
        for place in 0..STRINGS.len() {
            let strings = changed(rt.alloc(), STRINGS, place, bits)?;
            assert!(rt;
                is_other(rt.alloc(), RECORDS, strings.as_slice())?,
                "string byte {place}"
            );
        }
    }
    Ok(())
}

/// Whether the bytes are refused.
fn is_refused(alloc: Global, records: &[u8], strings: &[u8]) -> bool {
    match read_verdef(alloc, records, strings) {
        Ok(_) => false,
        Err(error) => error == ReadError::NotVerdef,
    }
}

#[test]
fn cut_images_are_refused(rt: HostRuntime) {
    for len in 0..RECORDS.len() {
        assert!(rt;
            is_refused(rt.alloc(), &RECORDS[..len], STRINGS),
            "{len} bytes of records"
        );
    }
    for len in 0..STRINGS.len() {
        assert!(rt;
            is_refused(rt.alloc(), RECORDS, &STRINGS[..len]),
            "{len} bytes of strings"
        );
    }
}

/// An item.
fn item(alloc: Global, name: &[u8], parent: Option<u16>) -> Result<VersionItem, AllocError> {
    Ok(VersionItem {
        name: Name::from_slice(alloc, name)?,
        parent,
    })
}

/// Items of these names and parents.
fn items(
    alloc: Global,
    given: &[(&[u8], Option<u16>)],
) -> Result<Option<VersionItems>, AllocError> {
    let mut items = Seq::new(alloc);
    for &(name, parent) in given {
        items.push(item(alloc, name, parent)?)?;
    }
    Ok(VersionItems::new(items))
}

#[test]
fn only_earlier_versions_are_extended(rt: HostRuntime) -> Result<(), Fail> {
    for (parent, is_lawful) in [
        (None, true),
        (Some(0), false),
        (Some(1), true),
        (Some(2), false),
        (Some(3), false),
    ] {
        let given: &[(&[u8], Option<u16>)] = &[(b"l", None), (b"V1", None), (b"V2", parent)];
        assert_eq!(rt;
            items(rt.alloc(), given)?.is_some(),
            is_lawful,
            "{parent:?}"
        );
    }
    assert!(rt; items(rt.alloc(), &[(b"l", Some(0)), (b"V1", None)])?.is_none());
    assert!(rt; items(rt.alloc(), &[(b"l", None)])?.is_none());
    Ok(())
}

/// What writing items of these names is refused with.
fn refusal_of(alloc: Global, names: &[&[u8]]) -> Result<Option<WriteError>, AllocError> {
    let mut items = Seq::new(alloc);
    for name in names {
        items.push(item(alloc, name, None)?)?;
    }
    let Some(items) = VersionItems::new(items) else {
        return Ok(None);
    };
    match write_verdef(alloc, &items) {
        Ok(_) => Ok(None),
        Err(error) => Ok(Some(error)),
    }
}

#[test]
fn refusals_are_told(rt: HostRuntime) -> Result<(), Fail> {
    let refusal = refusal_of(rt.alloc(), &[b"l", b"V\0", b"V1", b"\0"])?;
    assert_eq!(rt; refusal, Some(WriteError::ZeroInName(1)));
    for (error, text) in [
        (WriteError::ZeroInName(1), "Zero byte in version name 1"),
        (
            WriteError::TooLong(4_294_967_296),
            "Version names too long: 4294967296",
        ),
        (WriteError::Memory, "out of memory"),
    ] {
        assert_eq!(rt; format!(in rt.alloc(); "{error}")?.as_str(), text);
    }
    let refused = ReadError::NotVerdef;
    assert_eq!(rt;
        format!(in rt.alloc(); "{refused}")?.as_str(),
        "not version definitions"
    );
    Ok(())
}

/// So many items, with names of 100 bytes. Each version but the first extends the one in front of it.
fn long_chain(alloc: Global, count: u16) -> Result<Option<VersionItems>, AllocError> {
    let mut items = Seq::new(alloc);
    for number in 0..count {
        let name = format!(in alloc; "{number:0>100}")?;
        let parent = if number < 2 { None } else { Some(number - 1) };
        items.push(item(alloc, name.as_bytes(), parent)?)?;
    }
    Ok(VersionItems::new(items))
}

/// Whether so many items are written and read again.
fn is_read_again(alloc: Global, count: u16) -> Result<bool, AllocError> {
    let Some(items) = long_chain(alloc, count)? else {
        return Ok(false);
    };
    let Ok(image) = write_verdef(alloc, &items) else {
        return Ok(false);
    };
    match read_verdef(alloc, image.records.as_slice(), image.strings.as_slice()) {
        Ok(read) => Ok(read.as_slice() == items.as_slice()),
        Err(_) => Ok(false),
    }
}

#[test]
fn as_many_as_there_may_be(rt: HostRuntime) -> Result<(), Fail> {
    assert!(rt; is_read_again(rt.alloc(), 32_767)?);
    assert!(rt; !is_read_again(rt.alloc(), 32_768)?);
    Ok(())
}
