//! That each reader succeeds where memory is ample, short texts with the first fault of each, and long texts.

ghost use Rattle.std.specs.Prelude.{◌≤◌, length};

use link_script_syntax::{
    ParsedSymbolMatcher, RawScript, ScriptFault, ScriptProfile, SymbolMatcher, parse_matcher,
    read_added_entry, read_gnu_list, read_macho_list,
};
use std::alloc::{AllocError, Global};
use std::test::Fail;

/// Whether reading the text has this outcome: the text of the fault, `read` where there is none.
fn has_outcome(alloc: Global, text: &[u8], want: &str) -> Result<bool, AllocError> {
    match RawScript::parse(alloc, text, ScriptProfile::Wild) {
        Ok(_) => Ok(want == "read"),
        Err(ScriptFault::Memory) => Ok(false),
        Err(ScriptFault::Text(error)) => Ok(format!(in alloc; "{error}")?.as_str() == want),
    }
}

/// `front` and then so many times `piece`.
fn repeated(
    alloc: Global,
    front: &[u8],
    piece: &[u8],
    times: usize,
) -> Result<Vec<u8>, AllocError> {
    let mut text = front.to_vec(alloc)?;
    for _ in 0..times {
        text.extend_from_slice(piece)?;
    }
    Ok(text)
}

/// Whether the entry is this one name.
fn is_name(entry: &ParsedSymbolMatcher, name: &[u8]) -> bool {
    match entry {
        ParsedSymbolMatcher::Single(SymbolMatcher::Exact(found)) => found.is(name),
        _ => false,
    }
}

/// Whether the entry is a block of C++ with so many patterns.
fn is_cxx(entry: &ParsedSymbolMatcher, count: usize) -> bool {
    match entry {
        ParsedSymbolMatcher::CxxMatchers(matchers) => matchers.len() == count,
        _ => false,
    }
}

/// Whether the entry at this place is this one name, and ends in front of that place.
fn has_name_at(
    alloc: Global,
    text: &[u8],
    at: usize,
    profile: ScriptProfile,
    name: &[u8],
    end: usize,
) -> bool
    requires { at ≤ length text.now }
{
    match parse_matcher(alloc, text, at, profile) {
        Ok((entry, behind)) => is_name(&entry, name) && behind == end,
        Err(_) => false,
    }
}

/// Whether the whole text is a block of C++ with so many patterns.
fn is_cxx_block(alloc: Global, text: &[u8], count: usize) -> bool {
    match parse_matcher(alloc, text, 0, ScriptProfile::Wild) {
        Ok((entry, behind)) => is_cxx(&entry, count) && behind == text.len(),
        Err(_) => false,
    }
}

/// Whether the text of an added entry is this one name.
fn is_added_name(alloc: Global, text: &[u8], name: &[u8]) -> bool {
    match read_added_entry(alloc, text, true) {
        Ok(entry) => is_name(&entry, name),
        Err(_) => false,
    }
}

/// Whether the text is a list of ELF with so many entries.
fn has_gnu_entries(alloc: Global, text: &[u8], count: usize) -> bool {
    match read_gnu_list(alloc, text, ScriptProfile::Lenient) {
        Ok(entries) => entries.len() == count,
        Err(_) => false,
    }
}

/// Whether the text is a list of Mach-O with so many entries.
fn has_macho_entries(alloc: Global, text: &[u8], count: usize) -> bool {
    match read_macho_list(alloc, text) {
        Ok(entries) => entries.len() == count,
        Err(_) => false,
    }
}

/// Texts, and what reading each of them answers: a slice, since a proof takes an array apart row by row.
const ANSWERS: &[(&[u8], &str)] = &[
    (b" \t\r\n/* a */ # b\n", "read"),
    (b"{ global: foo; local: *; };", "read"),
    (b"V1{a;};V2{b;}V1;", "read"),
    (b"{ \xff; };", "read"),
    (b"{ a; }", "Syntax error at 6"),
    (b"{ a; }; x", "Syntax error at 8"),
    (b"{ ; };", "Syntax error at 2"),
    (b"{ a; /* open *", "Syntax error at 5"),
    (b"/*/", "Syntax error at 0"),
    (b"V1 ;", "Syntax error at 3"),
    (b"V1 { a; } V1;", "Unknown parent version at 10"),
    (b"{ \xff*; };", "Invalid utf-8 string at 2"),
    (b"{ x; a**; };", "Invalid glob pattern at 5"),
    (b"{ extern \"C\" x", "Syntax error at 13"),
    (b"{ extern \"C\" { /* }; };", "Syntax error at 15"),
    (b"{ extern \"C\" { a; /* }; */ b; c }", "Syntax error at 27"),
    (
        b"{ extern \"C++\" { x; extern \"C\" { y; }; }; };",
        "Unexpected extern \"C\" in parsing at 20",
    ),
    (
        b"{ extern \"C\" { extern \"Java\" \t{ x; }; }; };",
        "Unsupported extern \"\"Java\"\" at 15",
    ),
    (
        b"{ extern \xff{ x; }; };",
        "Unsupported extern \"INVALID UTF-8([255])\" at 9",
    ),
];

/// What a text begins with, a piece and how often it follows, and what reading the text answers.
const LONG: &[(&[u8], &[u8], usize, &str)] = &[
    (b"", b"extern \"C\" { ", 100_000, "Syntax error at 7"),
    (
        b"{ ",
        b"extern \"C\" { ",
        100_000,
        "Unexpected extern \"C\" in parsing at 15",
    ),
    (b"", b"V{};", 32_766, "read"),
    (b"", b"V{};", 32_767, "Too many versions at 131064"),
];

#[test]
fn first_fault_and_its_place(rt: HostRuntime) -> Result<(), Fail> {
    for &(text, want) in ANSWERS {
        assert!(rt; has_outcome(rt.alloc(), text, want)?);
    }
    Ok(())
}

/// Whether that is so of a long text.
fn has_long_outcome(
    alloc: Global,
    front: &[u8],
    piece: &[u8],
    times: usize,
    want: &str,
) -> Result<bool, AllocError> {
    let text = repeated(alloc, front, piece, times)?;
    has_outcome(alloc, text.as_slice(), want)
}

#[test]
fn long_texts(rt: HostRuntime) -> Result<(), Fail> {
    for &(front, piece, times, want) in LONG {
        assert!(rt; has_long_outcome(rt.alloc(), front, piece, times, want)?);
    }
    Ok(())
}

#[test]
fn entries_and_lists(rt: HostRuntime) {
    let alloc = rt.alloc();
    assert!(rt; has_name_at(alloc, b"x; a b ; rest", 3, ScriptProfile::Wild, b"a b", 8));
    assert!(rt;
        has_name_at(
            alloc,
            b"x; a b } rest;",
            3,
            ScriptProfile::Lenient,
            b"a b",
            7
        )
    );
    assert!(rt; is_added_name(alloc, b"a", b"a"));
    assert!(rt; has_gnu_entries(alloc, b"{ a; extern \"C\" { b; }; c };", 3));
    assert!(rt; has_macho_entries(alloc, b"_a # b\n\n_b*\n", 2));
}

/// The text of a block of C++ with so many patterns.
fn cxx_block(alloc: Global, count: usize) -> Result<Vec<u8>, AllocError> {
    let mut text = repeated(alloc, b"extern \"C++\" {", b" a_name_of_20_bytes;", count)?;
    text.extend_from_slice(b" };")?;
    Ok(text)
}

#[test]
fn a_long_extern_block(rt: HostRuntime) -> Result<(), Fail> {
    let text = cxx_block(rt.alloc(), 20_000)?;
    let is_read = is_cxx_block(rt.alloc(), text.as_slice(), 20_000);
    drop(text);
    assert!(rt; is_read);
    Ok(())
}
