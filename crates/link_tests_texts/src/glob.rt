//! That patterns compile where there is enough memory, and what they then fit, in both dialects; the texts of refusals; that fifty stars end.

use crate::names::shows;
use link_glob::{
    GlobError, GlobList, GlobPatternType, Pattern, analyze_glob_pattern, compile_glob_pattern,
    compile_macho_glob_pattern, unescape_pattern,
};
use std::alloc::{AllocError, Global};
use std::test::Fail;

const KINDS: &[(&[u8], GlobPatternType)] = &[
    (b"foo", GlobPatternType::Exact),
    (b"", GlobPatternType::Exact),
    (b"foo\\*bar", GlobPatternType::EscapedExact),
    (b"a\\", GlobPatternType::EscapedExact),
    (b"foo]", GlobPatternType::NonStar),
    (b"f\\?[o]", GlobPatternType::NonStar),
    (b"a?\\*", GlobPatternType::NonStar),
    (b"a\\*b*", GlobPatternType::Star),
    (b"[a]*", GlobPatternType::Star),
    (b"\\\\*", GlobPatternType::Star),
];

#[test]
fn kinds_of_patterns(rt: HostRuntime) {
    for &(pattern, kind) in KINDS {
        assert_eq!(rt; analyze_glob_pattern(pattern), kind, "{pattern:?}");
    }
}

const UNESCAPED: &[(&[u8], &[u8])] = &[
    (b"foo\\*bar", b"foo*bar"),
    (b"a\\", b"a\\"),
    (b"\\\\\\a", b"\\a"),
    (b"", b""),
];

/// Whether the pattern stands for this text.
fn is_unescaped(alloc: Global, pattern: &[u8], plain: &[u8]) -> bool {
    match unescape_pattern(alloc, pattern) {
        Ok(text) => text.as_slice() == plain,
        Err(_) => false,
    }
}

#[test]
fn unescaped_patterns(rt: HostRuntime) {
    for &(pattern, plain) in UNESCAPED {
        assert!(rt; is_unescaped(rt.alloc(), pattern, plain));
    }
}

fn compile(alloc: Global, macho: bool, pattern: &[u8]) -> Result<Pattern, GlobError> {
    if macho {
        compile_macho_glob_pattern(alloc, pattern)
    } else {
        compile_glob_pattern(alloc, pattern)
    }
}

/// Whether the pattern compiles, and fits the name or not as is said.
fn does_fit(alloc: Global, macho: bool, pattern: &[u8], name: &str, fits: bool) -> bool {
    match compile(alloc, macho, pattern) {
        Ok(compiled) => compiled.matches(name) == fits,
        Err(_) => false,
    }
}

/// Whether the pattern is refused so.
fn is_refused(alloc: Global, macho: bool, pattern: &[u8], fault: GlobError) -> bool {
    match compile(alloc, macho, pattern) {
        Ok(_) => false,
        Err(found) => found == fault,
    }
}

const FITTED: &[(bool, &[u8], &str, bool)] = &[
    (false, b"a*b", "ab", true),
    (false, b"a*b", "axyb", true),
    (false, b"a*b", "axyc", false),
    (false, b"a*b", "axybc", false),
    (false, b"*ab*ab", "abab", true),
    (false, b"*ab*ab", "ab", false),
    (false, b"", "", true),
    (false, b"", "a", false),
    (false, b"a?c", "a.c", true),
    (false, b"a?c", "ac", false),
    (false, b"\xc3\xa4?", "\u{e4}\u{fc}", true),
    (false, b"a", "A", false),
    (false, b"a\\*", "a\\b", true),
    (false, b"a\\*", "a*", false),
    (false, b"a]b", "a]b", true),
    (false, b"[a-cx]", "b", true),
    (false, b"[a-cx]", "x", true),
    (false, b"[a-cx]", "d", false),
    (false, b"[c-a]", "b", false),
    (false, b"[a-]", "-", true),
    (false, b"[!a-c]", "d", true),
    (false, b"[!a-c]", "b", false),
    (false, b"[^a-c]", "d", true),
    (false, b"[^a-c]", "b", false),
    (false, b"[!]]", "]", false),
    (false, b"[[^]", "!", true),
    (false, b"[[^]", "^", false),
    (false, b"a/*", "a/b/.c", true),
    (true, b"a**b", "axyb", true),
    (true, b"a**b", "axyc", false),
    (true, b"***", "", true),
    (true, b"[]*]**", "]x", true),
    (true, b"[]*]**", "*", true),
    (true, b"[]*]**", "x", false),
    (true, b"[^**]", "*", false),
];

#[test]
fn names_that_patterns_fit(rt: HostRuntime) {
    for &(macho, pattern, name, fits) in FITTED {
        assert!(rt;
            does_fit(rt.alloc(), macho, pattern, name, fits),
            "{pattern:?}"
        );
    }
}

const REFUSED: &[(bool, &[u8], GlobError)] = &[
    (false, b"a**b", GlobError::InvalidGlob),
    (false, b"a[", GlobError::InvalidGlob),
    (false, b"[]", GlobError::InvalidGlob),
    (false, b"[!]", GlobError::InvalidGlob),
    (false, b"a\xff", GlobError::InvalidUtf8),
    (true, b"**[]", GlobError::InvalidGlob),
    (true, b"\xc3*", GlobError::InvalidUtf8),
];

#[test]
fn refused_patterns(rt: HostRuntime) {
    for &(macho, pattern, fault) in REFUSED {
        assert!(rt;
            is_refused(rt.alloc(), macho, pattern, fault),
            "{pattern:?}"
        );
    }
}

fn repeated(alloc: Global, piece: &[u8], n: usize, last: &[u8]) -> Result<Vec<u8>, AllocError> {
    let mut bytes = Vec::new(alloc);
    for _ in 0..n {
        bytes.extend_from_slice(piece)?;
    }
    bytes.extend_from_slice(last)?;
    Ok(bytes)
}

/// What stands behind fifty stars, and whether the pattern then fits a name of the letter `a`.
const LAST: &[(&[u8], bool)] = &[(b"a", true), (b"b", false), (b"*", true)];

/// Whether fifty stars and what stands behind them fit the name or not as is said.
fn do_fifty_stars_fit(
    alloc: Global,
    last: &[u8],
    name: &[u8],
    fits: bool,
) -> Result<bool, AllocError> {
    let pattern = repeated(alloc, b"*a", 50, last)?;
    match str::from_utf8(name) {
        Ok(name) => Ok(does_fit(alloc, false, &pattern, name, fits)),
        Err(_) => Ok(false),
    }
}

/// Whether that is so of each row of `LAST`.
fn do_all_fit(alloc: Global, name: &[u8]) -> Result<bool, AllocError> {
    for &(last, fits) in LAST {
        if !do_fifty_stars_fit(alloc, last, name, fits)? {
            return Ok(false);
        }
    }
    Ok(true)
}

/// A body that tried every length for every star would not end here.
#[test]
fn fifty_stars_end_at_once(rt: HostRuntime) -> Result<(), Fail> {
    let name = repeated(rt.alloc(), b"a", 10_000, b"")?;
    let all = do_all_fit(rt.alloc(), &name);
    drop(name);
    assert!(rt; all?);
    Ok(())
}

const FAULTS: &[(GlobError, &str)] = &[
    (GlobError::InvalidUtf8, "the pattern is not UTF-8"),
    (
        GlobError::InvalidGlob,
        "the pattern has an unclosed class or adjacent stars",
    ),
    (GlobError::Memory, "out of memory"),
];

#[test]
fn texts_of_refusals(rt: HostRuntime) -> Result<(), Fail> {
    for &(fault, text) in FAULTS {
        shows(&rt, rt.alloc(), &fault, text)?;
    }
    Ok(())
}

/// Globs that begin with characters, that end with some, that do both and neither; several with the same ones, and some whose
/// characters are of several bytes.
const LISTED: &[&[u8]] = &[
    b"foo_*",
    b"*_bar",
    b"*a*",
    b"?x",
    b"[ab]c*",
    b"foo_*_bar",
    b"foo_?",
    b"*_bar",
    b"f*",
    b"*r",
    b"\xc3\xa4*",
    b"*\xc3\xa4",
    b"foo_*",
    b"a*a",
    b"b?d*_long_end",
    b"exactly_this",
    b"*",
];

const LOOKED_UP: &[&str] = &[
    "",
    "a",
    "aa",
    "x",
    "xx",
    "ac",
    "foo_",
    "foo_1",
    "foo_12",
    "foo_bar",
    "foo__bar",
    "foo",
    "_bar",
    "bar",
    "r",
    "f",
    "\u{e4}",
    "\u{e4}x",
    "x\u{e4}",
    "bcd_long_end",
    "bcdz_long_end",
    "exactly_this",
    "exactly_this_",
    "zzz",
];

/// The number of the last of the first `count` globs that fits the name, by a look at each.
fn last_of_all(globs: &[Pattern], count: usize, name: &str) -> Option<usize> {
    let mut found = None;
    for (number, glob) in globs.iter().enumerate() {
        if number < count && glob.matches(name) {
            found = Some(number);
        }
    }
    found
}

/// Whether the list finds of each name what a look at each of its first globs finds.
fn all_found(list: &GlobList, count: usize) -> bool {
    for &name in LOOKED_UP {
        if list.last_match(name) != last_of_all(list.as_slice(), count, name) {
            return false;
        }
    }
    true
}

/// Adds one glob.
fn add(alloc: Global, list: &mut GlobList, pattern: &[u8]) -> Result<(), Fail> {
    let glob = compile(alloc, false, pattern).ok().ok_or("a pattern")?;
    list.push(glob)?;
    Ok(())
}

/// Adds one glob after the other, and makes the index after each third. The first glob behind which a name was not found as it is to be.
fn wrong_after(alloc: Global, list: &mut GlobList) -> Result<Option<usize>, Fail> {
    for (number, &pattern) in LISTED.iter().enumerate() {
        add(alloc, list, pattern)?;
        let found = all_found(list, number + 1);
        if number % 3 == 0 {
            list.make_index()?;
        }
        if !found || !all_found(list, number + 1) {
            return Ok(Some(number));
        }
    }
    Ok(None)
}

#[test]
fn lists_find_what_a_look_at_each_glob_finds(rt: HostRuntime) -> Result<(), Fail> {
    let mut list = GlobList::new(rt.alloc());
    let wrong = wrong_after(rt.alloc(), &mut list);
    drop(list);
    let wrong = wrong?;
    assert_eq!(rt; wrong, None);
    Ok(())
}
