//! Tests of what no contract says: long texts, and a demangler of another kind. Cases of texts and names stand in the program
//! `link_tests_scripts`.

use link_names::Name;
use link_script::{BasicMatchRules, Demangler, ExportList, MatchRules, Plain, VersionScript};
use link_script_syntax::{ScriptProfile, SymbolMatcher};
use std::alloc::{AllocError, Global};
use std::test::Fail;

fn script(alloc: Global, text: &[u8]) -> Result<VersionScript, Fail> {
    match VersionScript::parse(alloc, text, ScriptProfile::Wild) {
        Ok(script) => Ok(script),
        Err(_) => Err(Fail::from("a version script")),
    }
}

/// The version of the name; none where the script refuses it.
fn version_of<D: Demangler>(script: &VersionScript, name: &[u8], demangler: &D) -> Option<u16> {
    match script.version_for_symbol(name, None, demangler) {
        Ok(version) => version,
        Err(_) => None,
    }
}

/// Answers one name for every name.
struct Constant;

impl Demangler for Constant {
    ghost use Rattle.std.specs.Prelude.{codes};

    ghost demangled = { λ _ _. codes "shown" };

    fn demangle<'a>(&'a self, _name: &'a str) -> &'a str {
        "shown"
    }
}

/// Whether the script finds each name as it is seen demangled.
fn are_seen(script: &VersionScript) -> bool {
    version_of(script, b"foo", &Plain) == Some(3)
        && version_of(script, b"foo", &Constant) == Some(2)
        && version_of(script, b"foo", &&Constant) == Some(2)
        && version_of(script, b"\xff", &Constant).is_none()
}

#[test]
fn names_of_cxx_are_seen_demangled(rt: HostRuntime) -> Result<(), Fail> {
    let script = script(
        rt.alloc(),
        b"A { extern \"C++\" { shown; }; }; B { local: foo; };",
    )?;
    let all = are_seen(&script);
    // Before the assertion, so that one arm alone lets the script go: each that does is proved apart.
    drop(script);
    assert!(rt; all);
    Ok(())
}

/// Whether rules with the one name `shown` match as they are to.
fn are_matched(rules: &BasicMatchRules) -> bool {
    rules.matches_exact(b"foo", true, &Constant)
        && !rules.matches_exact(b"foo", false, &Constant)
        && !rules.matches_glob(b"shown", true, false, &Plain)
        && !rules.matches_all()
}

#[test]
fn rules_see_names_demangled(rt: HostRuntime) -> Result<(), Fail> {
    let name = Name::from_slice(rt.alloc(), b"shown")?;
    let mut rules = BasicMatchRules::new(rt.alloc());
    rules.push(SymbolMatcher::Exact(name))?;
    let all = are_matched(&rules);
    drop(rules);
    assert!(rt; all);
    Ok(())
}

/// So many versions without names.
fn empty_versions(alloc: Global, count: usize) -> Result<Vec<u8>, AllocError> {
    let mut text = Vec::new(alloc);
    for _ in 0..count {
        text.extend_from_slice(b"V{};")?;
    }
    Ok(text)
}

/// How many versions the text of a script has.
fn version_count(alloc: Global, text: &[u8]) -> Result<u16, Fail> {
    Ok(script(alloc, text)?.version_count())
}

#[test]
fn as_many_versions_as_there_may_be(rt: HostRuntime) -> Result<(), Fail> {
    let most = empty_versions(rt.alloc(), 32_766)?;
    let count = version_count(rt.alloc(), most.as_slice());
    drop(most);
    let count = count?;
    assert_eq!(rt; count, 32_767);
    Ok(())
}

/// So many versions, each of which extends the one in front of it and lists names of its own.
fn chain(alloc: Global, count: u32) -> Result<String, Fail> {
    let mut text = format!(in alloc; "V0 {{ n; n0; }};")?;
    for i in 1..count {
        text.push_str(format!(in alloc;
            "V{i} {{ global: n{i}; n; p{i}_*; local: m; }} V{};",
            i - 1
        )?.as_str())?;
    }
    Ok(text)
}

/// Whether the script is a chain of 2,000 versions.
fn is_chain(script: &VersionScript) -> bool {
    script.parent_count() == 1_999
        && version_of(script, b"n", &Plain) == Some(2)
        && version_of(script, b"n1234", &Plain) == Some(1_236)
        && version_of(script, b"p1999_", &Plain) == Some(2_001)
}

/// Whether the text is a script that is such a chain.
fn is_text_of_chain(alloc: Global, text: &[u8]) -> bool {
    match VersionScript::parse(alloc, text, ScriptProfile::Wild) {
        Ok(script) => is_chain(&script),
        Err(_) => false,
    }
}

#[test]
fn many_versions(rt: HostRuntime) -> Result<(), Fail> {
    let text = chain(rt.alloc(), 2_000)?;
    let all = is_text_of_chain(rt.alloc(), text.as_bytes());
    drop(text);
    assert!(rt; all);
    Ok(())
}

/// Versions with globs of all kinds: what is found of each name is what the rules of rank say.
const RANKED: &[u8] =
    b"A { global: foo_*; *_bar; one_?; extern \"C++\" { foo_x*; }; local: *_hid; };
B { global: foo_a*; *x_bar; local: foo_b*; [ab]*; };
C { global: *mid*; foo_c?; local: foo_c*; foo_*_bar; };
D { global: both_*; local: both_*; *_both; };
E { local: in_*; extern \"C++\" { *_out; }; global: extern \"C++\" { in_*; }; };";

const RANKS: &[(&[u8], Option<u16>, bool)] = &[
    (b"foo_1", Some(2), false),
    (b"foo_a1", Some(3), false),
    (b"foo_b1", Some(3), true),
    (b"foo_c1", Some(4), false),
    (b"foo_c12", Some(4), true),
    (b"foo_1_bar", Some(4), true),
    (b"_bar", Some(2), false),
    (b"x_bar", Some(3), false),
    (b"1_hid", Some(2), true),
    (b"a1", Some(3), true),
    (b"a_mid_1", Some(4), false),
    (b"one_1", Some(2), false),
    (b"one_12", None, false),
    (b"both_1", Some(5), false),
    (b"1_both", Some(5), true),
    (b"in_1", Some(6), false),
    (b"1_out", Some(6), true),
    (b"none", None, false),
];

/// The first row of which a script says something else.
fn wrong_rank(script: &VersionScript) -> Option<usize> {
    let VersionScript::Regular(versions) = script else {
        return Some(RANKS.len());
    };
    for (row, &(name, version, local)) in RANKS.iter().enumerate() {
        if version_of(script, name, &Plain) != version || versions.is_local(name, &Plain) != local {
            return Some(row);
        }
    }
    None
}

#[test]
fn ranks_of_globs(rt: HostRuntime) -> Result<(), Fail> {
    let script = script(rt.alloc(), RANKED)?;
    let wrong = wrong_rank(&script);
    drop(script);
    assert_eq!(rt; wrong, None);
    Ok(())
}

/// Lists with globs of all kinds, which grow by one entry after the other.
const ADDED: &[&[u8]] = &[
    b"head_*;",
    b"*_tail;",
    b"extern \"C++\" { cxx_*; *mid*; };",
    b"one_?;",
    b"last;",
];

/// A name that each of the entries brings.
const NAMES: &[&[u8]] = &[b"head_1", b"1_tail", b"1mid2", b"one_1", b"last"];

/// Adds one entry after the other. How many names a list answers otherwise than is due.
fn wrong_answers(list: &mut ExportList) -> Result<usize, Fail> {
    let mut wrong = 0usize;
    for (count, &entry) in ADDED.iter().enumerate() {
        list.add_symbol(entry, false).ok().ok_or("an entry")?;
        for (number, name) in NAMES.iter().enumerate() {
            if list.contains(name, &Plain) != (number <= count) {
                wrong = wrong.saturating_add(1);
            }
        }
    }
    Ok(wrong)
}

#[test]
fn lists_that_grow(rt: HostRuntime) -> Result<(), Fail> {
    let mut list = ExportList::empty(rt.alloc());
    let wrong = wrong_answers(&mut list);
    drop(list);
    let wrong = wrong?;
    assert_eq!(rt; wrong, 0);
    Ok(())
}
