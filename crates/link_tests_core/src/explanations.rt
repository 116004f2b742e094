//! A link is explained before its rivals are settled and behind that.

ghost use Rattle.std.specs.Prelude.{◌≡◌, ◌≤◌, [], IfOk, OnOk, length};
ghost use Rattle.link_db.specs.Database.{symbol_names};
ghost use Rattle.link_db.specs.Seen.{seen};
ghost use Rattle.link_flags.specs.FlagWords.{words_of};
ghost use Rattle.link_resolve.specs.Known.{IsListed};

use crate::loading::{opened_with, resolve};
use crate::shape::{Kind, entry_of, null_entries, object_of};
use link_claim::OpenGate;
use link_db::SymbolDb;
use link_flags::PerSymbolFlags;
use link_input::{ElfLike, Inputs, Options, ParsedInputObject};
use link_names::{Name, Seq};
use link_resolve::{Resolver, resolve_alternative_symbol_definitions};
use link_resolve_explanation::explain;
use link_rules::{ChoiceCase, Explanation, LinkError, NameChoice, Reason};
use std::alloc::{AllocError, Global};
use std::test::Fail;
use std::thread::Threads;

/// The name that is wrapped.
const WRAPPED: &str = "foo";

/// The symbols of an object: the name of each, its version, which is not the default one, and what it is. The version may be empty: then it has none.
type Rows = &'static [(&'static str, &'static str, Kind)];

/// The first object refers to a name that a member of an archive defines. Each other name has two definitions.
const FIRST: Rows = &[
    ("foo", "", Kind::WeakDefinition),
    ("bar", "", Kind::WeakDefinition),
    ("baz", "V1", Kind::WeakDefinition),
    ("far", "", Kind::Reference),
];

const SECOND: Rows = &[
    ("foo", "", Kind::Definition),
    ("bar", "", Kind::Definition),
    ("baz", "V1", Kind::Definition),
    ("__wrap_foo", "", Kind::Definition),
];

const MEMBER: Rows = &[
    ("far", "", Kind::Definition),
    ("__wrap_foo", "", Kind::WeakDefinition),
];

/// The two definitions of each name, the one that counts, and whether the name has a version. The strong one counts.
const CHOICES: &[(usize, usize, usize, bool)] = &[
    (2, 7, 7, false),
    (3, 8, 8, false),
    (10, 13, 10, false),
    (4, 9, 9, true),
];

/// An object of these symbols.
/// What it holds is left open: the explanation shows it.
fn object(
    alloc: Global,
    rows: Rows,
    archive: bool,
) -> Result<ParsedInputObject<ElfLike>, AllocError> {
    let mut entries = null_entries(alloc)?;
    for &(name, version, kind) in rows {
        let mut entry = entry_of(Name::from_slice(alloc, name.as_bytes())?, kind);
        if !version.is_empty() {
            entry.version = Some(Name::from_slice(alloc, version.as_bytes())?);
            entry.is_default = false;
        }
        entries.push(entry)?;
    }
    object_of(alloc, entries, false, archive)
}

/// The files of the link.
/// What they hold is left open.
fn files(alloc: Global) -> Result<Inputs<ElfLike>, AllocError> {
    let mut objects = Seq::new(alloc);
    objects.push(object(alloc, FIRST, false)?)?;
    objects.push(object(alloc, SECOND, false)?)?;
    objects.push(object(alloc, MEMBER, true)?)?;
    Ok(Inputs {
        objects,
        scripts: Seq::new(alloc),
        stubs: Seq::new(alloc),
    })
}

/// The options of the link.
fn options(alloc: Global) -> Result<Options, AllocError>
    ensures { IfOk result (λ options. (1 ≤ options.files_per_group) × (options.files_per_group ≤ 256)) }
{
    let mut options = Options::new(alloc);
    options
        .wrap
        .push(Name::from_slice(alloc, WRAPPED.as_bytes())?)?;
    Ok(options)
}

/// Maps the wrapped name anew.
fn wrap_names(alloc: Global, db: &mut SymbolDb<ElfLike>) -> Result<(), LinkError>
    requires { IsListed (seen db.old) }
    ensures listed { OnOk result (IsListed (seen db.new)) }
    ensures names { OnOk result (symbol_names (seen db.new) ≡ symbol_names (seen db.old)) }
{
    db.apply_wrapped_symbol_overrides(alloc)?;
    Ok(())
}

/// The database of the link.
fn wrapped<R: Threads + Sync>(
    rt: &R,
    alloc: Global,
    flags: &mut PerSymbolFlags,
) -> Result<SymbolDb<ElfLike>, LinkError>
    requires { words_of flags.old ≡ [] }
    ensures listed { IfOk result (λ db. IsListed (seen db)) }
    ensures flags { IfOk result (λ db. length (words_of flags.new) ≡ length (symbol_names (seen db))) }
{
    let mut db = opened_with(rt, alloc, options(alloc)?, 1, flags, files(alloc)?)?;
    // One arm alone lets the database go.
    match wrap_names(alloc, &mut db) {
        Ok(()) => Ok(db),
        Err(error) => Err(error),
    }
}

/// The explanation before rivals are settled, and the one behind that.
/// They are left open: the test compares them.
fn explained<R: Threads + Sync>(
    rt: &R,
    alloc: Global,
) -> Result<(Explanation, Explanation), LinkError> {
    let mut flags = PerSymbolFlags::new(alloc);
    let mut db = wrapped(rt, alloc, &mut flags)?;
    let mut resolver = Resolver::new(alloc);
    let _requests = resolve(rt, alloc, &OpenGate, 1, &mut db, &mut flags, &mut resolver)?;
    let before = explain(alloc, &db, resolver.resolved(), &[])?;
    let left = resolve_alternative_symbol_definitions(alloc, db, &mut flags, resolver.resolved())?;
    let behind = explain(alloc, &left, resolver.resolved(), &[])?;
    Ok((before, behind))
}

/// It is the choice of the strong one of these two definitions.
fn is_wanted(choice: &NameChoice, wanted: (usize, usize, usize, bool)) -> bool {
    let (first, second, chosen, is_versioned) = wanted;
    let symbols = choice.symbols.as_slice();
    symbols.len() == 2
        && symbols[0].as_usize() == first
        && symbols[1].as_usize() == second
        && choice.chosen.as_usize() == chosen
        && choice.is_versioned == is_versioned
        && choice.case == ChoiceCase::Strong
}

/// The choices are those that are wanted.
fn are_wanted(choices: &[NameChoice]) -> bool {
    choices.len() == CHOICES.len()
        && choices
            .iter()
            .zip(CHOICES.iter())
            .all(|(choice, wanted)| is_wanted(choice, *wanted))
}

/// Two objects stand by themselves, and the reference of the first asks for the third.
fn are_reasons(explanation: &Explanation) -> bool {
    match explanation.reasons.as_slice() {
        [first, second, third] => {
            matches!(first.reason, Reason::Required)
                && matches!(second.reason, Reason::Required)
                && matches!(third.reason, Reason::Reference { symbol, object } if symbol.as_usize() == 5 && object == 0)
        }
        _ => false,
    }
}

/// Once rivals are settled the later definitions are given up, and the explanation is the same.
#[test]
fn a_settled_link_has_the_same_explanation(rt: HostRuntime) -> Result<(), Fail> {
    let (before, behind) = explained(&rt, rt.alloc())?;
    for explanation in [&before, &behind] {
        let choices = are_wanted(explanation.choices.as_slice());
        let reasons = are_reasons(explanation);
        assert!(rt; choices && reasons, "{explanation:?}");
    }
    Ok(())
}
