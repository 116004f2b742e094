//! That the definition that counts is the one that a plain model names, for all lists of two and three; that lists are settled and narrowed,
//! and that what counts in them is told.

ghost use Rattle.std.specs.Prelude.{◌≡◌, ◌<◌, ◌≤◌, All, IfOk, length};
ghost use Rattle.link_flags.specs.FlagWords.{words_of};

use bitflags::Flags;
use link_flags::SymbolStrength::{Common, GnuUnique, Strong, Undefined, Weak};
use link_flags::{PerSymbolFlags, RawFlags, SymbolStrength, ValueFlags, Visibility};
use link_ids::{SymbolId, SymbolIdRange};
use link_resolve_rivals::{RivalLists, Survivors, choices, name_choices, narrow, settle};
use link_rules::{ChoiceCase, NameChoice};
use std::alloc::{AllocError, Global};
use std::test::Fail;

/// How strongly a rival binds, whether a shared file gives it, and whether a loaded regular object holds it.
type Rival = (SymbolStrength, bool, bool);

const RIVALS: &[Rival] = &[
    (Undefined, false, false),
    (Undefined, false, true),
    (Undefined, true, false),
    (Undefined, true, true),
    (Weak, false, false),
    (Weak, false, true),
    (Weak, true, false),
    (Weak, true, true),
    (GnuUnique, false, false),
    (GnuUnique, false, true),
    (GnuUnique, true, false),
    (GnuUnique, true, true),
    (Common(4), false, false),
    (Common(4), false, true),
    (Common(4), true, false),
    (Common(4), true, true),
    (Common(8), false, false),
    (Common(8), false, true),
    (Common(8), true, false),
    (Common(8), true, true),
    (Strong, false, false),
    (Strong, false, true),
    (Strong, true, false),
    (Strong, true, true),
];

/// How much a rival counts among those that no shared file gives; 0 where it is none of them.
fn weight(rival: Rival, weak_overrides_common: bool) -> u64 {
    let (strength, dynamic, _) = rival;
    match strength {
        _ if dynamic => 0,
        Undefined => 0,
        Weak | GnuUnique if weak_overrides_common => 100,
        Weak | GnuUnique => 1,
        Common(size) => size.saturating_add(10),
        Strong => 1000,
    }
}

/// The place of the first rival that counts most, else of the first with a strength, else of the first that is held, else of the head.
fn expected_choice(rivals: &[Rival], weak_overrides_common: bool) -> usize {
    let mut best = 0;
    let mut most = 0;
    for (place, rival) in rivals.iter().enumerate() {
        let weight = weight(*rival, weak_overrides_common);
        if weight > most {
            best = place;
            most = weight;
        }
    }
    if most > 0 {
        return best;
    }
    if let Some(place) = rivals.iter().position(|rival| rival.0 != Undefined) {
        return place;
    }
    rivals.iter().position(|rival| rival.2).unwrap_or(0)
}

/// The places of the first two strong rivals that no shared file gives.
fn expected_clash(rivals: &[Rival]) -> Option<(usize, usize)> {
    let mut first = None;
    for (place, rival) in rivals.iter().enumerate() {
        if rival.0 == Strong && !rival.1 {
            match first {
                None => first = Some(place),
                Some(before) => return Some((before, place)),
            }
        }
    }
    None
}

/// Whether these rivals, three or the first two, are settled as the model says.
fn agrees(rivals: [Rival; 3], count: usize, weak_overrides_common: bool) -> bool
    requires { count ≤ 3 }
{
    let [a, b, c] = rivals;
    let ids = [
        SymbolId::from_usize(0),
        SymbolId::from_usize(1),
        SymbolId::from_usize(2),
    ];
    let survivors = Survivors {
        strengths: &[a.0, b.0, c.0],
        dynamic: &[a.1, b.1, c.1],
        held: &[a.2, b.2, c.2],
        weak_overrides_common,
        allow_multiple: false,
    };
    let choice = survivors.choice(&ids[..count], ids[0]).as_usize();
    let clash = survivors
        .clash(&ids[..count])
        .map(|pair| (pair.0.as_usize(), pair.1.as_usize()));
    choice == expected_choice(&rivals[..count], weak_overrides_common)
        && clash == expected_clash(&rivals[..count])
}

/// Whether two rivals are settled as the model says, alone and before each third.
fn all_agree(a: Rival, b: Rival, weak_overrides_common: bool) -> bool {
    for &c in RIVALS {
        if !agrees([a, b, c], 3, weak_overrides_common) {
            return false;
        }
    }
    agrees([a, b, a], 2, weak_overrides_common)
}

#[test]
fn the_definition_that_counts_is_that_of_the_model(rt: HostRuntime) {
    for &a in RIVALS {
        for &b in RIVALS {
            assert!(rt;
                all_agree(a, b, false) && all_agree(a, b, true),
                "at {a:?} and {b:?}"
            );
        }
    }
}

/// Two lists of six symbols: 0, 2 and 3; 1 and 4. The last symbol stands in none.
struct TwoLists;

impl RivalLists for TwoLists {
    ghost use Rattle.std.specs.Prelude.{[], ◌∷◌, slice_get};
    ghost use Rattle.std.specs.Option.{option_map_or};

    ghost listed = { λ _ s. option_map_or (λ own. own)
        (slice_get ((0 ∷ 2 ∷ 3 ∷ []) ∷ (1 ∷ 4 ∷ []) ∷ (0 ∷ 2 ∷ 3 ∷ []) ∷ (0 ∷ 2 ∷ 3 ∷ []) ∷ (1 ∷ 4 ∷ []) ∷ []) s) [] };

    ghost count = { λ _. 6 };

    fn later(&self, id: SymbolId) -> &[u32] {
        match id.as_usize() {
            0 => &[2, 3],
            1 => &[4],
            _ => &[],
        }
    }
}

/// Each symbol points to itself, but for the fourth, which points to the last.
fn table() -> [SymbolId; 6]
    ensures len { length result ≡ 6 }
    ensures inside { All (λ t. t < 6) result }
{
    [
        SymbolId::from_usize(0),
        SymbolId::from_usize(1),
        SymbolId::from_usize(2),
        SymbolId::from_usize(5),
        SymbolId::from_usize(4),
        SymbolId::from_usize(5),
    ]
}

/// Settles the two lists in a table. How many clashes there are.
fn settle_two_lists(alloc: Global, table: &mut [SymbolId]) -> Result<usize, AllocError>
    requires len { length table.old ≡ 6 }
    requires inside { All (λ t. t < 6) table.old }
{
    let survivors = Survivors {
        strengths: &[Weak, Strong, Undefined, Weak, Strong, Strong],
        dynamic: &[true, false, false, false, false, false],
        held: &[true, true, true, true, true, true],
        weak_overrides_common: false,
        allow_multiple: false,
    };
    let clashes = settle(alloc, &survivors, &TwoLists, table)?;
    Ok(clashes.len())
}

/// The symbols of the two lists, and to which each of them points once they are settled.
const SETTLED: &[(usize, usize)] = &[(0, 5), (1, 1), (2, 5), (3, 5), (4, 4)];

/// Whether each symbol of the two lists points where it is to.
fn is_settled(table: &[SymbolId]) -> bool {
    for &(symbol, target) in SETTLED {
        match table.get(symbol) {
            Some(found) if found.as_usize() == target => {}
            _ => return false,
        }
    }
    true
}

#[test]
fn lists_are_settled(rt: HostRuntime) -> Result<(), Fail> {
    let mut table = table();
    let clashes = settle_two_lists(rt.alloc(), &mut table)?;
    assert!(rt; is_settled(&table) && clashes == 1, "at {table:?}");
    Ok(())
}

/// The six symbols.
type Rivals = (Rival, Rival, Rival, Rival, Rival, Rival);

/// These, and of each list the symbol that counts, with its case.
type Chosen = (Rivals, (usize, ChoiceCase), (usize, ChoiceCase));

/// Nothing is left of it.
const GONE: Rival = (Undefined, false, false);

const CHOSEN: &[Chosen] = &[
    (
        (
            (Weak, false, true),
            (Common(4), false, true),
            (Strong, false, true),
            GONE,
            (Common(8), false, true),
            GONE,
        ),
        (2, ChoiceCase::Strong),
        (4, ChoiceCase::Common),
    ),
    (
        (
            GONE,
            (Strong, true, false),
            GONE,
            GONE,
            GONE,
            (Weak, false, true),
        ),
        (5, ChoiceCase::Weak),
        (1, ChoiceCase::Surviving),
    ),
    (
        (GONE, GONE, GONE, GONE, GONE, (Undefined, false, true)),
        (5, ChoiceCase::Loaded),
        (1, ChoiceCase::First),
    ),
];

/// The choices of the two lists among these symbols.
fn two_choices(alloc: Global, rivals: Rivals) -> Result<Vec<NameChoice>, AllocError> {
    let (a, b, c, d, e, f) = rivals;
    let table = table();
    let survivors = Survivors {
        strengths: &[a.0, b.0, c.0, d.0, e.0, f.0],
        dynamic: &[a.1, b.1, c.1, d.1, e.1, f.1],
        held: &[a.2, b.2, c.2, d.2, e.2, f.2],
        weak_overrides_common: false,
        allow_multiple: false,
    };
    choices(alloc, &survivors, &TwoLists, &table, true)
}

/// Whether the choice is among these symbols, and as expected.
fn is_choice(choice: &NameChoice, symbols: &[SymbolId], expected: (usize, ChoiceCase)) -> bool {
    choice.symbols.as_slice() == symbols
        && choice.is_versioned
        && choice.chosen.as_usize() == expected.0
        && choice.case == expected.1
}

/// Whether the choices of the two lists are told as expected.
fn are_told(alloc: Global, chosen: Chosen) -> Result<bool, AllocError> {
    let (rivals, first, second) = chosen;
    let [a, b, c, _, e, _] = table();
    let d = SymbolId::from_usize(3);
    let told = two_choices(alloc, rivals)?;
    match told.as_slice() {
        [x, y] => Ok(is_choice(x, &[a, c, d], first) && is_choice(y, &[b, e], second)),
        _ => Ok(false),
    }
}

#[test]
fn what_counts_is_told(rt: HostRuntime) -> Result<(), Fail> {
    for &chosen in CHOSEN {
        let is_told = are_told(rt.alloc(), chosen)?;
        assert!(rt; is_told, "at {chosen:?}");
    }
    Ok(())
}

/// How many choices there are where the definitions of plain names and those of versions are the two lists, and how many are of versions.
fn count_choices(alloc: Global) -> Result<(usize, usize), AllocError> {
    let survivors = Survivors {
        strengths: &[Weak, Strong, Undefined, Weak, Strong, Strong],
        dynamic: &[true, false, false, false, false, false],
        held: &[true, true, true, true, true, true],
        weak_overrides_common: false,
        allow_multiple: false,
    };
    let told = name_choices(alloc, &survivors, &TwoLists, &TwoLists)?;
    let versioned = told.iter().filter(|choice| choice.is_versioned).count();
    Ok((told.len(), versioned))
}

#[test]
fn what_counts_is_told_of_both_kinds(rt: HostRuntime) -> Result<(), Fail> {
    let counts = count_choices(rt.alloc())?;
    assert!(rt; counts == (4, 2), "at {counts:?}");
    Ok(())
}

/// No flags for each of the six symbols.
fn no_flags(alloc: Global) -> Result<PerSymbolFlags, AllocError>
    ensures { IfOk result (λ flags. length (words_of flags) ≡ 6) }
{
    let mut flags = PerSymbolFlags::new(alloc);
    for _ in 0..6usize {
        flags.push(ValueFlags::empty())?;
    }
    Ok(flags)
}

/// Narrows the two lists.
fn narrow_two_lists(flags: &mut PerSymbolFlags)
    requires { length (words_of flags.old) ≡ 6 }
    ensures { length (words_of flags.new) ≡ 6 }
{
    let visibilities = [
        Visibility::Default,
        Visibility::Protected,
        Visibility::Hidden,
        Visibility::Default,
        Visibility::Default,
        Visibility::Hidden,
    ];
    let dynamic = [false, false, true, false, false, false];
    narrow(&TwoLists, &visibilities, &dynamic, flags);
}

/// Whether these are the words of the six symbols once the two lists are narrowed.
fn are_narrowed(words: &[RawFlags]) -> bool {
    let hidden = ValueFlags::NON_INTERPOSABLE
        .union(ValueFlags::DOWNGRADE_TO_LOCAL)
        .raw();
    let protected = ValueFlags::NON_INTERPOSABLE.raw();
    let none = ValueFlags::empty().raw();
    words == [hidden, protected, none, hidden, protected, none].as_slice()
}

#[test]
fn lists_are_narrowed(rt: HostRuntime) -> Result<(), Fail> {
    let mut flags = no_flags(rt.alloc())?;
    narrow_two_lists(&mut flags);
    let narrowed = are_narrowed(flags.raw_range(SymbolIdRange::prelude(6)));
    drop(flags);
    assert!(rt; narrowed);
    Ok(())
}
