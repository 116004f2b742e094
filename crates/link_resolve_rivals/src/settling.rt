//! What each symbol points to once rivals are settled.

ghost use Rattle.std.specs.Prelude.{◌≡◌, ◌<◌, ◌≤◌, ◌^◌, ◌∷◌, ℕ, All, IfOk, IfSome, OnOk, if◌then◌else◌, length, map, option_map, slice_index};
ghost use Rattle.link_rules.specs.Places.{contains};
ghost use Rattle.link_rules.specs.Rivals.{clash, stand_in};
ghost use Rattle.link_rules.specs.Selection.{Selection};
ghost use Rattle.link_resolve_rivals.specs.Lists.{AreLists};
ghost use Rattle.link_resolve_rivals.specs.Settled.{IsInside, clash_at, clash_of, clashes, settled_among, settled_on, settled_table};
ghost use Rattle.link_resolve_rivals.specs.Survivors.{Tells};

use crate::lists::RivalLists;
use crate::survivors::Survivors;
use link_ids::SymbolId;
use std::alloc::{AllocError, Global};

/// Two different strong entries of a list of rivals, by the symbol that heads it.
#[derive(Clone, Copy, Debug, PartialEq, Eq)]
pub struct Clash {
    /// The first symbol of the list.
    pub head: SymbolId,
    /// What its first strong entry stands for.
    pub first: SymbolId,
    /// What the next one stands for that is not the same.
    pub second: SymbolId,
}

/// Settles lists of rivals: where two or more symbols stand in a list, and no two of the entries clash, each of them points to the entry
/// that counts. An entry of a list is what its symbol points to, unless that is dynamic. The answer has the clash of each other list, in
/// the order of their heads. The only refusal is want of memory; then some lists may be settled.
pub fn settle<L: RivalLists>(
    alloc: Global,
    survivors: &Survivors,
    lists: &L,
    table: &mut [SymbolId],
) -> Result<Vec<Clash>, AllocError>
    requires lists { AreLists (L.listed lists.now) (length table.old) }
    requires count { L.count lists.now ≡ length table.old }
    requires columns { length survivors.now.strengths.now ≡ length table.old }
    requires inside { All (λ t. t < length table.old) table.old }
    requires numbers { length table.old ≤ 2 ^ 32 }
    ensures table { OnOk result ((l : Selection) → Tells survivors.now l
        → table.new ≡ settled_table l (L.listed lists.now) table.old) }
    ensures clashes { IfOk result (λ told. (l : Selection) → Tells survivors.now l
        → told.items ≡ clashes l (L.listed lists.now) table.old) }
    ensures inside { All (λ t. t < length table.new) table.new }
    ensures told { IfOk result (λ told. All (IsInside (length table.old)) told.items) }
{
    let mut clashes = Vec::new(alloc);
    let mut entries = Vec::new(alloc);
    for number in 0..table.len() {
        let head = SymbolId::from_usize(number);
        let told = settle_head(survivors, lists, head, &mut entries, table)?;
        if let Some(clash) = told {
            clashes.push(clash)?;
        }
    }
    Ok(clashes)
}

/// Settles the list that begins with this symbol, if there is one, and tells its clash. Uses the vector for the entries.
fn settle_head<L: RivalLists>(
    survivors: &Survivors,
    lists: &L,
    head: SymbolId,
    entries: &mut Vec<SymbolId>,
    table: &mut [SymbolId],
) -> Result<Option<Clash>, AllocError>
    requires head { head < length table.old }
    requires lists { AreLists (L.listed lists.now) (length table.old) }
    requires count { L.count lists.now ≡ length table.old }
    requires columns { length survivors.now.strengths.now ≡ length table.old }
    requires inside { All (λ t. t < length table.old) table.old }
    ensures table { OnOk result ((l : Selection) → Tells survivors.now l → (s : ℕ)
        → slice_index table.new s ≡ settled_on l (L.listed lists.now head) table.old head s) }
    ensures clash { IfOk result (λ told. (l : Selection) → Tells survivors.now l
        → told ≡ clash_at l (L.listed lists.now head) table.old head) }
    ensures inside { All (λ t. t < length table.new) table.new }
    ensures told { IfOk result (λ told. IfSome told (IsInside (length table.old))) }
{
    let later = lists.later(head);
    if later.is_empty() {
        return Ok(None);
    }
    settle_list(survivors, head, later, entries, table)
}

/// Settles the list of this head and the symbols behind it, and tells their clash. Uses the vector for the entries.
fn settle_list(
    survivors: &Survivors,
    head: SymbolId,
    later: &[u32],
    entries: &mut Vec<SymbolId>,
    table: &mut [SymbolId],
) -> Result<Option<Clash>, AllocError>
    requires head { head < length table.old }
    requires later { All (λ s. s < length table.old) later.now }
    requires several { 0 < length later.now }
    requires columns { length survivors.now.strengths.now ≡ length table.old }
    requires inside { All (λ t. t < length table.old) table.old }
    ensures table { OnOk result ((l : Selection) → Tells survivors.now l → (s : ℕ)
        → slice_index table.new s ≡ settled_among l (head ∷ later.now) table.old s) }
    ensures clash { IfOk result (λ told. (l : Selection) → Tells survivors.now l
        → told ≡ option_map (clash_of head) (clash l (map (stand_in l table.old) (head ∷ later.now)))) }
    ensures inside { All (λ t. t < length table.new) table.new }
    ensures told { IfOk result (λ told. IfSome told (IsInside (length table.old))) }
{
    fill_entries(survivors, head, later, table, entries)?;
    match survivors.clash(entries.as_slice()) {
        Some((first, second)) => Ok(Some(Clash {
            head,
            first,
            second,
        })),
        None => {
            point_to(
                table,
                head,
                later,
                survivors.choice(entries.as_slice(), head),
            );
            Ok(None)
        }
    }
}

/// What the symbols of a list stand for.
pub(crate) fn fill_entries(
    survivors: &Survivors,
    head: SymbolId,
    later: &[u32],
    table: &[SymbolId],
    entries: &mut Vec<SymbolId>,
) -> Result<(), AllocError>
    requires head { head < length table.now }
    requires later { All (λ s. s < length table.now) later.now }
    requires columns { length survivors.now.strengths.now ≡ length table.now }
    requires inside { All (λ t. t < length table.now) table.now }
    ensures entries { OnOk result ((l : Selection) → Tells survivors.now l
        → entries.new.items ≡ map (stand_in l table.now) (head ∷ later.now)) }
    ensures inside { OnOk result (All (λ t. t < length table.now) entries.new.items) }
{
    entries.clear();
    entries.push(stand_in(survivors, table, head))?;
    for symbol in later {
        entries.push(stand_in(survivors, table, SymbolId::from_usize(*symbol as usize)))?;
    }
    Ok(())
}

/// What a symbol stands for in its list: what it points to, unless that is dynamic.
fn stand_in(survivors: &Survivors, table: &[SymbolId], symbol: SymbolId) -> SymbolId
    requires symbol { symbol < length table.now }
    requires columns { length survivors.now.strengths.now ≡ length table.now }
    requires inside { All (λ t. t < length table.now) table.now }
    ensures value { (l : Selection) → Tells survivors.now l → result ≡ stand_in l table.now symbol }
    ensures inside { result < length table.now }
{
    let target = table[symbol.as_usize()];
    if survivors.is_dynamic(target) {
        symbol
    } else {
        target
    }
}

/// All symbols of a list point to this one.
fn point_to(table: &mut [SymbolId], head: SymbolId, later: &[u32], target: SymbolId)
    requires head { head < length table.old }
    requires later { All (λ s. s < length table.old) later.now }
    ensures { (s : ℕ) → slice_index table.new s ≡ (if contains s (head ∷ later.now) then target else slice_index table.old s) }
{
    table[head.as_usize()] = target;
    for symbol in later {
        table[*symbol as usize] = target;
    }
}
