//! Which of several definitions of each name counts, and why.

ghost use Rattle.std.specs.Prelude.{◌≡◌, ◌<◌, ◌≤◌, ◌^◌, ◌∷◌, ◌++◌, ℕ, All, IfOk, false, length, true};
ghost use Rattle.std.specs.List.{range_with_len};
ghost use Rattle.link_rules.specs.Choices.{name_choices};
ghost use Rattle.link_rules.specs.Selection.{Selection};
ghost use Rattle.link_resolve_rivals.specs.Chosen.{choice_among, choices, list_choice};
ghost use Rattle.link_resolve_rivals.specs.Lists.{AreLists, plain_lists, versioned_lists};
ghost use Rattle.link_resolve_rivals.specs.Settled.{settled_table};
ghost use Rattle.link_resolve_rivals.specs.Survivors.{Tells};

use crate::lists::RivalLists;
use crate::settling::{fill_entries, settle};
use crate::survivors::Survivors;
use link_ids::SymbolId;
use link_names::Seq;
use link_rules::NameChoice;
use std::alloc::{AllocError, Global};

/// Which symbol counts of each list of two or more, with the case that holds, in the order of the heads. An entry of a list is what its
/// symbol points to, unless that is dynamic. Each choice says whether it is among the definitions of a name and version. The only
/// refusal is want of memory.
pub fn choices<L: RivalLists>(
    alloc: Global,
    survivors: &Survivors,
    lists: &L,
    table: &[SymbolId],
    is_versioned: bool,
) -> Result<Vec<NameChoice>, AllocError>
    requires lists { AreLists (L.listed lists.now) (length table.now) }
    requires count { L.count lists.now ≡ length table.now }
    requires columns { length survivors.now.strengths.now ≡ length table.now }
    requires inside { All (λ t. t < length table.now) table.now }
    requires numbers { length table.now ≤ 2 ^ 32 }
    ensures { IfOk result (λ told. (l : Selection) → Tells survivors.now l
        → told.items ≡ choices l (L.listed lists.now) table.now is_versioned) }
{
    let mut told = Vec::new(alloc);
    let mut entries = Vec::new(alloc);
    for number in 0..table.len() {
        let head = SymbolId::from_usize(number);
        let found = head_choice(
            alloc,
            survivors,
            lists,
            head,
            table,
            is_versioned,
            &mut entries,
        )?;
        if let Some(choice) = found {
            told.push(choice)?;
        }
    }
    Ok(told)
}

/// The choice of the list that begins with this symbol, if it has several. Uses the vector for the entries.
fn head_choice<L: RivalLists>(
    alloc: Global,
    survivors: &Survivors,
    lists: &L,
    head: SymbolId,
    table: &[SymbolId],
    is_versioned: bool,
    entries: &mut Vec<SymbolId>,
) -> Result<Option<NameChoice>, AllocError>
    requires head { head < length table.now }
    requires lists { AreLists (L.listed lists.now) (length table.now) }
    requires count { L.count lists.now ≡ length table.now }
    requires columns { length survivors.now.strengths.now ≡ length table.now }
    requires inside { All (λ t. t < length table.now) table.now }
    ensures { IfOk result (λ found. (l : Selection) → Tells survivors.now l
        → found ≡ list_choice l is_versioned (L.listed lists.now head) table.now head) }
{
    let later = lists.later(head);
    if later.is_empty() {
        return Ok(None);
    }
    let choice = later_choice(alloc, survivors, head, later, table, is_versioned, entries)?;
    Ok(Some(choice))
}

/// The choice among the head and the symbols behind it. Uses the vector for the entries.
fn later_choice(
    alloc: Global,
    survivors: &Survivors,
    head: SymbolId,
    later: &[u32],
    table: &[SymbolId],
    is_versioned: bool,
    entries: &mut Vec<SymbolId>,
) -> Result<NameChoice, AllocError>
    requires head { head < length table.now }
    requires later { All (λ s. s < length table.now) later.now }
    requires columns { length survivors.now.strengths.now ≡ length table.now }
    requires inside { All (λ t. t < length table.now) table.now }
    ensures { IfOk result (λ found. (l : Selection) → Tells survivors.now l
        → found ≡ choice_among l is_versioned (head ∷ later.now) table.now head) }
{
    fill_entries(survivors, head, later, table, entries)?;
    let symbols = symbols_of(alloc, head, later)?;
    Ok(NameChoice {
        symbols: Seq::from_vec(symbols),
        is_versioned,
        chosen: survivors.choice(entries.as_slice(), head),
        case: survivors.case(entries.as_slice()),
    })
}

/// The head and the symbols behind it.
fn symbols_of(alloc: Global, head: SymbolId, later: &[u32]) -> Result<Vec<SymbolId>, AllocError>
    ensures { IfOk result (λ symbols. symbols.items ≡ head ∷ later.now) }
{
    let mut symbols = Vec::with_capacity(alloc, later.len() + 1)?;
    symbols.push(head)?;
    for symbol in later {
        symbols.push(SymbolId::from_usize(*symbol as usize))?;
    }
    Ok(symbols)
}

/// Which of several definitions of each plain name counts, and then which of those of each name and version, where each definition of a
/// plain name that is settled stands for the one that counts. The columns are those of all symbols of a link. The only refusal is want
/// of memory.
pub fn name_choices<L: RivalLists, M: RivalLists>(
    alloc: Global,
    survivors: &Survivors,
    plain: &L,
    versioned: &M,
) -> Result<Vec<NameChoice>, AllocError>
    requires plain { AreLists (L.listed plain.now) (length survivors.now.strengths.now) }
    requires versioned { AreLists (M.listed versioned.now) (length survivors.now.strengths.now) }
    requires plain_count { L.count plain.now ≡ length survivors.now.strengths.now }
    requires versioned_count { M.count versioned.now ≡ length survivors.now.strengths.now }
    requires numbers { length survivors.now.strengths.now ≤ 2 ^ 32 }
    ensures { IfOk result (λ told. (l : Selection) → Tells survivors.now l
        → ((s : ℕ) → L.listed plain.now s ≡ plain_lists l.stage s) → ((s : ℕ) → M.listed versioned.now s ≡ versioned_lists l.stage s)
        → told.items ≡ name_choices l) }
{
    let mut table = own_table(alloc, survivors.strengths.len())?;
    let told = both_choices(alloc, survivors, plain, versioned, table.as_mut_slice())?;
    Ok(told)
}

/// A table in which each symbol points to itself.
fn own_table(alloc: Global, count: usize) -> Result<Vec<SymbolId>, AllocError>
    requires { count ≤ 2 ^ 32 }
    ensures { IfOk result (λ table. table.items ≡ range_with_len 0 count) }
{
    let mut table = Vec::with_capacity(alloc, count)?;
    for number in 0..count {
        table.push(SymbolId::from_usize(number))?;
    }
    Ok(table)
}

/// The choices of plain names by a table, and then those of versions by the same table once plain names are settled in it.
fn both_choices<L: RivalLists, M: RivalLists>(
    alloc: Global,
    survivors: &Survivors,
    plain: &L,
    versioned: &M,
    table: &mut [SymbolId],
) -> Result<Vec<NameChoice>, AllocError>
    requires plain { AreLists (L.listed plain.now) (length table.old) }
    requires versioned { AreLists (M.listed versioned.now) (length table.old) }
    requires plain_count { L.count plain.now ≡ length table.old }
    requires versioned_count { M.count versioned.now ≡ length table.old }
    requires columns { length survivors.now.strengths.now ≡ length table.old }
    requires inside { All (λ t. t < length table.old) table.old }
    requires numbers { length table.old ≤ 2 ^ 32 }
    ensures { IfOk result (λ told. (l : Selection) → Tells survivors.now l
        → told.items ≡ choices l (L.listed plain.now) table.old false
        ++ choices l (M.listed versioned.now) (settled_table l (L.listed plain.now) table.old) true) }
{
    let mut told = choices(alloc, survivors, plain, table, false)?;
    let _clashes = settle(alloc, survivors, plain, table)?;
    let mut more = choices(alloc, survivors, versioned, table, true)?;
    told.append(&mut more)?;
    Ok(told)
}
