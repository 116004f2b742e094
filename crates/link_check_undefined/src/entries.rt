//! What symbols point to at the end.

ghost use Rattle.std.specs.Prelude.{◌≡◌, ◌+◌, ◌++◌, ◌≤◌, ◌^◌, IfOk, OnOk, length, slice_index};
ghost use Rattle.link_rules.specs.Places.{each_from};
ghost use Rattle.link_check_undefined.specs.Made.{entry_by, entry_in};

use crate::columns::Columns;
use crate::last::is_id;
use crate::left::LeftReference;
use crate::noted::NotedIds;
use link_check_symbols::SymbolView;
use link_ids::SymbolId;
use std::alloc::{AllocError, Global};

/// What the symbol of this id points to; symbol 0 where there is no entry.
fn entry_at(table: &[SymbolId], id: usize) -> usize
    ensures { result ≡ slice_index table.now id }
{
    match table.get(id) {
        Some(entry) => entry.as_usize(),
        None => 0,
    }
}

/// What a symbol points to at the end, by whether it stays undefined and by what it pointed to before.
fn final_entry<'a>(
    last: &NotedIds<'a>,
    made: &NotedIds<'a>,
    stays_undefined: bool,
    old: usize,
    id: usize,
    symbol: &SymbolView<'a>,
) -> usize
    ensures { result ≡ entry_by last.now made.now stays_undefined old id symbol.now }
{
    if !stays_undefined {
        return old;
    }
    let known = last.of(symbol);
    if symbol.version().is_some() && is_id(known, id) {
        return old;
    }
    match made.of(symbol) {
        Some(new) => new,
        None => known.unwrap_or(id),
    }
}

/// The same by columns and the table before.
fn entry_in<'a>(
    columns: &Columns<'a>,
    last: &NotedIds<'a>,
    made: &NotedIds<'a>,
    table: &[SymbolId],
    id: usize,
    symbol: &SymbolView<'a>,
) -> usize
    ensures { result ≡ entry_in columns.now last.now made.now table.now id symbol.now }
{
    let stays_undefined = columns.stays_undefined(id, symbol);
    final_entry(last, made, stays_undefined, entry_at(table, id), id, symbol)
}

/// What each symbol points to at the end, but for the new ones.
pub fn final_entries<'a>(
    alloc: Global,
    columns: &Columns<'a>,
    last: &NotedIds<'a>,
    made: &NotedIds<'a>,
    table: &[SymbolId],
) -> Result<Vec<usize>, AllocError>
    ensures { IfOk result (λ entries. entries.items ≡ each_from (entry_in columns.now last.now made.now table.now) 0 columns.now.symbols) }
{
    let symbols = columns.symbols();
    let mut entries = Vec::with_capacity(alloc, symbols.len())?;
    for (id, symbol) in symbols.iter().enumerate() {
        entries.push(entry_in(columns, last, made, table, id, symbol))?;
    }
    Ok(entries)
}

/// Adds new symbols, of which the first has this id: each points to itself.
pub fn push_new(
    entries: &mut Vec<usize>,
    first: usize,
    makers: &[LeftReference],
) -> Result<(), AllocError>
    requires { first + length makers.now ≤ 2 ^ 64 }
    ensures { OnOk result (entries.new.items ≡ entries.old.items ++ each_from (λ s m. s) first makers.now) }
{
    for (place, _maker) in makers.iter().enumerate() {
        entries.push(first + place)?;
    }
    Ok(())
}
