//! What is read in an item: which objects it requests, and what its references stand for.

ghost use Rattle.std.specs.Prelude.{◌≡◌, ℕ, ◌<◌, ◌++◌, ◌∷◌, [], List, IfOk, IfSome, None, OnOk, Option, Some, length, map, option_to_list, slice_get};
ghost use Rattle.link_db_buckets.specs.Keys.{hash_of};
ghost use Rattle.link_db_files.specs.GroupFiles.{symbols_in};
ghost use Rattle.link_input.specs.Symbols.{Symbol};
ghost use Rattle.link_db_symbols.specs.Lookups.{target_at};
ghost use Rattle.link_db_symbols.specs.Walk.{with_ids};
ghost use Rattle.link_db.specs.Seen.{seen};
ghost use Rattle.link_resolve_extraction.specs.Asked.{ArePart, IsReadIn, found_mark, found_target, is_shared_by, known_by, mark_by, marks_by, meant, new_target, requests_by, targets_by};

use link_db::SymbolDb;
use link_db_symbols::{PartSymbols, SymbolSource, SymbolView, target_of};
use link_flags::ValueFlags;
use link_ids::SymbolId;
use link_input::Platform;
use link_resolve_marks::reference_flags;
use link_resolve_requests::{looked_up, request_by};
use std::alloc::{AllocError, Global};

/// A reference of an item, with what it stands for.
#[derive(Clone, Copy, Debug, PartialEq, Eq)]
pub struct FoundReference {
    /// The symbol that refers.
    pub reference: SymbolId,
    /// The symbol that it stands for.
    pub target: SymbolId,
    /// What the flags of that symbol are joined with.
    pub flags: ValueFlags,
}

/// What is read in an item.
#[derive(Drop)]
pub struct ReadItem {
    /// The objects that its references request, by their places among all objects, in the order of the references.
    pub requests: Vec<usize>,
    /// Its references that stand for something and didn't after an earlier batch, in the order of their ids.
    pub references: Vec<FoundReference>,
}

/// What is found in an item, and kept once its requests were made.
#[derive(Drop)]
pub struct FoundItem {
    /// How many objects its references request, each time that one is requested.
    pub requests: usize,
    /// Its references that stand for something and didn't after an earlier batch, in the order of their ids.
    pub references: Vec<FoundReference>,
}

/// Whether the symbol of this id stands in a shared file.
fn is_shared_by(sources: &[SymbolSource], symbol: SymbolId) -> bool
    ensures { result ≡ is_shared_by sources.now symbol }
{
    match sources.get(symbol.as_usize()) {
        Some(source) => source.is_shared,
        None => false,
    }
}

/// The hash number of the name that a symbol may ask for anew. None where it stands for nothing anew: it asks for no name, an earlier batch settled
/// it, or nothing has such a name. So the tables of such symbols are left alone.
fn asked_anew<P: Platform>(
    db: &SymbolDb<P>,
    settled: &[Option<SymbolId>],
    id: SymbolId,
) -> Option<u64>
    ensures none { result ≡ None → (x : Symbol) → slice_get (symbols_in (seen db.now).mapping.files.groups) id ≡ Some x
        → new_target (known_by P.WEAK_SYMBOLS_OVERRIDE_COMMON (seen db.now) settled.now) (id, x) ≡ None }
    ensures number { IfSome result (λ n. (x : Symbol) → slice_get (symbols_in (seen db.now).mapping.files.groups) id ≡ Some x
        → n ≡ hash_of (record { name = x.name; version = x.version })) }
    ensures anew { IfSome result (λ _. target_at settled.now id ≡ None) }
{
    let hash = (*db.files().asked_numbers().get(id.as_usize())?)?;
    if target_of(settled, id).is_some() || !db.may_have(hash) {
        return None;
    }
    Some(hash)
}

/// What a symbol stands for by the names of all batches so far, where it is a reference. The hash number is that of its name, or of its name and version.
fn reference_target<P: Platform>(
    db: &SymbolDb<P>,
    symbol: &SymbolView,
    hash: u64,
) -> Option<SymbolId>
    requires hashed { hash ≡ hash_of (record { name = symbol.now.name; version = symbol.now.version }) }
    ensures { (settled : List (Option ℕ)) → result ≡ meant (known_by P.WEAK_SYMBOLS_OVERRIDE_COMMON (seen db.now) settled) symbol.now }
{
    if !symbol.is_reference() {
        return None;
    }
    looked_up(db, symbol, hash)
}

/// Adds the object that a symbol requests, if it requests one.
fn push_request(requests: &mut Vec<usize>, object: Option<usize>) -> Result<(), AllocError>
    ensures { OnOk result (requests.new.items ≡ requests.old.items ++ option_to_list object) }
{
    if let Some(object) = object {
        requests.push(object)?;
    }
    Ok(())
}

/// Adds a reference with its target.
fn push_reference(
    references: &mut Vec<FoundReference>,
    sources: &[SymbolSource],
    id: SymbolId,
    symbol: &SymbolView,
    target: SymbolId,
) -> Result<(), AllocError>
    ensures targets { OnOk result (map found_target references.new.items ≡ map found_target references.old.items ++ (id, target) ∷ []) }
    ensures marks { OnOk result (map found_mark references.new.items ≡ map found_mark references.old.items ++ mark_by sources.now symbol.now target ∷ []) }
{
    let flags = reference_flags(symbol, is_shared_by(sources, target));
    references.push(FoundReference {
        reference: id,
        target,
        flags,
    })?;
    Ok(())
}

impl ReadItem {
    /// Nothing.
    pub(crate) fn none(alloc: Global) -> Self
        ensures requests { result.requests.items ≡ [] }
        ensures references { result.references.items ≡ [] }
    {
        ReadItem {
            requests: Vec::new(alloc),
            references: Vec::new(alloc),
        }
    }

    /// What is kept of it: its references, and of its requests how many there are. Takes no memory.
    pub(crate) fn into_found(self) -> FoundItem
        ensures requests { result.requests ≡ length self.requests.items }
        ensures references { result.references ≡ self.references }
    {
        let ReadItem {
            requests,
            references,
        } = self;
        FoundItem {
            requests: requests.len(),
            references,
        }
    }
}

/// Adds what the symbol at a place of these asks for, which are symbols of the database.
fn read_at<P: Platform>(
    db: &SymbolDb<P>,
    settled: &[Option<SymbolId>],
    symbols: &PartSymbols<'_, P>,
    at: usize,
    requests: &mut Vec<usize>,
    references: &mut Vec<FoundReference>,
) -> Result<(), AllocError>
    requires at { at < length symbols.now.left }
    requires own { ArePart (symbols_in (seen db.now).mapping.files.groups) (with_ids symbols.now) }
    ensures requests { OnOk result ((s : ℕ × Symbol) → slice_get (with_ids symbols.now) at ≡ Some s
        → requests.new.items ≡ requests.old.items ++ requests_by (known_by P.WEAK_SYMBOLS_OVERRIDE_COMMON (seen db.now) settled.now) s) }
    ensures targets { OnOk result ((s : ℕ × Symbol) → slice_get (with_ids symbols.now) at ≡ Some s
        → map found_target references.new.items ≡ map found_target references.old.items ++ targets_by (known_by P.WEAK_SYMBOLS_OVERRIDE_COMMON (seen db.now) settled.now) s) }
    ensures marks { OnOk result ((s : ℕ × Symbol) → slice_get (with_ids symbols.now) at ≡ Some s
        → map found_mark references.new.items ≡ map found_mark references.old.items ++ marks_by (known_by P.WEAK_SYMBOLS_OVERRIDE_COMMON (seen db.now) settled.now) s) }
{
    let id = symbols.id_at(at);
    let Some(hash) = asked_anew(db, settled, id) else {
        return Ok(());
    };
    let symbol = symbols.symbol_at(at);
    if let Some(target) = reference_target(db, &symbol, hash) {
        let sources = db.files().sources();
        push_request(requests, request_by(sources, &symbol, Some(target)))?;
        push_reference(references, sources, id, &symbol, target)?;
    }
    Ok(())
}

/// What is read in symbols of an object, which are symbols of the database. The only refusal is want of memory.
pub(crate) fn read_symbols<P: Platform>(
    alloc: Global,
    db: &SymbolDb<P>,
    settled: &[Option<SymbolId>],
    symbols: &PartSymbols<'_, P>,
) -> Result<ReadItem, AllocError>
    requires own { ArePart (symbols_in (seen db.now).mapping.files.groups) (with_ids symbols.now) }
    ensures read { IfOk result (IsReadIn (known_by P.WEAK_SYMBOLS_OVERRIDE_COMMON (seen db.now) settled.now) (with_ids symbols.now)) }
{
    let mut requests = Vec::new(alloc);
    let mut references = Vec::new(alloc);
    for at in 0..symbols.len() {
        read_at(db, settled, symbols, at, &mut requests, &mut references)?;
    }
    Ok(ReadItem {
        requests,
        references,
    })
}
