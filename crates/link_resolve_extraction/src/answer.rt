//! What follows once the items of a link were read: the loaded objects, the flags of symbols, and what references stand for.

ghost use Rattle.std.specs.Prelude.{◌≡◌, ℕ, ◌≤◌, ◌^◌, Bool, IfOk, List, OnErr, OnOk, Option, Some, length, map, slice_set};
ghost use Rattle.std.specs.List.{range_with_len};
ghost use Rattle.link_claim.specs.Seats.{Ending, IsSettled, claimed_in};
ghost use Rattle.link_closure.specs.Closure.{is_marked};
ghost use Rattle.link_flags.specs.FlagWords.{numbers_of, words_of};
ghost use Rattle.link_rules.specs.Loading.{IsLoaded};
ghost use Rattle.link_rules.specs.Marking.{flags_before, marked_flags};
ghost use Rattle.link_rules.specs.Orderly.{IsOrderly};
ghost use Rattle.link_rules.specs.Places.{each_from};
ghost use Rattle.link_rules.specs.Selection.{loaded_target, selection_of};
ghost use Rattle.link_rules.specs.Work.{workload_of};
ghost use Rattle.link_rules.specs.World.{Stage};
ghost use Rattle.link_db_symbols.specs.Lookups.{AreBelow};
ghost use Rattle.link_db_symbols.specs.Walk.{SymbolsLeft};
ghost use Rattle.link_resolve_extraction.specs.Answer.{AreFoundBelow, AreItemsRead, AreObjectsOf, AreTargetsRead, IsKnownAt, closed_flags, references_in, references_of, request_count, requests_found, with_closed_flags, with_references};
ghost use Rattle.link_resolve_extraction.specs.Asked.{Known};
ghost use Rattle.link_resolve_extraction.specs.Planned.{opening_of};

use crate::found::{FoundItem, FoundReference};
use link_claim::Closed;
use link_flags::{PerSymbolFlags, RawFlags};
use link_ids::SymbolId;
use std::alloc::{AllocError, Global};

/// Which objects were claimed, a mark for each, by their places among all objects: where all that is asked for was read, the loaded ones. The
/// only refusal is want of memory.
pub fn claimed_objects(
    alloc: Global,
    closed: &Closed,
    objects: usize,
) -> Result<Vec<bool>, AllocError>
    requires { objects ≡ closed.now.view.work.files }
    ensures marks { IfOk result (λ marks. marks.items ≡ map (is_marked (claimed_in closed.now)) (range_with_len 0 objects)) }
    ensures claimed { IfOk result (λ marks. IsSettled closed.now → marks.items ≡ claimed_in closed.now) }
{
    let mut marks = Vec::with_capacity(alloc, objects)?;
    for object in 0..objects {
        marks.push(closed.is_claimed(object))?;
    }
    Ok(marks)
}

/// The closed flags of the symbol of this id, if it is one of so many, else its own word.
fn closed_word(closed: &Closed, symbols: usize, symbol: usize, word: RawFlags) -> RawFlags
    requires symbols { symbols ≡ length closed.now.view.work.opening }
    requires ids { symbols ≤ 2 ^ 32 }
    ensures { result.0 ≡ closed_flags closed.now symbol word.0 }
{
    if symbol < symbols {
        closed.flags(SymbolId::from_usize(symbol)).raw()
    } else {
        word
    }
}

/// Writes the closed flags of so many symbols over their words.
fn write_words(closed: &Closed, symbols: usize, words: &mut [RawFlags])
    requires symbols { symbols ≡ length closed.now.view.work.opening }
    requires ids { symbols ≤ 2 ^ 32 }
    ensures { numbers_of words.new ≡ with_closed_flags closed.now (numbers_of words.old) }
{
    for (index, word) in words.iter_mut().enumerate() {
        *word = closed_word(closed, symbols, index, *word);
    }
}

/// Writes the closed flags of all these symbols over their words; the words of other symbols stay. Takes no memory.
pub fn write_flags(closed: &Closed, symbols: usize, flags: &mut PerSymbolFlags)
    requires symbols { symbols ≡ length closed.now.view.work.opening }
    requires ids { symbols ≤ 2 ^ 32 }
    ensures flags { numbers_of (words_of flags.new) ≡ with_closed_flags closed.now (numbers_of (words_of flags.old)) }
{
    write_words(closed, symbols, flags.flags_mut());
}

/// Writes what a reference stands for, if its symbol has a place.
fn write_target(targets: &mut [Option<SymbolId>], reference: FoundReference)
    ensures { targets.new ≡ slice_set targets.old reference.reference (Some reference.target) }
{
    let at = reference.reference.as_usize();
    if at < targets.len() {
        targets[at] = Some(reference.target);
    }
}

/// Writes what references stand for, one after another.
fn write_references(targets: &mut [Option<SymbolId>], references: &[FoundReference])
    ensures { targets.new ≡ with_references targets.old references.now }
{
    for reference in references {
        write_target(targets, *reference);
    }
}

/// Writes what the references that were found in an item stand for.
fn write_found(targets: &mut [Option<SymbolId>], found: &Option<FoundItem>)
    ensures { targets.new ≡ with_references targets.old (references_of found.now) }
{
    match found {
        Some(item) => write_references(targets, &item.references),
        None => {}
    }
}

/// Writes what the references that were found in all items stand for.
fn write_all(targets: &mut [Option<SymbolId>], found: &[Option<FoundItem>])
    ensures { targets.new ≡ with_references targets.old (references_in found.now) }
{
    for item in found {
        write_found(targets, item);
    }
}

/// Writes what the references of loaded objects stand for, by the ids of so many symbols, over what earlier batches settled. The only
/// refusal is want of memory, and then the targets stay as they were.
pub fn write_targets(
    targets: &mut Vec<Option<SymbolId>>,
    symbols: usize,
    found: &[Option<FoundItem>],
) -> Result<(), AllocError>
    ensures read { OnOk result (AreTargetsRead symbols targets.old.items found.now targets.new.items) }
    ensures below { OnOk result ((n : ℕ) → AreBelow n targets.old.items → AreFoundBelow n found.now → AreBelow n targets.new.items) }
    ensures unchanged { OnErr result (targets.new.items ≡ targets.old.items) }
{
    targets.resize(symbols, None)?;
    write_all(targets.as_mut_slice(), found);
    Ok(())
}

/// What the references of loaded objects stand for, by the ids of so many symbols: what earlier batches settled, and what was found in the
/// items of these objects. The only refusal is want of memory.
pub fn read_targets(
    alloc: Global,
    symbols: usize,
    settled: &[Option<SymbolId>],
    found: &[Option<FoundItem>],
) -> Result<Vec<Option<SymbolId>>, AllocError>
    ensures read { IfOk result (λ targets. AreTargetsRead symbols settled.now found.now targets.items) }
    ensures below { IfOk result (λ targets. (n : ℕ) → AreBelow n settled.now → AreFoundBelow n found.now → AreBelow n targets.items) }
{
    let mut targets = Vec::with_capacity(alloc, symbols)?;
    targets.extend_from_slice(settled)?;
    write_targets(&mut targets, symbols, found)?;
    Ok(targets)
}

/// How many requests were found in an item, if it was read.
fn request_count(found: &Option<FoundItem>) -> u64
    ensures { result ≡ request_count found.now }
{
    match found {
        Some(item) => item.requests as u64,
        None => 0,
    }
}

/// How many requests were found in all items. It refuses a number that no memory holds.
pub(crate) fn count_requests(found: &[Option<FoundItem>]) -> Result<u64, AllocError>
    ensures { IfOk result (λ n. n ≡ requests_found found.now) }
{
    let mut count = 0u64;
    for item in found {
        count = count.checked_add(request_count(item)).ok_or(AllocError)?;
    }
    Ok(count)
}

/// The closed words of the work of a stage of a link are those of the link: the claimed objects are those that are loaded, and where the words
/// began with the flags that symbols had, the closed flags are those that symbols have once these objects are read.
pub fn closed_words_are_those_of_a_link()
    ensures loaded { (w : Stage) (opening : List ℕ) (e : Ending) → IsOrderly w
        → e.view.work ≡ record (workload_of w) { opening = opening } → IsSettled e → IsLoaded w (claimed_in e) }
    ensures flags { (w : Stage) (flags : List ℕ) (e : Ending) → IsOrderly w → flags ≡ each_from (flags_before w) 0 w.symbols
        → e.view.work ≡ record (workload_of w) { opening = opening_of (length w.symbols) flags } → IsSettled e
        → with_closed_flags e flags ≡ marked_flags (selection_of w (claimed_in e)) }
{}

/// At a stage of a link whose objects are loaded by these marks, what was read of the items of loaded objects makes the targets of its loaded
/// references.
pub fn read_targets_are_those_of_a_link()
    ensures { (w : Stage) (known : Known) (objects : List SymbolsLeft) (marks : List Bool) (found : List (Option FoundItem)) (targets : List (Option ℕ))
        → IsOrderly w → IsKnownAt w known → AreObjectsOf w objects → IsLoaded w marks → AreItemsRead known objects marks found
        → AreTargetsRead (length w.symbols) w.earlier.targets found targets
        → targets ≡ each_from (loaded_target w marks) 0 w.symbols }
{}
