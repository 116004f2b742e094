//! Runs of neighbouring buckets, to which definitions are added, and from which they are taken back.

ghost use Rattle.std.specs.Prelude.{◌≡◌, ◌≢◌, ◌+◌, ◌<◌, ◌%◌, ℕ, [], ◌∷◌, Some, IfNone, IfSome, OnErr, OnOk};
ghost use Rattle.link_db_buckets.specs.Buckets.{AreHashed};
ghost use Rattle.link_db_buckets.specs.Keys.{number_of};
ghost use Rattle.link_db_buckets.specs.Runs.{AreGrown, AreOwn, AreTaken, joined};

use crate::ahead::{AHEAD, Guesses};
use crate::bucket::Bucket;
use crate::definition::Definition;
use crate::label::Names;
use crate::shares::place_among;
use std::alloc::AllocError;

/// Where the bucket of a hash number stands in a run of `len` buckets, of which the first has the place `first` among `count`.
pub(crate) fn place_in_run(hash: u64, count: usize, first: usize, len: usize) -> Option<usize>
    requires { 0 < count }
    ensures found { IfSome result (λ at. (at < len) × (hash % count ≡ first + at)) }
    ensures none { IfNone result ((at : ℕ) → at < len → hash % count ≢ first + at) }
{
    let place = place_among(hash, count);
    if place < first || place - first >= len {
        return None;
    }
    Some(place - first)
}

/// Adds a definition to the bucket of its hash number, where that is one of the run. The first bucket of the run has the place `first`
/// among `count` buckets. The key is looked for at a guess first.
fn add_one<T: Names>(
    table: &T,
    count: usize,
    first: usize,
    run: &mut [Bucket],
    definition: Definition,
    guess: usize,
) -> Result<(), AllocError>
    requires some { 0 < count }
    requires own { AreOwn (T.key_at table.now) count first run.old }
    requires hashed { number_of (T.key_at table.now) definition.label ≡ Some definition.hash }
    ensures ok { OnOk result (AreGrown (T.key_at table.now) count first (definition ∷ []) run.old run.new) }
    ensures err { OnErr result (AreGrown (T.key_at table.now) count first [] run.old run.new) }
{
    let Some(at) = place_in_run(definition.hash, count, first, run.len()) else {
        return Ok(());
    };
    let bucket = &mut run[at];
    let Definition { hash, label, id } = definition;
    bucket.add(table, hash, label, id, guess)
}

/// Takes the last definition of a key away, where its bucket is one of the run.
fn take_one<T: Names>(
    table: &T,
    count: usize,
    first: usize,
    run: &mut [Bucket],
    definition: Definition,
)
    requires some { 0 < count }
    requires own { AreOwn (T.key_at table.now) count first run.old }
    requires hashed { number_of (T.key_at table.now) definition.label ≡ Some definition.hash }
    ensures { AreTaken (T.key_at table.now) count first (definition ∷ []) run.old run.new }
{
    let Some(at) = place_in_run(definition.hash, count, first, run.len()) else {
        return;
    };
    let bucket = &mut run[at];
    bucket.take_last(table, definition.hash, definition.label);
}

/// Takes definitions of the run's keys away: as many of each key as there are here.
fn undo_part<T: Names>(
    table: &T,
    count: usize,
    first: usize,
    run: &mut [Bucket],
    definitions: &[Definition],
)
    requires some { 0 < count }
    requires own { AreOwn (T.key_at table.now) count first run.old }
    requires hashed { AreHashed (T.key_at table.now) definitions.now }
    ensures { AreTaken (T.key_at table.now) count first definitions.now run.old run.new }
{
    for definition in definitions {
        take_one(table, count, first, run, *definition);
    }
}

/// Takes definitions of the run's keys away: as many of each key as there are in all parts.
pub(crate) fn undo_parts<T: Names>(
    table: &T,
    count: usize,
    first: usize,
    run: &mut [Bucket],
    parts: &[&[Definition]],
)
    requires some { 0 < count }
    requires own { AreOwn (T.key_at table.now) count first run.old }
    requires hashed { AreHashed (T.key_at table.now) (joined parts.now) }
    ensures { AreTaken (T.key_at table.now) count first (joined parts.now) run.old run.new }
{
    for definitions in parts {
        undo_part(table, count, first, run, definitions);
    }
}

/// Adds definitions of the run's keys in order, all of them or none.
fn apply_part<T: Names>(
    table: &T,
    count: usize,
    first: usize,
    run: &mut [Bucket],
    definitions: &[Definition],
) -> Result<(), AllocError>
    requires some { 0 < count }
    requires own { AreOwn (T.key_at table.now) count first run.old }
    requires hashed { AreHashed (T.key_at table.now) definitions.now }
    ensures ok { OnOk result (AreGrown (T.key_at table.now) count first definitions.now run.old run.new) }
    ensures err { OnErr result (AreGrown (T.key_at table.now) count first [] run.old run.new) }
{
    let mut guesses = Guesses::none();
    for (at, definition) in definitions.iter().enumerate() {
        if at % AHEAD == 0 {
            guesses.make(count, first, run, &definitions[at..]);
        }
        let guess = guesses.at(at);
        if let Err(error) = add_one(table, count, first, run, *definition, guess) {
            undo_part(table, count, first, run, &definitions[..at]);
            return Err(error);
        }
    }
    Ok(())
}

/// Adds the definitions of parts that are those of the run's keys, in order, all of them or none.
pub(crate) fn apply_parts<T: Names>(
    table: &T,
    count: usize,
    first: usize,
    run: &mut [Bucket],
    parts: &[&[Definition]],
) -> Result<(), AllocError>
    requires some { 0 < count }
    requires own { AreOwn (T.key_at table.now) count first run.old }
    requires hashed { AreHashed (T.key_at table.now) (joined parts.now) }
    ensures ok { OnOk result (AreGrown (T.key_at table.now) count first (joined parts.now) run.old run.new) }
    ensures err { OnErr result (AreGrown (T.key_at table.now) count first [] run.old run.new) }
{
    for (at, definitions) in parts.iter().enumerate() {
        if let Err(error) = apply_part(table, count, first, run, definitions) {
            undo_parts(table, count, first, run, &parts[..at]);
            return Err(error);
        }
    }
    Ok(())
}
