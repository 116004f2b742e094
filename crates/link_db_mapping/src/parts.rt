//! Definitions that come in parts.

ghost use Rattle.std.specs.Prelude.{◌≡◌, ◌++◌, IfOk, OnOk, OnErr};
ghost use Rattle.link_db_buckets.specs.Buckets.{AreHashed, AreKeyed, definitions_at, ids_with, label_at, overridden_at};
ghost use Rattle.link_db_buckets.specs.Keys.{Key};
ghost use Rattle.link_db_buckets.specs.Runs.{joined};
ghost use Rattle.link_db_mapping.specs.Parts.{definitions_in};

use link_db_buckets::{Buckets, Definition, Names};
use link_db_ingest::ReadSymbols;
use std::alloc::{AllocError, Global};
use std::thread::Threads;

/// The definitions of each part.
fn lists_of(alloc: Global, parts: &[ReadSymbols]) -> Result<Vec<&[Definition]>, AllocError>
    ensures { IfOk result (λ lists. joined lists.items ≡ definitions_in parts.now) }
{
    let mut lists = Vec::with_capacity(alloc, parts.len())?;
    for part in parts {
        lists.push(part.definitions.as_slice())?;
    }
    Ok(lists)
}

/// Adds the definitions of parts in order, all of them or none.
pub(crate) fn apply_parts<R: Threads + Sync, T: Names + Sync>(
    rt: &R,
    alloc: Global,
    buckets: &mut Buckets,
    table: &T,
    parts: &[ReadSymbols],
) -> Result<(), AllocError>
    requires keyed { AreKeyed (T.key_at table.now) buckets.old }
    requires hashed { AreHashed (T.key_at table.now) (definitions_in parts.now) }
    ensures keyed { AreKeyed (T.key_at table.now) buckets.new }
    ensures definitions { OnOk result ((asked : Key) → definitions_at (T.key_at table.now) buckets.new asked
        ≡ definitions_at (T.key_at table.now) buckets.old asked ++ ids_with (T.key_at table.now) (definitions_in parts.now) asked) }
    ensures err { OnErr result ((asked : Key) → definitions_at (T.key_at table.now) buckets.new asked ≡ definitions_at (T.key_at table.now) buckets.old asked) }
    ensures overridden { (asked : Key) → overridden_at (T.key_at table.now) buckets.new asked ≡ overridden_at (T.key_at table.now) buckets.old asked }
    ensures labels_err { OnErr result ((asked : Key) → label_at (T.key_at table.now) buckets.new asked ≡ label_at (T.key_at table.now) buckets.old asked) }
{
    let lists = lists_of(alloc, parts)?;
    buckets.apply(rt, table, lists.as_slice())
}
