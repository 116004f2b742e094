//! Definitions that runs of buckets take side by side.

ghost use Rattle.std.specs.Prelude.{◌≡◌, ◌+◌, ◌<◌, ◌≤◌, [], OnErr, OnOk, length, map};
ghost use Rattle.std.specs.Thread.{IsSync};
ghost use Rattle.link_db_buckets.specs.Bucket.{heads_in};
ghost use Rattle.link_db_buckets.specs.Buckets.{AreHashed};
ghost use Rattle.link_db_buckets.specs.Runs.{AreGrown, AreOwn, joined};

use crate::bucket::Bucket;
use crate::definition::Definition;
use crate::label::Names;
use crate::runs::{apply_parts, undo_parts};
use std::alloc::AllocError;
use std::thread::{Threads, join_mut};

/// Makes room for so many names more in each bucket of a run. What they hold stays.
fn reserve_run(run: &mut [Bucket], more: usize) -> Result<(), AllocError>
    ensures { map heads_in run.new ≡ map heads_in run.old }
{
    for at in 0..run.len() {
        let bucket = &mut run[at];
        bucket.reserve(more)?;
    }
    Ok(())
}

/// Makes room for so many names more in each bucket of a run, and adds the definitions of parts that are those of its keys, all of them or
/// none.
fn fill_run<T: Names>(
    table: &T,
    parts: &[&[Definition]],
    more: usize,
    count: usize,
    first: usize,
    run: &mut [Bucket],
) -> Result<(), AllocError>
    requires some { 0 < count }
    requires own { AreOwn (T.key_at table.now) count first run.old }
    requires hashed { AreHashed (T.key_at table.now) (joined parts.now) }
    ensures ok { OnOk result (AreGrown (T.key_at table.now) count first (joined parts.now) run.old run.new) }
    ensures err { OnErr result (AreGrown (T.key_at table.now) count first [] run.old run.new) }
{
    reserve_run(run, more)?;
    apply_parts(table, count, first, run, parts)
}

/// Adds the definitions of parts that are those of a run's keys, by so many threads at most, all of them or none.
#[cycle(runs)]
pub(crate) fn apply_run<R: Threads + Sync, T: Names + Sync>(
    rt: &R,
    table: &T,
    parts: &[&[Definition]],
    more: usize,
    threads: usize,
    count: usize,
    first: usize,
    run: &mut [Bucket],
) -> Result<(), AllocError>
    requires some { 0 < count }
    requires within { first + length run.old ≤ count }
    requires own { AreOwn (T.key_at table.now) count first run.old }
    requires hashed { AreHashed (T.key_at table.now) (joined parts.now) }
    ensures ok { OnOk result (AreGrown (T.key_at table.now) count first (joined parts.now) run.old run.new) }
    ensures err { OnErr result (AreGrown (T.key_at table.now) count first [] run.old run.new) }
{
    if threads < 2 || run.len() < 2 {
        return fill_run(table, parts, more, count, first, run);
    }
    let half = run.len() / 2;
    let (low, high) = run.split_at_mut(half);
    apply_both(
        rt,
        table,
        parts,
        more,
        threads.div_ceil(2),
        count,
        first,
        low,
        first + half,
        high,
    )
}

/// Adds the definitions of parts to two runs, all of them or none.
#[cycle(runs)]
fn apply_both<R: Threads + Sync, T: Names + Sync>(
    rt: &R,
    table: &T,
    parts: &[&[Definition]],
    more: usize,
    threads: usize,
    count: usize,
    first: usize,
    low: &mut [Bucket],
    next: usize,
    high: &mut [Bucket],
) -> Result<(), AllocError>
    requires some { 0 < count }
    requires low_within { first + length low.old ≤ count }
    requires high_within { next + length high.old ≤ count }
    requires low_own { AreOwn (T.key_at table.now) count first low.old }
    requires high_own { AreOwn (T.key_at table.now) count next high.old }
    requires hashed { AreHashed (T.key_at table.now) (joined parts.now) }
    ensures ok { OnOk result (AreGrown (T.key_at table.now) count first (joined parts.now) low.old low.new × AreGrown (T.key_at table.now) count next (joined parts.now) high.old high.new) }
    ensures err { OnErr result (AreGrown (T.key_at table.now) count first [] low.old low.new × AreGrown (T.key_at table.now) count next [] high.old high.new) }
{
    match fill_both(
        rt, table, parts, more, threads, count, first, low, next, high,
    ) {
        (Ok(()), Ok(())) => Ok(()),
        (Ok(()), Err(error)) => {
            undo_parts(table, count, first, low, parts);
            Err(error)
        }
        (Err(error), Ok(())) => {
            undo_parts(table, count, next, high, parts);
            Err(error)
        }
        (Err(error), Err(_)) => Err(error),
    }
}

/// Adds the definitions of parts to two runs side by side, each all of its own or none.
#[cycle(runs)]
fn fill_both<R: Threads + Sync, T: Names + Sync>(
    rt: &R,
    table: &T,
    parts: &[&[Definition]],
    more: usize,
    threads: usize,
    count: usize,
    first: usize,
    low: &mut [Bucket],
    next: usize,
    high: &mut [Bucket],
) -> (Result<(), AllocError>, Result<(), AllocError>)
    requires some { 0 < count }
    requires low_within { first + length low.old ≤ count }
    requires high_within { next + length high.old ≤ count }
    requires low_own { AreOwn (T.key_at table.now) count first low.old }
    requires high_own { AreOwn (T.key_at table.now) count next high.old }
    requires hashed { AreHashed (T.key_at table.now) (joined parts.now) }
    ensures low_ok { OnOk result.0 (AreGrown (T.key_at table.now) count first (joined parts.now) low.old low.new) }
    ensures low_err { OnErr result.0 (AreGrown (T.key_at table.now) count first [] low.old low.new) }
    ensures high_ok { OnOk result.1 (AreGrown (T.key_at table.now) count next (joined parts.now) high.old high.new) }
    ensures high_err { OnErr result.1 (AreGrown (T.key_at table.now) count next [] high.old high.new) }
{
    let mut front = || -> Result<(), AllocError>
        requires { IsSync R.row × IsSync T.row × (0 < count) × (first + length low.now ≤ count) × AreOwn (T.key_at table.now) count first low.now × AreHashed (T.key_at table.now) (joined parts.now) }
        ensures ok { OnOk result (AreGrown (T.key_at table.entry.now) count first (joined parts.entry.now) low.entry.now low.exit.now) }
        ensures err { OnErr result (AreGrown (T.key_at table.entry.now) count first [] low.entry.now low.exit.now) }
    { apply_run(rt, table, parts, more, threads, count, first, low) };
    let mut back = || -> Result<(), AllocError>
        requires { IsSync R.row × IsSync T.row × (0 < count) × (next + length high.now ≤ count) × AreOwn (T.key_at table.now) count next high.now × AreHashed (T.key_at table.now) (joined parts.now) }
        ensures ok { OnOk result (AreGrown (T.key_at table.entry.now) count next (joined parts.entry.now) high.entry.now high.exit.now) }
        ensures err { OnErr result (AreGrown (T.key_at table.entry.now) count next [] high.entry.now high.exit.now) }
    { apply_run(rt, table, parts, more, threads, count, next, high) };
    join_mut(rt, &mut front, &mut back)
}
