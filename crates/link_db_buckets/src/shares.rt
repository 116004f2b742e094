//! How the definitions of a batch are shared among threads and buckets.

ghost use Rattle.std.specs.Prelude.{◌≡◌, ◌<◌, ◌%◌};

use crate::definition::Definition;
use std::thread;
use std::thread::Threads;

/// At most so many runs of buckets take definitions side by side: each goes over all of them.
const MOST_RUNS: usize = 16;

/// Fewer definitions than these are taken by one thread, since starting more costs more than they save.
const LEAST_SHARED: usize = 1 << 13;

/// How many definitions parts have.
/// The number is left open: it only tells how many threads start and how much room is made.
pub(crate) fn definitions_of(parts: &[&[Definition]]) -> usize {
    let mut all = 0usize;
    for definitions in parts {
        all = all.saturating_add(definitions.len());
    }
    all
}

/// How many threads take so many definitions: one for each processor.
/// The number is left open: for each number of threads the answer is the same.
pub(crate) fn threads_for<R: Threads>(rt: &R, definitions: usize) -> usize {
    if definitions < LEAST_SHARED {
        return 1;
    }
    match thread::available_parallelism(rt) {
        Ok(processors) => processors.get().min(MOST_RUNS),
        Err(_) => 1,
    }
}

/// For how many names a bucket makes room where so many definitions come to so many buckets: its share and a little more, since names
/// fall unevenly.
/// The number is left open: room changes nothing that a contract sees.
pub(crate) fn room_for(definitions: usize, buckets: usize) -> usize
    requires { 0 < buckets }
{
    let share = definitions / buckets;
    if buckets == 1 {
        return share;
    }
    share.saturating_add(share / 16)
}

/// The place of a hash number's bucket among `count`. A division by a number that is written here is a mask, and takes a tenth of the time
/// of one by a number that isn't known.
pub(crate) fn place_among(hash: u64, count: usize) -> usize
    requires { 0 < count }
    ensures place { result ≡ hash % count }
    ensures within { result < count }
{
    let place = match count {
        1 => 0,
        2 => hash % 2,
        4 => hash % 4,
        8 => hash % 8,
        16 => hash % 16,
        _ => hash % count as u64,
    };
    place as usize
}
