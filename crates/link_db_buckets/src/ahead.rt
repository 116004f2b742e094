//! Guesses of where the names of definitions stand, made for some definitions at once.

ghost use Rattle.std.specs.Prelude.{◌<◌};

use crate::bucket::Bucket;
use crate::definition::Definition;
use crate::runs::place_in_run;

/// So many definitions are guessed for at once.
pub(crate) const AHEAD: usize = 32;

/// At most so many heads are looked at for a guess. Most walks pass no more.
const MOST_STEPS: usize = 2;

/// Where the names of some definitions may stand, each in its bucket: 1 + the place of a head, or 0. The definitions are looked up step by
/// step, all of them by one step before the next: none of these looks waits for another, so a processor fetches what they ask for side by
/// side, where a definition that is looked up and added before the next one waits for its own. What they fetched is at hand when the
/// definitions are added. Nothing rests on a guess: who takes it checks it.
#[derive(Clone, Copy)]
pub(crate) struct Guesses {
    links: [usize; AHEAD],
}

/// Where a look for a hash number begins in a run of buckets, of which the first has the place `first` among `count`.
/// Where that is, is left open: who takes a guess checks it.
fn first_guess(hash: u64, count: usize, first: usize, run: &[Bucket]) -> usize
    requires some { 0 < count }
{
    match place_in_run(hash, count, first, run.len()) {
        Some(at) => run[at].first_guess(hash),
        None => 0,
    }
}

/// A guess, where its head has the hash number, and else the next one behind it, which so many heads stand before.
/// Which it is, is left open: who takes a guess checks it.
fn next_guess(
    hash: u64,
    count: usize,
    first: usize,
    run: &[Bucket],
    depth: usize,
    guess: usize,
) -> usize
    requires some { 0 < count }
{
    match place_in_run(hash, count, first, run.len()) {
        Some(at) => run[at].next_guess(hash, depth, guess),
        None => 0,
    }
}

impl Guesses {
    /// No guesses.
    /// What it holds is left open: who takes a guess checks it.
    pub(crate) fn none() -> Self {
        Guesses { links: [0; AHEAD] }
    }

    /// Guesses for the first of these definitions, in a run of buckets of which the first has the place `first` among `count`.
    /// What they are is left open: who takes a guess checks it.
    pub(crate) fn make(
        &mut self,
        count: usize,
        first: usize,
        run: &[Bucket],
        definitions: &[Definition],
    )
        requires some { 0 < count }
    {
        for (link, definition) in self.links.iter_mut().zip(definitions.iter()) {
            *link = first_guess(definition.hash, count, first, run);
        }
        for depth in 0..MOST_STEPS {
            for (link, definition) in self.links.iter_mut().zip(definitions.iter()) {
                *link = next_guess(definition.hash, count, first, run, depth, *link);
            }
        }
    }

    /// That of the definition at a place, counted round.
    /// Which it is, is left open: who takes a guess checks it.
    pub(crate) fn at(&self, place: usize) -> usize {
        self.links[place % AHEAD]
    }
}
