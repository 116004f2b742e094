//! Walks through heads, by the bits of hash numbers.

ghost use Rattle.std.specs.Prelude.{◌≡◌, ℕ, Bool, true, false, length, not};
ghost use Rattle.std.specs.Iterator.{YieldsFirst, item_count};
ghost use Rattle.link_db_buckets.specs.Walks.{bit_at, link_at, side_of};

use std::marker::Model;

/// Whether a walk by a hash number turns right at a depth. The highest bit tells it first, since the lower ones picked bucket and slot.
pub(crate) fn bit_at(number: u64, depth: usize) -> bool
    ensures { result ≡ bit_at number depth }
{
    (number >> (63 - depth % 64)) & 1 == 1
}

/// What hangs on each side of a head: 1 + the place of another one, or 0 where none does.
#[derive(Clone, Copy)]
pub(crate) struct Fork {
    left: u32,
    right: u32,
}

impl Fork {
    /// Nothing hangs there.
    pub(crate) fn bare() -> Self
        ensures left { side_of false result ≡ 0 }
        ensures right { side_of true result ≡ 0 }
    {
        Fork { left: 0, right: 0 }
    }

    /// What hangs on a side.
    fn link(&self, right: bool) -> u32
        ensures { result ≡ side_of right self.now }
    {
        if right { self.right } else { self.left }
    }

    /// Hangs something on a side.
    pub(crate) fn hang(&mut self, right: bool, link: u32)
        ensures link { side_of right self.new ≡ link }
        ensures rest { side_of (not right) self.new ≡ side_of (not right) self.old }
    {
        if right {
            self.right = link;
        } else {
            self.left = link;
        }
    }
}

/// The heads that a hash number's walk passes: each by its place, with whether the walk turns right there. A contract sees the list of
/// those that are left.
#[derive(Drop)]
pub(crate) struct Walk<'a> {
    forks: &'a [Fork],
    number: u64,
    depth: usize,
    link: usize,
}

impl<'a> Model for Walk<'a> {
    ghost use Rattle.std.specs.Prelude.{ℕ, Bool, List, ◌-◌, length};
    ghost use Rattle.link_db_buckets.specs.Walks.{walk_from};

    ghost Value = { List (ℕ × Bool) };

    ghost view = { λ w. walk_from (length w.forks.now - w.depth) w.forks.now w.number w.depth w.link };
}

impl<'a> Walk<'a> {
    ghost use Rattle.std.specs.Prelude.{◌≡◌, length};
    ghost use Rattle.link_db_buckets.specs.Walks.{walk_from};

    /// The walk by a number that begins at a link.
    pub(crate) fn new(forks: &'a [Fork], number: u64, link: usize) -> Self
        ensures { result ≡ walk_from (length forks.now) forks.now number 0 link }
    {
        Walk {
            forks,
            number,
            depth: 0,
            link,
        }
    }
}

impl<'a> Iterator for Walk<'a> {
    type Item = (usize, bool);

    ghost next_gives = { YieldsFirst (λ w. w) };

    ghost remaining = { item_count (λ w. w) };

    fn next(&mut self) -> Option<(usize, bool)> {
        // No walk passes more heads than there are.
        if self.link == 0 || self.depth >= self.forks.len() {
            return None;
        }
        let place = self.link - 1;
        let right = bit_at(self.number, self.depth);
        self.link = link_at(self.forks, place, right);
        self.depth += 1;
        Some((place, right))
    }
}

/// What hangs on a side of the head at the place.
pub(crate) fn link_at(forks: &[Fork], place: usize, right: bool) -> usize
    ensures { result ≡ link_at forks.now place right }
{
    match forks.get(place) {
        Some(fork) => fork.link(right) as usize,
        None => 0,
    }
}

/// Takes all that hangs away.
pub(crate) fn clear(forks: &mut [Fork])
    ensures forks { length forks.new ≡ length forks.old }
    ensures bare { (place : ℕ) (right : Bool) → link_at forks.new place right ≡ 0 }
{
    for fork in forks.iter_mut() {
        *fork = Fork::bare();
    }
}
