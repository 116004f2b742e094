//! What no clause says: that the set and the levels come where memory is ample.

ghost use Rattle.std.specs.Prelude.{length};
ghost use Rattle.link_closure.specs.Graph.{AreInRange};

use link_closure::{Edge, least_closed, levels};
use std::alloc::Global;

/// The marks that are given and those of the least closed set, for the edges of `a_chain_a_ring_and_an_island`.
const MARKED: &[(&[bool], &[bool])] = &[
    (
        &[true, false, false, false, false],
        &[true, true, true, false, false],
    ),
    (
        &[false, false, false, false, false],
        &[false, false, false, false, false],
    ),
    (
        &[false, false, false, true, false],
        &[true, true, true, true, true],
    ),
];

/// The marks that are given and the levels, for the same edges.
const LEVELS: &[(&[bool], &[Option<usize>])] = &[
    (
        &[true, false, false, false, false],
        &[Some(0), Some(1), Some(2), None, None],
    ),
    (
        &[false, false, false, false, false],
        &[None, None, None, None, None],
    ),
    (
        &[false, false, true, true, false],
        &[Some(1), Some(1), Some(0), Some(0), Some(1)],
    ),
];

/// A chain into a ring, and a number that leads to the chain and to an island.
fn edges() -> [Edge; 6]
    ensures { AreInRange 5 result }
{
    [
        Edge { from: 0, to: 1 },
        Edge { from: 1, to: 2 },
        Edge { from: 2, to: 1 },
        Edge { from: 3, to: 0 },
        Edge { from: 3, to: 4 },
        Edge { from: 2, to: 1 },
    ]
}

/// Whether the least closed set comes, and is the one that is wanted.
fn is_least(alloc: Global, roots: &[bool], edges: &[Edge], want: &[bool]) -> bool
    requires { AreInRange (length roots.now) edges.now }
{
    match least_closed(alloc, roots, edges) {
        Ok(marks) => marks.as_slice() == want,
        Err(_) => false,
    }
}

/// Whether the levels come, and are those that are wanted.
fn are_levels(alloc: Global, roots: &[bool], edges: &[Edge], want: &[Option<usize>]) -> bool
    requires { AreInRange (length roots.now) edges.now }
{
    match levels(alloc, roots, edges) {
        Ok(found) => found.as_slice() == want,
        Err(_) => false,
    }
}

#[test]
fn a_chain_a_ring_and_an_island(rt: HostRuntime) {
    let alloc = rt.alloc();
    let edges = edges();
    for &(roots, want) in MARKED {
        assert!(rt; roots.len() == 5 && is_least(alloc, roots, &edges, want));
    }
    assert!(rt; is_least(alloc, &[], &[], &[]));
}

#[test]
fn levels_of_a_chain_a_ring_and_an_island(rt: HostRuntime) {
    let alloc = rt.alloc();
    let edges = edges();
    for &(roots, want) in LEVELS {
        assert!(rt; roots.len() == 5 && are_levels(alloc, roots, &edges, want));
    }
    assert!(rt; are_levels(alloc, &[], &[], &[]));
}
