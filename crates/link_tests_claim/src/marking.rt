/// What no clause says of the marking of live nodes: that marks come for every number of workers, and that threads work
/// beside each other.
ghost use Rattle.std.specs.Prelude.{◌≡◌, ◌<◌, ◌≤◌, IfOk, length};
ghost use Rattle.link_closure.specs.Graph.{AreInRange};

use crate::pool::Meeting;
use link_claim::{Gate, OpenGate};
use link_closure::{Edge, least_closed};
use link_gc_marking::mark_live;
use std::alloc::{AllocError, Global};
use std::sync::atomic::Ordering;
use std::test::Fail;
use std::thread::Threads;

/// The edges between these pairs of nodes, where both are below the count.
fn edges_between(
    alloc: Global,
    count: usize,
    pairs: &[(usize, usize)],
) -> Result<Vec<Edge>, AllocError>
    ensures { IfOk result (λ v. AreInRange count v.items) }
{
    let mut edges = Vec::new(alloc);
    for &(from, to) in pairs {
        if from < count && to < count {
            edges.push(Edge { from, to })?;
        }
    }
    Ok(edges)
}

/// Two edges from each of so many nodes, in no order.
fn scattered_edges(alloc: Global, count: usize) -> Result<Vec<Edge>, AllocError>
    requires { 0 < count }
    ensures { IfOk result (λ v. AreInRange count v.items) }
{
    let mut edges = Vec::new(alloc);
    for step in 0..count.saturating_mul(2) {
        let from = step.wrapping_mul(7) % count;
        let factor = if step < count { 577 } else { 331 };
        let to = (from / 4).wrapping_mul(factor).wrapping_add(13) % count;
        edges.push(Edge { from, to })?;
    }
    Ok(edges)
}

/// How many are marked.
fn marked(marks: &[bool]) -> usize {
    marks.iter().filter(|mark| **mark).count()
}

/// How many nodes so many workers mark, if they are those of the plain work list.
fn count_if_alike<R: Threads + Sync, G: Gate + Sync>(
    rt: &R,
    alloc: Global,
    gate: &G,
    workers: usize,
    roots: &[bool],
    edges: Vec<Edge>,
) -> Result<Option<usize>, AllocError>
    requires some { 0 < workers }
    requires most { workers ≤ 256 }
    requires in_range { AreInRange (length roots.now) edges.items }
{
    let wanted = least_closed(alloc, roots, &edges)?;
    let marks = mark_live(rt, alloc, gate, workers, roots, edges)?;
    Ok((marks == wanted).then_some(marked(&marks)))
}

/// The same for the edges between these pairs.
fn count_between<R: Threads + Sync>(
    rt: &R,
    alloc: Global,
    workers: usize,
    roots: &[bool],
    pairs: &[(usize, usize)],
) -> Result<Option<usize>, AllocError>
    requires some { 0 < workers }
    requires most { workers ≤ 256 }
{
    let edges = edges_between(alloc, roots.len(), pairs)?;
    count_if_alike(rt, alloc, &OpenGate, workers, roots, edges)
}

const WORKERS: &[usize] = &[1, 2, 7, 64];

/// A mark for each root, the edges, and how many nodes are live.
const GRAPHS: &[(&[bool], &[(usize, usize)], usize)] = &[
    // No nodes.
    (&[], &[], 0),
    // No edges.
    (&[true, false, true], &[], 2),
    // An edge from a node to itself, of a root and of another node.
    (&[true, false], &[(0, 0), (1, 1)], 1),
    // A ring without a root, from which an edge leads to one.
    (&[false, false, true], &[(0, 1), (1, 0), (1, 2)], 1),
    // A chain, its edges from the last to the first.
    (
        &[true, false, false, false, false],
        &[(3, 4), (2, 3), (1, 2), (0, 1)],
        5,
    ),
    // A root that leads to three nodes, of which one leads to the last.
    (
        &[false, true, false, false, false],
        &[(1, 4), (2, 0), (1, 3), (1, 2)],
        5,
    ),
    // Edges twice, and in no order.
    (
        &[true, false, false, false],
        &[(2, 1), (0, 2), (3, 3), (0, 2), (2, 1)],
        3,
    ),
];

#[test]
fn small_graphs_are_marked(rt: HostRuntime) -> Result<(), Fail> {
    for &(roots, pairs, live) in GRAPHS {
        for &workers in WORKERS {
            let found = count_between(&rt, rt.alloc(), workers.max(1).min(256), roots, pairs)?;
            assert!(rt;
                found == Some(live),
                "{live} of {pairs:?} with {workers} workers"
            );
        }
    }
    Ok(())
}

/// Four roots among so many nodes.
fn four_roots(alloc: Global, count: usize) -> Result<Vec<bool>, AllocError>
    ensures { IfOk result (λ v. length v.items ≡ count) }
{
    let mut roots = Vec::new(alloc);
    for number in 0..count {
        roots.push(number < 4)?;
    }
    Ok(roots)
}

/// How many of 4,000 nodes four workers mark, if they are those of the plain work list, how often they came to the gate
/// and left it, and how many of them waited there in vain.
fn meet<R: Threads + Sync>(
    rt: &R,
    alloc: Global,
) -> Result<(Option<usize>, u64, u64, u64), AllocError> {
    let roots = four_roots(alloc, 4000)?;
    let edges = scattered_edges(alloc, 4000)?;
    let gate = Meeting::new();
    let found = count_if_alike(rt, alloc, &gate, 4, &roots, edges)?;
    Ok((
        found,
        gate.came.load(Ordering::SeqCst),
        gate.left.load(Ordering::SeqCst),
        gate.late.load(Ordering::SeqCst),
    ))
}

/// Each of four threads reads a node while the other three read one too, and each live node is read once.
#[test]
fn four_threads_mark(rt: HostRuntime) -> Result<(), Fail> {
    assert_eq!(rt; meet(&rt, rt.alloc())?, (Some(1631), 1631, 1631, 0));
    Ok(())
}
