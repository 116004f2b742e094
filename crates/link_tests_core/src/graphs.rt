//! Edges between so many numbers.

ghost use Rattle.std.specs.Prelude.{◌<◌, IfOk, OnOk};
ghost use Rattle.link_closure.specs.Graph.{AreInRange};

use link_closure::{Edge, least_closed};
use std::alloc::{AllocError, Global};

/// Adds an edge, if there is a number at its end.
pub(crate) fn add_edge(
    edges: &mut Vec<Edge>,
    count: usize,
    from: usize,
    to: usize,
) -> Result<(), AllocError>
    requires edges { AreInRange count edges.old.items }
    requires from { from < count }
    ensures { OnOk result (AreInRange count edges.new.items) }
{
    if to < count {
        edges.push(Edge { from, to })?;
    }
    Ok(())
}

/// Adds edges to the next numbers, so many, as far as there are numbers.
fn add_near(
    edges: &mut Vec<Edge>,
    count: usize,
    from: usize,
    references: usize,
) -> Result<(), AllocError>
    requires edges { AreInRange count edges.old.items }
    requires from { from < count }
    ensures { OnOk result (AreInRange count edges.new.items) }
{
    for step in 0..references {
        let to = from.saturating_add(step).saturating_add(1);
        add_edge(edges, count, from, to)?;
    }
    Ok(())
}

/// Adds so many edges, spread over all numbers.
fn add_far(
    edges: &mut Vec<Edge>,
    count: usize,
    from: usize,
    references: usize,
) -> Result<(), AllocError>
    requires edges { AreInRange count edges.old.items }
    requires from { from < count }
    ensures { OnOk result (AreInRange count edges.new.items) }
{
    for step in 0..references {
        let far = from
            .wrapping_mul(7919)
            .wrapping_add(step.wrapping_mul(104_729));
        add_edge(edges, count, from, far % count)?;
    }
    Ok(())
}

/// From each number edges to the next ones, so many.
pub(crate) fn chain(alloc: Global, count: usize, references: usize) -> Result<Vec<Edge>, AllocError>
    ensures { IfOk result (λ edges. AreInRange count edges.items) }
{
    let mut edges = Vec::new(alloc);
    for from in 0..count {
        add_near(&mut edges, count, from, references)?;
    }
    Ok(edges)
}

/// From 0 an edge to each number, and from each so many, spread over all.
pub(crate) fn fan(alloc: Global, count: usize, references: usize) -> Result<Vec<Edge>, AllocError>
    ensures { IfOk result (λ edges. AreInRange count edges.items) }
{
    let mut edges = Vec::new(alloc);
    for from in 0..count {
        add_edge(&mut edges, count, 0, from)?;
        add_far(&mut edges, count, from, references)?;
    }
    Ok(edges)
}

/// A tree: from each number edges to two others.
pub(crate) fn tree(alloc: Global, count: usize) -> Result<Vec<Edge>, AllocError>
    ensures { IfOk result (λ edges. AreInRange count edges.items) }
{
    let mut edges = Vec::new(alloc);
    for from in 0..count {
        let child = from.saturating_mul(2).saturating_add(1);
        add_edge(&mut edges, count, from, child)?;
        add_edge(&mut edges, count, from, child.saturating_add(1))?;
    }
    Ok(edges)
}

/// Edges that look random, one or two from each number.
pub(crate) fn scattered(alloc: Global, count: usize) -> Result<Vec<Edge>, AllocError>
    ensures { IfOk result (λ edges. AreInRange count edges.items) }
{
    let mut edges = Vec::new(alloc);
    for from in 0..count {
        let to = from.wrapping_mul(577).wrapping_add(13) % count;
        add_edge(&mut edges, count, from, to)?;
        if from % 5 == 0 {
            let to = from.wrapping_mul(331).wrapping_add(41) % count;
            add_edge(&mut edges, count, from, to)?;
        }
    }
    Ok(edges)
}

/// The least set of so many numbers that has the first ones and is closed under edges.
/// The set is left to the clause of `least_closed`: this is what tests compare with.
pub(crate) fn reached(
    alloc: Global,
    roots: usize,
    count: usize,
    edges: &[Edge],
) -> Result<Vec<bool>, AllocError>
    requires { AreInRange count edges.now }
{
    let mut marks = vec![in alloc; false; count]?;
    for mark in marks.iter_mut().take(roots) {
        *mark = true;
    }
    least_closed(alloc, &marks, edges)
}
