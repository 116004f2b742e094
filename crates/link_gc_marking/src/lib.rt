//! The marking of sections that are kept (`--gc-sections`): which nodes of a graph are live. Threads find them on the
//! shared words by which they also load files.
#![tactic(auto)]

mod outgoing;
mod plan;

ghost use Rattle.std.specs.Prelude.{◌≡◌, ◌<◌, ◌≤◌, IfOk, length};
ghost use Rattle.link_closure.specs.Closure.{IsLeastClosed};
ghost use Rattle.link_closure.specs.Graph.{IsMarked, IsEdge, AreInRange};
ghost use Rattle.link_claim.specs.Seats.{IsSettled, claimed_in};

use crate::plan::MarkingPlan;
use link_claim::{Closed, Gate, Words};
use link_claim_pool::read_all;
use link_closure::Edge;
use std::alloc::{AllocError, Global};
use std::thread::Threads;

/// The least set that holds the roots, and with each node all to which an edge leads from it: a mark for each node, and
/// the only marks for which that is so. The edges come in any order. So many workers look for the set, but no more than
/// there are nodes, and each node's edges are read between two calls of the gate. The only refusal is want of memory.
pub fn mark_live<R: Threads + Sync, G: Gate + Sync>(
    rt: &R,
    alloc: Global,
    gate: &G,
    workers: usize,
    roots: &[bool],
    edges: Vec<Edge>,
) -> Result<Vec<bool>, AllocError>
    requires some { 0 < workers }
    requires most { workers ≤ 256 }
    requires in_range { AreInRange (length roots.now) edges.items }
    ensures { IfOk result (λ marks. IsLeastClosed (IsMarked roots.now) (IsEdge edges.items) (length roots.now) marks.items) }
{
    let plan = MarkingPlan::new(alloc, roots, edges)?;
    let workers = workers.min(roots.len()).max(1);
    let (words, seat) = Words::create(alloc, &plan)?;
    let all = read_all(rt, alloc, gate, workers, &plan, words, seat)?;
    claimed_marks(alloc, &all.closed, roots.len())
}

/// Which files were claimed, a mark for each.
fn claimed_marks(alloc: Global, closed: &Closed, files: usize) -> Result<Vec<bool>, AllocError>
    requires { files ≡ closed.now.view.work.files }
    ensures { IfOk result (λ marks. IsSettled closed.now → marks.items ≡ claimed_in closed.now) }
{
    let mut marks = Vec::with_capacity(alloc, files)?;
    for file in 0..files {
        marks.push(closed.is_claimed(file))?;
    }
    Ok(marks)
}
