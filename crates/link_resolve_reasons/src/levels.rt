//! How few references lead to an object from what is loaded without any.

ghost use Rattle.std.specs.Prelude.{◌≡◌, ◌++◌, IfOk, OnOk, length, option_to_list};
ghost use Rattle.link_closure.specs.Graph.{AreInRange, IsEdge, IsMarked};
ghost use Rattle.link_closure.specs.Levels.{AreLevels};
ghost use Rattle.link_resolve_reasons.specs.Told.{edge_in, edges_in, rooted_marks};

use crate::firsts::entry_at;
use crate::requests::Request;
use link_closure::{Edge, levels};
use std::alloc::{AllocError, Global};

/// A mark for each object that is loaded in any case, or was found for a root name.
fn rooted_marks(
    alloc: Global,
    mandatory: &[bool],
    first_roots: &[Option<usize>],
) -> Result<Vec<bool>, AllocError>
    ensures { IfOk result (λ marks. marks.items ≡ rooted_marks mandatory.now first_roots.now) }
{
    let mut marks = Vec::with_capacity(alloc, mandatory.len())?;
    for (object, is_mandatory) in mandatory.iter().enumerate() {
        marks.push(*is_mandatory || entry_at(first_roots, object).is_some())?;
    }
    Ok(marks)
}

/// Adds the edge of a request between objects below a count. There is no other, since objects have places.
fn push_edge(edges: &mut Vec<Edge>, count: usize, request: &Request) -> Result<(), AllocError>
    ensures edge { OnOk result (edges.new.items ≡ edges.old.items ++ option_to_list (edge_in count request.now)) }
    ensures within { AreInRange count edges.old.items → AreInRange count edges.new.items }
{
    if request.from < count && request.to < count {
        edges.push(Edge {
            from: request.from,
            to: request.to,
        })?;
    }
    Ok(())
}

/// The edges of all requests.
fn edges_of(alloc: Global, count: usize, requests: &[Request]) -> Result<Vec<Edge>, AllocError>
    ensures edges { IfOk result (λ edges. edges.items ≡ edges_in count requests.now) }
    ensures within { IfOk result (λ edges. AreInRange count edges.items) }
{
    let mut edges = Vec::new(alloc);
    for request in requests {
        push_edge(&mut edges, count, request)?;
    }
    Ok(edges)
}

/// The level of each object. The only refusal is want of memory.
pub fn object_levels(
    alloc: Global,
    mandatory: &[bool],
    first_roots: &[Option<usize>],
    requests: &[Request],
) -> Result<Vec<Option<usize>>, AllocError>
    ensures { IfOk result (λ levels. AreLevels (IsMarked (rooted_marks mandatory.now first_roots.now))
        (IsEdge (edges_in (length (rooted_marks mandatory.now first_roots.now)) requests.now)) (length (rooted_marks mandatory.now first_roots.now)) levels.items) }
{
    let marks = rooted_marks(alloc, mandatory, first_roots)?;
    let edges = edges_of(alloc, marks.len(), requests)?;
    levels(alloc, &marks, &edges)
}
