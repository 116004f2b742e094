//! The edges that leave a node, among edges in the order of the nodes that they leave.

ghost use Rattle.std.specs.Prelude.{◌≡◌};
ghost use Rattle.std.specs.List.Sorted.{IsNonDecreasingBy};
ghost use Rattle.link_closure.specs.declared.Edge.{Edge};
ghost use Rattle.link_gc_marking.specs.Outgoing.{AreOutgoing};

use link_closure::Edge;

/// The edges that leave a node: those from the first of these two places up to before the second.
#[derive(Clone, Copy)]
pub(crate) struct OutgoingEdges {
    pub(crate) start: usize,
    pub(crate) end: usize,
}

/// The edges that leave the node, by two searches that halve what is left at each step.
pub(crate) fn outgoing_edges(edges: &[Edge], node: usize) -> OutgoingEdges
    requires { IsNonDecreasingBy (λ (e : Edge). e.from) edges.now }
    ensures { AreOutgoing edges.now node result }
{
    let start = edges.partition_point(|edge| edge.from < node);
    let end = edges.partition_point(|edge| edge.from <= node);
    OutgoingEdges { start, end }
}
