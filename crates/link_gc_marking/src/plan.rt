//! The plan of the marking: a node is a file with one item, which requests those to which an edge leads from the node.
//! There are no symbols and no marks of them.

ghost use Rattle.std.specs.Prelude.{◌≡◌, IfOk, filter, length};
ghost use Rattle.std.specs.List.{range_with_len};
ghost use Rattle.std.specs.List.Sorted.{IsNonDecreasingBy, IsPermutation};
ghost use Rattle.link_closure.specs.Closure.{is_marked};
ghost use Rattle.link_closure.specs.Graph.{AreInRange};
ghost use Rattle.link_closure.specs.Workload.{IsSound};
ghost use Rattle.link_closure.specs.declared.Edge.{Edge};
ghost use Rattle.link_claim.specs.Workload.{FitsU32};
ghost use Rattle.link_gc_marking.specs.Marking.{marking};

use crate::outgoing::{OutgoingEdges, outgoing_edges};
use bitflags::Flags;
use link_claim::Plan;
use link_claim_pool::Readable;
use link_closure::Edge;
use link_flags::ValueFlags;
use link_ids::SymbolId;
use std::alloc::{AllocError, Global};

/// A graph as work that threads share.
#[derive(Drop)]
pub(crate) struct MarkingPlan<'a> {
    /// A mark for each node, set where it is a root, and the numbers of the roots.
    pub(crate) roots: &'a [bool],
    pub(crate) root_nodes: Vec<usize>,
    /// In the order of the nodes that they leave, so that those of one node stand side by side.
    pub(crate) edges: Vec<Edge>,
    ghost listed: { root_nodes.items ≡ filter (is_marked roots.now) (range_with_len 0 (length roots.now)) },
    ghost in_order: { IsNonDecreasingBy (λ (e : Edge). e.from) edges.items },
    ghost is_sound: { IsSound (marking roots.now edges.items) },
    ghost does_fit: { FitsU32 (marking roots.now edges.items) },
}

impl<'a> MarkingPlan<'a> {
    /// The plan of a graph, whose edges come in any order. The only refusal is want of memory.
    pub(crate) fn new(
        alloc: Global,
        roots: &'a [bool],
        mut edges: Vec<Edge>,
    ) -> Result<Self, AllocError>
        requires in_range { AreInRange (length roots.now) edges.items }
        ensures roots { IfOk result (λ plan. plan.roots.now ≡ roots.now) }
        ensures edges { IfOk result (λ plan. IsPermutation edges.items plan.edges.items) }
    {
        let root_nodes = marked_numbers(alloc, roots)?;
        edges.sort_unstable_by_key(|edge| edge.from);
        Ok(MarkingPlan {
            roots,
            root_nodes,
            edges,
        })
    }
}

/// The numbers of the marks that are set.
fn marked_numbers(alloc: Global, marks: &[bool]) -> Result<Vec<usize>, AllocError>
    ensures { IfOk result (λ numbers. numbers.items ≡ filter (is_marked marks.now) (range_with_len 0 (length marks.now))) }
{
    let mut numbers = Vec::new(alloc);
    for number in 0..marks.len() {
        if marks[number] {
            numbers.push(number)?;
        }
    }
    Ok(numbers)
}

impl<'a> Plan for MarkingPlan<'a> {
    ghost use Rattle.link_gc_marking.specs.Marking.{marking};

    ghost work = { λ p. marking p.roots.now p.edges.items };

    fn files(&self) -> usize {
        self.roots.len()
    }

    fn items(&self) -> usize {
        self.roots.len()
    }

    fn symbols(&self) -> usize {
        0
    }

    fn is_root(&self, file: usize) -> bool {
        self.roots[file]
    }

    fn file_of(&self, item: usize) -> usize {
        item
    }

    fn opening(&self, _symbol: SymbolId) -> ValueFlags {
        ValueFlags::empty()
    }

    ghost sound = { λ p. p.is_sound };

    ghost fits = { λ p. p.does_fit };
}

impl<'a> Readable for MarkingPlan<'a> {
    ghost use Rattle.link_gc_marking.specs.Outgoing.{AreOutgoing};

    type Read = OutgoingEdges;

    type Found = ();

    ghost read_in = { λ p item read. AreOutgoing p.edges.items item read };

    ghost found_in = { λ p item found. Unit {0} };

    fn root_count(&self) -> usize {
        self.root_nodes.len()
    }

    fn root_at(&self, index: usize) -> Option<usize> {
        self.root_nodes.get(index).copied()
    }

    fn root_mark_count(&self) -> usize {
        0
    }

    fn root_mark_at(&self, _index: usize) -> Option<(SymbolId, ValueFlags)> {
        None
    }

    fn read(&self, _alloc: Global, item: usize) -> Result<OutgoingEdges, AllocError> {
        Ok(outgoing_edges(self.edges.as_slice(), item))
    }

    fn request_count(&self, _item: usize, read: &OutgoingEdges) -> usize {
        read.end - read.start
    }

    fn request_at(&self, _item: usize, read: &OutgoingEdges, index: usize) -> Option<usize> {
        let outgoing = &self.edges.as_slice()[read.start..read.end];
        let edge = outgoing.get(index)?;
        Some(edge.to)
    }

    fn mark_count(&self, _item: usize, _read: &OutgoingEdges) -> usize {
        0
    }

    fn mark_at(
        &self,
        _item: usize,
        _read: &OutgoingEdges,
        _index: usize,
    ) -> Option<(SymbolId, ValueFlags)> {
        None
    }

    fn found(&self, _item: usize, _read: OutgoingEdges) {}

    fn items_of(&self, file: usize) -> (usize, usize) {
        (file, 1)
    }
}
