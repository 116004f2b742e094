//! What a section keeps where it is kept itself, as edges between the numbers of sections.

ghost use Rattle.std.specs.Prelude.{◌≡◌, ◌↔◌, ◌⊎◌, ◌+◌, ◌<◌, ◌≤◌, ℕ, All, Contains, IfOk, IfSome, OnOk, Some, length, map, slice_get};
ghost use Rattle.std.specs.List.{enumerate_from};
ghost use Rattle.link_closure.specs.Graph.{AreInRange, IsEdge};
ghost use Rattle.link_core_answer.specs.Seen.{seen};
ghost use Rattle.link_db.specs.Database.{symbol_names};
ghost use Rattle.link_db_files.specs.Inputs.{objects_in};
ghost use Rattle.link_db_symbols.specs.Lookups.{AreBelow};
ghost use Rattle.link_input.specs.ObjectFile.{ObjectFile};
ghost use Rattle.link_rules.specs.Selection.{Selection};
ghost use Rattle.link_rules.specs.World.{first_symbol_of};
ghost use Rattle.link_gc.specs.Gathering.{IsGroupEdge, IsHubEdge, IsReferenceEdge, kept_members};
ghost use Rattle.link_gc.specs.Numbering.{AreNumbersOf, IsOf, home_number, node_number, placed_number};

use crate::homes::home_number;
use crate::numbers::SectionNumbers;
use link_closure::Edge;
use link_core_answer::Linked;
use link_ids::SymbolId;
use link_input::{InputObject, Platform, SectionGroup};
use link_resolve_comdat::Candidate;
use link_resolve_discarded::{first_symbol, first_symbols};
use std::alloc::{AllocError, Global};

/// Adds an edge between two numbers, if both are given.
fn push_edge(
    edges: &mut Vec<Edge>,
    from: Option<usize>,
    to: Option<usize>,
) -> Result<(), AllocError>
    ensures edges { OnOk result ((n m : ℕ) → IsEdge edges.new.items n m ↔ (IsEdge edges.old.items n m ⊎ ((from ≡ Some n) × (to ≡ Some m)))) }
    ensures in_range { OnOk result ((count : ℕ) → IfSome from (λ n. n < count) → IfSome to (λ n. n < count)
        → AreInRange count edges.old.items → AreInRange count edges.new.items) }
{
    if let (Some(from), Some(to)) = (from, to) {
        edges.push(Edge { from, to })?;
    }
    Ok(())
}

/// Adds an edge for each reference of an object's sections. Its first symbol has this id.
fn push_references<P: Platform>(
    edges: &mut Vec<Edge>,
    linked: &Linked<P>,
    object: &Candidate<'_, P>,
    first: usize,
    numbers: &SectionNumbers,
    placed: &[Option<usize>],
) -> Result<(), AllocError>
    requires room { first + length object.now.1.object.symbols ≤ length (symbol_names (seen linked.now).db) }
    ensures edges { OnOk result ((l : Selection) → IsOf l (seen linked.now) → AreNumbersOf l numbers.now.spans.items numbers.now.groups.now
        → placed.now ≡ map (λ x. placed_number l x.origin) l.stage.symbols → first ≡ first_symbol_of l.stage object.now.0
        → (n m : ℕ) → IsEdge edges.new.items n m ↔ (IsEdge edges.old.items n m ⊎ IsReferenceEdge l object.now.0 object.now.1 n m)) }
    ensures in_range { OnOk result (AreBelow numbers.now.count placed.now → AreInRange numbers.now.count edges.old.items
        → AreInRange numbers.now.count edges.new.items) }
{
    // So ids name all symbols.
    prove!(linked.num_symbols() < 1 << 32);
    for reference in object.parsed.object().section_references() {
        let from = numbers.number(object.place, reference.from);
        let to = SymbolId::from_usize(first + reference.to as usize);
        push_edge(edges, from, home_number(linked, placed, to))?;
    }
    Ok(())
}

/// The members of a group that may be kept, by their numbers.
fn kept_members(
    alloc: Global,
    object: usize,
    group: &SectionGroup,
    numbers: &SectionNumbers,
) -> Result<Vec<usize>, AllocError>
    ensures members { IfOk result (λ members. (l : Selection) → AreNumbersOf l numbers.now.spans.items numbers.now.groups.now → members.items ≡ kept_members l object group.now) }
    ensures within { IfOk result (λ members. All (λ n. n < numbers.now.count) members.items) }
{
    let mut members = Vec::new(alloc);
    for member in group.members() {
        if let Some(number) = numbers.number(object, *member) {
            members.push(number)?;
        }
    }
    Ok(members)
}

/// Adds edges between the members of a group and the first of them, and one from that to the header: as many as there are members, and not one for each two of
/// them.
fn push_hub(
    edges: &mut Vec<Edge>,
    members: &[usize],
    header: Option<usize>,
) -> Result<(), AllocError>
    ensures edges { OnOk result ((n m : ℕ) → IsEdge edges.new.items n m ↔ (IsEdge edges.old.items n m ⊎ IsHubEdge members.now header n m)) }
    ensures in_range { OnOk result ((count : ℕ) → All (λ n. n < count) members.now → IfSome header (λ n. n < count)
        → AreInRange count edges.old.items → AreInRange count edges.new.items) }
{
    let hub = members.first().copied();
    for member in members {
        push_edge(edges, Some(*member), hub)?;
        push_edge(edges, hub, Some(*member))?;
    }
    push_edge(edges, hub, header)?;
    Ok(())
}

/// Adds the edges of an object's groups.
fn push_groups<P: Platform>(
    alloc: Global,
    edges: &mut Vec<Edge>,
    object: &Candidate<'_, P>,
    numbers: &SectionNumbers,
) -> Result<(), AllocError>
    ensures edges { OnOk result ((l : Selection) → AreNumbersOf l numbers.now.spans.items numbers.now.groups.now
        → (n m : ℕ) → IsEdge edges.new.items n m ↔ (IsEdge edges.old.items n m ⊎ IsGroupEdge l object.now.0 object.now.1 n m)) }
    ensures in_range { OnOk result (AreInRange numbers.now.count edges.old.items → AreInRange numbers.now.count edges.new.items) }
{
    for group in object.parsed.object().groups() {
        let members = kept_members(alloc, object.place, group, numbers)?;
        let header = numbers.number(object.place, group.index);
        push_hub(edges, &members, header)?;
    }
    Ok(())
}

/// The edges of all objects: those of the references of their sections, and those of their groups. They have the closed sets that the rules' own edges have.
pub(crate) fn edges<P: Platform>(
    alloc: Global,
    linked: &Linked<P>,
    objects: &[Candidate<'_, P>],
    numbers: &SectionNumbers,
    placed: &[Option<usize>],
) -> Result<Vec<Edge>, AllocError>
    requires objects { objects.now ≡ enumerate_from 0 (objects_in (seen linked.now).db.mapping.files.groups) }
    requires placed { AreBelow numbers.now.count placed.now }
    ensures edges { IfOk result (λ edges. (l : Selection) → IsOf l (seen linked.now) → AreNumbersOf l numbers.now.spans.items numbers.now.groups.now
        → placed.now ≡ map (λ x. placed_number l x.origin) l.stage.symbols
        → (n m : ℕ) → IsEdge edges.items n m ↔ ((f : ℕ) × (o : ObjectFile) × (slice_get l.stage.objects f ≡ Some o) × (IsReferenceEdge l f o n m ⊎ IsGroupEdge l f o n m))) }
    ensures in_range { IfOk result (λ edges. AreInRange numbers.now.count edges.items) }
{
    let firsts = first_symbols(alloc, linked.db().files(), objects.len())?;
    let mut edges = Vec::new(alloc);
    for object in objects {
        let first = first_symbol(&firsts, object.place);
        push_references(&mut edges, linked, object, first, numbers, placed)?;
        push_groups(alloc, &mut edges, object, numbers)?;
    }
    Ok(edges)
}
