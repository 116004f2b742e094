//! What threads load, and that they run beside each other.

use crate::gates::Meeting;
use crate::graphs::{reached, scattered};
use crate::outcome::{load, load_files};
use crate::shape::{Kind, Shape, chain_files};
use link_claim::OpenGate;
use link_rules::LinkError;
use std::sync::atomic::Ordering;
use std::test::Fail;

/// How many workers load a link, beside one.
const MANY: &[usize] = &[2, 7, 64, 256];

const FEW: &[usize] = &[1, 3, 8];

#[test]
fn four_objects_are_read_beside_each_other(rt: HostRuntime) -> Result<(), Fail> {
    let shape = Shape::without_symbols(rt.alloc(), 4, 4)?;
    let gate = Meeting::of(4);
    let outcome = load(&rt, rt.alloc(), &gate, 4, &shape)?;
    let met = gate.came.load(Ordering::SeqCst) == 4 && gate.late.load(Ordering::SeqCst) == 0;
    assert!(rt; met && outcome.count() == 4);
    Ok(())
}

#[test]
fn threads_load_what_the_plain_work_list_finds(rt: HostRuntime) -> Result<(), Fail> {
    let edges = scattered(rt.alloc(), 300)?;
    let wanted = reached(rt.alloc(), 3, 300, &edges)?;
    let shape = Shape::of_edges(rt.alloc(), 3, 300, &edges)?;
    let first = load(&rt, rt.alloc(), &OpenGate, 1, &shape)?;
    let count = first.count();
    assert!(rt;
        first.loaded == wanted && 30 < count && count < 290,
        "{count}"
    );
    for workers in MANY {
        let outcome = load(&rt, rt.alloc(), &OpenGate, *workers, &shape)?;
        assert!(rt; outcome == first, "with {workers} workers");
    }
    Ok(())
}

#[test]
fn a_link_without_objects_is_refused(rt: HostRuntime) -> Result<(), Fail> {
    let shape = Shape::without_symbols(rt.alloc(), 0, 0)?;
    let outcome = load(&rt, rt.alloc(), &OpenGate, 2, &shape);
    assert!(rt; matches!(outcome, Err(LinkError::NoInputs)));
    Ok(())
}

/// Chains of so many members, each with how many workers load it.
const CHAINS: &[(usize, usize)] = &[(1, 1), (3, 2), (100_000, 8)];

/// Each member of a chain has a null entry, a definition and but for the last one a reference, which stands for the definition of the next member.
#[test]
fn a_chain_is_loaded_to_its_end(rt: HostRuntime) -> Result<(), Fail> {
    for &(members, workers) in CHAINS {
        let files = chain_files(rt.alloc(), members)?;
        let outcome = load_files(&rt, rt.alloc(), &OpenGate, workers, files)?;
        let all = outcome.count() == members.saturating_add(1);
        let requested = outcome.requests == members as u64;
        let linked = (0..members).all(|member| {
            let reference = member.wrapping_mul(3).wrapping_add(2);
            let definition = reference.wrapping_add(2);
            outcome.target_of(reference) == Some(definition)
                && outcome.points_to(reference) == Some(definition)
        });
        assert!(rt; all && requested && linked, "with {members} members");
    }
    Ok(())
}

/// An object asks for a name that 10,000 members define, each weakly but the last: of these only the first is loaded.
#[test]
fn the_first_of_many_rivals_is_loaded(rt: HostRuntime) -> Result<(), Fail> {
    let mut shape = Shape::without_symbols(rt.alloc(), 1, 10_001)?;
    shape.add(0, 7, Kind::Reference)?;
    for member in 1..10_000 {
        shape.add(member, 7, Kind::WeakDefinition)?;
    }
    shape.add(10_000, 7, Kind::Definition)?;
    let outcome = load(&rt, rt.alloc(), &OpenGate, 4, &shape)?;
    // Behind the undefined symbol each object has a null entry and its own one.
    let point = outcome
        .table
        .iter()
        .skip(2)
        .step_by(2)
        .all(|to| to.as_usize() == 4);
    let two = outcome.count() == 2 && outcome.loaded.iter().take(2).all(|mark| *mark);
    assert!(rt; point && two && outcome.requests == 1);
    Ok(())
}

/// An object of 10,001 symbols is three items, each begun once.
#[test]
fn a_big_object_is_read_in_parts(rt: HostRuntime) -> Result<(), Fail> {
    let mut shape = Shape::without_symbols(rt.alloc(), 1, 1)?;
    for name in 0..10_000 {
        shape.add(0, name, Kind::Reference)?;
    }
    for workers in FEW {
        let gate = Meeting::of(0);
        let outcome = load(&rt, rt.alloc(), &gate, *workers, &shape)?;
        let begun = gate.came.load(Ordering::SeqCst);
        assert!(rt; begun == 3 && outcome.requests == 0, "{begun} items");
    }
    Ok(())
}
