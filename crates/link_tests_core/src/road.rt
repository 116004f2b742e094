//! The road that the program takes to threads: `link_symbols`. Where one thread alone reads, three of these tests fail. Where another gate is handed on, those
//! that count what comes to the gate do. Where the gate's second call isn't made, the test fails that waits for an item that is read.

use crate::gates::{Following, Meeting, Moment};
use crate::loading::count_of;
use crate::shape::{Kind, Shape, inputs_of};
use link_claim::Gate;
use link_core::link_symbols;
use link_core_answer::Linked;
use link_ids::SymbolId;
use link_input::{ElfLike, Options, Scripts};
use link_rules::LinkError;
use link_script::Plain;
use std::alloc::Global;
use std::sync::atomic::Ordering;
use std::test::Fail;
use std::thread::Threads;

/// The link of a shape's objects, by two to four workers.
fn linked<R: Threads + Sync, G: Gate + Sync>(
    rt: &R,
    alloc: Global,
    gate: &G,
    workers: usize,
    shape: &Shape,
) -> Result<Linked<ElfLike>, LinkError> {
    let inputs = inputs_of(alloc, shape)?;
    let texts = Scripts {
        version_script: None,
        export_list: None,
    };
    let options = Options::new(alloc);
    let workers = workers.max(2).min(4);
    link_symbols(rt, alloc, gate, inputs, options, texts, &Plain, workers)
}

/// How many objects of a shape are loaded.
fn loaded<R: Threads + Sync, G: Gate + Sync>(
    rt: &R,
    alloc: Global,
    gate: &G,
    workers: usize,
    shape: &Shape,
) -> Result<usize, LinkError> {
    let linked = linked(rt, alloc, gate, workers, shape)?;
    Ok(count_of(linked.resolved().loaded()))
}

/// What the symbol of this number means; none where there is no such symbol.
fn meaning(linked: &Linked<ElfLike>, symbol: usize) -> Option<usize> {
    if symbol >= linked.num_symbols() {
        return None;
    }
    Some(linked.definition(SymbolId::from_usize(symbol)).as_usize())
}

/// The object whose COMDAT group is kept; none where that isn't just one.
fn kept(linked: &Linked<ElfLike>) -> Option<usize> {
    match linked.kept_comdats() {
        [group] => Some(group.object),
        _ => None,
    }
}

#[test]
fn four_workers_read_beside_each_other(rt: HostRuntime) -> Result<(), Fail> {
    let shape = Shape::without_symbols(rt.alloc(), 4, 4)?;
    let gate = Meeting::of(4);
    let count = loaded(&rt, rt.alloc(), &gate, 4, &shape)?;
    let met = gate.came.load(Ordering::SeqCst) == 4 && gate.late.load(Ordering::SeqCst) == 0;
    assert!(rt; met && count == 4);
    Ok(())
}

/// The member that the first object asks for is begun while the second object still waits.
#[test]
fn there_are_no_rounds(rt: HostRuntime) -> Result<(), Fail> {
    let mut shape = Shape::without_symbols(rt.alloc(), 2, 3)?;
    shape.add(0, 7, Kind::Reference)?;
    shape.add(2, 7, Kind::Definition)?;
    let gate = Following::of(1, 2, Moment::Begun);
    let count = loaded(&rt, rt.alloc(), &gate, 2, &shape)?;
    assert!(rt; count == 3 && gate.late.load(Ordering::SeqCst) == 0);
    Ok(())
}

/// Of two COMDAT groups the first one is kept, though its object is read once the other one was.
#[test]
fn the_first_group_is_kept_though_it_is_read_last(rt: HostRuntime) -> Result<(), Fail> {
    let mut shape = Shape::without_symbols(rt.alloc(), 2, 2)?;
    shape.is_comdat = true;
    shape.add(0, 7, Kind::Definition)?;
    shape.add(1, 7, Kind::Definition)?;
    let gate = Following::of(0, 1, Moment::Read);
    let linked = linked(&rt, rt.alloc(), &gate, 2, &shape)?;
    let first = kept(&linked) == Some(0);
    let means = meaning(&linked, 2) == Some(2) && meaning(&linked, 4) == Some(2);
    drop(linked);
    assert!(rt; first && means && gate.late.load(Ordering::SeqCst) == 0);
    Ok(())
}

/// An object of so many symbols behind the null entry is so many items, each begun once.
const ITEMS: &[(usize, u64)] = &[(0, 1), (4_999, 1), (5_000, 2)];

#[test]
fn an_object_is_read_in_items_of_5000_symbols(rt: HostRuntime) -> Result<(), Fail> {
    for &(symbols, items) in ITEMS {
        let mut shape = Shape::without_symbols(rt.alloc(), 1, 1)?;
        for name in 0..symbols {
            shape.add(0, name, Kind::Reference)?;
        }
        let gate = Meeting::of(0);
        let count = loaded(&rt, rt.alloc(), &gate, 2, &shape)?;
        let begun = gate.came.load(Ordering::SeqCst);
        assert!(rt; count == 1 && begun == items, "{begun} items");
    }
    Ok(())
}
