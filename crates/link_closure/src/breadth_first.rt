//! Levels: how few edges lead from a root to a number, found breadth first, and laws about them.

ghost use Rattle.std.specs.Prelude.{◌≡◌, ◌<◌, ◌+◌, [], ℕ, Bool, List, length, Contains, All, IfOk, OnOk, IsTrue};
ghost use Rattle.link_closure.specs.Closure.{IsLeastClosed, is_marked};
ghost use Rattle.link_closure.specs.Graph.{IsMarked, IsEdge, AreInRange, Leads, AreBelow};
ghost use Rattle.link_closure.specs.Levels.{HasChain, IsLevel, AreLevels, Layered};

use crate::{Edge, rows_of};
use std::alloc::{AllocError, Global};

/// The level of each number: how many edges the shortest chain has that leads to it from a root. None stands where no
/// chain leads. Takes time in the number of roots and of edges.
pub fn levels(
    alloc: Global,
    roots: &[bool],
    edges: &[Edge],
) -> Result<Vec<Option<usize>>, AllocError>
    requires in_range { AreInRange (length roots.now) edges.now }
    ensures { IfOk result (λ levels. AreLevels (IsMarked roots.now) (IsEdge edges.now) (length roots.now) levels.items) }
{
    let rows = rows_of(alloc, roots.len(), edges)?;
    levels_over_rows(alloc, roots, &rows)
}

/// The same over rows: for each number those to which it leads. One layer after another gets its level.
fn levels_over_rows(
    alloc: Global,
    roots: &[bool],
    graph: &[Vec<usize>],
) -> Result<Vec<Option<usize>>, AllocError>
    requires same_length { length graph.now ≡ length roots.now }
    requires in_range { AreBelow (length roots.now) graph.now }
    ensures { IfOk result (λ levels. AreLevels (IsMarked roots.now) (Leads graph.now) (length roots.now) levels.items) }
{
    let mut levels = vec![in alloc; None; roots.len()]?;
    let mut layer = root_layer(alloc, &mut levels, roots)?;
    let mut level = 0;
    while !layer.is_empty() {
        level += 1;
        layer = next_layer(alloc, &mut levels, graph, &layer, level)?;
    }
    Ok(levels)
}

/// Gives a number this level, and puts it into the layer, if it has no level yet.
fn reach_one(
    levels: &mut [Option<usize>],
    layer: &mut Vec<usize>,
    number: usize,
    level: usize,
) -> Result<(), AllocError>
    requires { number < length levels.old }
    ensures { OnOk result (Layered (λ g. g ≡ number) level levels.old levels.new layer.old.items layer.new.items) }
{
    if levels[number].is_none() {
        levels[number] = Some(level);
        layer.push(number)?;
    }
    Ok(())
}

/// The same for each number of a row.
fn reach_row(
    levels: &mut [Option<usize>],
    layer: &mut Vec<usize>,
    row: &[usize],
    level: usize,
) -> Result<(), AllocError>
    requires { All (λ g. g < length levels.old) row.now }
    ensures { OnOk result (Layered (Contains row.now) level levels.old levels.new layer.old.items layer.new.items) }
{
    for number in row {
        reach_one(levels, layer, *number, level)?;
    }
    Ok(())
}

/// The roots, which get level 0.
fn root_layer(
    alloc: Global,
    levels: &mut [Option<usize>],
    roots: &[bool],
) -> Result<Vec<usize>, AllocError>
    requires { length levels.old ≡ length roots.now }
    ensures { IfOk result (λ layer. Layered (IsMarked roots.now) 0 levels.old levels.new [] layer.items) }
{
    let mut layer = Vec::new(alloc);
    for (number, root) in roots.iter().enumerate() {
        if *root {
            reach_one(levels, &mut layer, number, 0)?;
        }
    }
    Ok(layer)
}

/// What a layer leads to and has no level yet, which gets this one.
fn next_layer(
    alloc: Global,
    levels: &mut [Option<usize>],
    graph: &[Vec<usize>],
    layer: &[usize],
    level: usize,
) -> Result<Vec<usize>, AllocError>
    requires same_length { length graph.now ≡ length levels.old }
    requires in_range { AreBelow (length levels.old) graph.now }
    requires layer { All (λ f. f < length levels.old) layer.now }
    ensures { IfOk result (λ next. Layered (λ g. (f : ℕ) × Contains layer.now f × Leads graph.now f g) level levels.old levels.new [] next.items) }
{
    let mut next = Vec::new(alloc);
    for number in layer {
        reach_row(levels, &mut next, &graph[*number], level)?;
    }
    Ok(next)
}

/// Levels of the least closed set: each of its numbers has one, below how many numbers there are, and nothing else has any.
/// A number has one level. What is of the level 0 is a root, and what is of a later level has an edge from what is of the
/// level before, so that as many steps back lead to a root.
pub fn levels_of_the_least_closed_set()
    ensures some { (root : ℕ → Bool) (leads : ℕ → ℕ → Bool) (count f : ℕ) (marks : List Bool)
        → IsLeastClosed (λ f. IsTrue (root f)) (λ f g. IsTrue (leads f g)) count marks → IsMarked marks f
        → (n : ℕ) × (n < count) × IsLevel (λ f. IsTrue (root f)) (λ f g. IsTrue (leads f g)) n f }
    ensures only { (root : ℕ → Bool) (leads : ℕ → ℕ → Bool) (count n f : ℕ) (marks : List Bool)
        → IsLeastClosed (λ f. IsTrue (root f)) (λ f g. IsTrue (leads f g)) count marks
        → HasChain (λ f. IsTrue (root f)) (λ f g. IsTrue (leads f g)) n f → IsMarked marks f }
    ensures one { (root : ℕ → Bool) (leads : ℕ → ℕ → Bool) (n m f : ℕ)
        → IsLevel (λ f. IsTrue (root f)) (λ f g. IsTrue (leads f g)) n f
        → IsLevel (λ f. IsTrue (root f)) (λ f g. IsTrue (leads f g)) m f → n ≡ m }
    ensures root { (root : ℕ → Bool) (leads : ℕ → ℕ → Bool) (f : ℕ)
        → IsLevel (λ f. IsTrue (root f)) (λ f g. IsTrue (leads f g)) 0 f → IsTrue (root f) }
    ensures step { (root : ℕ → Bool) (leads : ℕ → ℕ → Bool) (n f : ℕ)
        → IsLevel (λ f. IsTrue (root f)) (λ f g. IsTrue (leads f g)) (n + 1) f
        → (e : ℕ) × IsLevel (λ f. IsTrue (root f)) (λ f g. IsTrue (leads f g)) n e × IsTrue (leads e f) }
{}
