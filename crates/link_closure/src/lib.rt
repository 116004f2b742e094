//! The least closed set: the files of a link are the least set that holds the roots, and with each file all that it
//! asks for. Here stands what that means for any roots and any edges, and the plain way to compute it. Beside it stands
//! what a workload is, for those who mean one and those who run it: the items of files, what each requests and marks, and
//! which flags that leaves.
//!
//! Some of its public calls are for callers of the library alone, and no crate here makes them: docs/PORT.md lists them.
#![tactic(auto)]

mod breadth_first;
mod workload;

ghost use Rattle.std.specs.Prelude.{◌≡◌, ◌↔◌, ◌⊎◌, [], ◌+◌, ◌<◌, ◌≤◌, ℕ, Bool, List, not, length, count_by, Contains, All, IfOk, OnOk, IsTrue};
ghost use Rattle.link_closure.specs.Closure.{IsLeastClosed, is_marked};
ghost use Rattle.link_closure.specs.Graph.{IsMarked, IsEdge, AreInRange, Leads, AreBelow};

pub use breadth_first::{levels, levels_of_the_least_closed_set};
use std::alloc::{AllocError, Global};
pub use workload::{Item, Mark, Workload};

/// One number leads to another.
#[derive(Clone, Copy, Debug, PartialEq, Eq)]
pub struct Edge {
    pub from: usize,
    pub to: usize,
}

/// The mark of this number; none is set past the end.
pub fn is_marked(marks: &[bool], number: usize) -> bool
    ensures { result ≡ is_marked marks.now number }
{
    marks.get(number).copied().unwrap_or(false)
}

/// The least set that holds the roots, and with each number all to which an edge leads from it: a mark for each number,
/// and the only marks for which that is so. Takes time in the number of marks and of edges.
pub fn least_closed(alloc: Global, roots: &[bool], edges: &[Edge]) -> Result<Vec<bool>, AllocError>
    requires in_range { AreInRange (length roots.now) edges.now }
    ensures { IfOk result (λ marks. IsLeastClosed (IsMarked roots.now) (IsEdge edges.now) (length roots.now) marks.items) }
{
    let rows = rows_of(alloc, roots.len(), edges)?;
    closed_over_rows(alloc, roots, &rows)
}

/// There is one least closed set: two sets that are the least are the same.
pub fn one_least_closed_set()
    ensures { (root : ℕ → Bool) (leads : ℕ → ℕ → Bool) (count : ℕ) (a b : List Bool)
        → IsLeastClosed (λ f. IsTrue (root f)) (λ f g. IsTrue (leads f g)) count a
        → IsLeastClosed (λ f. IsTrue (root f)) (λ f g. IsTrue (leads f g)) count b → a ≡ b }
{}

/// The rows of a graph that is given by its edges.
fn rows_of(alloc: Global, count: usize, edges: &[Edge]) -> Result<Vec<Vec<usize>>, AllocError>
    requires { AreInRange count edges.now }
    ensures each { IfOk result (λ rows. length rows.items ≡ count) }
    ensures leads { IfOk result (λ rows. (f g : ℕ) → Leads rows.items f g ↔ IsEdge edges.now f g) }
    ensures below { IfOk result (λ rows. AreBelow count rows.items) }
{
    let mut rows = empty_rows(alloc, count)?;
    for edge in edges {
        push_to_row(&mut rows, edge.from, edge.to)?;
    }
    Ok(rows)
}

/// Rows that lead nowhere.
fn empty_rows(alloc: Global, count: usize) -> Result<Vec<Vec<usize>>, AllocError>
    ensures each { IfOk result (λ rows. length rows.items ≡ count) }
    ensures empty { IfOk result (λ rows. All (λ row. row.items ≡ []) rows.items) }
{
    let mut rows = Vec::new(alloc);
    for _number in 0..count {
        rows.push(Vec::new(alloc))?;
    }
    Ok(rows)
}

/// Adds a number to a row.
fn push_to_row(rows: &mut [Vec<usize>], from: usize, to: usize) -> Result<(), AllocError>
    requires { from < length rows.old }
    ensures old { OnOk result ((f g : ℕ) → Leads rows.old f g → Leads rows.new f g) }
    ensures new { OnOk result (Leads rows.new from to) }
    ensures only { OnOk result ((f g : ℕ) → Leads rows.new f g → Leads rows.old f g ⊎ ((f ≡ from) × (g ≡ to))) }
    ensures below { (n : ℕ) → to < n → AreBelow n rows.old → AreBelow n rows.new }
{
    rows[from].push(to)?;
    Ok(())
}

/// The same over rows: for each number those to which it leads.
fn closed_over_rows(
    alloc: Global,
    roots: &[bool],
    graph: &[Vec<usize>],
) -> Result<Vec<bool>, AllocError>
    requires same_length { length graph.now ≡ length roots.now }
    requires in_range { AreBelow (length roots.now) graph.now }
    ensures { IfOk result (λ marks. IsLeastClosed (IsMarked roots.now) (Leads graph.now) (length roots.now) marks.items) }
{
    let mut marks = roots.to_vec(alloc)?;
    let mut todo = roots_listed(alloc, roots)?;
    while let Some(number) = todo.pop() {
        mark_row(&mut marks, &mut todo, &graph[number])?;
    }
    Ok(marks)
}

/// Marks a number, and puts it on the list of those that wait, if it is new.
fn mark_one(marks: &mut [bool], todo: &mut Vec<usize>, number: usize) -> Result<(), AllocError>
    requires { number < length marks.old }
    ensures marked { OnOk result (IsMarked marks.new number) }
    ensures kept { (f : ℕ) → IsMarked marks.old f → IsMarked marks.new f }
    ensures waits { OnOk result ((f : ℕ) → IsMarked marks.new f → IsMarked marks.old f ⊎ Contains todo.new.items f) }
    ensures only { (f : ℕ) → IsMarked marks.new f → IsMarked marks.old f ⊎ (f ≡ number) }
    ensures waiting { (f : ℕ) → Contains todo.old.items f → Contains todo.new.items f }
    ensures listed { (f : ℕ) → Contains todo.new.items f → Contains todo.old.items f ⊎ IsMarked marks.new f }
    ensures below { All (λ f. f < length marks.old) todo.old.items → All (λ f. f < length marks.old) todo.new.items }
    ensures fewer { OnOk result (count_by not marks.new + length todo.new.items ≡ count_by not marks.old + length todo.old.items) }
{
    if !marks[number] {
        marks[number] = true;
        todo.push(number)?;
    }
    Ok(())
}

/// Marks each number of a row, and puts the new ones on the list of those that wait.
fn mark_row(marks: &mut [bool], todo: &mut Vec<usize>, row: &[usize]) -> Result<(), AllocError>
    requires { All (λ g. g < length marks.old) row.now }
    ensures row { OnOk result ((g : ℕ) → Contains row.now g → IsMarked marks.new g) }
    ensures kept { (f : ℕ) → IsMarked marks.old f → IsMarked marks.new f }
    ensures waits { OnOk result ((f : ℕ) → IsMarked marks.new f → IsMarked marks.old f ⊎ Contains todo.new.items f) }
    ensures only { (f : ℕ) → IsMarked marks.new f → IsMarked marks.old f ⊎ Contains row.now f }
    ensures waiting { (f : ℕ) → Contains todo.old.items f → Contains todo.new.items f }
    ensures listed { (f : ℕ) → Contains todo.new.items f → Contains todo.old.items f ⊎ IsMarked marks.new f }
    ensures below { All (λ f. f < length marks.old) todo.old.items → All (λ f. f < length marks.old) todo.new.items }
    ensures fewer { OnOk result (count_by not marks.new + length todo.new.items ≡ count_by not marks.old + length todo.old.items) }
{
    for number in row {
        mark_one(marks, todo, *number)?;
    }
    Ok(())
}

/// The numbers of the roots.
fn roots_listed(alloc: Global, roots: &[bool]) -> Result<Vec<usize>, AllocError>
    ensures listed { IfOk result (λ found. (f : ℕ) → IsMarked roots.now f → Contains found.items f) }
    ensures only { IfOk result (λ found. (f : ℕ) → Contains found.items f → IsMarked roots.now f) }
    ensures below { IfOk result (λ found. All (λ f. f < length roots.now) found.items) }
{
    let mut found = Vec::new(alloc);
    for (i, root) in roots.iter().enumerate() {
        if *root {
            found.push(i)?;
        }
    }
    Ok(found)
}
