// The order by repeated choice.
ghost use Rattle.std.specs.Prelude.{◌≡◌, ◌<◌, ◌≤◌, ◌↔◌, ℕ, IfOk, OnOk, [], ◌∷◌, length, map, slice_index};
ghost use Rattle.go_graph.specs.Graph.{IsGraph};
ghost use Rattle.go_graph.specs.OpenEdges.{Closes, IsIn, times};
ghost use Rattle.go_graph.specs.Order.{IsOrder};

use crate::numbers::{Numbers, row_at};
use crate::predecessors::predecessors;
use go_base::NoMemory;
use std::alloc::Global;
use std::collections::BTreeSet;

/// The vertices of a graph, each behind all that its edges lead to, and of those that may stand next the least
/// first. A vertex on a cycle is left out, and so is each that leads to one. The only error is want of memory.
pub fn order(alloc: Global, graph: &[Numbers]) -> Result<Vec<usize>, NoMemory>
    requires { IsGraph graph.now }
    ensures { IfOk result (λ order. IsOrder graph.now order.items) }
{
    let predecessors = predecessors(alloc, graph)?;
    let mut counts = edge_counts(alloc, graph)?;
    let mut ready = without_edges(alloc, &counts)?;
    let mut order = Vec::new(alloc);
    while let Some(next) = ready.pop_first() {
        order.push(next)?;
        close(row_at(&predecessors, next), &mut counts, &mut ready)?;
    }
    Ok(order)
}

// How many edges each vertex has.
fn edge_counts(alloc: Global, graph: &[Numbers]) -> Result<Vec<usize>, NoMemory>
    ensures { IfOk result (λ counts. counts.items ≡ map (λ row. length row) graph.now) }
{
    Ok(graph.iter().map(|row| row.as_slice().len()).collect(alloc)?)
}

// The vertices that have no open edges.
fn without_edges(alloc: Global, counts: &[usize]) -> Result<BTreeSet<usize>, NoMemory>
    ensures { IfOk result (λ set. (v : ℕ) →
        IsIn set v ↔ ((v < length counts.now) × (slice_index counts.now v ≡ 0))) }
{
    let mut set = BTreeSet::new(alloc);
    for (vertex, count) in counts.iter().enumerate() {
        if *count == 0 {
            set.insert(vertex)?;
        }
    }
    Ok(set)
}

// Closes one edge of each vertex of a list, and puts those with none left into the set.
fn close(
    list: &[usize],
    counts: &mut Vec<usize>,
    ready: &mut BTreeSet<usize>,
) -> Result<(), NoMemory>
    requires { (v : ℕ) → times v list.now ≤ slice_index counts.old.items v }
    ensures { OnOk result (Closes list.now counts.old.items counts.new.items ready.old ready.new) }
{
    for vertex in list {
        close_one(*vertex, counts, ready)?;
    }
    Ok(())
}

// Closes one edge of a vertex, and puts the vertex into the set if none is left.
fn close_one(
    vertex: usize,
    counts: &mut Vec<usize>,
    ready: &mut BTreeSet<usize>,
) -> Result<(), NoMemory>
    requires within { vertex < length counts.old.items }
    requires counted { 0 < slice_index counts.old.items vertex }
    ensures { OnOk result (Closes (vertex ∷ []) counts.old.items counts.new.items ready.old ready.new) }
{
    counts[vertex] -= 1;
    if counts[vertex] == 0 {
        ready.insert(vertex)?;
    }
    Ok(())
}
