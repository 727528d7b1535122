// The vertices of a graph from which edges lead on without an end.
ghost use Rattle.std.specs.Prelude.{◌≡◌, ◌↔◌, ℕ, IfOk, true};
ghost use Rattle.go_graph.specs.Graph.{HasEdge, IsGraph, is_marked};
ghost use Rattle.go_cycles.specs.Leading.{GoesOn};

use go_base::NoMemory;
use go_graph::{Numbers, order};
use std::alloc::Global;

/// For each vertex of a graph, whether so many edges as one likes lead on from it, one after another. An error is want
/// of memory.
pub fn returning(alloc: Global, graph: &[Numbers]) -> Result<Vec<bool>, NoMemory>
    requires { IsGraph graph.now }
    ensures { IfOk result (λ marks. (v : ℕ) →
        (is_marked marks.items v ≡ true) ↔ ((n : ℕ) → GoesOn (HasEdge graph.now) n v)) }
{
    let mut marks = vec![in alloc; true; graph.len()]?;
    // a vertex on a cycle, or one that leads to a cycle, has no place in the order
    for vertex in &order(alloc, graph)? {
        marks[*vertex] = false;
    }
    Ok(marks)
}
