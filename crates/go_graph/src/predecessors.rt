// Edges turned round: for each vertex those whose edges lead to it.
ghost use Rattle.std.specs.Prelude.{◌≡◌, ◌<◌, [], ◌∷◌, All, IfOk, OnOk, length};
ghost use Rattle.go_graph.specs.Graph.{IsGraph};
ghost use Rattle.go_graph.specs.OpenEdges.{Adds, ArePredecessors};

use crate::numbers::{Numbers, empty_rows};
use go_base::NoMemory;
use std::alloc::Global;

/// For each vertex, those whose edges lead to it, each once for each such edge. The only error is want of memory.
pub fn predecessors(alloc: Global, graph: &[Numbers]) -> Result<Vec<Numbers>, NoMemory>
    requires { IsGraph graph.now }
    ensures length { IfOk result (λ rows. length rows.items ≡ length graph.now) }
    ensures exact { IfOk result (λ rows. ArePredecessors graph.now rows.items) }
{
    let mut rows = empty_rows(alloc, graph.len())?;
    for (vertex, row) in graph.iter().enumerate() {
        add_to_each(row.as_slice(), vertex, &mut rows)?;
    }
    Ok(rows)
}

// Puts a vertex at the end of the row of each vertex of a list.
fn add_to_each(ends: &[usize], vertex: usize, rows: &mut Vec<Numbers>) -> Result<(), NoMemory>
    requires { All (λ b. b < length rows.old.items) ends.now }
    ensures length { OnOk result (length rows.new.items ≡ length rows.old.items) }
    ensures adds { OnOk result (Adds vertex ends.now rows.old.items rows.new.items) }
{
    for end in ends {
        rows[*end].push(vertex)?;
    }
    Ok(())
}
