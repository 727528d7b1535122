// The edges and the vertices of a graph that lie on a cycle.
ghost use Rattle.std.specs.Prelude.{◌≡◌, ◌<◌, ◌↔◌, ℕ, Contains, IfOk, length, true};
ghost use Rattle.go_graph.specs.Certificate.{AreComponents, AreTogether};
ghost use Rattle.go_graph.specs.Cycles.{MarksCycles, MarksEach, OnCycle, marks_of};
ghost use Rattle.go_graph.specs.Graph.{IsGraph, Path, Reaches, is_marked, row_at};

use crate::certificate::{are_together, is_confirmed};
use crate::components::{Vertex, find_components};
use crate::numbers::{Numbers, is_marked, row_at};
use crate::reach::reached;
use go_base::NoMemory;
use std::alloc::Global;

/// For each edge of a graph, whether it lies on a cycle: whether its end is the vertex that it begins at, or leads
/// back to it. The answer has a row for each vertex with a mark for each of its edges. The only error is want of
/// memory.
///
/// One search over all edges finds the strongly connected components, and the answer is read from
/// them once they are checked, in time linear in the vertices and edges. What is proved is the
/// check and not the search. So a plain search from each edge stands behind it, for components that
/// the check does not confirm: there are none as far as tests show, and it takes far longer.
pub fn cyclic_edges(alloc: Global, graph: &[Numbers]) -> Result<Vec<Vec<bool>>, NoMemory>
    requires { IsGraph graph.now }
    ensures { IfOk result (λ rows. MarksCycles graph.now (marks_of rows.items)) }
{
    let found = find_components(alloc, graph)?;
    if is_confirmed(graph, &found.vertices, &found.leaders) {
        by_component(alloc, graph, &found.vertices)
    } else {
        by_search(alloc, graph)
    }
}

/// For each vertex of a graph, whether a path leads from it back to itself: whether one of its edges lies on a
/// cycle. The only error is want of memory.
pub fn cyclic_vertices(alloc: Global, graph: &[Numbers]) -> Result<Vec<bool>, NoMemory>
    requires { IsGraph graph.now }
    ensures length { IfOk result (λ marks. length marks.items ≡ length graph.now) }
    ensures exact { IfOk result (λ marks. (v : ℕ) → (is_marked marks.items v ≡ true) ↔ Path graph.now v v) }
{
    let rows = cyclic_edges(alloc, graph)?;
    let mut marks = Vec::new(alloc);
    for row in &rows {
        marks.push(has_mark(row))?;
    }
    Ok(marks)
}

// Whether some mark is set.
fn has_mark(marks: &[bool]) -> bool
    ensures { (result ≡ true) ↔ Contains marks.now true }
{
    marks.contains(&true)
}

// An edge lies on a cycle if it stays within a component.
fn by_component(
    alloc: Global,
    graph: &[Numbers],
    vertices: &[Vertex],
) -> Result<Vec<Vec<bool>>, NoMemory>
    requires graph { IsGraph graph.now }
    requires components { AreComponents graph.now vertices.now }
    ensures { IfOk result (λ rows. MarksCycles graph.now (marks_of rows.items)) }
{
    let mut rows = Vec::new(alloc);
    for vertex in 0..graph.len() {
        rows.push(component_row(alloc, row_at(graph, vertex), vertices, vertex)?)?;
    }
    Ok(rows)
}

fn component_row(
    alloc: Global,
    row: &[usize],
    vertices: &[Vertex],
    from: usize,
) -> Result<Vec<bool>, NoMemory>
    ensures { IfOk result (λ marks. MarksEach (AreTogether vertices.now from) row.now marks.items) }
{
    let mut marks = Vec::new(alloc);
    for to in row {
        marks.push(are_together(vertices, from, *to))?;
    }
    Ok(marks)
}

// An edge lies on a cycle if a search from its end comes back.
pub(crate) fn by_search(alloc: Global, graph: &[Numbers]) -> Result<Vec<Vec<bool>>, NoMemory>
    requires { IsGraph graph.now }
    ensures { IfOk result (λ rows. MarksCycles graph.now (marks_of rows.items)) }
{
    let mut rows = Vec::new(alloc);
    for vertex in 0..graph.len() {
        rows.push(search_row(alloc, graph, vertex)?)?;
    }
    Ok(rows)
}

fn search_row(alloc: Global, graph: &[Numbers], from: usize) -> Result<Vec<bool>, NoMemory>
    requires { IsGraph graph.now }
    ensures { IfOk result (λ marks. MarksEach (OnCycle graph.now from) (row_at graph.now from) marks.items) }
{
    let mut marks = Vec::new(alloc);
    for to in row_at(graph, from) {
        marks.push(leads_to(alloc, graph, *to, from)?)?;
    }
    Ok(marks)
}

// Whether no edge or some edges lead from a vertex to another.
fn leads_to(alloc: Global, graph: &[Numbers], from: usize, to: usize) -> Result<bool, NoMemory>
    requires graph { IsGraph graph.now }
    requires within { from < length graph.now }
    ensures { IfOk result (λ leads. (leads ≡ true) ↔ Reaches graph.now from to) }
{
    let mut starts = vec![in alloc; false; graph.len()]?;
    starts[from] = true;
    Ok(is_marked(&reached(alloc, graph, &starts)?, to))
}
