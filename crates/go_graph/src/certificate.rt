// Whether components that were found are those of the graph.
ghost use Rattle.std.specs.Prelude.{◌≡◌, ◌↔◌, ◌<◌, ◌+◌, ℕ, Contains, Some, slice_get, true};
ghost use Rattle.go_graph.specs.Certificate.{AreTogether, ComesFrom, IsConfirmed, IsDownward, IsJoined, IsNearer, LeadsBack};
ghost use Rattle.go_graph.specs.Graph.{HasEdge};

use crate::components::{Vertex, edge_end};
use crate::numbers::{Numbers, row_at};

// Whether each vertex and each edge bears the components out.
pub(crate) fn is_confirmed(graph: &[Numbers], vertices: &[Vertex], leaders: &[usize]) -> bool
    ensures { (result ≡ true) ↔ IsConfirmed graph.now vertices.now leaders.now }
{
    if vertices.len() != graph.len() {
        return false;
    }
    for vertex in 0..graph.len() {
        if !is_joined(graph, vertices, leaders, vertex) {
            return false;
        }
        if !descends(graph, vertices, vertex) {
            return false;
        }
    }
    true
}

// Whether a vertex is joined to the leader of its component, both ways, or is it.
fn is_joined(graph: &[Numbers], vertices: &[Vertex], leaders: &[usize], vertex: usize) -> bool
    ensures { (result ≡ true) ↔ IsJoined graph.now vertices.now leaders.now vertex }
{
    let Some(told) = vertices.get(vertex) else {
        return false;
    };
    let Some(leader) = leaders.get(told.component) else {
        return false;
    };
    *leader == vertex
        || (comes_from(graph, vertices, vertex, told)
            && leads_back(graph, vertices, *leader, vertex, told))
}

// Whether the vertex is the end of an edge from one of its component that was reached before it.
fn comes_from(graph: &[Numbers], vertices: &[Vertex], vertex: usize, told: &Vertex) -> bool
    ensures { (result ≡ true) ↔ ComesFrom graph.now vertices.now vertex told.now }
{
    let Some(parent) = vertices.get(told.parent) else {
        return false;
    };
    parent.component == told.component
        && parent.index < told.index
        && edge_end(graph, told.parent, told.parent_edge) == Some(vertex)
}

// Whether an edge of the vertex leads to one of its component that is nearer to the leader.
fn leads_back(
    graph: &[Numbers],
    vertices: &[Vertex],
    leader: usize,
    vertex: usize,
    told: &Vertex,
) -> bool
    ensures { (result ≡ true) ↔ LeadsBack graph.now vertices.now leader vertex told.now }
{
    let Some(end) = edge_end(graph, vertex, told.back_edge) else {
        return false;
    };
    let Some(next) = vertices.get(end) else {
        return false;
    };
    next.component == told.component && (end == leader || is_nearer(next, told))
}

// Whether a way to the leader goes from the second vertex to the first: to a lower index, or to a
// vertex with a higher index from which the same index is reached.
fn is_nearer(next: &Vertex, told: &Vertex) -> bool
    ensures { (result ≡ true) ↔ IsNearer next.now told.now }
{
    next.low < told.low || (next.low == told.low && told.index < next.index)
}

// Whether no edge of a vertex leads to a component with a higher number.
fn descends(graph: &[Numbers], vertices: &[Vertex], vertex: usize) -> bool
    ensures { (result ≡ true) ↔ ((b : ℕ) → HasEdge graph.now vertex b → IsDownward vertices.now vertex b) }
{
    for to in row_at(graph, vertex) {
        if !is_downward(vertices, vertex, *to) {
            return false;
        }
    }
    true
}

// Whether the component of the second vertex has no higher number than that of the first.
fn is_downward(vertices: &[Vertex], from: usize, to: usize) -> bool
    ensures { (result ≡ true) ↔ IsDownward vertices.now from to }
{
    match (vertices.get(from), vertices.get(to)) {
        (Some(first), Some(second)) => second.component <= first.component,
        _ => false,
    }
}

// Whether two vertices have one component.
pub(crate) fn are_together(vertices: &[Vertex], from: usize, to: usize) -> bool
    ensures { (result ≡ true) ↔ AreTogether vertices.now from to }
{
    match (vertices.get(from), vertices.get(to)) {
        (Some(first), Some(second)) => first.component == second.component,
        _ => false,
    }
}
