// The vertices that are reached from a set of them, by one search.
ghost use Rattle.std.specs.Prelude.{◌≡◌, ◌<◌, ◌↔◌, ◌⊎◌, ℕ, All, Contains, IfOk, OnOk, length, true};
ghost use Rattle.go_graph.specs.Graph.{IsGraph, ReachedFrom, is_marked};
ghost use Rattle.go_graph.specs.Marks.{Extends};

use crate::numbers::{Numbers, is_marked, row_at};
use go_base::NoMemory;
use std::alloc::Global;

/// For each vertex of a graph whether it is reached from the marked ones: whether it is one, or the end of an
/// edge of a reached vertex. The only error is want of memory.
pub fn reached(alloc: Global, graph: &[Numbers], starts: &[bool]) -> Result<Vec<bool>, NoMemory>
    requires graph { IsGraph graph.now }
    requires starts { length starts.now ≡ length graph.now }
    ensures length { IfOk result (λ marks. length marks.items ≡ length graph.now) }
    ensures exact { IfOk result (λ marks. (v : ℕ) → (is_marked marks.items v ≡ true)
        ↔ ReachedFrom graph.now (λ s. is_marked starts.now s ≡ true) v) }
{
    let mut search = Search {
        marks: starts.to_vec(alloc)?,
        stack: marked(alloc, starts)?,
    };
    // each vertex is put on the stack at most once
    while let Some(vertex) = search.stack.pop() {
        search.mark_all(row_at(graph, vertex))?;
    }
    Ok(search.marks)
}

// The places that are marked.
fn marked(alloc: Global, marks: &[bool]) -> Result<Vec<usize>, NoMemory>
    ensures { IfOk result (λ places. (v : ℕ) → Contains places.items v ↔ (is_marked marks.now v ≡ true)) }
{
    let mut places = Vec::new(alloc);
    for place in 0..marks.len() {
        if is_marked(marks, place) {
            places.push(place)?;
        }
    }
    Ok(places)
}

// A search: the vertices that it has reached are marked, and those of them whose edges are still to be followed
// stand on the stack.
#[derive(Drop)]
pub(crate) struct Search {
    pub(crate) marks: Vec<bool>,
    pub(crate) stack: Vec<usize>,
}

impl Search {
    // Marks vertices, and puts those that were not marked before on the stack.
    fn mark_all(&mut self, vertices: &[usize]) -> Result<(), NoMemory>
        requires { All (λ v. v < length self.old.marks.items) vertices.now }
        ensures extends { OnOk result (Extends self.old self.new) }
        ensures only { OnOk result ((v : ℕ) → is_marked self.new.marks.items v ≡ true
            → (is_marked self.old.marks.items v ≡ true) ⊎ Contains vertices.now v) }
        ensures all { OnOk result ((v : ℕ) → Contains vertices.now v → is_marked self.new.marks.items v ≡ true) }
    {
        for vertex in vertices {
            self.mark(*vertex)?;
        }
        Ok(())
    }

    // Marks a vertex, and puts it on the stack if it was not marked before.
    #[tactic(auto, using(crate::proofs::MarkLemmas::mark_lemmas))]
    fn mark(&mut self, vertex: usize) -> Result<(), NoMemory>
        requires { vertex < length self.old.marks.items }
        ensures extends { OnOk result (Extends self.old self.new) }
        ensures only { OnOk result ((v : ℕ) → is_marked self.new.marks.items v ≡ true
            → (is_marked self.old.marks.items v ≡ true) ⊎ (vertex ≡ v)) }
        ensures here { OnOk result (is_marked self.new.marks.items vertex ≡ true) }
    {
        if !is_marked(&self.marks, vertex) {
            self.marks[vertex] = true;
            self.stack.push(vertex)?;
        }
        Ok(())
    }
}
