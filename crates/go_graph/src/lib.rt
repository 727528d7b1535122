//! Graphs of numbered vertices: what is reached, what lies on a cycle, and an order by repeated choice.
//!
//! A graph has a row of `Numbers` for each vertex: those that its edges lead to; `is_graph` tells whether rows are
//! one. `reached` tells which vertices are reached from a set of them, `cyclic_edges` which edges lie on a cycle,
//! `cyclic_vertices` which vertices do, and `order` takes each vertex behind all that its edges lead to.
#![tactic(auto)]

// Rows of numbers, and rows that are a graph.
mod graph;
mod numbers;

// What is reached.
mod reach;

// Components, checked, and cycles.
mod certificate;
mod components;
mod cycles;

// The order, and its laws.
mod laws;
mod ordering;
mod predecessors;

pub use cycles::{cyclic_edges, cyclic_vertices};
pub use graph::is_graph;
pub use laws::{behind_edges, no_vertex_is_left, one_order};
pub use numbers::{Numbers, empty_rows, is_marked, row_at};
pub use ordering::order;
pub use reach::reached;

#[cfg(test)]
mod tests;
