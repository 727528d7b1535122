//! Type definitions that contain themselves by value.
//!
//! `by_value` decides the rule C3 on the type definitions of a package: a value of one would hold a value of that same
//! type, by arrays and structs alone, directly or through other definitions. Right sides are read off the headers that
//! rules know, layer by layer.
#![tactic(auto)]

mod rules;

// What a value of a type holds, and the graph of the places of these.
mod graph;
mod held;

// What is read off the graph.
mod marks;
mod package;

pub use package::by_value;
pub use rules::CONTAINED_TYPE;
