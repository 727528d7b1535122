//! The headers of declarations, and what the values of a package break.
//!
//! `rounds` finds the headers of a package, tells each to rules, walks once over all that stands behind the names of
//! its specs, and says what these break by the outcomes of the walk: declarations that wait for themselves
//! (`cyclic_declarations`), and the rules at specs and nodes (`broken_values`). `elaborate` says of one declaration
//! by itself which header it has over the headers that are known, and what it breaks. What an expression comes to is
//! decided in go_expr, which vertices of a graph lie on a cycle in go_graph.
#![tactic(auto)]

mod rules;

// Headers: of one declaration, and in rounds.
mod header;
mod headers;
mod places;

// Walks over a package, and what is read off their outcomes.
mod broken;
mod values;
mod waits;
mod walked;

// A package as a whole.
mod package;

// A declaration of a module by itself.
mod elaborated;
mod parts;

pub use elaborated::{Elaborated, elaborate};
pub use header::header_by;
pub use package::rounds;
