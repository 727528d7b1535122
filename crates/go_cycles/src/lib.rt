//! Type definitions and aliases whose right sides lead back to themselves, by names alone.
//!
//! `shapes` decides the rules C4 and C5 on the type declarations of a package: a chain of right sides that never ends,
//! and a type that is embedded in itself. What a name denotes is read off the scopes of the package; no type is built.
#![tactic(auto)]

mod rules;

// To which names a right side leads, and the graph of the places of these.
mod graph;
mod leading;
mod places;

// What is read off the graph.
mod marks;
mod package;
mod returning;
#[cfg(test)]
mod tests;

pub use leading::Way;
pub use marks::is_marked_by;
pub use package::shapes;
pub use places::{Places, places_of};
pub use rules::{CYCLIC_DEFINITION, CYCLIC_EMBEDDING};
