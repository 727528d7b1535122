//! What the types of a package break that needs headers no node waits for.
//!
//! `obligations` decides the rules C9, C15 and C19 on the types that are written in a package, over the headers that
//! rules know at the end: which types may be embedded in a struct, where an interface that is no basic one may stand,
//! and which interfaces get one method with two types. Types are read off the records of nodes, layer by layer.
#![tactic(auto)]

mod rules;

// What is read off one layer of a type.
mod elements;
mod layer;

// What interfaces embed, and which are constraints alone.
mod constraint;
mod embedded;
mod opened;

// Which types may be embedded in structs.
mod embedding;

// Answers about named types that are kept.
mod answers;
mod named;

// Methods that interfaces get, and those that they get with two types.
mod conflicts;
mod firsts;
mod methods;

// What is demanded of the types that are written.
mod components;
mod node;
mod obligation;
mod spec;

// A package as a whole.
mod package;

pub use package::obligations;
pub use rules::{DIFFERING_METHODS, INVALID_EMBEDDING, MISUSED_CONSTRAINT};
