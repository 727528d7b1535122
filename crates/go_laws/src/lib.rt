//! Laws that join what the crates below define.
//!
//! `accepted_is_complete`: where the check of a module that is loaded accepts a package whose imports are accepted,
//! each declaration of it has a header, and each node of its types and its expressions that is asked for a record has
//! one.
//! `reports_are_reached`: the check of a module comes to each package that its report calls accepted, and accepts it.
//! `node_numbers_ascend`: each node of a module that is loaded has a number of its own; `nodes_are_numbered`: so have
//! the nodes of a package's types and expressions, which the check of a module asks.
//! `specs_are_built`, `parts_are_built`: in such a module each spec is of a kind that is built, and each type and each
//! expression of a declaration is made of what is built.
#![tactic(auto)]

mod built;
mod complete;
mod numbers;

pub use built::{parts_are_built, specs_are_built};
pub use complete::{accepted_is_complete, reports_are_reached};
pub use numbers::{node_numbers_ascend, nodes_are_numbered};
