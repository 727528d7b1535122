//! Which expressions and types stand in a node: its operands, and all nodes that can have records.
#![tactic(auto)]

mod operands;
#[cfg(test)]
mod tests;

pub use operands::{expressions_in, operands_of};
