//! What is asked of each construct of expressions and types, by the records of its operands.
//!
//! The definitions stand in specs/, a file each: type literals, operands, and operators (`specs/Operators/`), with the
//! section of the Go specification that each comes from. Which construct a node is, is left to go_model; the code that
//! judges them stands in go_expr and go_ops. Here are the few types that definitions and code share.
#![tactic(auto)]

mod fit;
mod meaning;
mod operator;
mod sort;

pub use fit::Fit;
pub use meaning::Meaning;
pub use operator::{BinaryOp, Operation, Sign, UnaryOp};
pub use sort::{FloatType, Sort};
