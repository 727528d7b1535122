//! What operators come to: the outcome of an operation by the records of its operands (Go specification, "Operators",
//! "Constant expressions").
//!
//! `binary` and `unary` judge one node each over the headers that a judge knows; `representable` says how a constant
//! fits a type. Each construct has a file of its own and a definition of its name in go_constructs. Which operands a node has,
//! and when it is judged, is left to go_expr.
#![tactic(auto)]

mod rules;

// What is seen of operands.
mod fit;
mod sort_kinds;
mod sorts;

// Operands that are single values.
mod broken;
mod modes;
mod operands;

// Two operands.
mod calculation;
mod comparison;
mod definedness;
mod matched;
mod matching;
mod operation;
mod representability;
mod types;

// What operations give.
mod constants;
mod limits;

// The operators.
mod binary_expr;
mod channels;
mod pointers;
mod shift;
mod sign;
mod source;
mod unary_expr;

pub use binary_expr::{binary, binary_op};
pub use constants::constant_in;
pub use go_constructs::{BinaryOp, Fit, FloatType, Operation, Sign, Sort, UnaryOp};
pub use representability::{Represents, fit_of, representable};
pub use rules::{
    CONSTANT_OVERFLOW, DIVISION_BY_ZERO, INCOMPARABLE_OPERANDS, INVALID_SHIFT, LONG_TEXT,
    MISMATCHED_OPERANDS, NO_ADDRESS, NO_POINTER, NO_RECEIVE, SEVERAL_VALUES, UNDEFINED_BINARY,
    UNDEFINED_UNARY, UNKEPT_FLOAT,
};
pub use sort_kinds::is_integer;
pub use sorts::{AskedSort, sort_in};
pub use unary_expr::{unary, unary_op};
