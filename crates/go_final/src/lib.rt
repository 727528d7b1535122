//! The final types of untyped expressions.
//!
//! `finals` walks from an expression or a type down and lists the type that each untyped expression in it has in the
//! end, by what the whole is wanted as. Which types these are is defined in go_report (`Finals`). What nodes come to is
//! read off a walk of go_expr; which node is wanted as what is left to the caller.
#![tactic(auto)]

// One untyped value: its kind, and its type where it is given one.
mod ends;
mod interfaces;
mod kinds;

// What operands are wanted as.
mod beside;
mod wants;

// All nodes.
mod walk;

pub use walk::finals;
