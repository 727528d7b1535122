//! What expressions come to over the headers that are known.
//!
//! A `Walker` walks over expressions and types and keeps the outcome of each node, by the node's number: a judge
//! answers which headers are known and what identifiers denote, makes each type and sees its form, and each construct
//! has a file of its own, which says its outcome by those of its operands.
//! How headers are found is left to go_decl, which rules are told where to go_check.
#![tactic(auto)]

// What identifiers mean.
mod meaning;

// Types that the judge makes, integers that it sees, and what is read off the records of operands.
mod given;
mod types;

// What a node comes to: each construct.
mod literal;
mod name;
mod operator;
mod parentheses;
mod rune_literal;
mod selector;

// Type literals: what they share, and each construct.
mod array;
mod channel;
mod function;
mod interface;
mod map_type;
mod one_type;
mod pointer;
mod signature;
mod slice;
mod struct_type;
mod type_literal;
mod typed;

// Walks over expressions and types, and what is read off them.
mod walker;

pub use given::{Given, copy_of, first_records, no_types, type_in};
pub use operator::{binary_token, unary_token};
pub use types::basic_type;
pub use walker::Walker;
