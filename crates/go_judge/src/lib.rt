//! What is known of declarations and expressions, what is asked of a node, and who answers.
//!
//! The definitions stand in specs/: records and headers as plain data (`Records`), maps of them (`Headers`), what is known
//! of identifiers (`Naming`), questions that may need headers (`Quests`), how a node is judged by what is asked of it
//! (`Judged`, `Operands`), and questions about types (`Types`). Maps of headers can be asked (`Headers`, `Ask`); judges of
//! expressions stand in levels above (`Forms` to `Judge`). Which construct a node is, which headers a package has and
//! which report a module is left to go_model.
#![tactic(auto)]

// Laws.
mod laws;

// What is known of declarations and expressions.
mod header;
mod headers;
mod number_hasher;
mod outcome;
mod rec;
mod value;

// Who is asked.
mod ask;
mod form;
mod judge;

// Nodes that break a rule.
mod broken_node;
mod rules;

// Tests.
#[cfg(test)]
mod headers_tests;
#[cfg(test)]
mod law_tests;

pub use ask::Ask;
pub use broken_node::{broken, broken_at};
pub use form::{Form, Reached};
pub use header::{Header, TypeParam};
pub use headers::Headers;
pub use judge::{Finds, Forms, Judge, Same, Sets};
pub use laws::{decided_stays, judged_exactly};
pub use number_hasher::NumberHasher;
pub use outcome::{Answer, Outcome, Spot};
pub use rec::{Mode, Rec};
pub use rules::{DEEP_TYPE, LARGE_TYPE, NO_LENGTH, NO_TYPE, NO_VALUE, WIDE_INTEGER};
pub use value::copy_of;
