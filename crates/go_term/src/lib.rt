//! Types as plain trees (Go specification, "Types").
//!
//! A type is a term (`Term`); one layer of it is a shape (`Shape`). Terms are copied, measured against the limits on
//! types, taken apart by one layer and made of one. What types mean (identity, substitution, underlying types) stands
//! in crates above.
#![tactic(auto)]

mod basic;
mod term;

// What is not kept.
mod fault;
mod places;
mod size;

// Copies, and one layer at a time.
mod copy;
mod make;
mod see;
mod shape;

pub use basic::Basic;
pub use fault::TermFault;
pub use places::place_of;
pub use shape::{ElemShape, FieldShape, FuncShape, Shape, UnionShape};
pub use size::{Arguments, TermSize};
pub use term::{Dir, ElemTerm, FieldTerm, FuncTerm, Term, Ty, UnionTerm};

#[cfg(test)]
mod tests;
