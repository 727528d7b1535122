//! What the checker is held against: what identifiers denote, and what nodes come to.
//!
//! The definitions stand in specs/: what identifiers of a package denote (`Naming`), which outcome each node of an
//! expression has (`Outcomes`), and what types must be (`Obligations`). A law is the contract of a function that does
//! nothing. Who walks over expressions stands beside judges (`ExprWalk`), and `Rules` are both. What is known of
//! declarations and expressions, and who judges them, stands in go_judge, and what modules, declarations and scopes are
//! in go_module: their types are named here again.
#![tactic(auto)]

// Laws.
mod laws;

// Who walks over expressions.
mod expr_walk;
mod rules;

pub use expr_walk::ExprWalk;
pub use go_constructs::Meaning;
pub use go_judge::{
    Answer, Ask, DEEP_TYPE, Finds, Form, Forms, Header, Headers, Judge, LARGE_TYPE, Mode,
    NO_LENGTH, NO_TYPE, NO_VALUE, NumberHasher, Outcome, Reached, Rec, Same, Sets, Spot, TypeParam,
    WIDE_INTEGER, broken, broken_at, copy_of, decided_stays,
};
pub use go_module::{
    At, Block, Import, Method, Module, ObjId, ObjKind, Object, Occurrence, Package, Placed, Region,
    Scopes, Selected, SourceFile,
};
pub use laws::{outcomes_exactly, outcomes_stay};
pub use rules::Rules;
