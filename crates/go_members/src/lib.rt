//! Which names a type literal declares, and what each is declared as: the fields of a struct, the methods of an
//! interface, and the parameters and results that have names (Go specification, "Struct types", "Interface types",
//! "Function types").
//!
//! `push_members` reads them off the node and the type for which it stands, and pushes the line of each that a report
//! has.
#![tactic(auto)]

// The line of a name.
mod line;

// What each form of type declares.
mod fields;
mod methods;
mod params;

// A type literal.
mod members;

pub use members::push_members;

#[cfg(test)]
mod tests;
