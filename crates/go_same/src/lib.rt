//! Type identity (Go specification, "Type identity"): its decision over any judge.
//!
//! Two types are walked beside each other (`outline`, `alike`), the type sets of interfaces are collected (`collect`),
//! their methods are put beside each other by name (`methods`), and their terms by what they are (`within`), those that
//! are one type by their underlying types too (`one_type`); `identity` and `interfaces` join these. A question goes as
//! far as its bounds (`bounds`, `short`) and its steps (`budget`), and keeps which interfaces it found identical (`kept`).
#![tactic(auto)]

// Layers of two types, beside each other.
mod alike;
mod basics;
mod layer;
mod outline;
mod see;

// Type sets.
mod collect;
mod either;
mod join;
mod kind;
mod methods;
mod set;
mod terms;

// Type identity.
mod bounds;
mod budget;
mod identity;
mod interfaces;
mod kept;
mod one_type;
mod short;
mod within;
mod work;

pub use identity::same;
