//! Substitution of type arguments (Go specification, "Instantiations") and the underlying types that it leads to.
#![tactic(auto)]

mod form;
mod laws;
mod literal;
mod path;
mod referred;
mod substitution;
mod underlying;

pub use form::underlying_type;
pub use laws::{substitution_of_nothing, underlying_types_stay};
pub use substitution::subst;
pub use underlying::under;

#[cfg(test)]
mod tests;
