//! Tests of go_form, go_load and go_scope: what their public calls answer with ample memory, and what a row of
//! go_rows cannot say.
//!
//! They stand in a crate of their own, since a crate with tests is proved twice.
#![tactic(auto)]

#[cfg(test)]
mod form_tests;
#[cfg(test)]
mod load_tests;
#[cfg(test)]
mod mem_trees;
#[cfg(test)]
mod packages_tests;
#[cfg(test)]
mod reading_tests;
#[cfg(test)]
mod scope_tests;
#[cfg(test)]
mod source_tests;
#[cfg(test)]
mod type_scope_tests;
