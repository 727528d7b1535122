//! What a file of Go is: its one tree, or the one fault that it has in its place.
//!
//! The definitions stand in specs/: `Files` says which tree a text has, with a copy in each constant spec
//! that omits its list (`Copies`) and its nodes numbered (`Numbers`), and `Faults` at which token it is no
//! file. They rest on the tokens and the grammar of go_tree, and name no scanner and no parser. `fault` is
//! the fault as a parser answers it.
#![tactic(auto)]

mod fault;

pub use fault::ParseFault;
