//! The parser of whole files.
//!
//! `parse_file` reads a file of the whole grammar with the machine of go_parse_x; the grammar is a
//! definition of go_tree. `copies` then adds the lists that constant specs omit, where they are not too
//! many (`copy_count`), and `numbers` numbers the nodes.
#![tactic(auto)]

mod copies;
mod copy_count;
mod file;
mod laws;
mod numbers;

pub use copy_count::MOST_COPIED_NODES;
pub use file::{MOST_HEIGHT, parse_file};
pub use go_text::ParseFault;
pub use laws::{file_or_fault, one_fault, one_file};
