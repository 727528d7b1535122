//! What the names of a package denote.
//!
//! `collect` finds the regions in which names denote objects: those of the universe, of the declarations
//! of the package, and of the imports of its files; what each identifier denotes by them; and each rule on
//! names that is broken. `Scopes` has the answers.
#![tactic(auto)]

mod rules;

// What is declared.
mod file_block;
mod imports;
mod known;
mod package_block;

// What occurs, and what it denotes.
mod held;
mod resolved;

// The rules on names.
mod block_rules;
mod import_rules;
mod member_rules;
mod occurrence_rules;

// The scopes of a package.
mod check;
mod collecting;
mod iotas;
mod laws;
mod scope_fault;
mod tables;

pub use collecting::collect;
pub use file_block::{behind, front};
pub use laws::{denotes_innermost, each_spec_is_named, resolves_exactly};
pub use scope_fault::ScopeFault;
