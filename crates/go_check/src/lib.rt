//! What checking a module tells.
//!
//! `check_module` answers with the report of a module: of each package, in import order, the rules that its names, its
//! type declarations or its values break, or its lines. The scopes of all packages are collected first; then a
//! `Rulebook` over the module and these scopes is told the headers of package after package. What values break is found
//! in go_decl, which behind the rounds walks over each node once more; lines read the outcomes.
#![tactic(auto)]

// The files of a package, its names, and who judges by these.
mod module_judge;
mod names;
mod own_file;
mod rulebook;

// Places.
mod declared;
mod outline;
mod places;

// Lines.
mod defs;
mod exprs;
mod finals;
mod line_order;
mod lines;
mod member_defs;
mod named;
mod nodes;
mod uses;

// Reports.
mod module;
mod package;
mod values;

pub use module::check_module;
pub use module_judge::ModuleJudge;
pub use rulebook::Rulebook;
