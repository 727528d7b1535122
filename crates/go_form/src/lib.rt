//! The rules on the form of a file.
//!
//! `broken_forms` gives the list of all that a file breaks by its form: `at_node` asks the rules of each node
//! that is written, a family in each of `parameters`, `declarations`, `guards`, `statements` and
//! `switch_statements`; `unbuilt` finds the forms that are not built yet, by what each node stands for (`role`) and which
//! parts it then has (`parts`), which `built_forms`, `built_operators` and `built_types` say; `build_constraints` finds
//! those before the package clause. `broken_by` gives the rule of a text that has no tree.
#![tactic(auto)]

mod fault;
mod laws;
mod rules;
mod whole;

// The rules at one node.
mod at_node;
mod declarations;
mod guards;
mod nodes;
mod parameters;
mod statement_parts;
mod statements;
mod switch_statements;
mod tell;

// What stands before the package clause, and what is not built yet.
mod build_constraints;
mod built_forms;
mod built_operators;
mod built_types;
mod parts;
mod role;
mod unbuilt;

pub use fault::broken_by;
pub use laws::one_list_of_forms;
pub use whole::broken_forms;
