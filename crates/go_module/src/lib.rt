//! What loading and scopes speak of: modules and their packages, objects, scopes and regions, parts of
//! nodes, and broken rules with their lists and places.
//!
//! The definitions stand in specs/: `Modules` says which packages files make, in which order, and what
//! their imports break; `Names` what the names of a package denote, and which rules they break. What a file
//! is stands in go_text. A few calls run: `part_list`, `first_part` and their like give parts of a node,
//! `text_name` makes a name of bytes, `ordered` makes the list that a report gives of broken rules that were
//! found in any order. A law is the contract of a function that does nothing.
#![tactic(auto)]

// Laws.
mod laws;

// Modules.
mod module;
mod texts;

// Parts of nodes.
mod node_parts;
mod parts;

// Names.
mod block;
mod declaration;
mod inner;
mod object;
mod object_table;
mod predeclared;
mod scopes;
mod text_names;

// Broken rules.
mod broken;
mod broken_list;
mod order;
mod places;
mod rules;

// Tests.
#[cfg(test)]
mod order_tests;
#[cfg(test)]
mod scopes_tests;

pub use block::{Block, Import, Occurrence, Region, Selected};
pub use broken::{add_if, broken_at};
pub use broken_list::breaks_none;
pub use declaration::Built;
pub use go_base::ObjId;
pub use inner::Inner;
pub use laws::one_list;
pub use module::{FIRST_NUMBER, Module, Package, SourceFile};
pub use node_parts::{all_but_first, part_list, three_parts};
pub use object::{Method, ObjKind, Object};
pub use object_table::{add_objects, copy_object, object_id};
pub use order::ordered;
pub use parts::{first_part, last_part};
pub use places::{At, Placed, with_numbers};
pub use predeclared::{PREDECLARED, universe};
pub use rules::UNBUILT_FORM;
pub use scopes::Scopes;
pub use text_names::text_name;
pub use texts::Text;
