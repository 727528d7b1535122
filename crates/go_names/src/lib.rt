//! What the files of a package declare outside functions, and which identifiers occur in it, read off their trees.
//!
//! `specs_of` lists the specs of a package, file by file, and `declarations_of` their declarations; imports aside, no
//! other call matches on kinds of declarations. `inner_parts` gives the parts of a node in which identifiers occur and
//! nodes stand that can have records, `nodes_in` lists these nodes; `names_in_specs` lists the identifiers that occur;
//! `names_of_fields` and its like list the names that stand within types. `is_exported` and `is_blank_identifier` tell
//! names apart by their text.
#![tactic(auto)]

mod declaration;
mod imports;
mod inner;
mod member_names;
mod nodes;
mod occurrences;
mod spec;
#[cfg(test)]
mod tests;
mod words;

pub use declaration::{Declaration, declarations_in, declarations_of};
pub use imports::import_specs;
pub use inner::{has_named, inner_parts, is_named_param, is_tag, is_unnamed_param};
pub use member_names::{names_of_fields, names_of_lists, names_of_methods, push_field_names};
pub use nodes::nodes_in;
pub use occurrences::names_in_specs;
pub use spec::{Spec, specs_in_file, specs_of};
pub use words::{is_blank_identifier, is_exported, is_word, name_of};
