//! What a module is loaded from, and what it breaks before its packages are checked.
//!
//! `load` reads the module below a root of a tree, or gives the rules of the first phase that breaks any. Its
//! parts: `read_source` gives all that a file breaks by itself; `packages_of` gives the packages of the files
//! and what their imports name, `broken_packages` what these break. What go.mod says and which files count
//! is left to go_mod, the rules on the form of a file to go_form, import order and cycles to go_graph.
#![tactic(auto)]

mod rules;

// What is read of a tree, and why a module is not loaded.
mod calls;
mod load_fault;
mod module_text;
mod places;
mod reading;

// What the files break by themselves, and their heads.
mod import_strings;
mod parse_texts;
mod source;
mod tree_heads;

// Packages and what their imports name.
mod columns;
mod cycles_broken;
mod folders;
mod groups;
mod heads;
mod homes;
mod imports_broken;
mod named;
mod names_broken;
mod packages;
mod packages_broken;
mod path_list;
mod path_set;
mod paths;
mod table;

// Modules.
mod assemble;
mod laws;
mod loading;
mod order_places;
mod slots;
mod source_files;

pub use go_module::{Module, Package, SourceFile};
pub use heads::{Head, ImportSpec};
pub use laws::{imports_stand_before, numbers_ascend, one_load};
pub use load_fault::LoadFault;
pub use loading::load;
pub use packages::packages_of;
pub use packages_broken::broken_packages;
pub use paths::ImportPath;
pub use rules::{
    CYCLIC_IMPORT, LARGE_FILE, MISSING_PACKAGE, MIXED_PACKAGE, SPECIAL_FILE_PATH, SPECIAL_IMPORT,
};
pub use source::{MOST_BYTES, ReadSource, read_source};
pub use table::Packages;
