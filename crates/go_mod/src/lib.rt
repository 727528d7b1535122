//! The file go.mod, paths, and which files below a root count.
//!
//! `read_module_file` reads go.mod: the module's path, or the rules that it breaks. `go_files` says which of
//! the paths below a root are those of the module's Go files; `folder_of`, `import_path` and their like read
//! paths.
#![tactic(auto)]

mod rules;

// The file go.mod.
mod language_version;
mod module_file;
mod module_lines;
mod module_path;

// Which files and folders count.
mod listing;
mod module_folders;
mod path_parts;

pub use listing::go_files;
pub use module_file::{ModuleFile, read_module_file};
pub use path_parts::{folder_of, import_path, is_plain_path, stub_import_path};
pub use rules::{GO_LINE, MISSING_MODULE_FILE, MODULE_LINE, OTHER_VERSION};

#[cfg(test)]
mod listing_tests;
#[cfg(test)]
mod module_file_tests;
