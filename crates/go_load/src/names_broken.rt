// Package names that differ in one folder.
ghost use Rattle.std.specs.Prelude.{◌≡◌, ◌++◌, ◌||◌, not, codes, OnOk, map};
ghost use Rattle.std.specs.List.{list_any};
ghost use Rattle.go_module.specs.Modules.Paths.{same_text};
ghost use Rattle.go_module.specs.Broken.{broken_at};
ghost use Rattle.go_module.specs.Modules.BrokenImports.{mixed_package, name_at, name_place, is_mixed, broken_clauses};

use crate::heads::Head;
use crate::rules::MIXED_PACKAGE;
use go_base::{Broken, NoMemory};
use go_module::broken_at;

/// Adds what the package names of these files break.
pub fn add_names(found: &mut Vec<Broken>, heads: &[Head], files: &[usize]) -> Result<(), NoMemory>
    ensures { OnOk result (found.new.items ≡ found.old.items ++ broken_clauses heads.now files.now) }
{
    if is_mixed(heads, files) {
        return add_each_name(found, heads, files);
    }
    Ok(())
}

// Adds each package name of these files.
fn add_each_name(found: &mut Vec<Broken>, heads: &[Head], files: &[usize]) -> Result<(), NoMemory>
    ensures { OnOk result (found.new.items ≡ found.old.items
        ++ map (λ file. broken_at file (name_place heads.now file) mixed_package) files.now) }
{
    for file in files {
        found.push(broken_at(*file, name_place(heads, *file), MIXED_PACKAGE))?;
    }
    Ok(())
}

// Whether the package names of these files differ, or one is the blank identifier.
fn is_mixed(heads: &[Head], files: &[usize]) -> bool
    ensures { result ≡ is_mixed (map (name_at heads.now) files.now) }
{
    if files.is_empty() {
        return false;
    }
    some_stands_out(heads, files, name_at(heads, files[0]))
}

// Whether the package name of one of these files is not this one, or is the blank identifier.
fn some_stands_out(heads: &[Head], files: &[usize], name: &[u8]) -> bool
    ensures { result ≡ list_any (λ file. not (same_text (name_at heads.now file) name.now)
        || same_text (name_at heads.now file) (codes "_")) files.now }
{
    files
        .iter()
        .any(|file| stands_out(name_at(heads, *file), name))
}

// Whether a package name is not this one, or is the blank identifier.
fn stands_out(name: &[u8], other: &[u8]) -> bool
    ensures { result ≡ (not (same_text name.now other.now) || same_text name.now (codes "_")) }
{
    name != other || name == b"_".as_slice()
}

/// The package name of a file, empty where there is no such file.
pub fn name_at(heads: &[Head], file: usize) -> &[u8]
    ensures { result.now ≡ name_at heads.now file }
{
    match heads.get(file) {
        Some(head) => head.name(),
        None => &[],
    }
}

// The offset of the package name of a file.
fn name_place(heads: &[Head], file: usize) -> usize
    ensures { result ≡ name_place heads.now file }
{
    match heads.get(file) {
        Some(head) => head.name_at(),
        None => 0,
    }
}
