// The Go files of a module.
ghost use Rattle.std.specs.Prelude.{◌≡◌, ◌||◌, IfOk, ℕ, List, filter};
ghost use Rattle.std.specs.List.{list_any};
ghost use Rattle.go_mod.specs.Folders.{AreGoFiles};
ghost use Rattle.go_mod.specs.Listing as listing;
ghost use Rattle.go_mod.specs.ModuleFolders.{is_one};
ghost use Rattle.go_module.specs.Modules.PathParts as of_path;
ghost use Rattle.go_module.specs.Modules.PathParts.{folders};

use crate::module_folders::ModuleFolders;
use crate::path_parts::last_element;
use go_base::{Name, NoMemory};
use std::alloc::Global;

/// The files of Go below a root, of whose files these are the paths: no tests, nothing hidden,
/// nothing below `testdata`, `vendor` or a folder with a go.mod of its own. They are in byte order,
/// each once. Fails only for want of memory.
pub fn go_files(alloc: Global, paths: &[Name]) -> Result<Vec<Name>, NoMemory>
    ensures { IfOk result (λ files. (bytes : List ℕ → List ℕ) →
        AreGoFiles (record { paths = paths.now; bytes = bytes }) files.items) }
{
    let mut files = in_any_order(alloc, paths)?;
    files.sort_unstable();
    files.dedup();
    Ok(files)
}

// The paths that count, in the order of the list.
fn in_any_order(alloc: Global, paths: &[Name]) -> Result<Vec<Name>, NoMemory>
    ensures { IfOk result (λ files.
        files.items ≡ filter (listing.counts paths.now) paths.now) }
{
    let modules = ModuleFolders::of(alloc, paths)?;
    let mut files = Vec::new(alloc);
    for path in paths {
        if counts(path.as_bytes(), &modules) {
            files.push(path.clone()?)?;
        }
    }
    Ok(files)
}

// Whether a path is that of a Go file of the module, where these folders are other modules.
fn counts(path: &[u8], modules: &ModuleFolders<'_>) -> bool
    ensures { (paths : List (List ℕ)) →
        ((folder : List ℕ) → is_one modules.now folder ≡ listing.has_own_module paths folder) →
        result ≡ listing.counts paths path.now }
{
    is_go_name(last_element(path)) && !some_is_left_out(path, modules)
}

// Whether one of the folders on a path's way is left out.
fn some_is_left_out(path: &[u8], modules: &ModuleFolders<'_>) -> bool
    ensures { result ≡ list_any
        (λ folder. listing.is_skipped_name (of_path.last_element folder) || is_one modules.now folder)
        (folders path.now) }
{
    for (end, byte) in path.iter().enumerate() {
        if *byte == b'/' && is_left_out(&path[..end], modules) {
            return true;
        }
    }
    false
}

fn is_left_out(folder: &[u8], modules: &ModuleFolders<'_>) -> bool
    ensures { result ≡ (listing.is_skipped_name (of_path.last_element folder.now)
        || is_one modules.now folder.now) }
{
    is_skipped_name(last_element(folder)) || modules.has(folder)
}

// Whether this is the name of a file of Go that is no test.
fn is_go_name(name: &[u8]) -> bool
    ensures { result ≡ listing.is_go_name name.now }
{
    name.ends_with(b".go") && !name.ends_with(b"_test.go") && !is_hidden(name)
}

// Whether a folder of this name is skipped.
fn is_skipped_name(name: &[u8]) -> bool
    ensures { result ≡ listing.is_skipped_name name.now }
{
    name == b"testdata".as_slice() || name == b"vendor".as_slice() || is_hidden(name)
}

fn is_hidden(name: &[u8]) -> bool
    ensures { result ≡ listing.is_hidden name.now }
{
    name.starts_with(b"_") || name.starts_with(b".")
}
