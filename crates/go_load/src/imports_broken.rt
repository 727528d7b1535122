// What imports and package names break.
ghost use Rattle.std.specs.Prelude.{◌≡◌, ◌++◌, OnOk};
ghost use Rattle.std.specs.List.{flat_map};
ghost use Rattle.go_module.specs.Modules.BrokenImports.{begins_with, is_unnamed, is_special, broken_import, broken_imports_at, broken_package, broken_if_reached, broken_imports_in};
ghost use Rattle.go_graph.specs.Graph.{row_at};

use crate::heads::{Head, ImportSpec};
use crate::named::named;
use crate::names_broken::add_names;
use crate::path_set::PathSet;
use crate::rules::{MISSING_PACKAGE, SPECIAL_IMPORT};
use crate::table::Packages;
use go_base::{Broken, NoMemory};
use go_graph::{is_marked, row_at};
use go_module::{add_if, broken_at};

/// Adds what the package names of reached packages break, and their imports but for those on cycles.
pub fn add_broken_imports(
    found: &mut Vec<Broken>,
    heads: &[Head],
    packages: &Packages,
    places: &PathSet,
) -> Result<(), NoMemory>
    requires { places.now ≡ packages.now.paths }
    ensures { OnOk result (found.new.items
        ≡ found.old.items ++ broken_imports_in heads.now packages.now) }
{
    for k in 0..packages.paths().len() {
        add_package(found, heads, packages, places, k)?;
    }
    Ok(())
}

// Adds what a package breaks, if it is reached.
fn add_package(
    found: &mut Vec<Broken>,
    heads: &[Head],
    packages: &Packages,
    places: &PathSet,
    k: usize,
) -> Result<(), NoMemory>
    requires { places.now ≡ packages.now.paths }
    ensures { OnOk result (found.new.items
        ≡ found.old.items ++ broken_if_reached heads.now packages.now k) }
{
    if !is_marked(packages.reached(), k) {
        return Ok(());
    }
    let files = row_at(packages.files(), k);
    let from_stub = is_marked(packages.stubs(), k);
    add_names(found, heads, files)?;
    add_imports(found, heads, places, packages.stubs(), from_stub, files)?;
    Ok(())
}

// Adds what the imports of these files break.
fn add_imports(
    found: &mut Vec<Broken>,
    heads: &[Head],
    places: &PathSet,
    stubs: &[bool],
    from_stub: bool,
    files: &[usize],
) -> Result<(), NoMemory>
    ensures { OnOk result (found.new.items ≡ found.old.items
        ++ flat_map (broken_imports_at places.now stubs.now heads.now from_stub) files.now) }
{
    for file in files {
        add_file(found, heads, places, stubs, from_stub, *file)?;
    }
    Ok(())
}

// Adds what the imports of a file break.
fn add_file(
    found: &mut Vec<Broken>,
    heads: &[Head],
    places: &PathSet,
    stubs: &[bool],
    from_stub: bool,
    file: usize,
) -> Result<(), NoMemory>
    ensures { OnOk result (found.new.items ≡ found.old.items
        ++ broken_imports_at places.now stubs.now heads.now from_stub file) }
{
    match heads.get(file) {
        Some(head) => add_each_import(found, places, stubs, from_stub, file, head.imports()),
        None => Ok(()),
    }
}

// Adds what these imports of a file break.
fn add_each_import(
    found: &mut Vec<Broken>,
    places: &PathSet,
    stubs: &[bool],
    from_stub: bool,
    file: usize,
    imports: &[ImportSpec],
) -> Result<(), NoMemory>
    ensures { OnOk result (found.new.items ≡ found.old.items
        ++ flat_map (broken_import places.now stubs.now from_stub file) imports.now) }
{
    for import in imports {
        add_import(found, places, stubs, from_stub, file, import)?;
    }
    Ok(())
}

// Adds what an import breaks.
fn add_import(
    found: &mut Vec<Broken>,
    places: &PathSet,
    stubs: &[bool],
    from_stub: bool,
    file: usize,
    import: &ImportSpec,
) -> Result<(), NoMemory>
    ensures { OnOk result (found.new.items
        ≡ found.old.items ++ broken_import places.now stubs.now from_stub file import.now) }
{
    let unnamed = is_unnamed(places, stubs, from_stub, import.path());
    add_if(
        found,
        unnamed,
        broken_at(file, import.at(), MISSING_PACKAGE),
    )?;
    let special = is_special(import.path());
    add_if(found, special, broken_at(file, import.at(), SPECIAL_IMPORT))
}

// Whether the path of an import names no package.
fn is_unnamed(places: &PathSet, stubs: &[bool], from_stub: bool, path: &[u8]) -> bool
    ensures { result ≡ is_unnamed places.now stubs.now from_stub path.now }
{
    path.is_empty() || named(places, stubs, from_stub, path).is_none()
}

// Whether an import by this path is outside the language that is checked.
fn is_special(path: &[u8]) -> bool
    ensures { result ≡ is_special path.now }
{
    path == b"C".as_slice()
        || path == b"unsafe".as_slice()
        || begins_with(path, b'.')
        || begins_with(path, b'/')
}

fn begins_with(path: &[u8], byte: u8) -> bool
    ensures { result ≡ begins_with byte path.now }
{
    match path.first() {
        Some(first) => *first == byte,
        None => false,
    }
}
