// Imports that lie on a cycle.
ghost use Rattle.std.specs.Prelude.{◌≡◌, ◌++◌, OnOk};
ghost use Rattle.std.specs.List.{flat_map};
ghost use Rattle.go_graph.specs.Cycles.{marks_of};
ghost use Rattle.go_load.specs.Packages.CyclicImports.{named_import, named_imports_at, named_imports_in, with_marks, cyclic_if_reached, cyclic_in};
ghost use Rattle.go_graph.specs.Graph.{row_at};

use crate::heads::{Head, ImportSpec};
use crate::named::named;
use crate::path_set::PathSet;
use crate::rules::CYCLIC_IMPORT;
use crate::table::Packages;
use go_base::{Broken, NoMemory};
use go_graph::{is_marked, row_at};
use go_module::{add_if, broken_at};
use std::alloc::Global;

/// Adds what the imports of reached packages break that lie on a cycle. For each package there is a row of
/// marks, with a mark for each of its imports that names a package.
pub fn add_cyclic_imports(
    alloc: Global,
    found: &mut Vec<Broken>,
    heads: &[Head],
    packages: &Packages,
    places: &PathSet,
    marks: &[Vec<bool>],
) -> Result<(), NoMemory>
    requires { places.now ≡ packages.now.paths }
    ensures { OnOk result (found.new.items
        ≡ found.old.items ++ cyclic_in heads.now packages.now (marks_of marks.now)) }
{
    for k in 0..packages.paths().len() {
        add_package(alloc, found, heads, packages, places, marks, k)?;
    }
    Ok(())
}

// Adds what the imports of a package break that lie on a cycle, if it is reached.
fn add_package(
    alloc: Global,
    found: &mut Vec<Broken>,
    heads: &[Head],
    packages: &Packages,
    places: &PathSet,
    marks: &[Vec<bool>],
    k: usize,
) -> Result<(), NoMemory>
    requires { places.now ≡ packages.now.paths }
    ensures { OnOk result (found.new.items
        ≡ found.old.items ++ cyclic_if_reached heads.now packages.now (marks_of marks.now) k) }
{
    if !is_marked(packages.reached(), k) {
        return Ok(());
    }
    let files = row_at(packages.files(), k);
    let from_stub = is_marked(packages.stubs(), k);
    let mut list = Vec::new(alloc);
    add_imports(&mut list, heads, places, packages.stubs(), from_stub, files)?;
    add_marked(found, &list, marks_at(marks, k))?;
    Ok(())
}

// The row of marks at a place, and none where there is no such row.
fn marks_at(rows: &[Vec<bool>], place: usize) -> &[bool]
    ensures { result.now ≡ row_at (marks_of rows.now) place }
{
    match rows.get(place) {
        Some(row) => row.as_slice(),
        None => &[],
    }
}

// Adds those whose mark is set.
fn add_marked(found: &mut Vec<Broken>, list: &[Broken], marks: &[bool]) -> Result<(), NoMemory>
    ensures { OnOk result (found.new.items ≡ found.old.items ++ with_marks list.now marks.now) }
{
    for (k, broken) in list.iter().enumerate() {
        add_if(found, is_marked(marks, k), *broken)?;
    }
    Ok(())
}

// Adds what each import of these files breaks if it lies on a cycle.
fn add_imports(
    list: &mut Vec<Broken>,
    heads: &[Head],
    places: &PathSet,
    stubs: &[bool],
    from_stub: bool,
    files: &[usize],
) -> Result<(), NoMemory>
    ensures { OnOk result (list.new.items ≡ list.old.items
        ++ named_imports_in places.now stubs.now heads.now from_stub files.now) }
{
    for file in files {
        add_file(list, heads, places, stubs, from_stub, *file)?;
    }
    Ok(())
}

// Adds what each import of a file breaks if it lies on a cycle.
fn add_file(
    list: &mut Vec<Broken>,
    heads: &[Head],
    places: &PathSet,
    stubs: &[bool],
    from_stub: bool,
    file: usize,
) -> Result<(), NoMemory>
    ensures { OnOk result (list.new.items ≡ list.old.items
        ++ named_imports_at places.now stubs.now heads.now from_stub file) }
{
    match heads.get(file) {
        Some(head) => add_each_import(list, places, stubs, from_stub, file, head.imports()),
        None => Ok(()),
    }
}

// Adds what each of these imports of a file breaks if it lies on a cycle.
fn add_each_import(
    list: &mut Vec<Broken>,
    places: &PathSet,
    stubs: &[bool],
    from_stub: bool,
    file: usize,
    imports: &[ImportSpec],
) -> Result<(), NoMemory>
    ensures { OnOk result (list.new.items ≡ list.old.items
        ++ flat_map (named_import places.now stubs.now from_stub file) imports.now) }
{
    for import in imports {
        add_import(list, places, stubs, from_stub, file, import)?;
    }
    Ok(())
}

// Adds what an import breaks if it lies on a cycle, unless it names no package.
fn add_import(
    list: &mut Vec<Broken>,
    places: &PathSet,
    stubs: &[bool],
    from_stub: bool,
    file: usize,
    import: &ImportSpec,
) -> Result<(), NoMemory>
    ensures { OnOk result (list.new.items
        ≡ list.old.items ++ named_import places.now stubs.now from_stub file import.now) }
{
    let names = named(places, stubs, from_stub, import.path()).is_some();
    add_if(list, names, broken_at(file, import.at(), CYCLIC_IMPORT))
}
