// The module that parsed files make.
ghost use Rattle.std.specs.Prelude.{◌≡◌, IfOk, OnOk, filter, length, map};
ghost use Rattle.go_module.specs.Modules.Texts.{as_text};
ghost use Rattle.go_graph.specs.Graph.{IsGraph, row_at, is_marked};
ghost use Rattle.go_module.specs.Modules.Module.{IsModuleOf, file_view, first_name, module_view, package_view};
ghost use Rattle.go_module.specs.Modules.Packages.{IsTableOf};
ghost use Rattle.go_load.specs.Packages.Assembly.{IsModuleOrder, cleared, files_left, package_with, packages_with};

use crate::heads::Head;
use crate::names_broken::name_at;
use crate::order_places::{places_at, places_of};
use crate::paths::ImportPath;
use crate::slots::{slots_of, take_files};
use crate::table::Packages;
use go_base::{Name, NoMemory};
use go_graph::{is_marked, order, row_at};
use go_module::{Module, Package, SourceFile, text_name};
use std::alloc::Global;

/// The module with this path that files make whose heads and packages these are: its packages are those
/// that are reached and on no cycle, in import order, each with its files. NoMemory comes only where
/// memory runs out.
pub fn module_of(
    alloc: Global,
    path: &[u8],
    files: Vec<SourceFile>,
    heads: &[Head],
    packages: &Packages,
) -> Result<Module, NoMemory>
    requires { IsTableOf path.now heads.now packages.now }
    ensures { IfOk result (λ made. IsModuleOf path.now (map file_view files.items)
        heads.now packages.now (module_view made)) }
{
    let order = module_order(alloc, packages)?;
    let places = places_of(alloc, &order, packages.paths().len())?;
    let mut slots = slots_of(alloc, files)?;
    let made = packages_with(alloc, heads, packages, &places, &mut slots, &order)?;
    Ok(Module {
        path: text_name(alloc, path)?,
        version: 21,
        packages: made,
    })
}

// The packages that are reached, in import order.
fn module_order(alloc: Global, packages: &Packages) -> Result<Vec<usize>, NoMemory>
    requires { IsGraph packages.now.imports }
    ensures { IfOk result (λ list. IsModuleOrder packages.now list.items) }
{
    let order = order(alloc, packages.imports())?;
    marked(alloc, packages.reached(), &order)
}

// Those of the numbers that have a mark.
fn marked(alloc: Global, marks: &[bool], numbers: &[usize]) -> Result<Vec<usize>, NoMemory>
    ensures { IfOk result (λ list. list.items ≡ filter (is_marked marks.now) numbers.now) }
{
    let mut list = Vec::new(alloc);
    for number in numbers {
        if is_marked(marks, *number) {
            list.push(*number)?;
        }
    }
    Ok(list)
}

// The packages with these numbers, one after another, each with those of its files that are left.
fn packages_with(
    alloc: Global,
    heads: &[Head],
    packages: &Packages,
    places: &[Option<usize>],
    slots: &mut [Option<SourceFile>],
    numbers: &[usize],
) -> Result<Vec<Package>, NoMemory>
    ensures { IfOk result (λ list. map package_view list.items
        ≡ packages_with (files_left slots.old) heads.now packages.now places.now numbers.now) }
{
    let mut list = Vec::new(alloc);
    for number in numbers {
        let made = package_with(alloc, heads, packages, places, slots, *number)?;
        list.push(made)?;
    }
    Ok(list)
}

// The package with that number, with those of its files that are left.
fn package_with(
    alloc: Global,
    heads: &[Head],
    packages: &Packages,
    places: &[Option<usize>],
    slots: &mut [Option<SourceFile>],
    number: usize,
) -> Result<Package, NoMemory>
    ensures made { IfOk result (λ made. package_view made
        ≡ package_with (files_left slots.old) heads.now packages.now places.now number) }
    ensures rest { OnOk result (files_left slots.new
        ≡ cleared (files_left slots.old) (row_at packages.now.files number)) }
{
    let files = row_at(packages.files(), number);
    let path = path_name(alloc, packages.paths(), number)?;
    let name = first_name(alloc, heads, files)?;
    let imports = places_at(alloc, places, row_at(packages.imports(), number))?;
    let files = take_files(alloc, slots, files)?;
    Ok(Package {
        path,
        name,
        stub: is_marked(packages.stubs(), number),
        files,
        imports,
    })
}

// The path of a package as a name.
fn path_name(alloc: Global, paths: &[ImportPath], number: usize) -> Result<Name, NoMemory>
    ensures { IfOk result (λ name. name ≡ as_text (row_at paths.now number)) }
{
    match paths.get(number) {
        Some(path) => text_name(alloc, path.as_bytes()),
        None => text_name(alloc, &[]),
    }
}

// The name in the package clause of the first of these files.
fn first_name(alloc: Global, heads: &[Head], files: &[usize]) -> Result<Name, NoMemory>
    ensures { IfOk result (λ name. name ≡ first_name heads.now files.now) }
{
    match files.first() {
        Some(file) => text_name(alloc, name_at(heads, *file)),
        None => Ok(Name::new(String::new(alloc))),
    }
}
