// What imports name.
ghost use Rattle.std.specs.Prelude.{◌≡◌, [], ◌∷◌, ◌++◌, IfOk, OnOk};
ghost use Rattle.go_graph.specs.Graph.{is_marked};
ghost use Rattle.go_module.specs.Modules.Packages.{named, all_named, imports_at, imports_of};

use crate::heads::{Head, ImportSpec};
use crate::path_set::PathSet;
use go_base::NoMemory;
use go_graph::{Numbers, is_marked};
use std::alloc::Global;

/// The package that a path names in an import of a stub, or of a package that is no stub; None
/// exactly where it names none.
pub fn named(places: &PathSet, stubs: &[bool], from_stub: bool, path: &[u8]) -> Option<usize>
    ensures { result ≡ named places.now stubs.now from_stub path.now }
{
    let place = places.place_of(path)?;
    if from_stub && !is_marked(stubs, place) {
        return None;
    }
    Some(place)
}

/// The packages that the imports of these files name, file after file.
pub fn imports_of(
    alloc: Global,
    places: &PathSet,
    stubs: &[bool],
    heads: &[Head],
    from_stub: bool,
    files: &[usize],
) -> Result<Numbers, NoMemory>
    ensures { IfOk result (λ list. list
        ≡ imports_of places.now stubs.now heads.now from_stub files.now) }
{
    let mut list = Numbers::new(alloc);
    for file in files {
        add_file_imports(&mut list, places, stubs, heads, from_stub, *file)?;
    }
    Ok(list)
}

// Adds the packages that the imports of a file name.
fn add_file_imports(
    list: &mut Numbers,
    places: &PathSet,
    stubs: &[bool],
    heads: &[Head],
    from_stub: bool,
    file: usize,
) -> Result<(), NoMemory>
    ensures { OnOk result (list.new
        ≡ list.old ++ all_named places.now stubs.now from_stub (imports_at heads.now file)) }
{
    match heads.get(file) {
        Some(head) => add_named(list, places, stubs, from_stub, head.imports()),
        None => Ok(()),
    }
}

// Adds the packages that imports name.
fn add_named(
    list: &mut Numbers,
    places: &PathSet,
    stubs: &[bool],
    from_stub: bool,
    imports: &[ImportSpec],
) -> Result<(), NoMemory>
    ensures { OnOk result (list.new
        ≡ list.old ++ all_named places.now stubs.now from_stub imports.now) }
{
    for import in imports {
        add_import(list, places, stubs, from_stub, import)?;
    }
    Ok(())
}

// Adds the package that an import names, if there is one.
fn add_import(
    list: &mut Numbers,
    places: &PathSet,
    stubs: &[bool],
    from_stub: bool,
    import: &ImportSpec,
) -> Result<(), NoMemory>
    ensures { OnOk result (list.new
        ≡ list.old ++ all_named places.now stubs.now from_stub (import.now ∷ [])) }
{
    if let Some(place) = named(places, stubs, from_stub, import.path()) {
        list.push(place)?;
    }
    Ok(())
}
