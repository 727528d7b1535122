// What packages break by their imports and their names.
ghost use Rattle.std.specs.Prelude.{IfOk};
ghost use Rattle.go_module.specs.Modules.BrokenImports.{AreBrokenPackages};
ghost use Rattle.go_module.specs.Modules.Packages.{IsTableOf};

use crate::cycles_broken::add_cyclic_imports;
use crate::heads::Head;
use crate::imports_broken::add_broken_imports;
use crate::path_set::PathSet;
use crate::table::Packages;
use go_base::{Broken, NoMemory};
use go_graph::cyclic_edges;
use go_module::ordered;
use std::alloc::Global;

/// What the imports and the package names of reached packages break: P1 at imports that name no package, P2
/// at those on a cycle, P3 at package names that differ in a folder or are `_`, and U7 at imports outside
/// the language that is checked. They stand in the order of a report: by files, then by offsets, then by
/// rules, each once. The packages are those that these files make. In a place the file is its number among
/// the heads. NoMemory comes only where memory runs out.
pub fn broken_packages(
    alloc: Global,
    module_path: &[u8],
    heads: &[Head],
    packages: &Packages,
) -> Result<Vec<Broken>, NoMemory>
    requires { IsTableOf module_path.now heads.now packages.now }
    ensures { IfOk result (λ list. AreBrokenPackages heads.now packages.now list.items) }
{
    let marks = cyclic_edges(alloc, packages.imports())?;
    let places = PathSet::of(alloc, packages.paths())?;
    let mut found = Vec::new(alloc);
    add_broken_imports(&mut found, heads, packages, &places)?;
    add_cyclic_imports(alloc, &mut found, heads, packages, &places, &marks)?;
    Ok(ordered(found))
}
