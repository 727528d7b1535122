// What is known of each package: whether it is a stub, and what its imports name.
ghost use Rattle.std.specs.Prelude.{◌≡◌, IfOk, length, map, not};
ghost use Rattle.go_module.specs.Modules.Paths.{has_path};
ghost use Rattle.go_module.specs.Modules.Packages.{imports_of};
ghost use Rattle.go_load.specs.Packages.PathSets.{imports_by};

use crate::heads::Head;
use crate::named::imports_of;
use crate::path_set::PathSet;
use crate::paths::ImportPath;
use go_base::NoMemory;
use go_graph::Numbers;
use std::alloc::Global;

/// For each path whether its package is a stub, where files that are no stubs have the paths `own`.
pub fn stubs(alloc: Global, paths: &[ImportPath], own: &PathSet) -> Result<Vec<bool>, NoMemory>
    ensures { IfOk result (λ stubs. stubs.items ≡ map (λ path. not (has_path own.now path)) paths.now) }
{
    let mut stubs = Vec::new(alloc);
    for path in paths {
        stubs.push(!own.has(path.as_bytes()))?;
    }
    Ok(stubs)
}

/// For each package the packages that its imports name.
pub fn imports(
    alloc: Global,
    places: &PathSet,
    stubs: &[bool],
    heads: &[Head],
    files: &[Numbers],
) -> Result<Vec<Numbers>, NoMemory>
    requires { length stubs.now ≡ length files.now }
    ensures { IfOk result (λ imports. imports.items
        ≡ imports_by places.now stubs.now heads.now stubs.now files.now) }
{
    let mut imports = Vec::new(alloc);
    for (k, row) in files.iter().enumerate() {
        imports.push(imports_of(alloc, places, stubs, heads, stubs[k], row.as_slice())?)?;
    }
    Ok(imports)
}
