// The packages that files belong to.
ghost use Rattle.std.specs.Prelude.{◌≡◌, IfOk};
ghost use Rattle.go_module.specs.Modules.Paths.{own_paths, home, homes};

use crate::folders::import_path;
use crate::heads::Head;
use crate::path_set::PathSet;
use crate::paths::ImportPath;
use go_base::NoMemory;
use go_mod::folder_of;
use std::alloc::Global;

/// The paths of the files that are no stubs.
pub fn own_paths(
    alloc: Global,
    module_path: &[u8],
    heads: &[Head],
) -> Result<Vec<ImportPath>, NoMemory>
    ensures { IfOk result (λ paths. paths.items ≡ own_paths module_path.now heads.now) }
{
    let mut paths = Vec::new(alloc);
    for head in heads {
        if !head.is_stub() {
            paths.push(import_path(alloc, module_path, head)?)?;
        }
    }
    Ok(paths)
}

/// For each file the path of the package that it belongs to, where files that are no stubs have these
/// paths.
pub fn homes(
    alloc: Global,
    module_path: &[u8],
    own: &PathSet,
    heads: &[Head],
) -> Result<Vec<Option<ImportPath>>, NoMemory>
    ensures { IfOk result (λ list. list.items ≡ homes module_path.now own.now heads.now) }
{
    let mut list = Vec::new(alloc);
    for head in heads {
        list.push(home(alloc, module_path, own, head)?)?;
    }
    Ok(list)
}

// The path of the package that a file belongs to.
fn home(
    alloc: Global,
    module_path: &[u8],
    own: &PathSet,
    head: &Head,
) -> Result<Option<ImportPath>, NoMemory>
    ensures { IfOk result (λ path. path ≡ home module_path.now own.now head.now) }
{
    if head.is_stub() {
        let folder = folder_of(head.path());
        if folder.is_empty() || own.has(folder) {
            return Ok(None);
        }
    }
    Ok(Some(import_path(alloc, module_path, head)?))
}
