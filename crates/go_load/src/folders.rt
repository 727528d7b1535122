// The paths under which files are imported.
ghost use Rattle.std.specs.Prelude.{◌≡◌, IfOk};
ghost use Rattle.go_module.specs.Modules.Paths.{import_path};

use crate::heads::Head;
use crate::paths::ImportPath;
use go_base::NoMemory;
use go_mod::{folder_of, import_path as module_import_path, stub_import_path};
use std::alloc::Global;

/// The path under which a file is imported.
pub fn import_path(alloc: Global, module_path: &[u8], head: &Head) -> Result<ImportPath, NoMemory>
    ensures { IfOk result (λ path. path ≡ import_path module_path.now head.now) }
{
    let folder = folder_of(head.path());
    let path = if head.is_stub() {
        stub_import_path(alloc, folder)?
    } else {
        module_import_path(alloc, module_path, folder)?
    };
    Ok(ImportPath::new(path.into_vec()))
}
