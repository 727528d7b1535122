// The files of a package with what stands in them (Go specification, "Source file organization").
ghost use Rattle.std.specs.Prelude.{◌≡◌, IfOk};
ghost use Rattle.go_module.specs.Modules.Module.{package_view};
ghost use Rattle.go_check.specs.Lines.Found.{own_files_in, own_files_view};

use go_base::NoMemory;
use go_module::{Package, SourceFile};
use go_names::{Spec, import_specs, specs_in_file};
use go_scope::{behind, front};
use go_tree::Node;
use std::alloc::Global;

/// A file of a package: whether it lies below the root of stubs, its import specs, the packages that these name, as
/// places in the module, and its specs.
#[derive(Drop)]
pub struct OwnFile<'a> {
    pub stub: bool,
    pub file: &'a SourceFile,
    pub imports: Vec<&'a Node>,
    pub packages: &'a [usize],
    pub specs: Vec<Spec<'a>>,
}

/// The files of a package, in their order. An error is want of memory.
pub fn own_files<'a>(alloc: Global, own: &'a Package) -> Result<Vec<OwnFile<'a>>, NoMemory>
    ensures { IfOk result (λ files. own_files_view files.items ≡ own_files_in (package_view own.now)) }
{
    let mut files = Vec::new(alloc);
    let mut packages = own.imports.as_slice();
    for (place, file) in own.files.iter().enumerate() {
        let imports = import_specs(alloc, &file.tree.root)?;
        let count = imports.len();
        files.push(OwnFile {
            stub: own.stub,
            file,
            imports,
            packages: front(packages, count),
            specs: specs_in_file(alloc, place, &file.tree.root)?,
        })?;
        packages = behind(packages, count);
    }
    Ok(files)
}
