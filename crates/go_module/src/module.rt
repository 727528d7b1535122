// Modules: packages of files, each with its tree (Go specification, "Packages").
ghost use Rattle.go_base.specs.Lines.{AreLineStarts};

use go_base::{Bytes, LineStarts, Name, NoMemory};
use go_tree::File;
use std::alloc::Global;

/// The number of a module's first node; lower ones are those of predeclared identifiers.
pub const FIRST_NUMBER: usize = 45;

/// A module: its path, the second number of the version of Go that its go.mod names, 21 for `go 1.21`,
/// and its packages in import order.
#[derive(Debug, Drop)]
pub struct Module {
    pub path: Name,
    pub version: u16,
    pub packages: Vec<Package>,
}

/// A package: the path that imports name it by, the name in its package clauses, whether it lies below
/// the root of stubs, its files in byte order of path, and the packages that it imports, as places in
/// the list of the module's packages.
#[derive(Debug, Drop)]
pub struct Package {
    pub path: Name,
    pub name: Name,
    pub stub: bool,
    pub files: Vec<SourceFile>,
    pub imports: Vec<usize>,
}

/// A file: its path below its root, its bytes, where their lines start, and its tree.
#[derive(Debug, Drop)]
pub struct SourceFile {
    pub name: Name,
    pub bytes: Bytes,
    pub lines: LineStarts,
    pub tree: File,
    ghost lines_of_bytes: { AreLineStarts bytes lines },
}

impl SourceFile {
    ghost use Rattle.std.specs.Prelude.{◌≡◌, IfOk};
    ghost use Rattle.go_tree.specs.Tree.{tree_of};
    ghost use Rattle.go_module.specs.Modules.Module.{file_view};

    /// The file at a path below its root with these bytes and their tree. An error is want of memory.
    pub fn new(alloc: Global, name: Name, bytes: Bytes, tree: File) -> Result<SourceFile, NoMemory>
        ensures { IfOk result (λ file. file_view file ≡ record {
          path = name;
          bytes = bytes;
          number = tree.number;
          tree = tree_of tree.root;
        }) }
    {
        let lines = LineStarts::of(alloc, bytes.as_slice())?;
        Ok(SourceFile {
            name,
            bytes,
            lines,
            tree,
        })
    }
}
