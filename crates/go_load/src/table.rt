// The table of packages.
ghost use Rattle.std.specs.Prelude.{◌≡◌};
ghost use Rattle.std.specs.Cmp.Lexicographic.{slice_cmp};
ghost use Rattle.std.specs.List.Sorted.{IsStrictlySortedBy};
ghost use Rattle.std.specs.Ordering.{nat_cmp};

use crate::paths::ImportPath;
use go_graph::Numbers;
use std::marker::Model;

/// The packages of a module and of its stubs, in ascending order of their paths. A package is known by
/// its place in this order, a file by its place among the heads.
#[derive(Debug, Drop)]
pub struct Packages {
    paths: Vec<ImportPath>,
    stubs: Vec<bool>,
    files: Vec<Numbers>,
    imports: Vec<Numbers>,
    reached: Vec<bool>,
}

impl Model for Packages {
    ghost use Rattle.std.specs.Cmp.Lexicographic.{slice_cmp};
    ghost use Rattle.std.specs.List.Sorted.{IsStrictlySortedBy};
    ghost use Rattle.std.specs.Ordering.{nat_cmp};
    ghost use Rattle.go_module.specs.Modules.Packages.{PackageTable};

    ghost Value = { PackageTable };

    ghost view = { λ packages. record {
      paths = packages.paths.items;
      stubs = packages.stubs.items;
      files = packages.files.items;
      imports = packages.imports.items;
      reached = packages.reached.items;
    } };

    ghost invariant = { λ packages. IsStrictlySortedBy (slice_cmp nat_cmp) packages.paths.items };
}

impl Packages {
    /// The packages with these paths, and for each whether it is a stub, its files, the packages that its
    /// imports name, and whether it is reached.
    pub fn new(
        paths: Vec<ImportPath>,
        stubs: Vec<bool>,
        files: Vec<Numbers>,
        imports: Vec<Numbers>,
        reached: Vec<bool>,
    ) -> Self
        requires { IsStrictlySortedBy (slice_cmp nat_cmp) paths.items }
        ensures { result ≡ record {
          paths = paths.items;
          stubs = stubs.items;
          files = files.items;
          imports = imports.items;
          reached = reached.items;
        } }
    {
        Packages {
            paths,
            stubs,
            files,
            imports,
            reached,
        }
    }

    /// The paths of the packages.
    pub fn paths(&self) -> &[ImportPath]
        ensures paths { result.now ≡ self.now.paths }
        ensures ascending { IsStrictlySortedBy (slice_cmp nat_cmp) result.now }
    {
        &self.paths
    }

    /// For each package whether its files are stubs.
    pub fn stubs(&self) -> &[bool]
        ensures { result.now ≡ self.now.stubs }
    {
        &self.stubs
    }

    /// For each package its files.
    pub fn files(&self) -> &[Numbers]
        ensures { result.now ≡ self.now.files }
    {
        &self.files
    }

    /// For each package those that its imports name, file after file and import after import.
    pub fn imports(&self) -> &[Numbers]
        ensures { result.now ≡ self.now.imports }
    {
        &self.imports
    }

    /// For each package whether it is reached.
    pub fn reached(&self) -> &[bool]
        ensures { result.now ≡ self.now.reached }
    {
        &self.reached
    }
}
