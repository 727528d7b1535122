// The heads of Go files.
ghost use Rattle.std.specs.Prelude.{◌≡◌};

use go_base::{Bytes, Name};
use std::marker::Model;

/// An import of a file: the path that its string names, and the offset of the string in bytes.
#[derive(Debug, Drop)]
pub struct ImportSpec {
    path: Bytes,
    at: usize,
}

impl Model for ImportSpec {
    ghost use Rattle.go_module.specs.Modules.Heads.{ImportSpec};

    ghost Value = { ImportSpec };

    ghost view = { λ import. record { path = import.path; at = import.at } };
}

impl ImportSpec {
    /// The import of `path` by the string at `at`.
    pub fn new(path: Bytes, at: usize) -> Self
        ensures { result ≡ record { path = path; at = at } }
    {
        ImportSpec { path, at }
    }

    /// The path that the string names.
    pub fn path(&self) -> &[u8]
        ensures { result.now ≡ self.now.path }
    {
        self.path.as_slice()
    }

    /// The offset of the string.
    pub fn at(&self) -> usize
        ensures { result ≡ self.now.at }
    {
        self.at
    }
}

/// What is known of a file before its declarations are: where it lies, the name of its package and
/// its imports.
#[derive(Debug, Drop)]
pub struct Head {
    stub: bool,
    path: Name,
    name: Bytes,
    name_at: usize,
    imports: Vec<ImportSpec>,
}

impl Model for Head {
    ghost use Rattle.go_module.specs.Modules.Heads.{FileHead};

    ghost Value = { FileHead };

    ghost view = { λ head. record {
      stub = head.stub;
      path = head.path;
      name = head.name;
      name_at = head.name_at;
      imports = head.imports.items;
    } };
}

impl Head {
    /// The head of the file at `path` below its root. A `stub` lies below the root of stubs. `name` is
    /// the name in its package clause, at the byte `name_at`, and its imports stand in source order.
    pub fn new(
        stub: bool,
        path: Name,
        name: Bytes,
        name_at: usize,
        imports: Vec<ImportSpec>,
    ) -> Self
        ensures { result ≡ record {
          stub = stub;
          path = path;
          name = name;
          name_at = name_at;
          imports = imports.items;
        } }
    {
        Head {
            stub,
            path,
            name,
            name_at,
            imports,
        }
    }

    /// Whether the file lies below the root of stubs.
    pub fn is_stub(&self) -> bool
        ensures { result ≡ self.now.stub }
    {
        self.stub
    }

    /// The path of the file below its root.
    pub fn path(&self) -> &[u8]
        ensures { result.now ≡ self.now.path }
    {
        self.path.as_bytes()
    }

    /// The name in the package clause.
    pub fn name(&self) -> &[u8]
        ensures { result.now ≡ self.now.name }
    {
        self.name.as_slice()
    }

    /// The offset of that name in bytes.
    pub fn name_at(&self) -> usize
        ensures { result ≡ self.now.name_at }
    {
        self.name_at
    }

    /// The imports in source order.
    pub fn imports(&self) -> &[ImportSpec]
        ensures { result.now ≡ self.now.imports }
    {
        &self.imports
    }
}
