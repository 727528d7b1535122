// Files that were read.
ghost use Rattle.std.specs.Prelude.{◌≡◌};

use go_base::{Bytes, Name};
use std::marker::Model;

/// A Go file that was read: whether it lies below the root of stubs, its path below its root, and its
/// bytes.
#[derive(Debug, Drop)]
pub struct Text {
    stub: bool,
    path: Name,
    bytes: Bytes,
}

impl Model for Text {
    ghost use Rattle.go_module.specs.Modules.Texts.{SourceText};

    ghost Value = { SourceText };

    ghost view = { λ text. record { stub = text.stub; path = text.path; bytes = text.bytes } };
}

impl Text {
    /// The file at `path` below its root with these bytes. A `stub` lies below the root of stubs.
    pub fn new(stub: bool, path: Name, bytes: Bytes) -> Self
        ensures { result ≡ record { stub = stub; path = path; bytes = bytes } }
    {
        Text { stub, path, bytes }
    }

    /// Whether the file lies below the root of stubs.
    pub fn is_stub(&self) -> bool
        ensures { result ≡ self.now.stub }
    {
        self.stub
    }

    /// The path of the file below its root.
    pub fn path(&self) -> &Name
        ensures { result.now ≡ self.now.path }
    {
        &self.path
    }

    /// The bytes of the file.
    pub fn bytes(&self) -> &[u8]
        ensures { result.now ≡ self.now.bytes }
    {
        self.bytes.as_slice()
    }

    /// The path and the bytes.
    pub fn into_parts(self) -> (Name, Bytes)
        ensures path { result.0 ≡ self.path }
        ensures bytes { result.1 ≡ self.bytes }
    {
        (self.path, self.bytes)
    }
}
