// A tree in memory that can always be read.
ghost use Rattle.std.specs.Prelude.{◌≡◌, IfOk, IsOkUnless, IsPermutation, Some, take};
ghost use Rattle.go_base.specs.Tree.{HasDistinctPaths, bytes_of, paths_of};

use crate::bytes::Bytes;
use crate::files::Files;
use crate::name::Name;
use crate::tree::{MemFile, Tree, TreeFault};
use crate::word::Word;
use std::alloc::Global;
use std::marker::Model;

/// Files in memory. No call fails but for want of memory.
#[derive(Drop)]
pub struct SureTree {
    files: Files,
}

impl Model for SureTree {
    ghost use Rattle.go_base.specs.MemTree.{SureTreeState};

    ghost Value = { SureTreeState };

    ghost view = { λ tree. record {
      files = tree.files.list.items;
      distinct = tree.files.distinct;
    } };
}

impl SureTree {
    /// A tree of these files.
    pub fn new(files: Vec<MemFile>) -> Self
        requires { HasDistinctPaths files.items }
        ensures { result.files ≡ files.items }
    {
        SureTree {
            files: Files::new(files),
        }
    }
}

impl Tree for SureTree {
    ghost files = { λ tree. Some tree.files };

    ghost faults = { λ _. 0 };

    fn list(&mut self, alloc: Global, root: &Word) -> Result<Vec<Name>, TreeFault>
        ensures paths { IfOk result
            (λ names. IsPermutation names.items (paths_of self.old.files root.now)) }
        ensures files { self.new.files ≡ self.old.files }
        ensures no_memory { IsOkUnless result TreeFault.NoMemory }
    {
        Ok(self.files.paths(alloc, root)?)
    }

    fn read(
        &mut self,
        alloc: Global,
        root: &Word,
        path: &Name,
        most: usize,
    ) -> Result<Bytes, TreeFault>
        ensures bytes { IfOk result
            (λ bytes. bytes ≡ take most (bytes_of self.old.files root.now path.now)) }
        ensures files { self.new.files ≡ self.old.files }
        ensures no_memory { IsOkUnless result TreeFault.NoMemory }
    {
        Ok(self.files.front(alloc, root, path, most)?)
    }

    ghost distinct = { λ tree. tree.distinct };
}
