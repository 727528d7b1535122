// Trees of files, which a module is read from.
ghost use Rattle.std.specs.Prelude.{◌≡◌, ℕ, ◌≤◌, List, Option, take};
ghost use Rattle.std.specs.Prelude.{IfOk, IfSome, IsErrOf, IsPermutation};
ghost use Rattle.go_base.specs.declared.tree.MemFile.{MemFile};
ghost use Rattle.go_base.specs.declared.tree.TreeFault.TheVariants.{NoMemory as OutOfMemory};
ghost use Rattle.go_base.specs.Counters.{Rose};
ghost use Rattle.go_base.specs.Tree.{HasDistinctPaths, bytes_of, paths_of};

use crate::bytes::Bytes;
use crate::name::Name;
use crate::no_memory::NoMemory;
use crate::word::Word;
use std::alloc::{AllocError, AllocFailed, Global};

/// A file: the root that it lies below, its path from there with `/`, and its bytes.
#[derive(Debug, Drop)]
pub struct MemFile {
    pub root: Word,
    pub path: Name,
    pub bytes: Bytes,
}

/// Why a call on a tree gave no answer.
#[derive(Clone, Copy, Debug, PartialEq, Eq)]
pub enum TreeFault {
    /// The tree could not be read.
    Failed,
    /// Memory was refused.
    NoMemory,
}

impl From<AllocError> for TreeFault {
    ghost from_gives = { λ _ fault. fault ≡ OutOfMemory };

    fn from(_: AllocError) -> Self {
        TreeFault::NoMemory
    }
}

impl<T: Drop> From<AllocFailed<T>> for TreeFault {
    ghost from_gives = { λ _ fault. fault ≡ OutOfMemory };

    fn from(_: AllocFailed<T>) -> Self {
        TreeFault::NoMemory
    }
}

impl From<NoMemory> for TreeFault {
    ghost from_gives = { λ _ fault. fault ≡ OutOfMemory };

    fn from(_: NoMemory) -> Self {
        TreeFault::NoMemory
    }
}

/// Files below roots. No call changes them.
pub trait Tree {
    /// The files, where the tree tells them.
    ghost files: { Self → Option (List MemFile) };

    /// How often a call has failed, up to the last value of a counter.
    ghost faults: { Self → ℕ };

    /// The paths of all files below the root, each once, in any order. A root that is not there has
    /// no files.
    fn list(&mut self, alloc: Global, root: &Word) -> Result<Vec<Name>, TreeFault>
        ensures paths { IfOk result (λ names. IfSome (files self.old)
            (λ all. IsPermutation names.items (paths_of all root.now))) }
        ensures files { files self.new ≡ files self.old }
        ensures cause { IsErrOf result TreeFault.Failed → Rose (faults self.old) (faults self.new) }
        ensures stays { (IsErrOf result TreeFault.Failed → ⊥) → faults self.new ≡ faults self.old }
        ensures rising { faults self.old ≤ faults self.new };

    /// The first `most` bytes of the file, or all where there are fewer. A file that is not there
    /// has no bytes.
    fn read(
        &mut self,
        alloc: Global,
        root: &Word,
        path: &Name,
        most: usize,
    ) -> Result<Bytes, TreeFault>
        ensures bytes { IfOk result (λ bytes. IfSome (files self.old)
            (λ all. bytes ≡ take most (bytes_of all root.now path.now))) }
        ensures files { files self.new ≡ files self.old }
        ensures cause { IsErrOf result TreeFault.Failed → Rose (faults self.old) (faults self.new) }
        ensures stays { (IsErrOf result TreeFault.Failed → ⊥) → faults self.new ≡ faults self.old }
        ensures rising { faults self.old ≤ faults self.new };

    /// The paths of each root are distinct.
    ghost distinct: { (tree : Self) → IfSome (files tree) HasDistinctPaths };
}
