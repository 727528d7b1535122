// A tree in memory whose listed calls fail.
ghost use Rattle.std.specs.Prelude.{◌≡◌, ◌≤◌, ◌↔◌, Some, take};
ghost use Rattle.std.specs.Prelude.{Contains, IfOk, IsErrOf, IsPermutation, IsTrue};
ghost use Rattle.std.specs.Bool.{OnFalse, OnTrue};
ghost use Rattle.go_base.specs.Counters.{Rose, one_more};
ghost use Rattle.go_base.specs.Tree.{HasDistinctPaths, bytes_of, paths_of};

use crate::bytes::Bytes;
use crate::files::Files;
use crate::name::Name;
use crate::tree::{MemFile, Tree, TreeFault};
use crate::word::Word;
use std::alloc::Global;
use std::marker::Model;

/// Files in memory. Its calls, `list` and `read` together, are counted from 1; those whose numbers
/// are listed fail, and no others.
#[derive(Drop)]
pub struct MemTree {
    files: Files,
    failing: Vec<u64>,
    calls: u64,
    faults: u64,
}

impl Model for MemTree {
    ghost use Rattle.go_base.specs.MemTree.{MemTreeState};

    ghost Value = { MemTreeState };

    ghost view = { λ tree. record {
      files = tree.files.list.items;
      distinct = tree.files.distinct;
      failing = tree.failing.items;
      calls = tree.calls;
      faults = tree.faults;
    } };
}

impl MemTree {
    /// A tree of these files, before its first call.
    pub fn new(files: Vec<MemFile>, failing: Vec<u64>) -> Self
        requires { HasDistinctPaths files.items }
        ensures files { result.files ≡ files.items }
        ensures failing { result.failing ≡ failing.items }
        ensures calls { result.calls ≡ 0 }
        ensures faults { result.faults ≡ 0 }
    {
        MemTree {
            files: Files::new(files),
            failing,
            calls: 0,
            faults: 0,
        }
    }

    // Counts a call, and says whether it fails.
    fn is_failing(&mut self) -> bool
        ensures files { self.new.files ≡ self.old.files }
        ensures failing { self.new.failing ≡ self.old.failing }
        ensures calls { self.new.calls ≡ one_more self.old.calls }
        ensures listed { IsTrue result ↔ Contains self.old.failing self.new.calls }
        ensures fails { OnTrue result (self.new.faults ≡ one_more self.old.faults) }
        ensures stays { OnFalse result (self.new.faults ≡ self.old.faults) }
        ensures rising { self.old.faults ≤ self.new.faults }
    {
        self.calls = self.calls.saturating_add(1);
        if self.failing.contains(&self.calls) {
            self.faults = self.faults.saturating_add(1);
            return true;
        }
        false
    }
}

impl Tree for MemTree {
    ghost files = { λ tree. Some tree.files };

    ghost faults = { λ tree. tree.faults };

    fn list(&mut self, alloc: Global, root: &Word) -> Result<Vec<Name>, TreeFault>
        ensures paths { IfOk result
            (λ names. IsPermutation names.items (paths_of self.old.files root.now)) }
        ensures files { self.new.files ≡ self.old.files }
        ensures failing { self.new.failing ≡ self.old.failing }
        ensures calls { self.new.calls ≡ one_more self.old.calls }
        ensures failed { IsErrOf result TreeFault.Failed ↔
            Contains self.old.failing self.new.calls }
        ensures counted { IsErrOf result TreeFault.Failed →
            self.new.faults ≡ one_more self.old.faults }
        ensures cause { IsErrOf result TreeFault.Failed → Rose self.old.faults self.new.faults }
        ensures stays { (IsErrOf result TreeFault.Failed → ⊥) → self.new.faults ≡ self.old.faults }
        ensures rising { self.old.faults ≤ self.new.faults }
    {
        if self.is_failing() {
            return Err(TreeFault::Failed);
        }
        Ok(self.files.paths(alloc, root)?)
    }

    fn read(
        &mut self,
        alloc: Global,
        root: &Word,
        path: &Name,
        most: usize,
    ) -> Result<Bytes, TreeFault>
        ensures bytes { IfOk result
            (λ bytes. bytes ≡ take most (bytes_of self.old.files root.now path.now)) }
        ensures files { self.new.files ≡ self.old.files }
        ensures failing { self.new.failing ≡ self.old.failing }
        ensures calls { self.new.calls ≡ one_more self.old.calls }
        ensures failed { IsErrOf result TreeFault.Failed ↔
            Contains self.old.failing self.new.calls }
        ensures counted { IsErrOf result TreeFault.Failed →
            self.new.faults ≡ one_more self.old.faults }
        ensures cause { IsErrOf result TreeFault.Failed → Rose self.old.faults self.new.faults }
        ensures stays { (IsErrOf result TreeFault.Failed → ⊥) → self.new.faults ≡ self.old.faults }
        ensures rising { self.old.faults ≤ self.new.faults }
    {
        if self.is_failing() {
            return Err(TreeFault::Failed);
        }
        Ok(self.files.front(alloc, root, path, most)?)
    }

    ghost distinct = { λ tree. tree.distinct };
}
