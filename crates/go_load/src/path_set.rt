// Paths, each once.
ghost use Rattle.std.specs.Prelude.{◌≡◌, [], not, ◌<◌, ℕ, List, length, IfOk, IfSome, OnOk};
ghost use Rattle.std.specs.Cmp.Lexicographic.{slice_cmp};
ghost use Rattle.std.specs.List.Sorted.{IsStrictlySortedBy};
ghost use Rattle.std.specs.Ordering.{nat_cmp};
ghost use Rattle.go_load.specs.Packages.PathSets.{with_path, place_of};
ghost use Rattle.go_module.specs.Modules.Paths.{has_path};

use crate::paths::ImportPath;
use go_base::NoMemory;
use indexmap::IndexSet;
use std::alloc::Global;
use std::marker::Model;

/// Paths in the order in which they were added, each at its first place.
#[derive(Drop)]
pub struct PathSet<'a> {
    texts: IndexSet<&'a [u8]>,
}

impl<'a> Model for PathSet<'a> {
    ghost use Rattle.std.specs.Prelude.{ℕ, List, map};

    ghost Value = { List (List ℕ) };

    ghost view = { λ set. map (λ text. text.now) set.texts.keys };
}

impl<'a> PathSet<'a> {
    /// No paths.
    pub fn new(alloc: Global) -> PathSet<'a>
        ensures { result ≡ [] }
    {
        PathSet {
            texts: IndexSet::new(alloc),
        }
    }

    /// The set of these paths. Paths in strictly ascending order keep their places.
    pub fn of(alloc: Global, paths: &'a [ImportPath]) -> Result<PathSet<'a>, NoMemory>
        ensures has { IfOk result (λ set. (path : List ℕ) → has_path set path ≡ has_path paths.now path) }
        ensures ascending { IfOk result (λ set.
            IsStrictlySortedBy (slice_cmp nat_cmp) paths.now → set ≡ paths.now) }
    {
        let mut set = PathSet::new(alloc);
        for path in paths {
            set.add(path.as_bytes())?;
        }
        Ok(set)
    }

    /// Adds a path, and says whether it is new.
    pub fn add(&mut self, path: &'a [u8]) -> Result<bool, NoMemory>
        ensures new { IfOk result (λ new. new ≡ not (has_path self.old path.now)) }
        ensures paths { OnOk result (self.new ≡ with_path self.old path.now) }
    {
        Ok(self.texts.insert(path)?)
    }

    /// Whether the path is there.
    pub fn has(&self, path: &[u8]) -> bool
        ensures { result ≡ has_path self.now path.now }
    {
        self.texts.contains(path)
    }

    /// The place of the path; None exactly where it is not there.
    pub fn place_of(&self, path: &[u8]) -> Option<usize>
        ensures place { result ≡ place_of self.now path.now }
        ensures within { IfSome result (λ k. k < length self.now) }
    {
        self.texts.get_index_of(path)
    }
}
