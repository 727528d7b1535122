// The named types through which a chain of types has come (Go specification, "Underlying types").
ghost use Rattle.std.specs.Prelude.{◌≡◌, if◌then◌else◌, [], ◌∷◌, IfOk, OnErr, not};
ghost use Rattle.std.specs.List.{list_any};
ghost use Rattle.go_judge.specs.Types.UnderlyingType.{same_origin};
ghost use Rattle.go_subst.specs.Chains.{origin_as, path_of};

use go_base::{NoMemory, ObjId};
use indexmap::IndexMap;
use std::alloc::Global;

/// Where a named type is declared: the declaration, and for a type parameter its place there.
#[derive(Clone, Copy, Debug, PartialEq, Eq, Hash)]
pub(crate) struct Origin {
    pub declaration: ObjId,
    pub parameter: Option<usize>,
}

/// Where the named types are declared through which a chain of types has come, each once.
#[derive(Drop)]
pub(crate) struct Path {
    met: IndexMap<Origin, ()>,
}

impl Path {
    /// No named type.
    pub fn new(alloc: Global) -> Path
        ensures { path_of result ≡ [] }
    {
        Path {
            met: IndexMap::new(alloc),
        }
    }

    /// Adds where a named type is declared, and says whether it was not there. An error is want of memory, and leaves
    /// the path as it was.
    pub fn add(&mut self, origin: Origin) -> Result<bool, NoMemory>
        ensures fresh { IfOk result (λ fresh. fresh
            ≡ not (list_any (same_origin (origin_as origin)) (path_of self.old))) }
        ensures added { IfOk result (λ fresh. path_of self.new
            ≡ (if fresh then origin_as origin ∷ path_of self.old else path_of self.old)) }
        ensures err { OnErr result (path_of self.new ≡ path_of self.old) }
    {
        Ok(self.met.insert(origin, ())?.is_none())
    }
}
