// The steps and the pairs of one question whether two types are identical (Go specification, "Type identity").
ghost use Rattle.std.specs.Prelude.{◌≡◌, ◌++◌, ◌∷◌, [], OnOk};

use crate::budget::Budget;
use crate::kept::{Kept, KeptPair};
use go_base::NoMemory;
use std::alloc::Global;

/// The steps that are left, and the pairs of interfaces that were found identical.
#[derive(Debug, Drop)]
pub(crate) struct Work {
    pub budget: Budget,
    pub kept: Kept,
}

impl Work {
    /// What one question begins with.
    pub fn new(alloc: Global) -> Work
        ensures budget { result.budget.left ≡ 4194304 }
        ensures kept { result.kept.pairs.items ≡ [] }
    {
        Work {
            budget: Budget::new(),
            kept: Kept {
                pairs: Vec::new(alloc),
            },
        }
    }
    /// Keeps one pair more, which takes a step of the budget. An error is want of memory, also past these.
    pub fn keep(&mut self, pair: KeptPair) -> Result<(), NoMemory>
        ensures { OnOk result (self.new.kept.pairs.items ≡ self.old.kept.pairs.items ++ pair ∷ []) }
    {
        self.budget.spend(1)?;
        self.kept.pairs.push(pair)?;
        Ok(())
    }
}
