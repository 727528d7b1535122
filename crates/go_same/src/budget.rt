// How many steps one question may take.
ghost use Rattle.std.specs.Prelude.{◌≡◌, ◌+◌, ◌<◌, OnErr, OnOk};
ghost use Rattle.go_same.specs.Sets.{found_size, unions_size};

use crate::set::{FoundSet, UnionPart};
use go_base::NoMemory;

// One question has so many.
const MOST_STEPS: usize = 4_194_304;

/// The steps that are left of one question. One that would take more is given up, as for want of memory.
#[derive(Debug, Drop)]
pub(crate) struct Budget {
    left: usize,
}

impl Budget {
    /// What one question has.
    pub fn new() -> Budget
        ensures { result.left ≡ 4194304 }
    {
        Budget { left: MOST_STEPS }
    }

    /// Takes so many steps, an error where fewer are left.
    pub fn spend(&mut self, steps: usize) -> Result<(), NoMemory>
        ensures spent { OnOk result (self.new.left + steps ≡ self.old.left) }
        ensures few { OnErr result (self.old.left < steps) }
    {
        match self.left.checked_sub(steps) {
            Some(left) => {
                self.left = left;
                Ok(())
            }
            None => Err(NoMemory),
        }
    }

    /// Takes a step for each method and each term of what is found, an error where fewer are left.
    pub fn spend_found(&mut self, found: &FoundSet) -> Result<(), NoMemory>
        ensures spent { OnOk result (self.new.left + found_size found.now ≡ self.old.left) }
        ensures few { OnErr result (self.old.left < found_size found.now) }
    {
        match found {
            FoundSet::Is(set) => {
                self.spend(set.methods.len())?;
                self.spend_unions(&set.unions)
            }
            _ => Ok(()),
        }
    }

    fn spend_unions(&mut self, unions: &[Vec<UnionPart>]) -> Result<(), NoMemory>
        ensures spent { OnOk result (self.new.left + unions_size unions.now ≡ self.old.left) }
        ensures few { OnErr result (self.old.left < unions_size unions.now) }
    {
        for u in unions {
            self.spend(u.len())?;
        }
        Ok(())
    }
}
