// What a question and an expression come to while some headers may be missing.
ghost use Rattle.std.specs.Prelude.{◌≡◌, IfOk};
ghost use Rattle.go_judge.specs.View.{outcome_view};

use crate::rec::Rec;
use go_base::Rule;
use go_module::ObjId;
use std::alloc::AllocError;

/// The answer to a question; Unknown with the first header that it lacks.
#[derive(Clone, Copy, Debug, PartialEq, Eq)]
pub enum Answer {
    Yes,
    No,
    Unknown(ObjId),
}

/// What a node comes to: its record; the rule that it breaks, and where; the header that it waits for;
/// or nothing, where an operand has no record for another cause than a header, or nothing is asked.
#[derive(Debug, Drop)]
pub enum Outcome {
    Found(Rec),
    Broken(Rule, Vec<Spot>),
    Waits(ObjId),
    Nothing,
}

impl Clone for Outcome {
    ghost is_clone = { λ outcome copy. outcome_view copy ≡ outcome_view outcome };

    /// The outcome once more. An error is want of memory.
    fn clone(&self) -> Result<Outcome, AllocError> {
        match self {
            Outcome::Found(rec) => Ok(Outcome::Found(rec.clone()?)),
            Outcome::Broken(rule, spots) => Ok(Outcome::Broken(*rule, copied(spots)?)),
            Outcome::Waits(d) => Ok(Outcome::Waits(*d)),
            Outcome::Nothing => Ok(Outcome::Nothing),
        }
    }
}

// The spots once more.
fn copied(spots: &Vec<Spot>) -> Result<Vec<Spot>, AllocError>
    ensures { IfOk result (λ copy. copy.items ≡ spots.now.items) }
{
    spots.clone()
}

/// Where in a node a rule is broken: at the node, at the name after its `.`, or at an operand, counted from 0.
#[derive(Clone, Copy, Debug, PartialEq, Eq)]
pub enum Spot {
    Whole,
    Name,
    Part(usize),
}
