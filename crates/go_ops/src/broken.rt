// Nodes that break a rule at their operands.
ghost use Rattle.std.specs.Prelude.{◌≡◌, IfOk};
ghost use Rattle.go_judge.specs.Judged as outcomes;
ghost use Rattle.go_judge.specs.View.{outcome_as};
ghost use Rattle.go_judge.specs.Types.Own.{IsOwnOutcome};
ghost use Rattle.go_ops.specs.Refusals.{spots_of_two};

use go_base::{NoMemory, Rule};
use go_judge::{Judge, Outcome, Spot};
use std::alloc::Global;

/// A node that breaks a rule at its first two operands, at each of which the answer is No. An error is want of memory.
pub(crate) fn broken_at_two<J: Judge>(
    alloc: Global,
    judge: &J,
    rule: Rule,
    first: bool,
    second: bool,
) -> Result<Outcome, NoMemory>
    ensures outcome { IfOk result (λ outcome. outcome_as (J.tree judge.now) outcome
        ≡ outcomes.Broken rule (spots_of_two first second)) }
    ensures own { IfOk result (IsOwnOutcome (J.is_type judge.now)) }
{
    let mut list = Vec::new(alloc);
    if !first {
        list.push(Spot::Part(0))?;
    }
    if !second {
        list.push(Spot::Part(1))?;
    }
    Ok(Outcome::Broken(rule, list))
}
