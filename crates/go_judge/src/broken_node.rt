// Nodes that break a rule.
ghost use Rattle.std.specs.Prelude.{◌≡◌, ◌∷◌, [], IfOk};
ghost use Rattle.go_judge.specs.declared.outcome.Spot.TheVariants as spots;
ghost use Rattle.go_judge.specs.Judged as outcomes;
ghost use Rattle.go_judge.specs.View.{outcome_as};
ghost use Rattle.go_judge.specs.Types.Own.{IsOwnOutcome};

use crate::judge::Judge;
use crate::outcome::{Outcome, Spot};
use go_base::{NoMemory, Rule};
use std::alloc::Global;

/// A node that breaks a rule, as a whole. An error is want of memory.
pub fn broken<J: Judge>(alloc: Global, judge: &J, rule: Rule) -> Result<Outcome, NoMemory>
    ensures outcome { IfOk result (λ outcome. outcome_as (J.tree judge.now) outcome
        ≡ outcomes.Broken rule (spots.Whole ∷ [])) }
    ensures own { IfOk result (IsOwnOutcome (J.is_type judge.now)) }
{
    broken_at(alloc, judge, rule, Spot::Whole)
}

/// A node that breaks a rule, here. An error is want of memory.
pub fn broken_at<J: Judge>(
    alloc: Global,
    judge: &J,
    rule: Rule,
    spot: Spot,
) -> Result<Outcome, NoMemory>
    ensures outcome { IfOk result (λ outcome. outcome_as (J.tree judge.now) outcome
        ≡ outcomes.Broken rule (spot ∷ [])) }
    ensures own { IfOk result (IsOwnOutcome (J.is_type judge.now)) }
{
    let mut list = Vec::new(alloc);
    list.push(spot)?;
    Ok(Outcome::Broken(rule, list))
}
