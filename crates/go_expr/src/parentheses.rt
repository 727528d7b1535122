// Expressions in parentheses (Go specification, "Operands").
ghost use Rattle.std.specs.Prelude.{◌≡◌, List, ◌∷◌, IfOk, map};
ghost use Rattle.std.specs.List.{AllByRecursion};
ghost use Rattle.go_constructs.specs.Parentheses as spec;
ghost use Rattle.go_judge.specs.Judged.{OutcomeData, judged};
ghost use Rattle.go_judge.specs.Records.{RecData};
ghost use Rattle.go_judge.specs.View.{outcome_as};
ghost use Rattle.go_judge.specs.Headers as known;
ghost use Rattle.go_judge.specs.Types.Own.{IsOwnOutcome};

use go_base::NoMemory;
use go_model::{Judge, Outcome};

/// An expression in parentheses, by the outcome of what stands in them, the first of these. An error is want of memory.
pub fn parentheses<J: Judge>(judge: &J, outcomes: &[Outcome]) -> Result<Outcome, NoMemory>
    requires { AllByRecursion (IsOwnOutcome (J.is_type judge.now)) outcomes.now }
    ensures outcome { IfOk result (λ outcome. (headers : known.Headers) → outcome_as (J.tree judge.now) outcome
        ≡ judged headers spec.parentheses (map (outcome_as (J.tree judge.now)) outcomes.now)) }
    ensures own { IfOk result (IsOwnOutcome (J.is_type judge.now)) }
{
    match outcomes {
        [part, ..] => around(judge, part),
        [] => Ok(Outcome::Nothing),
    }
}

// Parentheses around a part with this outcome.
fn around<J: Judge>(judge: &J, part: &Outcome) -> Result<Outcome, NoMemory>
    requires { IsOwnOutcome (J.is_type judge.now) part.now }
    ensures outcome { IfOk result (λ outcome. (headers : known.Headers) (parts : List (OutcomeData RecData))
        → outcome_as (J.tree judge.now) outcome
        ≡ judged headers spec.parentheses (outcome_as (J.tree judge.now) part.now ∷ parts)) }
    ensures own { IfOk result (IsOwnOutcome (J.is_type judge.now)) }
{
    match part {
        Outcome::Found(found) => Ok(Outcome::Found(found.clone()?)),
        Outcome::Waits(d) => Ok(Outcome::Waits(*d)),
        Outcome::Broken(_, _) => Ok(Outcome::Nothing),
        Outcome::Nothing => Ok(Outcome::Nothing),
    }
}
