// Qualified identifiers and selectors (Go specification, "Qualified identifiers", "Selectors").
ghost use Rattle.std.specs.Prelude.{◌≡◌, List, ◌∷◌, IfOk, map};
ghost use Rattle.go_constructs.specs.declared.meaning.Meaning.TheVariants as meanings;
ghost use Rattle.go_constructs.specs.Selector as spec;
ghost use Rattle.go_judge.specs.Judged.{OutcomeData, judged};
ghost use Rattle.go_judge.specs.Records.{RecData};
ghost use Rattle.go_judge.specs.View.{outcome_as};
ghost use Rattle.go_judge.specs.Headers as known;
ghost use Rattle.go_judge.specs.Types.Own.{IsOwnOutcome, Keeps};

use crate::name::name;
use go_base::NoMemory;
use go_model::{Judge, Meaning, Outcome, broken};
use go_module::UNBUILT_FORM;
use std::alloc::Global;

/// `x.f`, by what f means and by the outcome of x, the first of these: a name of a package is as that name; a selector of
/// a value breaks U0. An error is want of memory.
pub fn selector<J: Judge>(
    alloc: Global,
    judge: &mut J,
    meaning: Meaning,
    outcomes: &[Outcome],
) -> Result<Outcome, NoMemory>
    ensures outcome { IfOk result (λ outcome. outcome_as (J.tree judge.new) outcome
        ≡ judged (J.headers judge.old) (spec.selector meaning) (map (outcome_as (J.tree judge.old)) outcomes.now)) }
    ensures own { IfOk result (IsOwnOutcome (J.is_type judge.new)) }
    ensures keeps { Keeps (J.headers judge.old) (J.headers judge.new) (J.names judge.old) (J.names judge.new)
        (J.outcomes judge.old) (J.outcomes judge.new) (J.is_spent judge.old) (J.is_spent judge.new)
        (J.world judge.old) (J.world judge.new) (J.is_type judge.old) (J.is_type judge.new)
        (J.tree judge.old) (J.tree judge.new) }
{
    match meaning {
        Meaning::Other => of_first(alloc, judge, outcomes),
        Meaning::Declared(_) => name(alloc, judge, meaning),
        Meaning::DefinedType(_) => name(alloc, judge, meaning),
        Meaning::BasicType(_, _) => name(alloc, judge, meaning),
        Meaning::AnyType(_) => name(alloc, judge, meaning),
        Meaning::Truth(_, _) => name(alloc, judge, meaning),
        Meaning::Iota(_, _) => name(alloc, judge, meaning),
        Meaning::Predeclared => name(alloc, judge, meaning),
    }
}

// A selector of a value, by the outcome of its operand, the first of these.
fn of_first<J: Judge>(alloc: Global, judge: &J, outcomes: &[Outcome]) -> Result<Outcome, NoMemory>
    ensures outcome { IfOk result (λ outcome. (headers : known.Headers) → outcome_as (J.tree judge.now) outcome
        ≡ judged headers (spec.selector meanings.Other) (map (outcome_as (J.tree judge.now)) outcomes.now)) }
    ensures own { IfOk result (IsOwnOutcome (J.is_type judge.now)) }
{
    match outcomes {
        [operand, ..] => of_value(alloc, judge, operand),
        [] => Ok(Outcome::Nothing),
    }
}

// A selector of a value, by the outcome of its operand.
fn of_value<J: Judge>(alloc: Global, judge: &J, operand: &Outcome) -> Result<Outcome, NoMemory>
    ensures outcome { IfOk result (λ outcome. (headers : known.Headers) (parts : List (OutcomeData RecData))
        → outcome_as (J.tree judge.now) outcome
        ≡ judged headers (spec.selector meanings.Other) (outcome_as (J.tree judge.now) operand.now ∷ parts)) }
    ensures own { IfOk result (IsOwnOutcome (J.is_type judge.now)) }
{
    match operand {
        Outcome::Found(_) => broken(alloc, judge, UNBUILT_FORM),
        Outcome::Waits(d) => Ok(Outcome::Waits(*d)),
        Outcome::Broken(_, _) => Ok(Outcome::Nothing),
        Outcome::Nothing => Ok(Outcome::Nothing),
    }
}
