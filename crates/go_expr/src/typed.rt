// Type literals all of whose operands are to be types (Go specification, "Types").
ghost use Rattle.std.specs.Prelude.{◌≡◌, [], IfOk, List, Some, length, map};
ghost use Rattle.std.specs.List.{AllByRecursion};
ghost use Rattle.go_term.specs.Types.{TypeData};
ghost use Rattle.go_judge.specs.Limits.{makes_of};
ghost use Rattle.go_judge.specs.Judged.{asked, judged};
ghost use Rattle.go_judge.specs.Operands.{type_or_none};
ghost use Rattle.go_judge.specs.View.{outcome_as};
ghost use Rattle.go_judge.specs.Types.Own.{IsOwnOutcome};
ghost use Rattle.go_expr.specs.Given.{AreOwnRecs, no_type_spots, recs_as};
ghost use Rattle.go_expr.specs.TypeLiteral.{IsOwnTyped, literal_of_all, typed_outcome};

use crate::given::{Given, first_records, no_types, types_of};
use go_base::NoMemory;
use go_model::{Judge, NO_TYPE, Outcome, Rec, Spot};
use go_term::Ty;
use std::alloc::Global;

/// The types of all operands; or what their node comes to where not each is a type.
#[derive(Drop)]
pub enum Typed {
    Types(Vec<Ty>),
    Without(Outcome),
}

/// The types that stand in a type literal, by the outcomes of its operands: C13 at each that is none. An error is want
/// of memory.
pub fn all_types<J: Judge>(
    alloc: Global,
    judge: &J,
    outcomes: &[Outcome],
) -> Result<Typed, NoMemory>
    requires { AllByRecursion (IsOwnOutcome (J.is_type judge.now)) outcomes.now }
    ensures typed { IfOk result (λ typed. (make : List TypeData → TypeData)
        → typed_outcome (J.tree judge.now) (J.headers judge.now) make typed
        ≡ judged (J.headers judge.now) (literal_of_all (length outcomes.now) make)
        (map (outcome_as (J.tree judge.now)) outcomes.now)) }
    ensures own { IfOk result (IsOwnTyped (J.is_type judge.now)) }
{
    match first_records(alloc, judge, outcomes, outcomes.len())? {
        Given::All(recs) => of_records(alloc, judge, &recs),
        Given::First(d) => Ok(Typed::Without(Outcome::Waits(d))),
        Given::Gone => Ok(Typed::Without(Outcome::Nothing)),
    }
}

// By the records of the operands.
fn of_records<J: Judge>(alloc: Global, judge: &J, recs: &[&Rec]) -> Result<Typed, NoMemory>
    requires { AreOwnRecs (J.is_type judge.now) recs.now }
    ensures typed { IfOk result (λ typed. (make : List TypeData → TypeData)
        → typed_outcome (J.tree judge.now) (J.headers judge.now) make typed
        ≡ asked (J.headers judge.now) (Some (makes_of (recs_as (J.tree judge.now) recs.now)
        (make (map type_or_none (recs_as (J.tree judge.now) recs.now)))))) }
    ensures own { IfOk result (IsOwnTyped (J.is_type judge.now)) }
{
    let spots = no_types(alloc, recs)?;
    of_spots(alloc, judge, recs, spots)
}

// By the records of the operands, and the places of those that are no type.
fn of_spots<J: Judge>(
    alloc: Global,
    judge: &J,
    recs: &[&Rec],
    spots: Vec<Spot>,
) -> Result<Typed, NoMemory>
    requires own { AreOwnRecs (J.is_type judge.now) recs.now }
    requires spots { spots.items ≡ no_type_spots 0 (recs_as (J.tree judge.now) recs.now) }
    ensures typed { IfOk result (λ typed. (make : List TypeData → TypeData)
        → typed_outcome (J.tree judge.now) (J.headers judge.now) make typed
        ≡ asked (J.headers judge.now) (Some (makes_of (recs_as (J.tree judge.now) recs.now)
        (make (map type_or_none (recs_as (J.tree judge.now) recs.now)))))) }
    ensures own { IfOk result (IsOwnTyped (J.is_type judge.now)) }
{
    if spots.is_empty() {
        Ok(Typed::Types(types_of(alloc, judge, recs)?))
    } else {
        Ok(Typed::Without(Outcome::Broken(NO_TYPE, spots)))
    }
}
