// Map types (Go specification, "Map types").
ghost use Rattle.std.specs.Prelude.{◌≡◌, ◌⊎◌, ◌∷◌, [], IfOk, None, Some, map};
ghost use Rattle.std.specs.List.{AllByRecursion};
ghost use Rattle.go_constructs.specs.MapType as spec;
ghost use Rattle.go_judge.specs.Judged.{asked, judged};
ghost use Rattle.go_judge.specs.View.{outcome_as};
ghost use Rattle.go_judge.specs.Types.Own.{IsOwnOutcome, IsOwnRec, Keeps};
ghost use Rattle.go_judge.specs.Records.{rec_as};
ghost use Rattle.go_expr.specs.Given.{AreOwnRecs, recs_as, term_in};

use crate::given::{Given, copy_of, first_records, no_types, type_in};
use crate::type_literal::type_literal;
use go_base::NoMemory;
use go_model::{Judge, NO_TYPE, Outcome, Rec};
use go_term::{Shape, Ty};
use std::alloc::Global;

/// `map[K]V` by the outcomes of K and V: C13 at each that is no type; L4 and L5 by its size. An error is want of memory.
pub fn map_type<J: Judge>(
    alloc: Global,
    judge: &mut J,
    outcomes: &[Outcome],
) -> Result<Outcome, NoMemory>
    requires { AllByRecursion (IsOwnOutcome (J.is_type judge.old)) outcomes.now }
    ensures outcome { IfOk result (λ outcome. outcome_as (J.tree judge.new) outcome
        ≡ judged (J.headers judge.old) spec.map_of
        (map (outcome_as (J.tree judge.old)) outcomes.now)) }
    ensures own { IfOk result (IsOwnOutcome (J.is_type judge.new)) }
    ensures keeps { Keeps (J.headers judge.old) (J.headers judge.new) (J.names judge.old) (J.names judge.new)
        (J.outcomes judge.old) (J.outcomes judge.new) (J.is_spent judge.old) (J.is_spent judge.new)
        (J.world judge.old) (J.world judge.new) (J.is_type judge.old) (J.is_type judge.new)
        (J.tree judge.old) (J.tree judge.new) }
{
    match first_records(alloc, judge, outcomes, 2)? {
        Given::All(recs) => of_records(alloc, judge, &recs),
        Given::First(d) => Ok(Outcome::Waits(d)),
        Given::Gone => Ok(Outcome::Nothing),
    }
}

// By the records of its operands, which are two.
fn of_records<J: Judge>(alloc: Global, judge: &mut J, recs: &[&Rec]) -> Result<Outcome, NoMemory>
    requires { AreOwnRecs (J.is_type judge.old) recs.now }
    ensures outcome { IfOk result (λ outcome. outcome_as (J.tree judge.new) outcome
        ≡ asked (J.headers judge.old) (spec.map_of.asks (recs_as (J.tree judge.old) recs.now))) }
    ensures own { IfOk result (IsOwnOutcome (J.is_type judge.new)) }
    ensures keeps { Keeps (J.headers judge.old) (J.headers judge.new) (J.names judge.old) (J.names judge.new)
        (J.outcomes judge.old) (J.outcomes judge.new) (J.is_spent judge.old) (J.is_spent judge.new)
        (J.world judge.old) (J.world judge.new) (J.is_type judge.old) (J.is_type judge.new)
        (J.tree judge.old) (J.tree judge.new) }
{
    match recs {
        [key, element] => of_key(alloc, judge, key, element),
        _ => Ok(Outcome::Nothing),
    }
}

// By the records of its key type and its element type.
fn of_key<J: Judge>(
    alloc: Global,
    judge: &mut J,
    key: &Rec,
    element: &Rec,
) -> Result<Outcome, NoMemory>
    requires key { IsOwnRec (J.is_type judge.old) key.now }
    requires element { IsOwnRec (J.is_type judge.old) element.now }
    ensures outcome { IfOk result (λ outcome. outcome_as (J.tree judge.new) outcome
        ≡ asked (J.headers judge.old) (spec.map_of.asks
        (rec_as (J.tree judge.old) key.now ∷ (rec_as (J.tree judge.old) element.now ∷ [])))) }
    ensures own { IfOk result (IsOwnOutcome (J.is_type judge.new)) }
    ensures keeps { Keeps (J.headers judge.old) (J.headers judge.new) (J.names judge.old) (J.names judge.new)
        (J.outcomes judge.old) (J.outcomes judge.new) (J.is_spent judge.old) (J.is_spent judge.new)
        (J.world judge.old) (J.world judge.new) (J.is_type judge.old) (J.is_type judge.new)
        (J.tree judge.old) (J.tree judge.new) }
{
    match type_in(key) {
        Some(ty) => of_element(alloc, judge, key, ty, element),
        None => without_type(alloc, judge, key, element),
    }
}

// By its key type and the record of its element type.
fn of_element<J: Judge>(
    alloc: Global,
    judge: &mut J,
    key: &Rec,
    key_type: &Ty,
    element: &Rec,
) -> Result<Outcome, NoMemory>
    requires key { J.is_type judge.old key_type.now }
    requires element { IsOwnRec (J.is_type judge.old) element.now }
    requires is { term_in key.now ≡ Some key_type.now }
    ensures outcome { IfOk result (λ outcome. outcome_as (J.tree judge.new) outcome
        ≡ asked (J.headers judge.old) (spec.map_of.asks
        (rec_as (J.tree judge.old) key.now ∷ (rec_as (J.tree judge.old) element.now ∷ [])))) }
    ensures own { IfOk result (IsOwnOutcome (J.is_type judge.new)) }
    ensures keeps { Keeps (J.headers judge.old) (J.headers judge.new) (J.names judge.old) (J.names judge.new)
        (J.outcomes judge.old) (J.outcomes judge.new) (J.is_spent judge.old) (J.is_spent judge.new)
        (J.world judge.old) (J.world judge.new) (J.is_type judge.old) (J.is_type judge.new)
        (J.tree judge.old) (J.tree judge.new) }
{
    match type_in(element) {
        Some(ty) => {
            let key_type = copy_of(judge, key_type)?;
            let element_type = copy_of(judge, ty)?;
            type_literal(alloc, judge, Shape::Map(key_type, element_type))
        }
        None => without_type(alloc, judge, key, element),
    }
}

// Where one of both is no type.
fn without_type<J: Judge>(
    alloc: Global,
    judge: &J,
    key: &Rec,
    element: &Rec,
) -> Result<Outcome, NoMemory>
    requires { (term_in key.now ≡ None) ⊎ (term_in element.now ≡ None) }
    ensures outcome { IfOk result (λ outcome. outcome_as (J.tree judge.now) outcome
        ≡ asked (J.headers judge.now) (spec.map_of.asks
        (rec_as (J.tree judge.now) key.now ∷ (rec_as (J.tree judge.now) element.now ∷ [])))) }
    ensures own { IfOk result (IsOwnOutcome (J.is_type judge.now)) }
{
    Ok(Outcome::Broken(NO_TYPE, no_types(alloc, &[key, element])?))
}
