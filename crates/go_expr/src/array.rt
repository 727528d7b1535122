// Array types (Go specification, "Array types").
ghost use Rattle.std.specs.Prelude.{◌≡◌, ◌∷◌, [], IfOk, Some, map};
ghost use Rattle.std.specs.List.{AllByRecursion};
ghost use Rattle.go_term.specs.Types.{TypeData};
ghost use Rattle.go_term.specs.declared.term.Term.{Term};
ghost use Rattle.go_constructs.specs.Array as spec;
ghost use Rattle.go_constructs.specs.Operators.Operations.{is_integer};
ghost use Rattle.go_constructs.specs.Operators.Sorts as sorts;
ghost use Rattle.go_judge.specs.Judged.{asked, judged};
ghost use Rattle.go_judge.specs.Records.{rec_as};
ghost use Rattle.go_judge.specs.View.{outcome_as};
ghost use Rattle.go_judge.specs.Types.Own.{IsOwnOutcome, IsOwnRec, Keeps};
ghost use Rattle.go_judge.specs.Quests.{run};
ghost use Rattle.go_expr.specs.Given.{AreOwnRecs, recs_as};
ghost use Rattle.go_expr.specs.TypeLiteral.{element_outcome, length_outcome, sort_outcome};

use crate::given::{Given, copy_of, first_records, type_in};
use crate::type_literal::type_literal;
use go_base::NoMemory;
use go_model::{Judge, NO_LENGTH, NO_TYPE, Outcome, Rec, Spot, broken_at};
use go_num::Value;
use go_ops::{AskedSort, Sort, constant_in, is_integer, sort_in};
use go_term::Shape;
use std::alloc::Global;

/// `[n]T` by the outcomes of n and T: C12 where n is no length, else C13 where T is no type; L4 and L5 by its size. An
/// error is want of memory.
pub fn array_type<J: Judge>(
    alloc: Global,
    judge: &mut J,
    outcomes: &[Outcome],
) -> Result<Outcome, NoMemory>
    requires { AllByRecursion (IsOwnOutcome (J.is_type judge.old)) outcomes.now }
    ensures outcome { IfOk result (λ outcome. outcome_as (J.tree judge.new) outcome
        ≡ judged (J.headers judge.old) spec.array
        (map (outcome_as (J.tree judge.old)) outcomes.now)) }
    ensures own { IfOk result (IsOwnOutcome (J.is_type judge.new)) }
    ensures keeps { Keeps (J.headers judge.old) (J.headers judge.new) (J.names judge.old) (J.names judge.new)
        (J.outcomes judge.old) (J.outcomes judge.new) (J.is_spent judge.old) (J.is_spent judge.new)
        (J.world judge.old) (J.world judge.new) (J.is_type judge.old) (J.is_type judge.new)
        (J.tree judge.old) (J.tree judge.new) }
{
    match first_records(alloc, judge, outcomes, 2)? {
        Given::All(recs) => of_records(alloc, judge, &recs),
        Given::First(d) => Ok(Outcome::Waits(d)),
        Given::Gone => Ok(Outcome::Nothing),
    }
}

// By the records of its operands, which are two.
fn of_records<J: Judge>(alloc: Global, judge: &mut J, recs: &[&Rec]) -> Result<Outcome, NoMemory>
    requires { AreOwnRecs (J.is_type judge.old) recs.now }
    ensures outcome { IfOk result (λ outcome. outcome_as (J.tree judge.new) outcome
        ≡ asked (J.headers judge.old) (spec.array.asks (recs_as (J.tree judge.old) recs.now))) }
    ensures own { IfOk result (IsOwnOutcome (J.is_type judge.new)) }
    ensures keeps { Keeps (J.headers judge.old) (J.headers judge.new) (J.names judge.old) (J.names judge.new)
        (J.outcomes judge.old) (J.outcomes judge.new) (J.is_spent judge.old) (J.is_spent judge.new)
        (J.world judge.old) (J.world judge.new) (J.is_type judge.old) (J.is_type judge.new)
        (J.tree judge.old) (J.tree judge.new) }
{
    match recs {
        [length, element] => of_both(alloc, judge, length, element),
        _ => Ok(Outcome::Nothing),
    }
}

// By the records of its length and its element type.
fn of_both<J: Judge>(
    alloc: Global,
    judge: &mut J,
    length: &Rec,
    element: &Rec,
) -> Result<Outcome, NoMemory>
    requires length { IsOwnRec (J.is_type judge.old) length.now }
    requires element { IsOwnRec (J.is_type judge.old) element.now }
    ensures outcome { IfOk result (λ outcome. outcome_as (J.tree judge.new) outcome
        ≡ asked (J.headers judge.old) (spec.array.asks
        (rec_as (J.tree judge.old) length.now ∷ (rec_as (J.tree judge.old) element.now ∷ [])))) }
    ensures own { IfOk result (IsOwnOutcome (J.is_type judge.new)) }
    ensures keeps { Keeps (J.headers judge.old) (J.headers judge.new) (J.names judge.old) (J.names judge.new)
        (J.outcomes judge.old) (J.outcomes judge.new) (J.is_spent judge.old) (J.is_spent judge.new)
        (J.world judge.old) (J.world judge.new) (J.is_type judge.old) (J.is_type judge.new)
        (J.tree judge.old) (J.tree judge.new) }
{
    match length_in(length) {
        Some(many) => of_constant(alloc, judge, many, length, element),
        None => broken_at(alloc, judge, NO_LENGTH, Spot::Part(0)),
    }
}

// By the constant that is its length, where that is of an integer type, and the record of its element type.
fn of_constant<J: Judge>(
    alloc: Global,
    judge: &mut J,
    many: u64,
    length: &Rec,
    element: &Rec,
) -> Result<Outcome, NoMemory>
    requires length { IsOwnRec (J.is_type judge.old) length.now }
    requires element { IsOwnRec (J.is_type judge.old) element.now }
    ensures outcome { IfOk result (λ outcome. outcome_as (J.tree judge.new) outcome
        ≡ sort_outcome (J.headers judge.old) many
        (run (J.headers judge.old) (sorts.sort_in (rec_as (J.tree judge.old) length.now)))
        (rec_as (J.tree judge.old) element.now)) }
    ensures own { IfOk result (IsOwnOutcome (J.is_type judge.new)) }
    ensures keeps { Keeps (J.headers judge.old) (J.headers judge.new) (J.names judge.old) (J.names judge.new)
        (J.outcomes judge.old) (J.outcomes judge.new) (J.is_spent judge.old) (J.is_spent judge.new)
        (J.world judge.old) (J.world judge.new) (J.is_type judge.old) (J.is_type judge.new)
        (J.tree judge.old) (J.tree judge.new) }
{
    match sort_in(alloc, judge, length)? {
        AskedSort::Is(sort) => of_sort(alloc, judge, many, sort, element),
        AskedSort::Unknown(d) => Ok(Outcome::Waits(d)),
    }
}

// By its length, the sort of that, and the record of its element type.
fn of_sort<J: Judge>(
    alloc: Global,
    judge: &mut J,
    many: u64,
    sort: Sort,
    element: &Rec,
) -> Result<Outcome, NoMemory>
    requires { IsOwnRec (J.is_type judge.old) element.now }
    ensures outcome { IfOk result (λ outcome. outcome_as (J.tree judge.new) outcome
        ≡ length_outcome (J.headers judge.old) many (is_integer sort) (rec_as (J.tree judge.old) element.now)) }
    ensures own { IfOk result (IsOwnOutcome (J.is_type judge.new)) }
    ensures keeps { Keeps (J.headers judge.old) (J.headers judge.new) (J.names judge.old) (J.names judge.new)
        (J.outcomes judge.old) (J.outcomes judge.new) (J.is_spent judge.old) (J.is_spent judge.new)
        (J.world judge.old) (J.world judge.new) (J.is_type judge.old) (J.is_type judge.new)
        (J.tree judge.old) (J.tree judge.new) }
{
    if is_integer(sort) {
        of_element(alloc, judge, many, element)
    } else {
        broken_at(alloc, judge, NO_LENGTH, Spot::Part(0))
    }
}

// By its length and the record of its element type.
fn of_element<J: Judge>(
    alloc: Global,
    judge: &mut J,
    length: u64,
    element: &Rec,
) -> Result<Outcome, NoMemory>
    requires { IsOwnRec (J.is_type judge.old) element.now }
    ensures outcome { IfOk result (λ outcome. outcome_as (J.tree judge.new) outcome
        ≡ element_outcome (J.headers judge.old) length (rec_as (J.tree judge.old) element.now)) }
    ensures own { IfOk result (IsOwnOutcome (J.is_type judge.new)) }
    ensures keeps { Keeps (J.headers judge.old) (J.headers judge.new) (J.names judge.old) (J.names judge.new)
        (J.outcomes judge.old) (J.outcomes judge.new) (J.is_spent judge.old) (J.is_spent judge.new)
        (J.world judge.old) (J.world judge.new) (J.is_type judge.old) (J.is_type judge.new)
        (J.tree judge.old) (J.tree judge.new) }
{
    match type_in(element) {
        Some(ty) => {
            let ty = copy_of(judge, ty)?;
            type_literal(alloc, judge, Shape::Array(length, ty))
        }
        None => broken_at(alloc, judge, NO_TYPE, Spot::Part(1)),
    }
}

// The length that a record stands for, where it is one of a constant that is a length.
fn length_in(rec: &Rec) -> Option<u64>
    ensures { (tree : Term → TypeData) → result ≡ spec.length_in (rec_as tree rec.now) }
{
    match constant_in(rec) {
        Some(value) => length_by(value),
        None => None,
    }
}

fn length_by(value: &Value) -> Option<u64>
    ensures { result ≡ spec.length_by (Some value.now) }
{
    match value {
        Value::Int(number) => length_of(*number),
        Value::Bool(_) => None,
        Value::Text(_) => None,
    }
}

// The value, where an `int` of 64 bits represents it and it is not negative.
fn length_of(value: i128) -> Option<u64>
    ensures { result ≡ spec.length_of value }
{
    if value < 0 {
        return None;
    }
    if value < 0x8000_0000_0000_0000 {
        Some(value as u64)
    } else {
        None
    }
}
