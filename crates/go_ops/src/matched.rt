// Operations whose operands match (Go specification, "Arithmetic operators", "Logical operators", "Constant
// expressions").
ghost use Rattle.std.specs.Prelude.{◌≡◌, false, IfOk, IfSome, IsSome, None, true};
ghost use Rattle.std.specs.Option.{option_map};
ghost use Rattle.go_term.specs.Types.{basic_type};
ghost use Rattle.go_judge.specs.Records.{rec_as, rec_view};
ghost use Rattle.go_judge.specs.View.{outcome_as};
ghost use Rattle.go_judge.specs.Types.Own.{IsOwnOutcome, IsOwnRec, Keeps};
ghost use Rattle.go_ops.specs.Limited.{IsGiven, IsLimited};
ghost use Rattle.go_constructs.specs.Operators.Matching as matching;
ghost use Rattle.go_constructs.specs.Operators.Operations as spec;
ghost use Rattle.go_ops.specs.Stages.{AreOf, defined_outcome, divided_outcome, fitting_outcome, given_outcome, kept_outcome, matched_outcome, type_there};

use crate::broken::broken_at_two;
use crate::calculation::calculated;
use crate::definedness::{is_by_zero, is_defined_on};
use crate::fit::{not_overflows, not_unkept};
use crate::limits::{Given, limited};
use crate::matching::{common_sort, given_fit, kind_of, later, untyped_basic};
use crate::rules::{CONSTANT_OVERFLOW, DIVISION_BY_ZERO, UNDEFINED_BINARY, UNKEPT_FLOAT};
use crate::types::basic_type;
use go_base::NoMemory;
use go_constructs::{Operation, Sort};
use go_judge::{Judge, Outcome, Rec, Spot, broken, broken_at};
use go_num::NumKind;
use go_term::Ty;
use std::alloc::Global;

/// What an operation comes to whose operands match: R5 where the operator is not defined on them; R7; R8, U9, L2 and L3
/// at the constants and by what they give. An error is want of memory.
#[tactic(auto, unfolding(crate::specs::Stages::matched_outcome))]
pub(crate) fn of_matched<J: Judge>(
    alloc: Global,
    judge: &mut J,
    op: Operation,
    x: &Rec,
    y: &Rec,
    s: Sort,
    t: Sort,
) -> Result<Outcome, NoMemory>
    requires first { IsOwnRec (J.is_type judge.old) x.now }
    requires second { IsOwnRec (J.is_type judge.old) y.now }
    requires known { AreOf x.now y.now s t }
    ensures outcome { IfOk result (λ outcome. outcome_as (J.tree judge.new) outcome
        ≡ matched_outcome op (rec_as (J.tree judge.old) x.now) (rec_as (J.tree judge.old) y.now) s t) }
    ensures own { IfOk result (IsOwnOutcome (J.is_type judge.new)) }
    ensures keeps { Keeps (J.headers judge.old) (J.headers judge.new) (J.names judge.old) (J.names judge.new)
        (J.outcomes judge.old) (J.outcomes judge.new) (J.is_spent judge.old) (J.is_spent judge.new)
        (J.world judge.old) (J.world judge.new) (J.is_type judge.old) (J.is_type judge.new)
        (J.tree judge.old) (J.tree judge.new) }
{
    if is_defined_on(op, common_sort(s, t)) {
        of_defined(alloc, judge, op, x, y, s, t)
    } else {
        broken(alloc, judge, UNDEFINED_BINARY)
    }
}

// Behind R5.
fn of_defined<J: Judge>(
    alloc: Global,
    judge: &mut J,
    op: Operation,
    x: &Rec,
    y: &Rec,
    s: Sort,
    t: Sort,
) -> Result<Outcome, NoMemory>
    requires first { IsOwnRec (J.is_type judge.old) x.now }
    requires second { IsOwnRec (J.is_type judge.old) y.now }
    requires known { AreOf x.now y.now s t }
    requires defined { spec.is_defined_on op (matching.common_sort s t) ≡ true }
    ensures outcome { IfOk result (λ outcome. outcome_as (J.tree judge.new) outcome
        ≡ defined_outcome op (rec_as (J.tree judge.old) x.now) (rec_as (J.tree judge.old) y.now) s t) }
    ensures own { IfOk result (IsOwnOutcome (J.is_type judge.new)) }
    ensures keeps { Keeps (J.headers judge.old) (J.headers judge.new) (J.names judge.old) (J.names judge.new)
        (J.outcomes judge.old) (J.outcomes judge.new) (J.is_spent judge.old) (J.is_spent judge.new)
        (J.world judge.old) (J.world judge.new) (J.is_type judge.old) (J.is_type judge.new)
        (J.tree judge.old) (J.tree judge.new) }
{
    if is_by_zero(op, x, y, common_sort(s, t)) {
        broken_at(alloc, judge, DIVISION_BY_ZERO, Spot::Part(1))
    } else {
        of_divided(alloc, judge, op, x, y, s, t)
    }
}

// Behind R7.
fn of_divided<J: Judge>(
    alloc: Global,
    judge: &mut J,
    op: Operation,
    x: &Rec,
    y: &Rec,
    s: Sort,
    t: Sort,
) -> Result<Outcome, NoMemory>
    requires first { IsOwnRec (J.is_type judge.old) x.now }
    requires second { IsOwnRec (J.is_type judge.old) y.now }
    requires known { AreOf x.now y.now s t }
    requires defined { spec.is_defined_on op (matching.common_sort s t) ≡ true }
    requires divisor { spec.is_by_zero op (rec_view x.now) (rec_view y.now) (matching.common_sort s t) ≡ false }
    ensures outcome { IfOk result (λ outcome. outcome_as (J.tree judge.new) outcome
        ≡ divided_outcome op (rec_as (J.tree judge.old) x.now) (rec_as (J.tree judge.old) y.now) s t) }
    ensures own { IfOk result (IsOwnOutcome (J.is_type judge.new)) }
    ensures keeps { Keeps (J.headers judge.old) (J.headers judge.new) (J.names judge.old) (J.names judge.new)
        (J.outcomes judge.old) (J.outcomes judge.new) (J.is_spent judge.old) (J.is_spent judge.new)
        (J.world judge.old) (J.world judge.new) (J.is_type judge.old) (J.is_type judge.new)
        (J.tree judge.old) (J.tree judge.new) }
{
    let first = not_overflows(given_fit(x, s, t));
    let second = not_overflows(given_fit(y, t, s));
    if first && second {
        of_fitting(alloc, judge, op, x, y, s, t)
    } else {
        broken_at_two(alloc, judge, CONSTANT_OVERFLOW, first, second)
    }
}

// Behind R8 at the constants.
fn of_fitting<J: Judge>(
    alloc: Global,
    judge: &mut J,
    op: Operation,
    x: &Rec,
    y: &Rec,
    s: Sort,
    t: Sort,
) -> Result<Outcome, NoMemory>
    requires first { IsOwnRec (J.is_type judge.old) x.now }
    requires second { IsOwnRec (J.is_type judge.old) y.now }
    requires known { AreOf x.now y.now s t }
    requires defined { spec.is_defined_on op (matching.common_sort s t) ≡ true }
    requires divisor { spec.is_by_zero op (rec_view x.now) (rec_view y.now) (matching.common_sort s t) ≡ false }
    ensures outcome { IfOk result (λ outcome. outcome_as (J.tree judge.new) outcome
        ≡ fitting_outcome op (rec_as (J.tree judge.old) x.now) (rec_as (J.tree judge.old) y.now) s t) }
    ensures own { IfOk result (IsOwnOutcome (J.is_type judge.new)) }
    ensures keeps { Keeps (J.headers judge.old) (J.headers judge.new) (J.names judge.old) (J.names judge.new)
        (J.outcomes judge.old) (J.outcomes judge.new) (J.is_spent judge.old) (J.is_spent judge.new)
        (J.world judge.old) (J.world judge.new) (J.is_type judge.old) (J.is_type judge.new)
        (J.tree judge.old) (J.tree judge.new) }
{
    let given = calculated(alloc, op, x, y, common_sort(s, t))?;
    if not_overflows(given.fit) {
        of_given(alloc, judge, op, x, y, s, t, given)
    } else {
        broken(alloc, judge, CONSTANT_OVERFLOW)
    }
}

// Behind R8, with what constants give.
fn of_given<J: Judge>(
    alloc: Global,
    judge: &mut J,
    op: Operation,
    x: &Rec,
    y: &Rec,
    s: Sort,
    t: Sort,
    given: Given,
) -> Result<Outcome, NoMemory>
    requires first { IsOwnRec (J.is_type judge.old) x.now }
    requires second { IsOwnRec (J.is_type judge.old) y.now }
    requires known { AreOf x.now y.now s t }
    requires defined { spec.is_defined_on op (matching.common_sort s t) ≡ true }
    requires given { IsGiven given (spec.fit_of_both op (rec_view x.now) (rec_view y.now) (matching.common_sort s t))
        (spec.value_of op (rec_view x.now) (rec_view y.now) (matching.common_sort s t)) }
    ensures outcome { IfOk result (λ outcome. outcome_as (J.tree judge.new) outcome
        ≡ kept_outcome op (rec_as (J.tree judge.old) x.now) (rec_as (J.tree judge.old) y.now) s t) }
    ensures own { IfOk result (IsOwnOutcome (J.is_type judge.new)) }
    ensures keeps { Keeps (J.headers judge.old) (J.headers judge.new) (J.names judge.old) (J.names judge.new)
        (J.outcomes judge.old) (J.outcomes judge.new) (J.is_spent judge.old) (J.is_spent judge.new)
        (J.world judge.old) (J.world judge.new) (J.is_type judge.old) (J.is_type judge.new)
        (J.tree judge.old) (J.tree judge.new) }
{
    let first = not_unkept(given_fit(x, s, t));
    let second = not_unkept(given_fit(y, t, s));
    if first && second {
        of_kept(alloc, judge, op, x, y, s, t, given)
    } else {
        broken_at_two(alloc, judge, UNKEPT_FLOAT, first, second)
    }
}

// Behind U9 at the constants.
fn of_kept<J: Judge>(
    alloc: Global,
    judge: &mut J,
    op: Operation,
    x: &Rec,
    y: &Rec,
    s: Sort,
    t: Sort,
    given: Given,
) -> Result<Outcome, NoMemory>
    requires first { IsOwnRec (J.is_type judge.old) x.now }
    requires second { IsOwnRec (J.is_type judge.old) y.now }
    requires known { AreOf x.now y.now s t }
    requires defined { spec.is_defined_on op (matching.common_sort s t) ≡ true }
    requires given { IsGiven given (spec.fit_of_both op (rec_view x.now) (rec_view y.now) (matching.common_sort s t))
        (spec.value_of op (rec_view x.now) (rec_view y.now) (matching.common_sort s t)) }
    ensures outcome { IfOk result (λ outcome. outcome_as (J.tree judge.new) outcome
        ≡ given_outcome op (rec_as (J.tree judge.old) x.now) (rec_as (J.tree judge.old) y.now) s t) }
    ensures own { IfOk result (IsOwnOutcome (J.is_type judge.new)) }
    ensures keeps { Keeps (J.headers judge.old) (J.headers judge.new) (J.names judge.old) (J.names judge.new)
        (J.outcomes judge.old) (J.outcomes judge.new) (J.is_spent judge.old) (J.is_spent judge.new)
        (J.world judge.old) (J.world judge.new) (J.is_type judge.old) (J.is_type judge.new)
        (J.tree judge.old) (J.tree judge.new) }
{
    let first = kind_of(s);
    let second = kind_of(t);
    match (first, second) {
        (Some(k), Some(l)) => of_untyped(alloc, judge, later(k, l), given),
        (Some(_), None) => of_type(alloc, judge, &y.ty, given),
        (None, Some(_)) => of_type(alloc, judge, &x.ty, given),
        (None, None) => of_type(alloc, judge, &x.ty, given),
    }
}

// Of a type that there is.
fn of_type<J: Judge>(
    alloc: Global,
    judge: &J,
    ty: &Option<Ty>,
    given: Given,
) -> Result<Outcome, NoMemory>
    requires own { IfSome ty.now (J.is_type judge.now) }
    requires there { IsSome ty.now }
    ensures outcome { IfOk result (λ outcome. IsLimited given (type_there (option_map (J.tree judge.now) ty.now)) None
        (outcome_as (J.tree judge.now) outcome)) }
    ensures own { IfOk result (IsOwnOutcome (J.is_type judge.now)) }
{
    match ty {
        Some(ty) => limited(alloc, judge, given, ty, None),
        None => unreachable!(),
    }
}

// Of the type of untyped operands.
fn of_untyped<J: Judge>(
    alloc: Global,
    judge: &mut J,
    kind: NumKind,
    given: Given,
) -> Result<Outcome, NoMemory>
    ensures outcome { IfOk result (λ outcome. IsLimited given (basic_type (matching.untyped_basic kind)) None
        (outcome_as (J.tree judge.new) outcome)) }
    ensures own { IfOk result (IsOwnOutcome (J.is_type judge.new)) }
    ensures keeps { Keeps (J.headers judge.old) (J.headers judge.new) (J.names judge.old) (J.names judge.new)
        (J.outcomes judge.old) (J.outcomes judge.new) (J.is_spent judge.old) (J.is_spent judge.new)
        (J.world judge.old) (J.world judge.new) (J.is_type judge.old) (J.is_type judge.new)
        (J.tree judge.old) (J.tree judge.new) }
{
    let ty = basic_type(alloc, judge, untyped_basic(kind))?;
    limited(alloc, judge, given, &ty, None)
}
