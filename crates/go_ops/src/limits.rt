// Constants that operations give (Go specification, "Constant expressions", "Representability").
ghost use Rattle.std.specs.Prelude.{◌≡◌, None, Some, IfOk, true};
ghost use Rattle.go_num.specs.declared.value.Value.TheVariants as values;
ghost use Rattle.go_judge.specs.Judged as outcomes;
ghost use Rattle.go_judge.specs.View.{outcome_as};
ghost use Rattle.go_judge.specs.Types.Own.{IsOwnOutcome};
ghost use Rattle.go_constructs.specs.Operators.Constants as constants;
ghost use Rattle.go_ops.specs.Limited.{IsGiven, IsGivenInteger, IsGivenNothing, IsLimited, limited_outcome, wide_fit};
ghost use Rattle.go_constructs.specs.Operators.Operations.{is_boolean, is_numeric};
ghost use Rattle.go_constructs.specs.Operators.Representable as spec;
ghost use Rattle.go_constructs.specs.declared.fit.Fit.TheVariants as fits;
ghost use Rattle.go_constructs.specs.declared.sort.Sort.TheVariants as sorts;

use crate::constants::record_of;
use crate::representability::fit_of;
use crate::rules::{CONSTANT_OVERFLOW, LONG_TEXT, UNKEPT_FLOAT};
use go_base::NoMemory;
use go_constructs::{Fit, Sort};
use go_judge::{Judge, Outcome, WIDE_INTEGER, broken};
use go_num::{NumKind, Value};
use go_term::Ty;
use std::alloc::Global;

/// What constant operands give: how the value fits its type, and the value where it does; Fits and no value where not
/// each operand is a constant.
#[derive(Drop)]
pub(crate) struct Given {
    pub(crate) fit: Fit,
    pub(crate) value: Option<Value>,
}

/// What an operation comes to whose operands give that: R8, U9, L2 or L3, or its record, of this type. An error is want
/// of memory.
pub(crate) fn limited<J: Judge>(
    alloc: Global,
    judge: &J,
    given: Given,
    ty: &Ty,
    span: Option<(i128, i128)>,
) -> Result<Outcome, NoMemory>
    requires { J.is_type judge.now ty.now }
    ensures outcome { IfOk result (λ outcome.
        IsLimited given (J.tree judge.now ty.now) span (outcome_as (J.tree judge.now) outcome)) }
    ensures own { IfOk result (IsOwnOutcome (J.is_type judge.now)) }
{
    limited_by_fit(alloc, judge, given.fit, given.value, ty, span)
}

fn limited_by_fit<J: Judge>(
    alloc: Global,
    judge: &J,
    fit: Fit,
    value: Option<Value>,
    ty: &Ty,
    span: Option<(i128, i128)>,
) -> Result<Outcome, NoMemory>
    requires { J.is_type judge.now ty.now }
    ensures outcome { IfOk result (λ outcome. outcome_as (J.tree judge.now) outcome
        ≡ limited_outcome (J.tree judge.now ty.now) span fit value) }
    ensures own { IfOk result (IsOwnOutcome (J.is_type judge.now)) }
{
    match fit {
        Fit::Overflows => broken(alloc, judge, CONSTANT_OVERFLOW),
        Fit::Unkept => broken(alloc, judge, UNKEPT_FLOAT),
        Fit::Wide => broken(alloc, judge, WIDE_INTEGER),
        Fit::Long => broken(alloc, judge, LONG_TEXT),
        Fit::Fits | Fit::Differs => found(judge, ty, value, span),
    }
}

// The record of an operation that breaks no rule. An error is want of memory.
fn found<J: Judge>(
    judge: &J,
    ty: &Ty,
    value: Option<Value>,
    span: Option<(i128, i128)>,
) -> Result<Outcome, NoMemory>
    requires { J.is_type judge.now ty.now }
    ensures outcome { IfOk result (λ outcome. outcome_as (J.tree judge.now) outcome
        ≡ outcomes.Found (constants.record_of (J.tree judge.now ty.now) value span)) }
    ensures own { IfOk result (IsOwnOutcome (J.is_type judge.now)) }
{
    Ok(Outcome::Found(record_of(judge, copy_of(judge, ty)?, value, span)))
}

/// A type once more. An error is want of memory.
pub(crate) fn copy_of<J: Judge>(judge: &J, ty: &Ty) -> Result<Ty, NoMemory>
    requires { J.is_type judge.now ty.now }
    ensures same { IfOk result (λ copy. J.tree judge.now copy ≡ J.tree judge.now ty.now) }
    ensures own { IfOk result (J.is_type judge.now) }
{
    Ok(ty.clone()?)
}

/// What constants give without a value: where not each operand is a constant.
pub(crate) fn none_given() -> Given
    ensures { IsGiven result fits.Fits None }
{
    Given {
        fit: Fit::Fits,
        value: None,
    }
}

/// What constants give that have no value together.
pub(crate) fn no_value_given() -> Given
    ensures { IsGivenNothing result }
{
    Given {
        fit: Fit::Unkept,
        value: None,
    }
}

/// What gives this integer, None where it is outside -2^127 to 2^127-1, of a type of this sort.
pub(crate) fn integer_given(value: Option<i128>, sort: Sort) -> Given
    requires { is_numeric sort ≡ true }
    ensures { IsGivenInteger result value sort }
{
    match value {
        Some(number) => Given {
            fit: fit_of(&Value::Int(number), sort),
            value: Some(Value::Int(number)),
        },
        None => Given {
            fit: wide_fit(sort),
            value: None,
        },
    }
}

/// What gives this truth value, of a type of this sort.
pub(crate) fn truth_given(truth: bool, sort: Sort) -> Given
    requires { is_boolean sort ≡ true }
    ensures { IsGiven result (spec.fit_of_truth sort) (Some (values.Bool truth)) }
{
    Given {
        fit: fit_of(&Value::Bool(truth), sort),
        value: Some(Value::Bool(truth)),
    }
}

/// How an integer outside -2^127 to 2^127-1 fits a type of this sort.
pub(crate) fn wide_fit(sort: Sort) -> Fit
    ensures { result ≡ wide_fit sort }
{
    match sort {
        Sort::Untyped(kind) => wide_untyped(kind),
        Sort::Int(_) => Fit::Overflows,
        Sort::Float(_) => Fit::Unkept,
        Sort::Bool => Fit::Differs,
        Sort::Text => Fit::Differs,
        Sort::Interface => Fit::Differs,
        Sort::Other => Fit::Differs,
    }
}

// And of this kind.
fn wide_untyped(kind: NumKind) -> Fit
    ensures { result ≡ wide_fit (sorts.Untyped kind) }
{
    match kind {
        NumKind::Int => Fit::Wide,
        NumKind::Rune => Fit::Wide,
        NumKind::Bool => Fit::Differs,
        NumKind::Text => Fit::Differs,
        NumKind::Nil => Fit::Differs,
    }
}
