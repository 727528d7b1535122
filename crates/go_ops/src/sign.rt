// `+x`, `-x`, `^x` and `!x` (Go specification, "Arithmetic operators", "Integer operators", "Logical operators",
// "Constant expressions").
ghost use Rattle.std.specs.Prelude.{◌≡◌, IfOk, IfSome, IsSome, IsTrue, Some, true};
ghost use Rattle.std.specs.Option.{option_map};
ghost use Rattle.go_num.specs.Arithmetic as arithmetic;
ghost use Rattle.go_num.specs.Ranges as ranges;
ghost use Rattle.go_judge.specs.Judged.{asked};
ghost use Rattle.go_judge.specs.Records.{rec_as};
ghost use Rattle.go_judge.specs.View.{outcome_as};
ghost use Rattle.go_judge.specs.Types.Own.{IsOwnOutcome, IsOwnRec, Keeps};
ghost use Rattle.go_constructs.specs.Operators.Constants as constants;
ghost use Rattle.go_constructs.specs.Operators.Honest.{IsHonest};
ghost use Rattle.go_ops.specs.Limited.{FitsSort, IsGiven};
ghost use Rattle.go_constructs.specs.Operators.Operations as operators;
ghost use Rattle.go_ops.specs.Refusals.{by_whole};
ghost use Rattle.go_constructs.specs.Operators.Rules as rules;
ghost use Rattle.go_ops.specs.Signed.{defined_outcome, fit_of_one, sign_asks, value_of_one};
ghost use Rattle.go_constructs.specs.Operators.Unary as spec;
ghost use Rattle.go_constructs.specs.declared.operator.Sign.TheVariants as signs;

use crate::constants::constant_in;
use crate::limits::{Given, integer_given, limited, no_value_given, none_given, truth_given};
use crate::operands::refused_one;
use crate::rules::UNDEFINED_UNARY;
use crate::sort_kinds::{is_boolean, is_integer, is_numeric};
use crate::sorts::{AskedSort, sort_in};
use go_base::NoMemory;
use go_constructs::{Sign, Sort};
use go_judge::{Judge, Outcome, Rec, broken};
use go_num::{IntType, UnOp, Value, int_unary};
use std::alloc::Global;

/// A sign or a complement, by the record of its operand: R1, R2; R3 where the operator is not defined on it; R8 and L2
/// by the constant that it gives. An error is want of memory.
pub(crate) fn sign<J: Judge>(
    alloc: Global,
    judge: &mut J,
    op: Sign,
    a: &Rec,
) -> Result<Outcome, NoMemory>
    requires own { IsOwnRec (J.is_type judge.old) a.now }
    requires honest { IsHonest (J.headers judge.old) (rec_as (J.tree judge.old) a.now) }
    ensures outcome { IfOk result (λ outcome. outcome_as (J.tree judge.new) outcome ≡ asked (J.headers judge.old)
        (Some (spec.sign op (rec_as (J.tree judge.old) a.now)))) }
    ensures own { IfOk result (IsOwnOutcome (J.is_type judge.new)) }
    ensures keeps { Keeps (J.headers judge.old) (J.headers judge.new) (J.names judge.old) (J.names judge.new)
        (J.outcomes judge.old) (J.outcomes judge.new) (J.is_spent judge.old) (J.is_spent judge.new)
        (J.world judge.old) (J.world judge.new) (J.is_type judge.old) (J.is_type judge.new)
        (J.tree judge.old) (J.tree judge.new) }
{
    match refused_one(alloc, judge, a)? {
        Some(outcome) => Ok(outcome),
        None => sign_of_value(alloc, judge, op, a),
    }
}

// Of a single value.
fn sign_of_value<J: Judge>(
    alloc: Global,
    judge: &mut J,
    op: Sign,
    a: &Rec,
) -> Result<Outcome, NoMemory>
    requires own { IsOwnRec (J.is_type judge.old) a.now }
    requires honest { IsHonest (J.headers judge.old) (rec_as (J.tree judge.old) a.now) }
    ensures outcome { IfOk result (λ outcome. outcome_as (J.tree judge.new) outcome ≡ asked (J.headers judge.old)
        (Some (sign_asks op (rec_as (J.tree judge.old) a.now)))) }
    ensures own { IfOk result (IsOwnOutcome (J.is_type judge.new)) }
    ensures keeps { Keeps (J.headers judge.old) (J.headers judge.new) (J.names judge.old) (J.names judge.new)
        (J.outcomes judge.old) (J.outcomes judge.new) (J.is_spent judge.old) (J.is_spent judge.new)
        (J.world judge.old) (J.world judge.new) (J.is_type judge.old) (J.is_type judge.new)
        (J.tree judge.old) (J.tree judge.new) }
{
    match sort_in(alloc, judge, a)? {
        AskedSort::Is(sort) => sign_of_sort(alloc, judge, op, a, sort),
        AskedSort::Unknown(d) => Ok(Outcome::Waits(d)),
    }
}

// By the sort of its type.
fn sign_of_sort<J: Judge>(
    alloc: Global,
    judge: &J,
    op: Sign,
    a: &Rec,
    sort: Sort,
) -> Result<Outcome, NoMemory>
    requires own { IsOwnRec (J.is_type judge.now) a.now }
    requires typed { spec.is_signed_by op sort ≡ true → IsSome a.now.ty }
    requires fits { FitsSort (constants.constant_in (rec_as (J.tree judge.now) a.now)) sort }
    ensures outcome { IfOk result (λ outcome. outcome_as (J.tree judge.now) outcome
        ≡ by_whole rules.undefined_unary (spec.is_signed_by op sort)
        (defined_outcome op (rec_as (J.tree judge.now) a.now) sort)) }
    ensures own { IfOk result (IsOwnOutcome (J.is_type judge.now)) }
{
    if is_signed_by(op, sort) {
        sign_defined(alloc, judge, op, a, sort)
    } else {
        broken(alloc, judge, UNDEFINED_UNARY)
    }
}

// Where the operator is defined.
fn sign_defined<J: Judge>(
    alloc: Global,
    judge: &J,
    op: Sign,
    a: &Rec,
    sort: Sort,
) -> Result<Outcome, NoMemory>
    requires own { IsOwnRec (J.is_type judge.now) a.now }
    requires typed { IsSome a.now.ty }
    requires defined { spec.is_signed_by op sort ≡ true }
    requires fits { FitsSort (constants.constant_in (rec_as (J.tree judge.now) a.now)) sort }
    ensures outcome { IfOk result (λ outcome. outcome_as (J.tree judge.now) outcome
        ≡ defined_outcome op (rec_as (J.tree judge.now) a.now) sort) }
    ensures own { IfOk result (IsOwnOutcome (J.is_type judge.now)) }
{
    match &a.ty {
        Some(ty) => {
            let given = signed(op, sort, constant_in(a));
            limited(alloc, judge, given, ty, a.span)
        }
        None => unreachable!(),
    }
}

// Whether the operator is defined on types of that sort.
fn is_signed_by(op: Sign, sort: Sort) -> bool
    ensures { result ≡ spec.is_signed_by op sort }
{
    match op {
        Sign::Number(op) => is_number_signed_by(op, sort),
        Sign::Not => is_boolean(sort),
    }
}

fn is_number_signed_by(op: UnOp, sort: Sort) -> bool
    ensures { result ≡ spec.is_signed_by (signs.Number op) sort }
{
    match op {
        UnOp::Plus => is_numeric(sort),
        UnOp::Minus => is_numeric(sort),
        UnOp::Not => is_integer(sort),
    }
}

// THE VALUE

// What a constant gives whose type has that sort, on which the operator is defined.
fn signed(op: Sign, sort: Sort, value: Option<&Value>) -> Given
    requires defined { spec.is_signed_by op sort ≡ true }
    requires fits { FitsSort (option_map (λ v. v.now) value) sort }
    ensures { IsGiven result (fit_of_one op sort (option_map (λ v. v.now) value.entry))
        (value_of_one op sort (option_map (λ v. v.now) value.entry)) }
{
    match value {
        Some(value) => value_signed(op, sort, value),
        None => none_given(),
    }
}

fn value_signed(op: Sign, sort: Sort, value: &Value) -> Given
    requires defined { spec.is_signed_by op sort ≡ true }
    requires fits { FitsSort (Some value.now) sort }
    ensures { IsGiven result (fit_of_one op sort (Some value.now)) (value_of_one op sort (Some value.now)) }
{
    match op {
        Sign::Number(op) => number_signed(op, sort, value),
        Sign::Not => negated(sort, value),
    }
}

fn number_signed(op: UnOp, sort: Sort, value: &Value) -> Given
    requires numeric { operators.is_numeric sort ≡ true }
    requires fits { FitsSort (Some value.now) sort }
    ensures { IsGiven result (fit_of_one (signs.Number op) sort (Some value.now))
        (value_of_one (signs.Number op) sort (Some value.now)) }
{
    match value {
        Value::Int(number) => integer_given(signed_integer(op, integer_type(sort), *number), sort),
        Value::Bool(_) => no_value_given(),
        Value::Text(_) => no_value_given(),
    }
}

// The integer of that type, or untyped, under the operator; None where it is outside -2^127 to 2^127-1.
fn signed_integer(op: UnOp, of: Option<IntType>, number: i128) -> Option<i128>
    requires { IfSome of (λ t. IsTrue (ranges.fits number t)) }
    ensures { result ≡ arithmetic.limited (arithmetic.unary_value op of number) }
{
    int_unary(op, number, of).ok()
}

fn negated(sort: Sort, value: &Value) -> Given
    requires { operators.is_boolean sort ≡ true }
    ensures { IsGiven result (fit_of_one signs.Not sort (Some value.now)) (value_of_one signs.Not sort (Some value.now)) }
{
    match value {
        Value::Bool(truth) => truth_given(!*truth, sort),
        Value::Int(_) => no_value_given(),
        Value::Text(_) => no_value_given(),
    }
}

// The integer type that a type of that sort has.
fn integer_type(sort: Sort) -> Option<IntType>
    ensures { result ≡ spec.integer_type sort }
{
    match sort {
        Sort::Int(t) => Some(t),
        Sort::Untyped(_) => None,
        Sort::Bool => None,
        Sort::Float(_) => None,
        Sort::Text => None,
        Sort::Interface => None,
        Sort::Other => None,
    }
}
