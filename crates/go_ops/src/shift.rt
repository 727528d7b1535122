// Shifts (Go specification, "Operators", "Integer operators", "Constant expressions").
ghost use Rattle.std.specs.Prelude.{◌≡◌, IfOk, IsSome, Some, true};
ghost use Rattle.std.specs.Option.{option_map};
ghost use Rattle.go_num.specs.Arithmetic as arithmetic;
ghost use Rattle.go_num.specs.Ranges as ranges;
ghost use Rattle.go_num.specs.declared.ranges.IntType.TheVariants as int_types;
ghost use Rattle.go_num.specs.declared.value.Value.TheVariants as values;
ghost use Rattle.go_term.specs.Types.{TypeData};
ghost use Rattle.go_term.specs.declared.term.Term.{Term};
ghost use Rattle.go_judge.specs.Judged.{asked};
ghost use Rattle.go_judge.specs.Records.{rec_as};
ghost use Rattle.go_judge.specs.View.{outcome_as};
ghost use Rattle.go_judge.specs.Types.Own.{IsOwnOutcome, IsOwnRec, Keeps};
ghost use Rattle.go_judge.specs.Quests.{run};
ghost use Rattle.go_constructs.specs.Operators.Constants as constants;
ghost use Rattle.go_constructs.specs.Operators.Honest.{IsHonest};
ghost use Rattle.go_ops.specs.Limited.{FitsSort, IsGiven};
ghost use Rattle.go_constructs.specs.Operators.Operations as operators;
ghost use Rattle.go_ops.specs.Refusals.{by_whole};
ghost use Rattle.go_constructs.specs.Operators.Rules as rules;
ghost use Rattle.go_ops.specs.Shifted.{IsUint, counted_outcome, fit_of_both, outcome_by_second, shift_asks, value_of_both};
ghost use Rattle.go_constructs.specs.Operators.Shifts as spec;
ghost use Rattle.go_constructs.specs.Operators.Sorts as sorts;

use crate::constants::constant_in;
use crate::limits::{Given, integer_given, limited, no_value_given, none_given};
use crate::operands::refused_two;
use crate::rules::INVALID_SHIFT;
use crate::sort_kinds::{is_integer, is_number};
use crate::sorts::{AskedSort, sort_in};
use go_base::NoMemory;
use go_constructs::Sort;
use go_judge::{Judge, Outcome, Rec, broken};
use go_num::{IntType, Value, fits, int_shift};
use std::alloc::Global;

/// A shift to the left or to the right, by the records of its operands: R1, R2; R9 where the left one is no integer or
/// the right one no count; R8 and L2 by the constant that it gives. An error is want of memory.
pub(crate) fn shift<J: Judge>(
    alloc: Global,
    judge: &mut J,
    left: bool,
    a: &Rec,
    b: &Rec,
) -> Result<Outcome, NoMemory>
    requires first { IsOwnRec (J.is_type judge.old) a.now }
    requires second { IsOwnRec (J.is_type judge.old) b.now }
    requires honest { IsHonest (J.headers judge.old) (rec_as (J.tree judge.old) b.now) }
    ensures outcome { IfOk result (λ outcome. outcome_as (J.tree judge.new) outcome ≡ asked (J.headers judge.old)
        (Some (spec.shift left (rec_as (J.tree judge.old) a.now) (rec_as (J.tree judge.old) b.now)))) }
    ensures own { IfOk result (IsOwnOutcome (J.is_type judge.new)) }
    ensures keeps { Keeps (J.headers judge.old) (J.headers judge.new) (J.names judge.old) (J.names judge.new)
        (J.outcomes judge.old) (J.outcomes judge.new) (J.is_spent judge.old) (J.is_spent judge.new)
        (J.world judge.old) (J.world judge.new) (J.is_type judge.old) (J.is_type judge.new)
        (J.tree judge.old) (J.tree judge.new) }
{
    match refused_two(alloc, judge, a, b)? {
        Some(outcome) => Ok(outcome),
        None => shift_of_values(alloc, judge, left, a, b),
    }
}

// Of single values.
fn shift_of_values<J: Judge>(
    alloc: Global,
    judge: &mut J,
    left: bool,
    a: &Rec,
    b: &Rec,
) -> Result<Outcome, NoMemory>
    requires first { IsOwnRec (J.is_type judge.old) a.now }
    requires second { IsOwnRec (J.is_type judge.old) b.now }
    requires honest { IsHonest (J.headers judge.old) (rec_as (J.tree judge.old) b.now) }
    ensures outcome { IfOk result (λ outcome. outcome_as (J.tree judge.new) outcome ≡ asked (J.headers judge.old)
        (Some (shift_asks left (rec_as (J.tree judge.old) a.now) (rec_as (J.tree judge.old) b.now)))) }
    ensures own { IfOk result (IsOwnOutcome (J.is_type judge.new)) }
    ensures keeps { Keeps (J.headers judge.old) (J.headers judge.new) (J.names judge.old) (J.names judge.new)
        (J.outcomes judge.old) (J.outcomes judge.new) (J.is_spent judge.old) (J.is_spent judge.new)
        (J.world judge.old) (J.world judge.new) (J.is_type judge.old) (J.is_type judge.new)
        (J.tree judge.old) (J.tree judge.new) }
{
    match sort_in(alloc, judge, a)? {
        AskedSort::Is(sort) => shift_of_sort(alloc, judge, left, a, b, sort),
        AskedSort::Unknown(d) => Ok(Outcome::Waits(d)),
    }
}

// By the sort of the left operand.
fn shift_of_sort<J: Judge>(
    alloc: Global,
    judge: &mut J,
    left: bool,
    a: &Rec,
    b: &Rec,
    sort: Sort,
) -> Result<Outcome, NoMemory>
    requires first { IsOwnRec (J.is_type judge.old) a.now }
    requires second { IsOwnRec (J.is_type judge.old) b.now }
    requires honest { IsHonest (J.headers judge.old) (rec_as (J.tree judge.old) b.now) }
    requires typed { operators.is_integer sort ≡ true → IsSome a.now.ty }
    ensures outcome { IfOk result (λ outcome. outcome_as (J.tree judge.new) outcome
        ≡ by_whole rules.invalid_shift (operators.is_integer sort) (outcome_by_second left
        (rec_as (J.tree judge.old) a.now) (rec_as (J.tree judge.old) b.now) sort
        (run (J.headers judge.old) (sorts.sort_in (rec_as (J.tree judge.old) b.now))))) }
    ensures own { IfOk result (IsOwnOutcome (J.is_type judge.new)) }
    ensures keeps { Keeps (J.headers judge.old) (J.headers judge.new) (J.names judge.old) (J.names judge.new)
        (J.outcomes judge.old) (J.outcomes judge.new) (J.is_spent judge.old) (J.is_spent judge.new)
        (J.world judge.old) (J.world judge.new) (J.is_type judge.old) (J.is_type judge.new)
        (J.tree judge.old) (J.tree judge.new) }
{
    if is_integer(sort) {
        shift_of_integer(alloc, judge, left, a, b, sort)
    } else {
        broken(alloc, judge, INVALID_SHIFT)
    }
}

// Of an integer.
fn shift_of_integer<J: Judge>(
    alloc: Global,
    judge: &mut J,
    left: bool,
    a: &Rec,
    b: &Rec,
    sort: Sort,
) -> Result<Outcome, NoMemory>
    requires first { IsOwnRec (J.is_type judge.old) a.now }
    requires second { IsOwnRec (J.is_type judge.old) b.now }
    requires honest { IsHonest (J.headers judge.old) (rec_as (J.tree judge.old) b.now) }
    requires typed { IsSome a.now.ty }
    requires integer { operators.is_integer sort ≡ true }
    ensures outcome { IfOk result (λ outcome. outcome_as (J.tree judge.new) outcome ≡ outcome_by_second left
        (rec_as (J.tree judge.old) a.now) (rec_as (J.tree judge.old) b.now) sort
        (run (J.headers judge.old) (sorts.sort_in (rec_as (J.tree judge.old) b.now)))) }
    ensures own { IfOk result (IsOwnOutcome (J.is_type judge.new)) }
    ensures keeps { Keeps (J.headers judge.old) (J.headers judge.new) (J.names judge.old) (J.names judge.new)
        (J.outcomes judge.old) (J.outcomes judge.new) (J.is_spent judge.old) (J.is_spent judge.new)
        (J.world judge.old) (J.world judge.new) (J.is_type judge.old) (J.is_type judge.new)
        (J.tree judge.old) (J.tree judge.new) }
{
    match sort_in(alloc, judge, b)? {
        AskedSort::Is(second) => shift_by(alloc, judge, left, a, b, sort, second),
        AskedSort::Unknown(d) => Ok(Outcome::Waits(d)),
    }
}

// By the sort of the right operand.
fn shift_by<J: Judge>(
    alloc: Global,
    judge: &J,
    left: bool,
    a: &Rec,
    b: &Rec,
    sort: Sort,
    second: Sort,
) -> Result<Outcome, NoMemory>
    requires own { IsOwnRec (J.is_type judge.now) a.now }
    requires typed { IsSome a.now.ty }
    requires integer { operators.is_integer sort ≡ true }
    requires fits { FitsSort (constants.constant_in (rec_as (J.tree judge.now) b.now)) second }
    ensures outcome { IfOk result (λ outcome. outcome_as (J.tree judge.now) outcome
        ≡ by_whole rules.invalid_shift (spec.is_count (rec_as (J.tree judge.now) b.now) second)
        (counted_outcome left (rec_as (J.tree judge.now) a.now) (rec_as (J.tree judge.now) b.now) sort)) }
    ensures own { IfOk result (IsOwnOutcome (J.is_type judge.now)) }
{
    if is_count(b, second) {
        shift_by_count(alloc, judge, left, a, b, sort)
    } else {
        broken(alloc, judge, INVALID_SHIFT)
    }
}

// By a count.
fn shift_by_count<J: Judge>(
    alloc: Global,
    judge: &J,
    left: bool,
    a: &Rec,
    b: &Rec,
    sort: Sort,
) -> Result<Outcome, NoMemory>
    requires own { IsOwnRec (J.is_type judge.now) a.now }
    requires typed { IsSome a.now.ty }
    requires integer { operators.is_integer sort ≡ true }
    requires count { IsUint (constants.constant_in (rec_as (J.tree judge.now) b.now)) }
    ensures outcome { IfOk result (λ outcome. outcome_as (J.tree judge.now) outcome
        ≡ counted_outcome left (rec_as (J.tree judge.now) a.now) (rec_as (J.tree judge.now) b.now) sort) }
    ensures own { IfOk result (IsOwnOutcome (J.is_type judge.now)) }
{
    match &a.ty {
        Some(ty) => {
            let given = shifted(left, sort, constant_in(a), constant_in(b));
            limited(alloc, judge, given, ty, span_of(a, sort))
        }
        None => unreachable!(),
    }
}

// THE COUNT

// Whether an operand whose type has this sort is a count: not negative, or an untyped integer that `uint` represents.
fn is_count(rec: &Rec, sort: Sort) -> bool
    ensures { (tree : Term → TypeData) → result ≡ spec.is_count (rec_as tree rec.now) sort }
{
    match sort {
        Sort::Int(_) => is_not_negative(constant_in(rec)),
        Sort::Untyped(kind) => is_number(kind) && represents_count(constant_in(rec), rec.span),
        Sort::Bool => false,
        Sort::Float(_) => false,
        Sort::Text => false,
        Sort::Interface => false,
        Sort::Other => false,
    }
}

// Whether it is no negative constant.
fn is_not_negative(value: Option<&Value>) -> bool
    ensures { result ≡ spec.is_not_negative (option_map (λ v. v.now) value.entry) }
{
    match value {
        Some(Value::Int(number)) => *number >= 0,
        Some(Value::Bool(_)) => true,
        Some(Value::Text(_)) => true,
        None => true,
    }
}

// Whether `uint` represents an untyped constant, or both ends of the span of an untyped value.
fn represents_count(value: Option<&Value>, span: Option<(i128, i128)>) -> bool
    ensures { result ≡ spec.represents_count (option_map (λ v. v.now) value.entry) span }
{
    match value {
        Some(Value::Int(number)) => fits(*number, IntType::Uint),
        Some(Value::Bool(_)) => false,
        Some(Value::Text(_)) => false,
        None => span_fits(span),
    }
}

fn span_fits(span: Option<(i128, i128)>) -> bool
    ensures { result ≡ spec.span_fits span }
{
    match span {
        Some((least, greatest)) => fits(least, IntType::Uint) && fits(greatest, IntType::Uint),
        None => false,
    }
}

// THE VALUE

// What two constants give, where the first has an integer type of this sort and the second is a count.
fn shifted(left: bool, sort: Sort, a: Option<&Value>, b: Option<&Value>) -> Given
    requires integer { operators.is_integer sort ≡ true }
    requires count { IsUint (option_map (λ v. v.now) b) }
    ensures { IsGiven result (fit_of_both left sort (option_map (λ v. v.now) a.entry) (option_map (λ v. v.now) b.entry))
        (value_of_both left (option_map (λ v. v.now) a.entry) (option_map (λ v. v.now) b.entry)) }
{
    match a {
        Some(a) => value_shifted(left, sort, a, b),
        None => none_given(),
    }
}

fn value_shifted(left: bool, sort: Sort, a: &Value, b: Option<&Value>) -> Given
    requires integer { operators.is_integer sort ≡ true }
    requires count { IsUint (option_map (λ v. v.now) b) }
    ensures { IsGiven result (fit_of_both left sort (Some a.now) (option_map (λ v. v.now) b.entry))
        (value_of_both left (Some a.now) (option_map (λ v. v.now) b.entry)) }
{
    match b {
        Some(b) => value_shifted_by(left, sort, a, b),
        None => none_given(),
    }
}

fn value_shifted_by(left: bool, sort: Sort, a: &Value, b: &Value) -> Given
    requires integer { operators.is_integer sort ≡ true }
    requires count { IsUint (Some b.now) }
    ensures { IsGiven result (fit_of_both left sort (Some a.now) (Some b.now))
        (value_of_both left (Some a.now) (Some b.now)) }
{
    match a {
        Value::Int(number) => integer_shifted_by(left, sort, *number, b),
        Value::Bool(_) => no_value_given(),
        Value::Text(_) => no_value_given(),
    }
}

fn integer_shifted_by(left: bool, sort: Sort, a: i128, b: &Value) -> Given
    requires integer { operators.is_integer sort ≡ true }
    requires count { IsUint (Some b.now) }
    ensures { IsGiven result (fit_of_both left sort (Some (values.Int a)) (Some b.now))
        (value_of_both left (Some (values.Int a)) (Some b.now)) }
{
    match b {
        Value::Int(count) => integer_given(shifted_integer(left, a, *count), sort),
        Value::Bool(_) => no_value_given(),
        Value::Text(_) => no_value_given(),
    }
}

// The integer, shifted; None where it is outside -2^127 to 2^127-1.
fn shifted_integer(left: bool, a: i128, count: i128) -> Option<i128>
    requires { ranges.fits count int_types.Uint ≡ true }
    ensures { result ≡ arithmetic.limited (spec.shifted_by left a count) }
{
    int_shift(left, a, count).ok()
}

// The least and the greatest constant in a left operand whose type has this sort, where that is untyped.
fn span_of(rec: &Rec, sort: Sort) -> Option<(i128, i128)>
    ensures { (tree : Term → TypeData) → result ≡ spec.span_of (rec_as tree rec.now) sort }
{
    match sort {
        Sort::Untyped(_) => span_by(constant_in(rec), rec.span),
        Sort::Bool => None,
        Sort::Int(_) => None,
        Sort::Float(_) => None,
        Sort::Text => None,
        Sort::Interface => None,
        Sort::Other => None,
    }
}

fn span_by(value: Option<&Value>, span: Option<(i128, i128)>) -> Option<(i128, i128)>
    ensures { result ≡ spec.span_by (option_map (λ v. v.now) value.entry) span }
{
    match value {
        Some(Value::Int(number)) => Some((*number, *number)),
        Some(Value::Bool(_)) => span,
        Some(Value::Text(_)) => span,
        None => span,
    }
}
