// Comparisons (Go specification, "Comparison operators", "Constant expressions").
ghost use Rattle.std.specs.Prelude.{◌≡◌, ◌&&◌, IfOk, None, Some};
ghost use Rattle.std.specs.Bool.{xor};
ghost use Rattle.std.specs.Option.{option_map};
ghost use Rattle.go_judge.specs.Judged.{asked};
ghost use Rattle.go_judge.specs.Records.{rec_as, rec_view};
ghost use Rattle.go_judge.specs.View.{outcome_as};
ghost use Rattle.go_judge.specs.Types.Own.{IsOwnOutcome, IsOwnRec, Keeps};
ghost use Rattle.go_judge.specs.Quests.{run};
ghost use Rattle.go_num.specs.declared.value.Value.TheVariants as values;
ghost use Rattle.go_ops.specs.ComparisonStages.{built_comparison, compared_both, fitting_comparison, kept_comparison, matched_comparison, sorts_comparison, truth_outcome, values_comparison};
ghost use Rattle.go_constructs.specs.Operators.Comparisons as spec;
ghost use Rattle.go_constructs.specs.Operators.Sorts as sorts;

use crate::broken::broken_at_two;
use crate::constants::{constant_in, record_of};
use crate::fit::{not_overflows, not_unkept};
use crate::matching::{common_sort, given_fit, matches};
use crate::modes::{is_constant, is_value};
use crate::operands::refused_two;
use crate::rules::{CONSTANT_OVERFLOW, INCOMPARABLE_OPERANDS, MISMATCHED_OPERANDS, UNKEPT_FLOAT};
use crate::sort_kinds::{is_boolean, is_numeric, is_text};
use crate::sorts::{AskedSorts, sorts_of};
use crate::types::basic_type;
use go_base::NoMemory;
use go_constructs::Sort;
use go_judge::{Answer, Judge, Outcome, Rec, broken};
use go_module::UNBUILT_FORM;
use go_num::{CmpOp, Value, int_compare, text_compare};
use go_term::Basic;
use std::alloc::Global;

/// A comparison by the records of its operands: U0 at a value that is no constant; R1, R2; R4 where they do not match;
/// R6 where they do not compare; R8 and U9 at the constants. An error is want of memory.
pub(crate) fn comparison<J: Judge>(
    alloc: Global,
    judge: &mut J,
    op: CmpOp,
    x: &Rec,
    y: &Rec,
) -> Result<Outcome, NoMemory>
    requires first { IsOwnRec (J.is_type judge.old) x.now }
    requires second { IsOwnRec (J.is_type judge.old) y.now }
    ensures outcome { IfOk result (λ outcome. outcome_as (J.tree judge.new) outcome ≡ asked (J.headers judge.old)
        (Some (spec.comparison op (rec_as (J.tree judge.old) x.now) (rec_as (J.tree judge.old) y.now)))) }
    ensures own { IfOk result (IsOwnOutcome (J.is_type judge.new)) }
    ensures keeps { Keeps (J.headers judge.old) (J.headers judge.new) (J.names judge.old) (J.names judge.new)
        (J.outcomes judge.old) (J.outcomes judge.new) (J.is_spent judge.old) (J.is_spent judge.new)
        (J.world judge.old) (J.world judge.new) (J.is_type judge.old) (J.is_type judge.new)
        (J.tree judge.old) (J.tree judge.new) }
{
    if are_built(x, y) {
        of_built(alloc, judge, op, x, y)
    } else {
        broken(alloc, judge, UNBUILT_FORM)
    }
}

// Whether U0 stands at no comparison of these operands.
fn are_built(x: &Rec, y: &Rec) -> bool
    ensures { result ≡ (spec.is_constant_or_no_value (rec_view x.now) && spec.is_constant_or_no_value (rec_view y.now)) }
{
    is_constant_or_no_value(x) && is_constant_or_no_value(y)
}

fn is_constant_or_no_value(r: &Rec) -> bool
    ensures { result ≡ spec.is_constant_or_no_value (rec_view r.now) }
{
    !is_value(r.mode) || is_constant(r.mode)
}

// Behind U0.
#[tactic(auto, unfolding(crate::specs::ComparisonStages::built_comparison))]
fn of_built<J: Judge>(
    alloc: Global,
    judge: &mut J,
    op: CmpOp,
    x: &Rec,
    y: &Rec,
) -> Result<Outcome, NoMemory>
    requires first { IsOwnRec (J.is_type judge.old) x.now }
    requires second { IsOwnRec (J.is_type judge.old) y.now }
    ensures outcome { IfOk result (λ outcome. outcome_as (J.tree judge.new) outcome ≡ built_comparison
        (J.headers judge.old) op (rec_as (J.tree judge.old) x.now) (rec_as (J.tree judge.old) y.now)) }
    ensures own { IfOk result (IsOwnOutcome (J.is_type judge.new)) }
    ensures keeps { Keeps (J.headers judge.old) (J.headers judge.new) (J.names judge.old) (J.names judge.new)
        (J.outcomes judge.old) (J.outcomes judge.new) (J.is_spent judge.old) (J.is_spent judge.new)
        (J.world judge.old) (J.world judge.new) (J.is_type judge.old) (J.is_type judge.new)
        (J.tree judge.old) (J.tree judge.new) }
{
    match refused_two(alloc, judge, x, y)? {
        Some(outcome) => Ok(outcome),
        None => of_values(alloc, judge, op, x, y),
    }
}

// Of two single values.
#[tactic(auto, unfolding(crate::specs::ComparisonStages::values_comparison))]
fn of_values<J: Judge>(
    alloc: Global,
    judge: &mut J,
    op: CmpOp,
    x: &Rec,
    y: &Rec,
) -> Result<Outcome, NoMemory>
    requires first { IsOwnRec (J.is_type judge.old) x.now }
    requires second { IsOwnRec (J.is_type judge.old) y.now }
    ensures outcome { IfOk result (λ outcome. outcome_as (J.tree judge.new) outcome ≡ values_comparison
        (J.headers judge.old) op (rec_as (J.tree judge.old) x.now) (rec_as (J.tree judge.old) y.now)
        (run (J.headers judge.old) (sorts.sorts_of (rec_as (J.tree judge.old) x.now) (rec_as (J.tree judge.old) y.now)))) }
    ensures own { IfOk result (IsOwnOutcome (J.is_type judge.new)) }
    ensures keeps { Keeps (J.headers judge.old) (J.headers judge.new) (J.names judge.old) (J.names judge.new)
        (J.outcomes judge.old) (J.outcomes judge.new) (J.is_spent judge.old) (J.is_spent judge.new)
        (J.world judge.old) (J.world judge.new) (J.is_type judge.old) (J.is_type judge.new)
        (J.tree judge.old) (J.tree judge.new) }
{
    match sorts_of(alloc, judge, x, y)? {
        AskedSorts::Are(s, t) => of_sorts(alloc, judge, op, x, y, s, t),
        AskedSorts::Unknown(d) => Ok(Outcome::Waits(d)),
    }
}

// By the sorts of both.
#[tactic(auto, unfolding(crate::specs::ComparisonStages::sorts_comparison))]
fn of_sorts<J: Judge>(
    alloc: Global,
    judge: &mut J,
    op: CmpOp,
    x: &Rec,
    y: &Rec,
    s: Sort,
    t: Sort,
) -> Result<Outcome, NoMemory>
    requires first { IsOwnRec (J.is_type judge.old) x.now }
    requires second { IsOwnRec (J.is_type judge.old) y.now }
    ensures outcome { IfOk result (λ outcome. outcome_as (J.tree judge.new) outcome ≡ sorts_comparison
        (J.headers judge.old) op (rec_as (J.tree judge.old) x.now) (rec_as (J.tree judge.old) y.now) s t) }
    ensures own { IfOk result (IsOwnOutcome (J.is_type judge.new)) }
    ensures keeps { Keeps (J.headers judge.old) (J.headers judge.new) (J.names judge.old) (J.names judge.new)
        (J.outcomes judge.old) (J.outcomes judge.new) (J.is_spent judge.old) (J.is_spent judge.new)
        (J.world judge.old) (J.world judge.new) (J.is_type judge.old) (J.is_type judge.new)
        (J.tree judge.old) (J.tree judge.new) }
{
    match matches(alloc, judge, x, y, s, t)? {
        Answer::Yes => of_matched(alloc, judge, op, x, y, s, t),
        Answer::No => broken(alloc, judge, MISMATCHED_OPERANDS),
        Answer::Unknown(d) => Ok(Outcome::Waits(d)),
    }
}

// Behind R4.
#[tactic(auto, unfolding(crate::specs::ComparisonStages::matched_comparison))]
fn of_matched<J: Judge>(
    alloc: Global,
    judge: &mut J,
    op: CmpOp,
    x: &Rec,
    y: &Rec,
    s: Sort,
    t: Sort,
) -> Result<Outcome, NoMemory>
    ensures outcome { IfOk result (λ outcome. outcome_as (J.tree judge.new) outcome
        ≡ matched_comparison op (rec_as (J.tree judge.old) x.now) (rec_as (J.tree judge.old) y.now) s t) }
    ensures own { IfOk result (IsOwnOutcome (J.is_type judge.new)) }
    ensures keeps { Keeps (J.headers judge.old) (J.headers judge.new) (J.names judge.old) (J.names judge.new)
        (J.outcomes judge.old) (J.outcomes judge.new) (J.is_spent judge.old) (J.is_spent judge.new)
        (J.world judge.old) (J.world judge.new) (J.is_type judge.old) (J.is_type judge.new)
        (J.tree judge.old) (J.tree judge.new) }
{
    if compares(op, common_sort(s, t)) {
        of_compared(alloc, judge, op, x, y, s, t)
    } else {
        broken(alloc, judge, INCOMPARABLE_OPERANDS)
    }
}

// Behind R6.
fn of_compared<J: Judge>(
    alloc: Global,
    judge: &mut J,
    op: CmpOp,
    x: &Rec,
    y: &Rec,
    s: Sort,
    t: Sort,
) -> Result<Outcome, NoMemory>
    ensures outcome { IfOk result (λ outcome. outcome_as (J.tree judge.new) outcome
        ≡ fitting_comparison op (rec_as (J.tree judge.old) x.now) (rec_as (J.tree judge.old) y.now) s t) }
    ensures own { IfOk result (IsOwnOutcome (J.is_type judge.new)) }
    ensures keeps { Keeps (J.headers judge.old) (J.headers judge.new) (J.names judge.old) (J.names judge.new)
        (J.outcomes judge.old) (J.outcomes judge.new) (J.is_spent judge.old) (J.is_spent judge.new)
        (J.world judge.old) (J.world judge.new) (J.is_type judge.old) (J.is_type judge.new)
        (J.tree judge.old) (J.tree judge.new) }
{
    let first = not_overflows(given_fit(x, s, t));
    let second = not_overflows(given_fit(y, t, s));
    if first && second {
        of_fitting(alloc, judge, op, x, y, s, t)
    } else {
        broken_at_two(alloc, judge, CONSTANT_OVERFLOW, first, second)
    }
}

// Behind R8.
fn of_fitting<J: Judge>(
    alloc: Global,
    judge: &mut J,
    op: CmpOp,
    x: &Rec,
    y: &Rec,
    s: Sort,
    t: Sort,
) -> Result<Outcome, NoMemory>
    ensures outcome { IfOk result (λ outcome. outcome_as (J.tree judge.new) outcome
        ≡ kept_comparison op (rec_as (J.tree judge.old) x.now) (rec_as (J.tree judge.old) y.now) s t) }
    ensures own { IfOk result (IsOwnOutcome (J.is_type judge.new)) }
    ensures keeps { Keeps (J.headers judge.old) (J.headers judge.new) (J.names judge.old) (J.names judge.new)
        (J.outcomes judge.old) (J.outcomes judge.new) (J.is_spent judge.old) (J.is_spent judge.new)
        (J.world judge.old) (J.world judge.new) (J.is_type judge.old) (J.is_type judge.new)
        (J.tree judge.old) (J.tree judge.new) }
{
    let first = not_unkept(given_fit(x, s, t));
    let second = not_unkept(given_fit(y, t, s));
    if first && second {
        of_kept(alloc, judge, op, x, y)
    } else {
        broken_at_two(alloc, judge, UNKEPT_FLOAT, first, second)
    }
}

// Behind U9: an untyped truth value.
fn of_kept<J: Judge>(
    alloc: Global,
    judge: &mut J,
    op: CmpOp,
    x: &Rec,
    y: &Rec,
) -> Result<Outcome, NoMemory>
    ensures outcome { IfOk result (λ outcome. outcome_as (J.tree judge.new) outcome
        ≡ truth_outcome op (rec_as (J.tree judge.old) x.now) (rec_as (J.tree judge.old) y.now)) }
    ensures own { IfOk result (IsOwnOutcome (J.is_type judge.new)) }
    ensures keeps { Keeps (J.headers judge.old) (J.headers judge.new) (J.names judge.old) (J.names judge.new)
        (J.outcomes judge.old) (J.outcomes judge.new) (J.is_spent judge.old) (J.is_spent judge.new)
        (J.world judge.old) (J.world judge.new) (J.is_type judge.old) (J.is_type judge.new)
        (J.tree judge.old) (J.tree judge.new) }
{
    let ty = basic_type(alloc, judge, Basic::UntypedBool)?;
    let first = constant_in(x);
    let second = constant_in(y);
    let value = compared_both(op, first, second);
    Ok(Outcome::Found(record_of(judge, ty, value, None)))
}

// What two operands give where both are constants.
fn compared_both(op: CmpOp, a: Option<&Value>, b: Option<&Value>) -> Option<Value>
    ensures { result ≡ compared_both op (option_map (λ v. v.now) a.entry) (option_map (λ v. v.now) b.entry) }
{
    match (a, b) {
        (Some(a), Some(b)) => compared_values(op, a, b),
        (Some(_), None) => None,
        (None, Some(_)) => None,
        (None, None) => None,
    }
}

fn compared_values(op: CmpOp, a: &Value, b: &Value) -> Option<Value>
    ensures { result ≡ spec.compared_values op a.now b.now }
{
    match (a, b) {
        (Value::Bool(p), Value::Bool(q)) => Some(Value::Bool(truths_compared(op, *p, *q))),
        (Value::Int(a), Value::Int(b)) => Some(Value::Bool(int_compare(op, *a, *b))),
        (Value::Text(a), Value::Text(b)) => Some(Value::Bool(text_compare(
            op,
            a.as_slice(),
            b.as_slice(),
        ))),
        (Value::Bool(_), Value::Int(_)) => None,
        (Value::Bool(_), Value::Text(_)) => None,
        (Value::Int(_), Value::Bool(_)) => None,
        (Value::Int(_), Value::Text(_)) => None,
        (Value::Text(_), Value::Bool(_)) => None,
        (Value::Text(_), Value::Int(_)) => None,
    }
}

// Truth values that are both true or both false are equal.
fn truths_compared(op: CmpOp, p: bool, q: bool) -> bool
    ensures { result ≡ spec.truths_compared op p q }
{
    match op {
        CmpOp::Ne => differ(p, q),
        CmpOp::Eq => !differ(p, q),
        CmpOp::Lt => !differ(p, q),
        CmpOp::Le => !differ(p, q),
        CmpOp::Gt => !differ(p, q),
        CmpOp::Ge => !differ(p, q),
    }
}

fn differ(p: bool, q: bool) -> bool
    ensures { result ≡ xor p q }
{
    p != q
}

// Whether values of a type of this sort compare so.
fn compares(op: CmpOp, s: Sort) -> bool
    ensures { result ≡ spec.compares op s }
{
    match op {
        CmpOp::Eq => compares_equal(s),
        CmpOp::Ne => compares_equal(s),
        CmpOp::Lt => is_ordered(s),
        CmpOp::Le => is_ordered(s),
        CmpOp::Gt => is_ordered(s),
        CmpOp::Ge => is_ordered(s),
    }
}

fn compares_equal(s: Sort) -> bool
    ensures { result ≡ spec.compares_equal s }
{
    is_numeric(s) || is_text(s) || is_boolean(s)
}

fn is_ordered(s: Sort) -> bool
    ensures { result ≡ spec.is_ordered s }
{
    is_numeric(s) || is_text(s)
}
