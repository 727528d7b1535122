// Operations that are no comparison and no shift (Go specification, "Arithmetic operators", "Logical operators",
// "String concatenation", "Constant expressions").
ghost use Rattle.std.specs.Prelude.{◌≡◌, IfOk, Some};
ghost use Rattle.go_judge.specs.Judged.{asked};
ghost use Rattle.go_judge.specs.Records.{rec_as};
ghost use Rattle.go_judge.specs.View.{outcome_as};
ghost use Rattle.go_judge.specs.Types.Own.{IsOwnOutcome, IsOwnRec, Keeps};
ghost use Rattle.go_judge.specs.Quests.{Decided, run};
ghost use Rattle.go_constructs.specs.Operators.Honest.{IsHonest};
ghost use Rattle.go_constructs.specs.Operators.Operations as spec;
ghost use Rattle.go_constructs.specs.Operators.Sorts as sorts;
ghost use Rattle.go_ops.specs.Stages.{AreOf, built_outcome, first_outcome, second_outcome, values_outcome};

use crate::definedness::is_built;
use crate::matched::of_matched;
use crate::matching::matches;
use crate::operands::refused_two;
use crate::rules::MISMATCHED_OPERANDS;
use crate::sorts::{AskedSort, sort_in};
use go_base::NoMemory;
use go_constructs::{Operation, Sort};
use go_judge::{Answer, Judge, Outcome, Rec, broken};
use go_module::UNBUILT_FORM;
use std::alloc::Global;

/// An operation by the records of its operands: U0 where one is not built; R1, R2; R4 where they do not match; R5 where
/// the operator is not defined on them; R7; R8, U9, L2 and L3 at the constants and by what they give. An error is want
/// of memory.
pub(crate) fn operation<J: Judge>(
    alloc: Global,
    judge: &mut J,
    op: Operation,
    x: &Rec,
    y: &Rec,
) -> Result<Outcome, NoMemory>
    requires first { IsOwnRec (J.is_type judge.old) x.now }
    requires second { IsOwnRec (J.is_type judge.old) y.now }
    requires honest_first { IsHonest (J.headers judge.old) (rec_as (J.tree judge.old) x.now) }
    requires honest_second { IsHonest (J.headers judge.old) (rec_as (J.tree judge.old) y.now) }
    ensures outcome { IfOk result (λ outcome. outcome_as (J.tree judge.new) outcome ≡ asked (J.headers judge.old)
        (Some (spec.operation op (rec_as (J.tree judge.old) x.now) (rec_as (J.tree judge.old) y.now)))) }
    ensures own { IfOk result (IsOwnOutcome (J.is_type judge.new)) }
    ensures keeps { Keeps (J.headers judge.old) (J.headers judge.new) (J.names judge.old) (J.names judge.new)
        (J.outcomes judge.old) (J.outcomes judge.new) (J.is_spent judge.old) (J.is_spent judge.new)
        (J.world judge.old) (J.world judge.new) (J.is_type judge.old) (J.is_type judge.new)
        (J.tree judge.old) (J.tree judge.new) }
{
    match sort_in(alloc, judge, x)? {
        AskedSort::Is(s) => of_first(alloc, judge, op, x, y, s),
        AskedSort::Unknown(d) => Ok(Outcome::Waits(d)),
    }
}

// By the sort of the first operand.
fn of_first<J: Judge>(
    alloc: Global,
    judge: &mut J,
    op: Operation,
    x: &Rec,
    y: &Rec,
    s: Sort,
) -> Result<Outcome, NoMemory>
    requires first { IsOwnRec (J.is_type judge.old) x.now }
    requires second { IsOwnRec (J.is_type judge.old) y.now }
    requires known { (t : Sort) → run (J.headers judge.old) (sorts.sort_in (rec_as (J.tree judge.old) y.now)) ≡ Decided t
        → AreOf x.now y.now s t }
    ensures outcome { IfOk result (λ outcome. outcome_as (J.tree judge.new) outcome ≡ first_outcome
        (J.headers judge.old) op (rec_as (J.tree judge.old) x.now) (rec_as (J.tree judge.old) y.now) s) }
    ensures own { IfOk result (IsOwnOutcome (J.is_type judge.new)) }
    ensures keeps { Keeps (J.headers judge.old) (J.headers judge.new) (J.names judge.old) (J.names judge.new)
        (J.outcomes judge.old) (J.outcomes judge.new) (J.is_spent judge.old) (J.is_spent judge.new)
        (J.world judge.old) (J.world judge.new) (J.is_type judge.old) (J.is_type judge.new)
        (J.tree judge.old) (J.tree judge.new) }
{
    if is_built(x, s) {
        of_second(alloc, judge, op, x, y, s)
    } else {
        broken(alloc, judge, UNBUILT_FORM)
    }
}

// And behind U0 at it.
#[tactic(auto, unfolding(crate::specs::Stages::second_outcome))]
fn of_second<J: Judge>(
    alloc: Global,
    judge: &mut J,
    op: Operation,
    x: &Rec,
    y: &Rec,
    s: Sort,
) -> Result<Outcome, NoMemory>
    requires first { IsOwnRec (J.is_type judge.old) x.now }
    requires second { IsOwnRec (J.is_type judge.old) y.now }
    requires known { (t : Sort) → run (J.headers judge.old) (sorts.sort_in (rec_as (J.tree judge.old) y.now)) ≡ Decided t
        → AreOf x.now y.now s t }
    ensures outcome { IfOk result (λ outcome. outcome_as (J.tree judge.new) outcome ≡ second_outcome
        (J.headers judge.old) op (rec_as (J.tree judge.old) x.now) (rec_as (J.tree judge.old) y.now) s
        (run (J.headers judge.old) (sorts.sort_in (rec_as (J.tree judge.old) y.now)))) }
    ensures own { IfOk result (IsOwnOutcome (J.is_type judge.new)) }
    ensures keeps { Keeps (J.headers judge.old) (J.headers judge.new) (J.names judge.old) (J.names judge.new)
        (J.outcomes judge.old) (J.outcomes judge.new) (J.is_spent judge.old) (J.is_spent judge.new)
        (J.world judge.old) (J.world judge.new) (J.is_type judge.old) (J.is_type judge.new)
        (J.tree judge.old) (J.tree judge.new) }
{
    match sort_in(alloc, judge, y)? {
        AskedSort::Is(t) => of_sorts(alloc, judge, op, x, y, s, t),
        AskedSort::Unknown(d) => Ok(Outcome::Waits(d)),
    }
}

// By the sorts of both operands.
fn of_sorts<J: Judge>(
    alloc: Global,
    judge: &mut J,
    op: Operation,
    x: &Rec,
    y: &Rec,
    s: Sort,
    t: Sort,
) -> Result<Outcome, NoMemory>
    requires first { IsOwnRec (J.is_type judge.old) x.now }
    requires second { IsOwnRec (J.is_type judge.old) y.now }
    requires known { AreOf x.now y.now s t }
    ensures outcome { IfOk result (λ outcome. outcome_as (J.tree judge.new) outcome ≡ second_outcome
        (J.headers judge.old) op (rec_as (J.tree judge.old) x.now) (rec_as (J.tree judge.old) y.now) s (Decided t)) }
    ensures own { IfOk result (IsOwnOutcome (J.is_type judge.new)) }
    ensures keeps { Keeps (J.headers judge.old) (J.headers judge.new) (J.names judge.old) (J.names judge.new)
        (J.outcomes judge.old) (J.outcomes judge.new) (J.is_spent judge.old) (J.is_spent judge.new)
        (J.world judge.old) (J.world judge.new) (J.is_type judge.old) (J.is_type judge.new)
        (J.tree judge.old) (J.tree judge.new) }
{
    if is_built(y, t) {
        of_built(alloc, judge, op, x, y, s, t)
    } else {
        broken(alloc, judge, UNBUILT_FORM)
    }
}

// Behind U0.
#[tactic(auto, unfolding(crate::specs::Stages::built_outcome))]
fn of_built<J: Judge>(
    alloc: Global,
    judge: &mut J,
    op: Operation,
    x: &Rec,
    y: &Rec,
    s: Sort,
    t: Sort,
) -> Result<Outcome, NoMemory>
    requires first { IsOwnRec (J.is_type judge.old) x.now }
    requires second { IsOwnRec (J.is_type judge.old) y.now }
    requires known { AreOf x.now y.now s t }
    ensures outcome { IfOk result (λ outcome. outcome_as (J.tree judge.new) outcome ≡ built_outcome
        (J.headers judge.old) op (rec_as (J.tree judge.old) x.now) (rec_as (J.tree judge.old) y.now) s t) }
    ensures own { IfOk result (IsOwnOutcome (J.is_type judge.new)) }
    ensures keeps { Keeps (J.headers judge.old) (J.headers judge.new) (J.names judge.old) (J.names judge.new)
        (J.outcomes judge.old) (J.outcomes judge.new) (J.is_spent judge.old) (J.is_spent judge.new)
        (J.world judge.old) (J.world judge.new) (J.is_type judge.old) (J.is_type judge.new)
        (J.tree judge.old) (J.tree judge.new) }
{
    match refused_two(alloc, judge, x, y)? {
        Some(outcome) => Ok(outcome),
        None => of_values(alloc, judge, op, x, y, s, t),
    }
}

// Of two single values, from R4 on.
#[tactic(auto, unfolding(crate::specs::Stages::values_outcome))]
fn of_values<J: Judge>(
    alloc: Global,
    judge: &mut J,
    op: Operation,
    x: &Rec,
    y: &Rec,
    s: Sort,
    t: Sort,
) -> Result<Outcome, NoMemory>
    requires first { IsOwnRec (J.is_type judge.old) x.now }
    requires second { IsOwnRec (J.is_type judge.old) y.now }
    requires known { AreOf x.now y.now s t }
    ensures outcome { IfOk result (λ outcome. outcome_as (J.tree judge.new) outcome ≡ values_outcome
        (J.headers judge.old) op (rec_as (J.tree judge.old) x.now) (rec_as (J.tree judge.old) y.now) s t) }
    ensures own { IfOk result (IsOwnOutcome (J.is_type judge.new)) }
    ensures keeps { Keeps (J.headers judge.old) (J.headers judge.new) (J.names judge.old) (J.names judge.new)
        (J.outcomes judge.old) (J.outcomes judge.new) (J.is_spent judge.old) (J.is_spent judge.new)
        (J.world judge.old) (J.world judge.new) (J.is_type judge.old) (J.is_type judge.new)
        (J.tree judge.old) (J.tree judge.new) }
{
    match matches(alloc, judge, x, y, s, t)? {
        Answer::Yes => of_matched(alloc, judge, op, x, y, s, t),
        Answer::No => broken(alloc, judge, MISMATCHED_OPERANDS),
        Answer::Unknown(d) => Ok(Outcome::Waits(d)),
    }
}
