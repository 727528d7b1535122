// What operators come to on constants of basic types, judged by a rulebook, where memory is ample.
ghost use Rattle.std.specs.Prelude.{IfOk, IfSome};
ghost use Rattle.go_judge.specs.Records.{rec_as};
ghost use Rattle.go_judge.specs.Types.Own.{IsOwnRec, Keeps};
ghost use Rattle.go_constructs.specs.Operators.Honest.{IsHonest};

use go_base::{NoMemory, Rule};
use go_model::{Judge, Mode, Outcome, Rec, Spot};
use go_num::Value;
use go_ops::{Fit, Represents, binary, binary_op, representable, unary, unary_op};
use go_term::{Basic, Shape, Term};
use go_tree::TokenKind;
use std::alloc::Global;

// A constant of a basic type, None where the type does not represent it.
fn constant<J: Judge>(
    alloc: Global,
    judge: &mut J,
    basic: Basic,
    value: Value,
) -> Result<Option<Rec>, NoMemory>
    ensures honest { IfOk result (λ made. IfSome made (λ rec.
        IsHonest (J.headers judge.old) (rec_as (J.tree judge.new) rec))) }
    ensures own { IfOk result (λ made. IfSome made (IsOwnRec (J.is_type judge.new))) }
    ensures keeps { Keeps (J.headers judge.old) (J.headers judge.new) (J.names judge.old) (J.names judge.new)
        (J.outcomes judge.old) (J.outcomes judge.new) (J.is_spent judge.old) (J.is_spent judge.new)
        (J.world judge.old) (J.world judge.new) (J.is_type judge.old) (J.is_type judge.new)
        (J.tree judge.old) (J.tree judge.new) }
{
    let Ok(ty) = judge.make(alloc, Shape::Basic(basic)) else {
        return Err(NoMemory);
    };
    match representable(alloc, judge, &value, &ty)? {
        Represents::Is(Fit::Fits) => Ok(Some(Rec {
            mode: Mode::Const,
            ty: Some(ty),
            value: Some(value),
            object: None,
            span: None,
        })),
        _ => Ok(None),
    }
}

/// What `a op b` comes to of two constants; Nothing where one is none of its type, or the token no binary operator.
pub(crate) fn of_two<J: Judge>(
    alloc: Global,
    judge: &mut J,
    op: TokenKind,
    a: (Basic, Value),
    b: (Basic, Value),
) -> Result<Outcome, NoMemory> {
    let first = constant(alloc, judge, a.0, a.1)?;
    let second = constant(alloc, judge, b.0, b.1)?;
    match (first, second) {
        (Some(first), Some(second)) if binary_op(op).is_some() => {
            binary(alloc, judge, op, &first, &second)
        }
        _ => Ok(Outcome::Nothing),
    }
}

/// What `op a` comes to of a constant; Nothing where it is none of its type, or the token no unary operator.
pub(crate) fn of_one<J: Judge>(
    alloc: Global,
    judge: &mut J,
    op: TokenKind,
    a: (Basic, Value),
) -> Result<Outcome, NoMemory> {
    match constant(alloc, judge, a.0, a.1)? {
        Some(operand) if unary_op(op).is_some() => unary(alloc, judge, op, &operand, false),
        _ => Ok(Outcome::Nothing),
    }
}

/// A number or a truth value of a basic type.
#[derive(Clone, Copy, Debug)]
pub(crate) enum Plain {
    Number(Basic, i128),
    Truth(Basic, bool),
}

/// Its type and its value.
fn typed(plain: Plain) -> (Basic, Value) {
    match plain {
        Plain::Number(basic, number) => (basic, Value::Int(number)),
        Plain::Truth(basic, truth) => (basic, Value::Bool(truth)),
    }
}

/// What is wanted of a row: a constant of a type, or a rule that is broken there.
#[derive(Clone, Copy, Debug)]
pub(crate) enum Want {
    Is(Plain),
    Breaks(Rule, Spot),
}

/// `a op b`, and what is wanted of it.
#[derive(Clone, Copy, Debug)]
pub(crate) struct OfTwo(
    pub(crate) Plain,
    pub(crate) TokenKind,
    pub(crate) Plain,
    pub(crate) Want,
);

/// `op a`, and what is wanted of it.
#[derive(Clone, Copy, Debug)]
pub(crate) struct OfOne(pub(crate) TokenKind, pub(crate) Plain, pub(crate) Want);

/// The place of the first row that comes to something else. An error is want of memory.
pub(crate) fn first_wrong_of_two<J: Judge>(
    alloc: Global,
    judge: &mut J,
    rows: &[OfTwo],
) -> Result<Option<usize>, NoMemory> {
    for (place, row) in rows.iter().enumerate() {
        let outcome = of_two(alloc, judge, row.1, typed(row.0), typed(row.2))?;
        if !is_wanted(&outcome, row.3) {
            return Ok(Some(place));
        }
    }
    Ok(None)
}

/// The place of the first row that comes to something else. An error is want of memory.
pub(crate) fn first_wrong_of_one<J: Judge>(
    alloc: Global,
    judge: &mut J,
    rows: &[OfOne],
) -> Result<Option<usize>, NoMemory> {
    for (place, row) in rows.iter().enumerate() {
        let outcome = of_one(alloc, judge, row.0, typed(row.1))?;
        if !is_wanted(&outcome, row.2) {
            return Ok(Some(place));
        }
    }
    Ok(None)
}

/// Whether it came to that.
pub(crate) fn is_wanted(outcome: &Outcome, want: Want) -> bool {
    match (outcome, want) {
        (Outcome::Found(rec), Want::Is(plain)) => is_constant(rec, typed(plain)),
        (Outcome::Broken(rule, spots), Want::Breaks(broken, spot)) => {
            *rule == broken && spots.as_slice() == [spot].as_slice()
        }
        _ => false,
    }
}

fn is_constant(rec: &Rec, wanted: (Basic, Value)) -> bool {
    rec.mode == Mode::Const
        && matches!(rec.ty, Some(Term::Basic(b)) if b == wanted.0)
        && rec.value == Some(wanted.1)
}
