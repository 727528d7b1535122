// Unary operators (Go specification, "Operators").
ghost use Rattle.std.specs.Prelude.{◌≡◌, Some, IfOk, IsSome};
ghost use Rattle.go_judge.specs.Judged.{asked};
ghost use Rattle.go_judge.specs.Records.{rec_as};
ghost use Rattle.go_judge.specs.View.{outcome_as};
ghost use Rattle.go_judge.specs.Types.Own.{IsOwnOutcome, IsOwnRec, Keeps};
ghost use Rattle.go_constructs.specs.Operators.Honest.{GivesHonest, IsHonest};
ghost use Rattle.go_constructs.specs.Operators.Unary as spec;
ghost use Rattle.go_constructs.specs.Operators.Unary.{unary_op};
ghost use Rattle.go_constructs.specs.declared.operator.UnaryOp.{UnaryOp as Op};

use crate::channels::receive;
use crate::pointers::{address, indirection};
use crate::sign::sign;
use go_base::NoMemory;
use go_constructs::{Sign, UnaryOp};
use go_judge::{Judge, Outcome, Rec};
use go_num::UnOp;
use go_tree::TokenKind;
use std::alloc::Global;

/// The unary operator that a token is, None where it is none.
pub fn unary_op(token: TokenKind) -> Option<UnaryOp>
    ensures { result ≡ unary_op token }
{
    match token {
        TokenKind::Add => Some(UnaryOp::Signs(Sign::Number(UnOp::Plus))),
        TokenKind::Sub => Some(UnaryOp::Signs(Sign::Number(UnOp::Minus))),
        TokenKind::Xor => Some(UnaryOp::Signs(Sign::Number(UnOp::Not))),
        TokenKind::Not => Some(UnaryOp::Signs(Sign::Not)),
        TokenKind::And => Some(UnaryOp::Address),
        TokenKind::Mul => Some(UnaryOp::Indirects),
        TokenKind::Arrow => Some(UnaryOp::Receives),
        _ => None,
    }
}

/// What `op x` comes to by the record of x, where it is said whether x is a composite literal, parentheses aside: its
/// record, or the first of the operator's rules that it breaks, and where, or the first header that it waits for. It
/// asks for a token that is a unary operator, and for a record whose constant its type represents. An error is want of
/// memory; the judge is as before, also on an error.
pub fn unary<J: Judge>(
    alloc: Global,
    judge: &mut J,
    op: TokenKind,
    a: &Rec,
    literal: bool,
) -> Result<Outcome, NoMemory>
    requires op { IsSome (unary_op op) }
    requires first { IsOwnRec (J.is_type judge.old) a.now }
    requires honest_first { IsHonest (J.headers judge.old) (rec_as (J.tree judge.old) a.now) }
    ensures outcome { IfOk result (λ outcome. (o : Op) → unary_op op ≡ Some o → outcome_as (J.tree judge.new) outcome
        ≡ asked (J.headers judge.old) (Some (spec.unary o literal (rec_as (J.tree judge.old) a.now)))) }
    ensures honest { IfOk result (λ outcome.
        GivesHonest (J.headers judge.old) (outcome_as (J.tree judge.new) outcome)) }
    ensures own { IfOk result (IsOwnOutcome (J.is_type judge.new)) }
    ensures keeps { Keeps (J.headers judge.old) (J.headers judge.new) (J.names judge.old) (J.names judge.new)
        (J.outcomes judge.old) (J.outcomes judge.new) (J.is_spent judge.old) (J.is_spent judge.new)
        (J.world judge.old) (J.world judge.new) (J.is_type judge.old) (J.is_type judge.new)
        (J.tree judge.old) (J.tree judge.new) }
{
    match unary_op(op) {
        Some(op) => by_operator(alloc, judge, op, a, literal),
        None => unreachable!(),
    }
}

// By the operator.
fn by_operator<J: Judge>(
    alloc: Global,
    judge: &mut J,
    op: UnaryOp,
    a: &Rec,
    literal: bool,
) -> Result<Outcome, NoMemory>
    requires first { IsOwnRec (J.is_type judge.old) a.now }
    requires honest_first { IsHonest (J.headers judge.old) (rec_as (J.tree judge.old) a.now) }
    ensures outcome { IfOk result (λ outcome. outcome_as (J.tree judge.new) outcome
        ≡ asked (J.headers judge.old) (Some (spec.unary op literal (rec_as (J.tree judge.old) a.now)))) }
    ensures own { IfOk result (IsOwnOutcome (J.is_type judge.new)) }
    ensures keeps { Keeps (J.headers judge.old) (J.headers judge.new) (J.names judge.old) (J.names judge.new)
        (J.outcomes judge.old) (J.outcomes judge.new) (J.is_spent judge.old) (J.is_spent judge.new)
        (J.world judge.old) (J.world judge.new) (J.is_type judge.old) (J.is_type judge.new)
        (J.tree judge.old) (J.tree judge.new) }
{
    match op {
        UnaryOp::Signs(op) => sign(alloc, judge, op, a),
        UnaryOp::Address => address(alloc, judge, literal, a),
        UnaryOp::Indirects => indirection(alloc, judge, a),
        UnaryOp::Receives => receive(alloc, judge, a),
    }
}
