// Binary operators (Go specification, "Operators").
ghost use Rattle.std.specs.Prelude.{◌≡◌, Some, IfOk, IsSome};
ghost use Rattle.go_judge.specs.Judged.{asked};
ghost use Rattle.go_judge.specs.Records.{rec_as};
ghost use Rattle.go_judge.specs.View.{outcome_as};
ghost use Rattle.go_judge.specs.Types.Own.{IsOwnOutcome, IsOwnRec, Keeps};
ghost use Rattle.go_constructs.specs.Operators.Binary as spec;
ghost use Rattle.go_constructs.specs.Operators.Binary.{binary_op};
ghost use Rattle.go_constructs.specs.Operators.Honest.{GivesHonest, IsHonest};
ghost use Rattle.go_constructs.specs.declared.operator.BinaryOp.{BinaryOp as Op};
ghost use Rattle.go_constructs.specs.declared.operator.BinaryOp.TheVariants as ops;
ghost use Rattle.go_constructs.specs.declared.operator.Operation.TheVariants as operations;

use crate::comparison::comparison;
use crate::operation::operation;
use crate::shift::shift;
use go_base::NoMemory;
use go_constructs::{BinaryOp, Operation};
use go_judge::{Judge, Outcome, Rec};
use go_num::{CmpOp, IntOp};
use go_tree::TokenKind;
use std::alloc::Global;

/// The binary operator that a token is, None where it is none.
pub fn binary_op(token: TokenKind) -> Option<BinaryOp>
    ensures { result ≡ binary_op token }
{
    match token {
        TokenKind::Add => Some(arithmetic(IntOp::Add)),
        TokenKind::Sub => Some(arithmetic(IntOp::Sub)),
        TokenKind::Mul => Some(arithmetic(IntOp::Mul)),
        TokenKind::Quo => Some(arithmetic(IntOp::Quo)),
        TokenKind::Rem => Some(arithmetic(IntOp::Rem)),
        TokenKind::And => Some(arithmetic(IntOp::And)),
        TokenKind::Or => Some(arithmetic(IntOp::Or)),
        TokenKind::Xor => Some(arithmetic(IntOp::Xor)),
        TokenKind::AndNot => Some(arithmetic(IntOp::AndNot)),
        TokenKind::LogicalAnd => Some(BinaryOp::Operates(Operation::And)),
        TokenKind::LogicalOr => Some(BinaryOp::Operates(Operation::Or)),
        TokenKind::Shl => Some(BinaryOp::Shifts(true)),
        TokenKind::Shr => Some(BinaryOp::Shifts(false)),
        TokenKind::Equal => Some(BinaryOp::Compares(CmpOp::Eq)),
        TokenKind::NotEqual => Some(BinaryOp::Compares(CmpOp::Ne)),
        TokenKind::Less => Some(BinaryOp::Compares(CmpOp::Lt)),
        TokenKind::LessEqual => Some(BinaryOp::Compares(CmpOp::Le)),
        TokenKind::Greater => Some(BinaryOp::Compares(CmpOp::Gt)),
        TokenKind::GreaterEqual => Some(BinaryOp::Compares(CmpOp::Ge)),
        _ => None,
    }
}

fn arithmetic(op: IntOp) -> BinaryOp
    ensures { result ≡ ops.Operates (operations.Arithmetic op) }
{
    BinaryOp::Operates(Operation::Arithmetic(op))
}

/// What `x op y` comes to by the records of x and y: its record, or the first of the operator's rules that it breaks,
/// and where, or the first header that it waits for. It asks for a token that is a binary operator, and for records
/// whose constants their types represent. An error is want of memory; the judge is as before, also on an error.
pub fn binary<J: Judge>(
    alloc: Global,
    judge: &mut J,
    op: TokenKind,
    a: &Rec,
    b: &Rec,
) -> Result<Outcome, NoMemory>
    requires op { IsSome (binary_op op) }
    requires first { IsOwnRec (J.is_type judge.old) a.now }
    requires second { IsOwnRec (J.is_type judge.old) b.now }
    requires honest_first { IsHonest (J.headers judge.old) (rec_as (J.tree judge.old) a.now) }
    requires honest_second { IsHonest (J.headers judge.old) (rec_as (J.tree judge.old) b.now) }
    ensures outcome { IfOk result (λ outcome. (o : Op) → binary_op op ≡ Some o → outcome_as (J.tree judge.new) outcome
        ≡ asked (J.headers judge.old)
        (Some (spec.binary o (rec_as (J.tree judge.old) a.now) (rec_as (J.tree judge.old) b.now)))) }
    ensures honest { IfOk result (λ outcome.
        GivesHonest (J.headers judge.old) (outcome_as (J.tree judge.new) outcome)) }
    ensures own { IfOk result (IsOwnOutcome (J.is_type judge.new)) }
    ensures keeps { Keeps (J.headers judge.old) (J.headers judge.new) (J.names judge.old) (J.names judge.new)
        (J.outcomes judge.old) (J.outcomes judge.new) (J.is_spent judge.old) (J.is_spent judge.new)
        (J.world judge.old) (J.world judge.new) (J.is_type judge.old) (J.is_type judge.new)
        (J.tree judge.old) (J.tree judge.new) }
{
    match binary_op(op) {
        Some(op) => by_operator(alloc, judge, op, a, b),
        None => unreachable!(),
    }
}

// By the operator.
fn by_operator<J: Judge>(
    alloc: Global,
    judge: &mut J,
    op: BinaryOp,
    a: &Rec,
    b: &Rec,
) -> Result<Outcome, NoMemory>
    requires first { IsOwnRec (J.is_type judge.old) a.now }
    requires second { IsOwnRec (J.is_type judge.old) b.now }
    requires honest_first { IsHonest (J.headers judge.old) (rec_as (J.tree judge.old) a.now) }
    requires honest_second { IsHonest (J.headers judge.old) (rec_as (J.tree judge.old) b.now) }
    ensures outcome { IfOk result (λ outcome. outcome_as (J.tree judge.new) outcome
        ≡ asked (J.headers judge.old)
        (Some (spec.binary op (rec_as (J.tree judge.old) a.now) (rec_as (J.tree judge.old) b.now)))) }
    ensures own { IfOk result (IsOwnOutcome (J.is_type judge.new)) }
    ensures keeps { Keeps (J.headers judge.old) (J.headers judge.new) (J.names judge.old) (J.names judge.new)
        (J.outcomes judge.old) (J.outcomes judge.new) (J.is_spent judge.old) (J.is_spent judge.new)
        (J.world judge.old) (J.world judge.new) (J.is_type judge.old) (J.is_type judge.new)
        (J.tree judge.old) (J.tree judge.new) }
{
    match op {
        BinaryOp::Operates(op) => operation(alloc, judge, op, a, b),
        BinaryOp::Compares(op) => comparison(alloc, judge, op, a, b),
        BinaryOp::Shifts(left) => shift(alloc, judge, left, a, b),
    }
}
