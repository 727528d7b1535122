// Binary and unary operators (Go specification, "Operators").
ghost use Rattle.std.specs.Prelude.{◌≡◌, Some, IfOk, IfSome, IsSome, map, option_and_then};
ghost use Rattle.std.specs.List.{AllByRecursion};
ghost use Rattle.go_constructs.specs.Operators.Binary as binaries;
ghost use Rattle.go_constructs.specs.Operators.Honest.{GivesHonest, IsHonest};
ghost use Rattle.go_constructs.specs.Operators.Nodes as spec;
ghost use Rattle.go_constructs.specs.Operators.Unary as unaries;
ghost use Rattle.go_constructs.specs.declared.operator.BinaryOp.{BinaryOp};
ghost use Rattle.go_constructs.specs.declared.operator.UnaryOp.{UnaryOp};
ghost use Rattle.go_judge.specs.Judged.{asked, judged};
ghost use Rattle.go_judge.specs.View.{outcome_as};
ghost use Rattle.go_judge.specs.Types.Own.{IsOwnOutcome, Keeps};
ghost use Rattle.go_expr.specs.Given.{AreOwnRecs, recs_as};
ghost use Rattle.go_expr.specs.Operator.{binary_node, unary_node};

use crate::given::{Given, first_records};
use go_base::NoMemory;
use go_model::{Judge, Outcome, Rec};
use go_ops::{binary, unary};
use go_tree::{NodeKind, TokenKind};
use std::alloc::Global;

/// An operator by the kind of its node and the outcomes of its operands: the rules of the operator by their records.
/// Another kind has nothing. It asks that the types of the constants among the operands represent them. An error is want
/// of memory.
pub fn operator<J: Judge>(
    alloc: Global,
    judge: &mut J,
    kind: NodeKind,
    outcomes: &[Outcome],
) -> Result<Outcome, NoMemory>
    requires own { AllByRecursion (IsOwnOutcome (J.is_type judge.old)) outcomes.now }
    requires honest { AllByRecursion (GivesHonest (J.headers judge.old))
        (map (outcome_as (J.tree judge.old)) outcomes.now) }
    ensures outcome { IfOk result (λ outcome. outcome_as (J.tree judge.new) outcome
        ≡ judged (J.headers judge.old) (spec.operator kind) (map (outcome_as (J.tree judge.old)) outcomes.now)) }
    ensures own { IfOk result (IsOwnOutcome (J.is_type judge.new)) }
    ensures keeps { Keeps (J.headers judge.old) (J.headers judge.new) (J.names judge.old) (J.names judge.new)
        (J.outcomes judge.old) (J.outcomes judge.new) (J.is_spent judge.old) (J.is_spent judge.new)
        (J.world judge.old) (J.world judge.new) (J.is_type judge.old) (J.is_type judge.new)
        (J.tree judge.old) (J.tree judge.new) }
{
    match (binary_token(kind), unary_token(kind)) {
        (Some(op), _) => binary_operator(alloc, judge, op, outcomes),
        (None, Some(op)) => unary_operator(alloc, judge, op, outcomes),
        (None, None) => Ok(Outcome::Nothing),
    }
}

/// The token of a binary operator, by the kind of its node; None where the node is no binary operator.
pub fn binary_token(kind: NodeKind) -> Option<TokenKind>
    ensures op { option_and_then binaries.binary_op result ≡ spec.binary_of kind }
    ensures some { IfSome result (λ token. IsSome (binaries.binary_op token)) }
{
    match kind {
        NodeKind::AddExpr => Some(TokenKind::Add),
        NodeKind::SubExpr => Some(TokenKind::Sub),
        NodeKind::MulExpr => Some(TokenKind::Mul),
        NodeKind::QuoExpr => Some(TokenKind::Quo),
        NodeKind::RemExpr => Some(TokenKind::Rem),
        NodeKind::AndExpr => Some(TokenKind::And),
        NodeKind::OrExpr => Some(TokenKind::Or),
        NodeKind::XorExpr => Some(TokenKind::Xor),
        NodeKind::AndNotExpr => Some(TokenKind::AndNot),
        NodeKind::LogicalAndExpr => Some(TokenKind::LogicalAnd),
        NodeKind::LogicalOrExpr => Some(TokenKind::LogicalOr),
        NodeKind::ShlExpr => Some(TokenKind::Shl),
        NodeKind::ShrExpr => Some(TokenKind::Shr),
        NodeKind::EqualExpr => Some(TokenKind::Equal),
        NodeKind::NotEqualExpr => Some(TokenKind::NotEqual),
        NodeKind::LessExpr => Some(TokenKind::Less),
        NodeKind::LessEqualExpr => Some(TokenKind::LessEqual),
        NodeKind::GreaterExpr => Some(TokenKind::Greater),
        NodeKind::GreaterEqualExpr => Some(TokenKind::GreaterEqual),
        _ => None,
    }
}

/// The token of a unary operator, by the kind of its node; None where the node is no unary operator that is built.
pub fn unary_token(kind: NodeKind) -> Option<TokenKind>
    ensures op { option_and_then unaries.unary_op result ≡ spec.unary_of kind }
    ensures some { IfSome result (λ token. IsSome (unaries.unary_op token)) }
{
    match kind {
        NodeKind::PlusExpr => Some(TokenKind::Add),
        NodeKind::MinusExpr => Some(TokenKind::Sub),
        NodeKind::ComplementExpr => Some(TokenKind::Xor),
        NodeKind::NotExpr => Some(TokenKind::Not),
        _ => None,
    }
}

// A binary operator, by the outcomes of its operands, the first two of these.
fn binary_operator<J: Judge>(
    alloc: Global,
    judge: &mut J,
    op: TokenKind,
    outcomes: &[Outcome],
) -> Result<Outcome, NoMemory>
    requires op { IsSome (binaries.binary_op op) }
    requires own { AllByRecursion (IsOwnOutcome (J.is_type judge.old)) outcomes.now }
    requires honest { AllByRecursion (GivesHonest (J.headers judge.old))
        (map (outcome_as (J.tree judge.old)) outcomes.now) }
    ensures outcome { IfOk result (λ outcome. (o : BinaryOp) → binaries.binary_op op ≡ Some o
        → outcome_as (J.tree judge.new) outcome
        ≡ judged (J.headers judge.old) (binary_node o) (map (outcome_as (J.tree judge.old)) outcomes.now)) }
    ensures own { IfOk result (IsOwnOutcome (J.is_type judge.new)) }
    ensures keeps { Keeps (J.headers judge.old) (J.headers judge.new) (J.names judge.old) (J.names judge.new)
        (J.outcomes judge.old) (J.outcomes judge.new) (J.is_spent judge.old) (J.is_spent judge.new)
        (J.world judge.old) (J.world judge.new) (J.is_type judge.old) (J.is_type judge.new)
        (J.tree judge.old) (J.tree judge.new) }
{
    match first_records(alloc, judge, outcomes, 2)? {
        Given::All(recs) => binary_of_records(alloc, judge, op, &recs),
        Given::First(d) => Ok(Outcome::Waits(d)),
        Given::Gone => Ok(Outcome::Nothing),
    }
}

// A binary operator, by the records of its operands, which are two.
fn binary_of_records<J: Judge>(
    alloc: Global,
    judge: &mut J,
    op: TokenKind,
    recs: &[&Rec],
) -> Result<Outcome, NoMemory>
    requires op { IsSome (binaries.binary_op op) }
    requires own { AreOwnRecs (J.is_type judge.old) recs.now }
    requires honest { AllByRecursion (IsHonest (J.headers judge.old)) (recs_as (J.tree judge.old) recs.now) }
    ensures outcome { IfOk result (λ outcome. (o : BinaryOp) → binaries.binary_op op ≡ Some o
        → outcome_as (J.tree judge.new) outcome
        ≡ asked (J.headers judge.old) ((binary_node o).asks (recs_as (J.tree judge.old) recs.now))) }
    ensures own { IfOk result (IsOwnOutcome (J.is_type judge.new)) }
    ensures keeps { Keeps (J.headers judge.old) (J.headers judge.new) (J.names judge.old) (J.names judge.new)
        (J.outcomes judge.old) (J.outcomes judge.new) (J.is_spent judge.old) (J.is_spent judge.new)
        (J.world judge.old) (J.world judge.new) (J.is_type judge.old) (J.is_type judge.new)
        (J.tree judge.old) (J.tree judge.new) }
{
    match recs {
        [a, b] => binary(alloc, judge, op, a, b),
        _ => Ok(Outcome::Nothing),
    }
}

// A unary operator, by the outcome of its operand, the first of these.
fn unary_operator<J: Judge>(
    alloc: Global,
    judge: &mut J,
    op: TokenKind,
    outcomes: &[Outcome],
) -> Result<Outcome, NoMemory>
    requires op { IsSome (unaries.unary_op op) }
    requires own { AllByRecursion (IsOwnOutcome (J.is_type judge.old)) outcomes.now }
    requires honest { AllByRecursion (GivesHonest (J.headers judge.old))
        (map (outcome_as (J.tree judge.old)) outcomes.now) }
    ensures outcome { IfOk result (λ outcome. (o : UnaryOp) → unaries.unary_op op ≡ Some o
        → outcome_as (J.tree judge.new) outcome
        ≡ judged (J.headers judge.old) (unary_node o) (map (outcome_as (J.tree judge.old)) outcomes.now)) }
    ensures own { IfOk result (IsOwnOutcome (J.is_type judge.new)) }
    ensures keeps { Keeps (J.headers judge.old) (J.headers judge.new) (J.names judge.old) (J.names judge.new)
        (J.outcomes judge.old) (J.outcomes judge.new) (J.is_spent judge.old) (J.is_spent judge.new)
        (J.world judge.old) (J.world judge.new) (J.is_type judge.old) (J.is_type judge.new)
        (J.tree judge.old) (J.tree judge.new) }
{
    match first_records(alloc, judge, outcomes, 1)? {
        Given::All(recs) => unary_of_records(alloc, judge, op, &recs),
        Given::First(d) => Ok(Outcome::Waits(d)),
        Given::Gone => Ok(Outcome::Nothing),
    }
}

// A unary operator, by the record of its operand, which is one.
fn unary_of_records<J: Judge>(
    alloc: Global,
    judge: &mut J,
    op: TokenKind,
    recs: &[&Rec],
) -> Result<Outcome, NoMemory>
    requires op { IsSome (unaries.unary_op op) }
    requires own { AreOwnRecs (J.is_type judge.old) recs.now }
    requires honest { AllByRecursion (IsHonest (J.headers judge.old)) (recs_as (J.tree judge.old) recs.now) }
    ensures outcome { IfOk result (λ outcome. (o : UnaryOp) → unaries.unary_op op ≡ Some o
        → outcome_as (J.tree judge.new) outcome
        ≡ asked (J.headers judge.old) ((unary_node o).asks (recs_as (J.tree judge.old) recs.now))) }
    ensures own { IfOk result (IsOwnOutcome (J.is_type judge.new)) }
    ensures keeps { Keeps (J.headers judge.old) (J.headers judge.new) (J.names judge.old) (J.names judge.new)
        (J.outcomes judge.old) (J.outcomes judge.new) (J.is_spent judge.old) (J.is_spent judge.new)
        (J.world judge.old) (J.world judge.new) (J.is_type judge.old) (J.is_type judge.new)
        (J.tree judge.old) (J.tree judge.new) }
{
    match recs {
        [a] => unary(alloc, judge, op, a, false),
        _ => Ok(Outcome::Nothing),
    }
}
