// Which operator a token is.
use go_num::{CmpOp, IntOp, UnOp};
use go_ops::{BinaryOp, Operation, Sign, UnaryOp, binary_op, unary_op};
use go_tree::TokenKind;
use std::test::Fail;

#[test]
fn binary_operators(rt: HostRuntime) -> Result<(), Fail> {
    let rows = [
        (
            TokenKind::Quo,
            Some(BinaryOp::Operates(Operation::Arithmetic(IntOp::Quo))),
        ),
        (
            TokenKind::AndNot,
            Some(BinaryOp::Operates(Operation::Arithmetic(IntOp::AndNot))),
        ),
        (
            TokenKind::LogicalOr,
            Some(BinaryOp::Operates(Operation::Or)),
        ),
        (TokenKind::Shr, Some(BinaryOp::Shifts(false))),
        (TokenKind::GreaterEqual, Some(BinaryOp::Compares(CmpOp::Ge))),
        (TokenKind::Not, None),
        (TokenKind::AddAssign, None),
    ];
    for (token, op) in rows {
        assert_eq!(rt; binary_op(token), op);
    }
    Ok(())
}

#[test]
fn unary_operators(rt: HostRuntime) -> Result<(), Fail> {
    let rows = [
        (
            TokenKind::Sub,
            Some(UnaryOp::Signs(Sign::Number(UnOp::Minus))),
        ),
        (TokenKind::Not, Some(UnaryOp::Signs(Sign::Not))),
        (TokenKind::And, Some(UnaryOp::Address)),
        (TokenKind::Arrow, Some(UnaryOp::Receives)),
        (TokenKind::Quo, None),
    ];
    for (token, op) in rows {
        assert_eq!(rt; unary_op(token), op);
    }
    Ok(())
}
