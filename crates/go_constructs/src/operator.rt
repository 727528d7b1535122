// Operators (Go specification, "Operators").
use go_num::{CmpOp, IntOp, UnOp};

/// A binary operator that is no comparison and no shift.
#[derive(Clone, Copy, Debug, PartialEq, Eq)]
pub enum Operation {
    /// one of numbers, or `+` of strings
    Arithmetic(IntOp),
    /// `&&`
    And,
    /// `||`
    Or,
}

/// A binary operator.
#[derive(Clone, Copy, Debug, PartialEq, Eq)]
pub enum BinaryOp {
    Operates(Operation),
    Compares(CmpOp),
    /// `<<`, or `>>`
    Shifts(bool),
}

/// A unary operator that gives a value of its operand's type.
#[derive(Clone, Copy, Debug, PartialEq, Eq)]
pub enum Sign {
    /// `+`, `-` and `^`
    Number(UnOp),
    /// `!`
    Not,
}

/// A unary operator.
#[derive(Clone, Copy, Debug, PartialEq, Eq)]
pub enum UnaryOp {
    Signs(Sign),
    /// `&`
    Address,
    /// `*`
    Indirects,
    /// `<-`
    Receives,
}
