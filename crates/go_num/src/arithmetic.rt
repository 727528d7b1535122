// Binary operators on integer constants (Go specification, "Arithmetic operators", "Constant expressions").
ghost use Rattle.std.specs.Prelude.{◌≡◌, IfOk};
ghost use Rattle.go_num.specs.Arithmetic.{binary_result};
ghost use Rattle.go_num.specs.Bits.{IsBitwise};
ghost use Rattle.go_num.specs.declared.arithmetic.IntOp.TheVariants as ops;

use crate::bits::{and, and_not, or, xor};

/// A binary operator on two integers.
#[derive(Clone, Copy, Debug, PartialEq, Eq)]
pub enum IntOp {
    /// `+`
    Add,
    /// `-`
    Sub,
    /// `*`
    Mul,
    /// `/`
    Quo,
    /// `%`
    Rem,
    /// `&`
    And,
    /// `|`
    Or,
    /// `^`
    Xor,
    /// `&^`
    AndNot,
}

/// Why an operation on constants has no value.
#[derive(Clone, Copy, Debug, PartialEq, Eq)]
pub enum NumFault {
    /// the value is outside -2^127 to 2^127-1
    Wide,
    /// the divisor is 0
    Zero,
    /// the count of a shift is negative, or above 2^64-1
    Count,
}

/// The exact value of `a op b`; Zero exactly where b is 0 in a quotient or a remainder, else Wide exactly where the
/// value is outside -2^127 to 2^127-1.
pub fn int_binary(op: IntOp, a: i128, b: i128) -> Result<i128, NumFault>
    ensures value { result ≡ binary_result op a b }
    ensures bits { IfOk result (λ v. IsBitwise op a b v) }
{
    match op {
        IntOp::Add => a.checked_add(b).ok_or(NumFault::Wide),
        IntOp::Sub => a.checked_sub(b).ok_or(NumFault::Wide),
        IntOp::Mul => a.checked_mul(b).ok_or(NumFault::Wide),
        IntOp::Quo => quotient(a, b),
        IntOp::Rem => remainder(a, b),
        IntOp::And => Ok(and(a, b)),
        IntOp::Or => Ok(or(a, b)),
        IntOp::Xor => Ok(xor(a, b)),
        IntOp::AndNot => Ok(and_not(a, b)),
    }
}

// The quotient, truncated towards zero.
fn quotient(a: i128, b: i128) -> Result<i128, NumFault>
    ensures { result ≡ binary_result ops.Quo a b }
{
    if b == 0 {
        return Err(NumFault::Zero);
    }
    a.checked_div(b).ok_or(NumFault::Wide)
}

// The remainder, which fits also where the quotient does not: that of -2^127 by -1 is 0.
fn remainder(a: i128, b: i128) -> Result<i128, NumFault>
    ensures { result ≡ binary_result ops.Rem a b }
{
    if b == 0 {
        return Err(NumFault::Zero);
    }
    Ok(a.wrapping_rem(b))
}
