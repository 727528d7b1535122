// Unary operators on integer constants (Go specification, "Arithmetic operators", "Constant expressions").
ghost use Rattle.std.specs.Prelude.{◌≡◌, IfSome, IsTrue};
ghost use Rattle.go_num.specs.Arithmetic.{unary_result};
ghost use Rattle.go_num.specs.Ranges.{fits};

use crate::arithmetic::NumFault;
use crate::bits::xor;
use crate::ranges::{IntType, all_ones};

/// A unary operator on an integer.
#[derive(Clone, Copy, Debug, PartialEq, Eq)]
pub enum UnOp {
    /// `+`
    Plus,
    /// `-`
    Minus,
    /// `^`
    Not,
}

/// The exact value of `op a`, where a has that type, or is untyped; Wide exactly where it is outside -2^127 to 2^127-1.
/// `^` of an unsigned type flips the bits of the type alone.
pub fn int_unary(op: UnOp, a: i128, of: Option<IntType>) -> Result<i128, NumFault>
    requires { IfSome of (λ t. IsTrue (fits a t)) }
    ensures { result ≡ unary_result op of a }
{
    match op {
        UnOp::Plus => Ok(a),
        UnOp::Minus => 0_i128.checked_sub(a).ok_or(NumFault::Wide),
        UnOp::Not => Ok(xor(all_ones(of), a)),
    }
}
