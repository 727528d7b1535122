// Comparisons of constants (Go specification, "Comparison operators").
ghost use Rattle.std.specs.Prelude.{◌≡◌};
ghost use Rattle.go_num.specs.Comparisons.{compared, ints_compared, texts_compared};

use std::cmp::Ordering;

/// A comparison operator.
#[derive(Clone, Copy, Debug, PartialEq, Eq)]
pub enum CmpOp {
    /// `==`
    Eq,
    /// `!=`
    Ne,
    /// `<`
    Lt,
    /// `<=`
    Le,
    /// `>`
    Gt,
    /// `>=`
    Ge,
}

/// Whether `a op b` holds.
pub fn int_compare(op: CmpOp, a: i128, b: i128) -> bool
    ensures { result ≡ ints_compared op a b }
{
    holds(op, a.cmp(&b))
}

/// Whether `a op b` holds, byte by byte: the first bytes that differ decide, else the lengths.
pub fn text_compare(op: CmpOp, a: &[u8], b: &[u8]) -> bool
    ensures { result ≡ texts_compared op a.now b.now }
{
    holds(op, a.cmp(b))
}

// Whether it holds of operands that are so ordered.
fn holds(op: CmpOp, order: Ordering) -> bool
    ensures { result ≡ compared op order }
{
    match op {
        CmpOp::Eq => order.is_eq(),
        CmpOp::Ne => order.is_ne(),
        CmpOp::Lt => order.is_lt(),
        CmpOp::Le => order.is_le(),
        CmpOp::Gt => order.is_gt(),
        CmpOp::Ge => order.is_ge(),
    }
}
