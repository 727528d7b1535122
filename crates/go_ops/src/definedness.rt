// What operators are defined on, and what of it is built (Go specification, "Arithmetic operators", "Logical
// operators", "Integer operators").
ghost use Rattle.std.specs.Prelude.{◌≡◌, ◌||◌};
ghost use Rattle.std.specs.Option.{option_map};
ghost use Rattle.go_num.specs.Arithmetic.{divides_by_zero};
ghost use Rattle.go_judge.specs.Operands as operands;
ghost use Rattle.go_judge.specs.Records.{rec_view};
ghost use Rattle.go_constructs.specs.Operators.Constants as constants;
ghost use Rattle.go_constructs.specs.Operators.Operations as spec;
ghost use Rattle.go_constructs.specs.declared.operator.Operation.TheVariants as operations;

use crate::constants::constant_in;
use crate::modes::{is_constant, is_value};
use crate::sort_kinds::{is_boolean, is_integer, is_numeric, is_text};
use go_constructs::{Operation, Sort};
use go_judge::Rec;
use go_num::{IntOp, Value};

/// Whether U0 stands at no operation with this operand, which has that sort.
pub(crate) fn is_built(r: &Rec, s: Sort) -> bool
    ensures { result ≡ spec.is_built (rec_view r.now) s }
{
    !(is_value(r.mode) && (is_interface(s) || (is_untyped(s) && !is_constant(r.mode))))
}

fn is_untyped(s: Sort) -> bool
    ensures { result ≡ spec.is_untyped s }
{
    matches!(s, Sort::Untyped(_))
}

fn is_interface(s: Sort) -> bool
    ensures { result ≡ spec.is_interface s }
{
    matches!(s, Sort::Interface)
}

/// Whether an operator is defined on types of this sort.
pub(crate) fn is_defined_on(op: Operation, s: Sort) -> bool
    ensures { result ≡ spec.is_defined_on op s }
{
    match op {
        Operation::Arithmetic(op) => has_arithmetic(op, s),
        Operation::And => is_boolean(s),
        Operation::Or => is_boolean(s),
    }
}

fn has_arithmetic(op: IntOp, s: Sort) -> bool
    ensures { result ≡ spec.is_defined_on (operations.Arithmetic op) s }
{
    match op {
        IntOp::Add => is_numeric(s) || is_text(s),
        IntOp::Sub => is_numeric(s),
        IntOp::Mul => is_numeric(s),
        IntOp::Quo => is_numeric(s),
        IntOp::Rem => is_integer(s),
        IntOp::And => is_integer(s),
        IntOp::Or => is_integer(s),
        IntOp::Xor => is_integer(s),
        IntOp::AndNot => is_integer(s),
    }
}

/// Whether an operation divides an integer, or a constant, by a constant zero.
pub(crate) fn is_by_zero(op: Operation, x: &Rec, y: &Rec, s: Sort) -> bool
    ensures { result ≡ spec.is_by_zero op (rec_view x.now) (rec_view y.now) s }
{
    has_zero(op, y) && is_exact(x, s)
}

// Whether the second operand is a constant by which there is no quotient.
fn has_zero(op: Operation, y: &Rec) -> bool
    ensures { result ≡ spec.has_no_quotient op (constants.constant_in (rec_view y.now)) }
{
    has_no_quotient(op, constant_in(y))
}

// Whether a constant divisor must not be zero: of integers, and of constants.
fn is_exact(x: &Rec, s: Sort) -> bool
    ensures { result ≡ (spec.is_integer s || operands.is_constant (rec_view x.now)) }
{
    is_integer(s) || is_constant(x.mode)
}

fn has_no_quotient(op: Operation, v: Option<&Value>) -> bool
    ensures { result ≡ spec.has_no_quotient op (option_map (λ v. v.now) v.entry) }
{
    match op {
        Operation::Arithmetic(op) => has_no_integer(op, v),
        Operation::And => false,
        Operation::Or => false,
    }
}

fn has_no_integer(op: IntOp, v: Option<&Value>) -> bool
    ensures { result ≡ spec.has_no_quotient (operations.Arithmetic op) (option_map (λ v. v.now) v.entry) }
{
    match v {
        Some(Value::Int(b)) => divides_by_zero(op, *b),
        Some(Value::Bool(_)) => false,
        Some(Value::Text(_)) => false,
        None => false,
    }
}

fn divides_by_zero(op: IntOp, b: i128) -> bool
    ensures { result ≡ divides_by_zero op b }
{
    match op {
        IntOp::Quo => b == 0,
        IntOp::Rem => b == 0,
        IntOp::Add => false,
        IntOp::Sub => false,
        IntOp::Mul => false,
        IntOp::And => false,
        IntOp::Or => false,
        IntOp::Xor => false,
        IntOp::AndNot => false,
    }
}
