// What operations on constants give (Go specification, "Constant expressions", "Arithmetic operators", "Logical
// operators", "String concatenation").
ghost use Rattle.std.specs.Prelude.{◌≡◌, ◌++◌, false, IfOk, int_rem, not, Some, true};
ghost use Rattle.std.specs.Option.{option_map};
ghost use Rattle.go_num.specs.Arithmetic.{binary_value, divides_by_zero, is_zero, limited};
ghost use Rattle.go_num.specs.declared.arithmetic.IntOp.TheVariants as ops;
ghost use Rattle.go_num.specs.declared.value.Value.TheVariants as values;
ghost use Rattle.go_judge.specs.Records.{rec_view};
ghost use Rattle.go_ops.specs.Limited.{IsGiven};
ghost use Rattle.go_constructs.specs.Operators.Operations as spec;
ghost use Rattle.go_constructs.specs.Operators.Operations.{fit_found, has_no_quotient, is_boolean, is_by_zero, is_numeric, is_text};
ghost use Rattle.go_constructs.specs.Operators.Representable.{fit_of, fit_of_integer, fit_of_truth};
ghost use Rattle.go_ops.specs.Stages.{are_of, both_divide, both_of, constant_of, fit_of_values, value_of_values};
ghost use Rattle.go_constructs.specs.declared.fit.Fit.TheVariants as fits;
ghost use Rattle.go_constructs.specs.declared.operator.Operation.TheVariants as operations;
ghost use Rattle.go_constructs.specs.declared.sort.Sort.TheVariants as sorts;

use crate::constants::constant_in;
use crate::limits::{Given, integer_given, no_value_given, none_given};
use go_base::{Bytes, NoMemory};
use go_constructs::{Fit, FloatType, Operation, Sort};
use go_judge::Rec;
use go_num::{IntOp, TextFault, Value, int_binary, join};
use std::alloc::Global;

/// What two operands give whose type has this sort, where both are constants: none divides by zero, and both are of the
/// kind of that sort. An error is want of memory.
pub(crate) fn calculated(
    alloc: Global,
    op: Operation,
    x: &Rec,
    y: &Rec,
    sort: Sort,
) -> Result<Given, NoMemory>
    requires kind { both_of (constant_of x.now) (constant_of y.now) sort ≡ true }
    requires divisor { is_by_zero op (rec_view x.now) (rec_view y.now) sort ≡ false }
    ensures { IfOk result (λ given. IsGiven given (spec.fit_of_both op (rec_view x.now) (rec_view y.now) sort)
        (spec.value_of op (rec_view x.now) (rec_view y.now) sort)) }
{
    let first = constant_in(x);
    let second = constant_in(y);
    of_constants(alloc, op, first, second, sort)
}

fn of_constants(
    alloc: Global,
    op: Operation,
    a: Option<&Value>,
    b: Option<&Value>,
    sort: Sort,
) -> Result<Given, NoMemory>
    requires kind { both_of (option_map (λ v. v.now) a) (option_map (λ v. v.now) b) sort ≡ true }
    requires divisor { both_divide op (option_map (λ v. v.now) a) (option_map (λ v. v.now) b) ≡ true }
    ensures { IfOk result (λ given. IsGiven given
        (fit_of_values op sort (option_map (λ v. v.now) a.entry) (option_map (λ v. v.now) b.entry))
        (value_of_values op sort (option_map (λ v. v.now) a.entry) (option_map (λ v. v.now) b.entry))) }
{
    match (a, b) {
        (Some(a), Some(b)) => of_values(alloc, op, a, b, sort),
        (Some(_), None) => Ok(none_given()),
        (None, Some(_)) => Ok(none_given()),
        (None, None) => Ok(none_given()),
    }
}

// Of two constants.
fn of_values(
    alloc: Global,
    op: Operation,
    a: &Value,
    b: &Value,
    sort: Sort,
) -> Result<Given, NoMemory>
    requires kind { are_of a.now b.now sort ≡ true }
    requires divisor { not (has_no_quotient op (Some b.now)) ≡ true }
    ensures { IfOk result (λ given. IsGiven given (fit_found (spec.of_values op sort a.now b.now) sort)
        (spec.of_values op sort a.now b.now)) }
{
    match op {
        Operation::Arithmetic(op) => arithmetic(alloc, op, a, b, sort),
        Operation::And => Ok(conjunction(a, b, sort)),
        Operation::Or => Ok(disjunction(a, b, sort)),
    }
}

// By an operator on numbers and strings.
fn arithmetic(alloc: Global, op: IntOp, a: &Value, b: &Value, sort: Sort) -> Result<Given, NoMemory>
    requires kind { are_of a.now b.now sort ≡ true }
    requires divisor { not (has_no_quotient (operations.Arithmetic op) (Some b.now)) ≡ true }
    ensures { IfOk result (λ given. IsGiven given (fit_found (spec.of_values (operations.Arithmetic op) sort a.now b.now) sort)
        (spec.of_values (operations.Arithmetic op) sort a.now b.now)) }
{
    match (a, b) {
        (Value::Int(a), Value::Int(b)) => Ok(of_numbers(op, *a, *b, sort)),
        (Value::Text(a), Value::Text(b)) => of_texts(alloc, op, a, b, sort),
        (Value::Int(_), Value::Text(_)) => Ok(no_value_given()),
        (Value::Int(_), Value::Bool(_)) => Ok(no_value_given()),
        (Value::Text(_), Value::Int(_)) => Ok(no_value_given()),
        (Value::Text(_), Value::Bool(_)) => Ok(no_value_given()),
        (Value::Bool(_), _) => Ok(no_value_given()),
    }
}

// Of numbers: an integer's quotient is truncated, a float's is exact.
fn of_numbers(op: IntOp, a: i128, b: i128, sort: Sort) -> Given
    requires kind { is_numeric sort ≡ true }
    requires divisor { divides_by_zero op b ≡ false }
    ensures { IsGiven result (fit_found (spec.of_numbers op sort a b) sort) (spec.of_numbers op sort a b) }
{
    match op {
        IntOp::Quo => quotient(a, b, sort),
        IntOp::Add => of_integers(op, a, b, sort),
        IntOp::Sub => of_integers(op, a, b, sort),
        IntOp::Mul => of_integers(op, a, b, sort),
        IntOp::Rem => of_integers(op, a, b, sort),
        IntOp::And => of_integers(op, a, b, sort),
        IntOp::Or => of_integers(op, a, b, sort),
        IntOp::Xor => of_integers(op, a, b, sort),
        IntOp::AndNot => of_integers(op, a, b, sort),
    }
}

fn quotient(a: i128, b: i128, sort: Sort) -> Given
    requires kind { is_numeric sort ≡ true }
    requires divisor { is_zero b ≡ false }
    ensures { IsGiven result (fit_found (spec.of_numbers ops.Quo sort a b) sort) (spec.of_numbers ops.Quo sort a b) }
{
    match sort {
        Sort::Float(f) => float_quotient(a, b, f),
        Sort::Untyped(_) => of_integers(IntOp::Quo, a, b, sort),
        Sort::Int(_) => of_integers(IntOp::Quo, a, b, sort),
        Sort::Bool => unreachable!(),
        Sort::Text => unreachable!(),
        Sort::Interface => unreachable!(),
        Sort::Other => unreachable!(),
    }
}

// Of a float type: a constant is a whole number.
fn float_quotient(a: i128, b: i128, f: FloatType) -> Given
    requires { is_zero b ≡ false }
    ensures { IsGiven result (fit_found (spec.of_numbers ops.Quo (sorts.Float f) a b) (sorts.Float f))
        (spec.of_numbers ops.Quo (sorts.Float f) a b) }
{
    if divides(a, b) {
        of_integers(IntOp::Quo, a, b, Sort::Float(f))
    } else {
        no_value_given()
    }
}

// Whether the quotient is a whole number.
fn divides(a: i128, b: i128) -> bool
    requires { is_zero b ≡ false }
    ensures { result ≡ is_zero (int_rem a b) }
{
    match int_binary(IntOp::Rem, a, b) {
        Ok(rest) => rest == 0,
        Err(_) => false,
    }
}

// Over whole numbers.
fn of_integers(op: IntOp, a: i128, b: i128, sort: Sort) -> Given
    requires kind { is_numeric sort ≡ true }
    requires divisor { divides_by_zero op b ≡ false }
    ensures { IsGiven result (fit_of_integer (binary_value op a b) sort) (Some (values.Int (binary_value op a b))) }
{
    integer_given(value_of(op, a, b), sort)
}

// The value, where it has at most 128 bits.
fn value_of(op: IntOp, a: i128, b: i128) -> Option<i128>
    requires { divides_by_zero op b ≡ false }
    ensures { result ≡ limited (binary_value op a b) }
{
    int_binary(op, a, b).ok()
}

// Of strings.
fn of_texts(alloc: Global, op: IntOp, a: &Bytes, b: &Bytes, sort: Sort) -> Result<Given, NoMemory>
    requires { is_text sort ≡ true }
    ensures { IfOk result (λ given. IsGiven given
        (fit_found (spec.of_values (operations.Arithmetic op) sort (values.Text a.now) (values.Text b.now)) sort)
        (spec.of_values (operations.Arithmetic op) sort (values.Text a.now) (values.Text b.now))) }
{
    match op {
        IntOp::Add => joined(alloc, a, b, sort),
        IntOp::Sub => Ok(no_value_given()),
        IntOp::Mul => Ok(no_value_given()),
        IntOp::Quo => Ok(no_value_given()),
        IntOp::Rem => Ok(no_value_given()),
        IntOp::And => Ok(no_value_given()),
        IntOp::Or => Ok(no_value_given()),
        IntOp::Xor => Ok(no_value_given()),
        IntOp::AndNot => Ok(no_value_given()),
    }
}

fn joined(alloc: Global, a: &Bytes, b: &Bytes, sort: Sort) -> Result<Given, NoMemory>
    requires { is_text sort ≡ true }
    ensures { IfOk result (λ given. IsGiven given (fit_of (values.Text (a.now ++ b.now)) sort)
        (Some (values.Text (a.now ++ b.now)))) }
{
    match join(alloc, a.as_slice(), b.as_slice()) {
        Ok(text) => Ok(text_given(text)),
        Err(TextFault::LongText) => Ok(long_given()),
        Err(TextFault::NoMemory) => Err(NoMemory),
    }
}

fn text_given(text: Bytes) -> Given
    ensures fit { result.fit ≡ fits.Fits }
    ensures value { result.value ≡ Some (values.Text text) }
{
    Given {
        fit: Fit::Fits,
        value: Some(Value::Text(text)),
    }
}

fn long_given() -> Given
    ensures { result.fit ≡ fits.Long }
{
    Given {
        fit: Fit::Long,
        value: None,
    }
}

// "&& conditional AND".
fn conjunction(a: &Value, b: &Value, sort: Sort) -> Given
    requires { are_of a.now b.now sort ≡ true }
    ensures { IsGiven result (fit_found (spec.of_values operations.And sort a.now b.now) sort)
        (spec.of_values operations.And sort a.now b.now) }
{
    match (a, b) {
        (Value::Bool(p), Value::Bool(q)) => truth_given(*p && *q, sort),
        (Value::Bool(_), Value::Int(_)) => no_value_given(),
        (Value::Bool(_), Value::Text(_)) => no_value_given(),
        (Value::Int(_), _) => no_value_given(),
        (Value::Text(_), _) => no_value_given(),
    }
}

// "|| conditional OR".
fn disjunction(a: &Value, b: &Value, sort: Sort) -> Given
    requires { are_of a.now b.now sort ≡ true }
    ensures { IsGiven result (fit_found (spec.of_values operations.Or sort a.now b.now) sort)
        (spec.of_values operations.Or sort a.now b.now) }
{
    match (a, b) {
        (Value::Bool(p), Value::Bool(q)) => truth_given(*p || *q, sort),
        (Value::Bool(_), Value::Int(_)) => no_value_given(),
        (Value::Bool(_), Value::Text(_)) => no_value_given(),
        (Value::Int(_), _) => no_value_given(),
        (Value::Text(_), _) => no_value_given(),
    }
}

fn truth_given(truth: bool, sort: Sort) -> Given
    requires { is_boolean sort ≡ true }
    ensures { IsGiven result (fit_of_truth sort) (Some (values.Bool truth)) }
{
    let _sort = sort;
    Given {
        fit: Fit::Fits,
        value: Some(Value::Bool(truth)),
    }
}
