// Whether types represent constants (Go specification, "Representability", "Numeric types").
ghost use Rattle.std.specs.Prelude.{◌≡◌, IfOk};
ghost use Rattle.go_judge.specs.Types.Own.{Keeps};
ghost use Rattle.go_judge.specs.Quests.{run};
ghost use Rattle.go_ops.specs.AskedSorts.{represents_as};
ghost use Rattle.go_constructs.specs.Operators.Representable as spec;
ghost use Rattle.go_constructs.specs.declared.sort.Sort.TheVariants as sorts;

use crate::sorts::{AskedSort, sort_of};
use go_base::NoMemory;
use go_constructs::{Fit, FloatType, Sort};
use go_judge::Forms;
use go_module::ObjId;
use go_num::{IntType, MOST_TEXT, NumKind, Value, fits};
use go_term::Ty;
use std::alloc::Global;

/// How a constant fits a type; Unknown with the first header that the underlying type lacks.
#[derive(Clone, Copy, Debug, PartialEq, Eq)]
pub enum Represents {
    Is(Fit),
    Unknown(ObjId),
}

/// How a constant fits a type: a type represents it exactly where it fits. An error is want of memory.
pub fn representable<F: Forms>(
    alloc: Global,
    judge: &mut F,
    v: &Value,
    t: &Ty,
) -> Result<Represents, NoMemory>
    requires { F.is_type judge.old t.now }
    ensures fit { IfOk result (λ fit. represents_as fit
        ≡ run (F.headers judge.old) (spec.representable v.now (F.tree judge.old t.now))) }
    ensures keeps { Keeps (F.headers judge.old) (F.headers judge.new) (F.names judge.old) (F.names judge.new)
        (F.outcomes judge.old) (F.outcomes judge.new) (F.is_spent judge.old) (F.is_spent judge.new)
        (F.world judge.old) (F.world judge.new) (F.is_type judge.old) (F.is_type judge.new)
        (F.tree judge.old) (F.tree judge.new) }
{
    match sort_of(alloc, judge, t)? {
        AskedSort::Is(sort) => Ok(Represents::Is(fit_of(v, sort))),
        AskedSort::Unknown(d) => Ok(Represents::Unknown(d)),
    }
}

/// How a constant fits a type of this sort (Go specification, "Representability").
pub fn fit_of(v: &Value, sort: Sort) -> Fit
    ensures { result ≡ spec.fit_of v.now sort }
{
    match v {
        Value::Bool(_) => fit_of_truth(sort),
        Value::Int(number) => fit_of_integer(*number, sort),
        Value::Text(text) => fit_of_text(text.as_slice().len(), sort),
    }
}

// A truth value.
fn fit_of_truth(sort: Sort) -> Fit
    ensures { result ≡ spec.fit_of_truth sort }
{
    match sort {
        Sort::Untyped(kind) => fit_of_truth_untyped(kind),
        Sort::Bool => Fit::Fits,
        Sort::Int(_) => Fit::Differs,
        Sort::Float(_) => Fit::Differs,
        Sort::Text => Fit::Differs,
        Sort::Interface => Fit::Differs,
        Sort::Other => Fit::Differs,
    }
}

fn fit_of_truth_untyped(kind: NumKind) -> Fit
    ensures { result ≡ spec.fit_of_truth (sorts.Untyped kind) }
{
    match kind {
        NumKind::Bool => Fit::Fits,
        NumKind::Int => Fit::Differs,
        NumKind::Rune => Fit::Differs,
        NumKind::Text => Fit::Differs,
        NumKind::Nil => Fit::Differs,
    }
}

// An integer.
fn fit_of_integer(v: i128, sort: Sort) -> Fit
    ensures { result ≡ spec.fit_of_integer v sort }
{
    match sort {
        Sort::Untyped(kind) => fit_of_integer_untyped(v, kind),
        Sort::Int(t) => fit_in(v, t),
        Sort::Float(f) => fit_kept(v, f),
        Sort::Bool => Fit::Differs,
        Sort::Text => Fit::Differs,
        Sort::Interface => Fit::Differs,
        Sort::Other => Fit::Differs,
    }
}

// An untyped one, which has 128 bits.
fn fit_of_integer_untyped(v: i128, kind: NumKind) -> Fit
    ensures { result ≡ spec.fit_of_integer v (sorts.Untyped kind) }
{
    let _v = v;
    match kind {
        NumKind::Int => Fit::Fits,
        NumKind::Rune => Fit::Fits,
        NumKind::Bool => Fit::Differs,
        NumKind::Text => Fit::Differs,
        NumKind::Nil => Fit::Differs,
    }
}

fn fit_in(v: i128, t: IntType) -> Fit
    ensures { result ≡ spec.fit_of_integer v (sorts.Int t) }
{
    if fits(v, t) {
        Fit::Fits
    } else {
        Fit::Overflows
    }
}

fn fit_kept(v: i128, f: FloatType) -> Fit
    ensures { result ≡ spec.fit_of_integer v (sorts.Float f) }
{
    if is_kept(v, f) {
        Fit::Fits
    } else {
        Fit::Unkept
    }
}

// Whether a float type has the number without rounding, together with all smaller ones.
fn is_kept(v: i128, f: FloatType) -> bool
    ensures { result ≡ spec.is_kept v f }
{
    v.unsigned_abs() <= most_kept(f)
}

fn most_kept(f: FloatType) -> u128
    ensures { result ≡ spec.most_kept f }
{
    match f {
        FloatType::Float32 => 0x100_0000,
        FloatType::Float64 => 0x20_0000_0000_0000,
    }
}

// A string of so many bytes.
fn fit_of_text(length: usize, sort: Sort) -> Fit
    ensures { result ≡ spec.fit_of_text length sort }
{
    match sort {
        Sort::Untyped(kind) => fit_of_text_untyped(length, kind),
        Sort::Text => fit_long(length),
        Sort::Bool => Fit::Differs,
        Sort::Int(_) => Fit::Differs,
        Sort::Float(_) => Fit::Differs,
        Sort::Interface => Fit::Differs,
        Sort::Other => Fit::Differs,
    }
}

fn fit_of_text_untyped(length: usize, kind: NumKind) -> Fit
    ensures { result ≡ spec.fit_of_text length (sorts.Untyped kind) }
{
    match kind {
        NumKind::Text => fit_long(length),
        NumKind::Bool => Fit::Differs,
        NumKind::Int => Fit::Differs,
        NumKind::Rune => Fit::Differs,
        NumKind::Nil => Fit::Differs,
    }
}

fn fit_long(length: usize) -> Fit
    ensures { result ≡ spec.fit_of_text length sorts.Text }
{
    if length <= MOST_TEXT {
        Fit::Fits
    } else {
        Fit::Long
    }
}
