// What operators are defined on, by what they see of types (Go specification, "Arithmetic operators", "Logical
// operators", "Constants").
ghost use Rattle.std.specs.Prelude.{◌≡◌};
ghost use Rattle.go_constructs.specs.Operators.Matching as matching;
ghost use Rattle.go_constructs.specs.Operators.Operations as operators;

use go_constructs::Sort;
use go_num::NumKind;

/// Whether it is the kind of an untyped number.
pub(crate) fn is_number(kind: NumKind) -> bool
    ensures { result ≡ matching.is_number kind }
{
    matches!(kind, NumKind::Int | NumKind::Rune)
}

/// Whether it is numeric.
pub(crate) fn is_numeric(sort: Sort) -> bool
    ensures { result ≡ operators.is_numeric sort }
{
    match sort {
        Sort::Untyped(kind) => is_number(kind),
        Sort::Int(_) | Sort::Float(_) => true,
        Sort::Bool | Sort::Text | Sort::Interface | Sort::Other => false,
    }
}

/// Whether it is that of integers.
pub fn is_integer(sort: Sort) -> bool
    ensures { result ≡ operators.is_integer sort }
{
    match sort {
        Sort::Untyped(kind) => is_number(kind),
        Sort::Int(_) => true,
        Sort::Float(_) | Sort::Bool | Sort::Text | Sort::Interface | Sort::Other => false,
    }
}

/// Whether it is that of strings.
pub(crate) fn is_text(sort: Sort) -> bool
    ensures { result ≡ operators.is_text sort }
{
    matches!(sort, Sort::Untyped(NumKind::Text) | Sort::Text)
}

/// Whether it is that of truth values.
pub(crate) fn is_boolean(sort: Sort) -> bool
    ensures { result ≡ operators.is_boolean sort }
{
    matches!(sort, Sort::Untyped(NumKind::Bool) | Sort::Bool)
}
