// Which rules hold of constants by how they fit their types (Go specification, "Representability").
ghost use Rattle.std.specs.Prelude.{◌≡◌};
ghost use Rattle.go_constructs.specs.Operators.Representable as spec;

use go_constructs::Fit;

/// Whether R8 holds of a constant that fits so.
pub(crate) fn not_overflows(fit: Fit) -> bool
    ensures { result ≡ spec.not_overflows fit }
{
    !matches!(fit, Fit::Overflows)
}

/// Whether U9 holds of a constant that fits so.
pub(crate) fn not_unkept(fit: Fit) -> bool
    ensures { result ≡ spec.not_unkept fit }
{
    !matches!(fit, Fit::Unkept)
}
