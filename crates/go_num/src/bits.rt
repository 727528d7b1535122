// Bitwise operators on integer constants (Go specification, "Integer operators").
ghost use Rattle.std.specs.Prelude.{◌≡◌};
ghost use Rattle.go_num.specs.Bits.{and_not_value, and_value, or_value, xor_value};

/// `a & b`
pub(crate) fn and(a: i128, b: i128) -> i128
    ensures { result ≡ and_value a b }
{
    a & b
}

/// `a | b`
pub(crate) fn or(a: i128, b: i128) -> i128
    ensures { result ≡ or_value a b }
{
    a | b
}

/// `a ^ b`
pub(crate) fn xor(a: i128, b: i128) -> i128
    ensures { result ≡ xor_value a b }
{
    a ^ b
}

/// `a &^ b`
pub(crate) fn and_not(a: i128, b: i128) -> i128
    ensures { result ≡ and_not_value a b }
{
    a & !b
}
