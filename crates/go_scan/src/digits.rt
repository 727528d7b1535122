// Digits (Go specification, "Integer literals").
ghost use Rattle.std.specs.Prelude.{◌≡◌, length};
ghost use Rattle.go_tree.specs.Lexical.Numbers.{is_digits, is_digits_behind_prefix, digit_front};
ghost use Rattle.go_tree.specs.Lexical.Literals.{digit_value};
ghost use Rattle.go_scan.specs.Digits.{is_digit_of, size_of_base};

/// A base that numbers are written in.
#[derive(Clone, Copy, Debug, PartialEq, Eq)]
pub(crate) enum Base {
    /// 2
    Binary,
    /// 8
    Octal,
    /// 10
    Decimal,
    /// 16
    Hex,
}

/// How many digits a base has.
pub(crate) fn size_of_base(base: Base) -> u8
    ensures { result ≡ size_of_base base }
{
    match base {
        Base::Binary => 2,
        Base::Octal => 8,
        Base::Decimal => 10,
        Base::Hex => 16,
    }
}

pub(crate) fn is_digit(base: Base, byte: u8) -> bool
    ensures { result ≡ is_digit_of base byte }
{
    match base {
        Base::Binary => matches!(byte, b'0'..=b'1'),
        Base::Octal => matches!(byte, b'0'..=b'7'),
        Base::Decimal => byte.is_ascii_digit(),
        Base::Hex => byte.is_ascii_hexdigit(),
    }
}

/// What a digit of a base up to 16 counts.
pub(crate) fn digit_value(byte: u8) -> u8
    ensures { result ≡ digit_value byte }
{
    if byte <= b'9' {
        byte.saturating_sub(b'0')
    } else if byte <= b'F' {
        byte - (b'A' - 10)
    } else {
        byte.saturating_sub(b'a' - 10)
    }
}

/// Whether a text is digits, with at most one `_` between two of them.
pub(crate) fn is_digits(base: Base, text: &[u8]) -> bool
    ensures { result ≡ is_digits (is_digit_of base) text.now }
{
    let mut behind_digit = false;
    for byte in text {
        if behind_digit && *byte == b'_' {
            behind_digit = false;
        } else if is_digit(base, *byte) {
            behind_digit = true;
        } else {
            return false;
        }
    }
    behind_digit
}

/// Whether a text is digits, with a `_` before them or not.
pub(crate) fn is_digits_behind_prefix(base: Base, text: &[u8]) -> bool
    ensures { result ≡ is_digits_behind_prefix (is_digit_of base) text.now }
{
    match text {
        [b'_', rest @ ..] => is_digits(base, rest),
        _ => is_digits(base, text),
    }
}

/// How many bytes at the front of a text are digits or `_`.
pub(crate) fn digit_front_len(base: Base, text: &[u8]) -> usize
    ensures { result ≡ length (digit_front (is_digit_of base) text.now) }
{
    text.iter()
        .take_while(|byte| is_digit(base, **byte) || **byte == b'_')
        .count()
}
