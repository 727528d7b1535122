// Floating-point literals (Go specification).
ghost use Rattle.std.specs.Prelude.{◌≡◌, ◌&&◌, ◌||◌};
ghost use Rattle.go_tree.specs.Lexical.Numbers.{is_float_lit, is_hex_float_lit, is_behind_whole, is_mantissa, is_exponent, is_signed_digits, digit_front, behind_digits, is_empty};
ghost use Rattle.go_scan.specs.Digits.{is_digit_of, is_whole_of, exponent_letter, may_lack_exponent};

use crate::digits::{Base, digit_front_len, is_digits, is_digits_behind_prefix};
use crate::runs::is_either;

/// Whether a text is a floating-point literal.
pub(crate) fn is_float_lit(text: &[u8]) -> bool
    ensures { result ≡ is_float_lit text.now }
{
    is_float_in(Base::Decimal, text) || is_hex_float_lit(text)
}

fn is_hex_float_lit(text: &[u8]) -> bool
    ensures { result ≡ is_hex_float_lit text.now }
{
    match text {
        [b'0', b'x' | b'X', rest @ ..] => is_float_in(Base::Hex, rest),
        _ => false,
    }
}

// Whether a text is a floating-point literal in a base, behind the prefix.
fn is_float_in(base: Base, text: &[u8]) -> bool
    ensures { result ≡ is_behind_whole (is_whole_of base) (is_digit_of base) (exponent_letter base) (may_lack_exponent base) (digit_front (is_digit_of base) text.now) (behind_digits (is_digit_of base) text.now) }
{
    let (whole, behind) = split_digits(base, text);
    match behind {
        [b'.', rest @ ..] => is_behind_point(base, whole, rest),
        _ => is_whole(base, whole) && is_exponent(base, behind),
    }
}

// Whether a fraction and the end or an exponent stand behind an integer part and a point.
fn is_behind_point(base: Base, whole: &[u8], text: &[u8]) -> bool
    ensures { result ≡ (is_mantissa (is_whole_of base) (is_digit_of base) whole.now (digit_front (is_digit_of base) text.now) && (is_exponent (exponent_letter base) (behind_digits (is_digit_of base) text.now) || (may_lack_exponent base && is_empty (behind_digits (is_digit_of base) text.now)))) }
{
    let (fraction, behind) = split_digits(base, text);
    is_mantissa(base, whole, fraction)
        && (is_exponent(base, behind) || (may_lack_exponent(base) && is_empty(behind)))
}

// Whether an integer part and a fraction stand around a point.
fn is_mantissa(base: Base, whole: &[u8], fraction: &[u8]) -> bool
    ensures { result ≡ is_mantissa (is_whole_of base) (is_digit_of base) whole.now fraction.now }
{
    match (is_empty(whole), is_empty(fraction)) {
        (true, true) => false,
        (true, false) => is_digits(base, fraction),
        (false, true) => is_whole(base, whole),
        (false, false) => is_whole(base, whole) && is_digits(base, fraction),
    }
}

fn is_exponent(base: Base, text: &[u8]) -> bool
    ensures { result ≡ is_exponent (exponent_letter base) text.now }
{
    match text {
        [first, rest @ ..] => is_either(exponent_letter(base), *first) && is_signed_digits(rest),
        [] => false,
    }
}

fn is_signed_digits(text: &[u8]) -> bool
    ensures { result ≡ is_signed_digits text.now }
{
    match text {
        [b'+' | b'-', rest @ ..] => is_digits(Base::Decimal, rest),
        _ => is_digits(Base::Decimal, text),
    }
}

// Whether a text is the integer part of a floating-point literal in a base.
fn is_whole(base: Base, text: &[u8]) -> bool
    ensures { result ≡ is_whole_of base text.now }
{
    match base {
        Base::Hex => is_digits_behind_prefix(base, text),
        _ => is_digits(base, text),
    }
}

// The letter that opens an exponent.
fn exponent_letter(base: Base) -> u8
    ensures { result ≡ exponent_letter base }
{
    match base {
        Base::Hex => b'p',
        _ => b'e',
    }
}

// Whether a floating-point literal may lack an exponent behind its point.
fn may_lack_exponent(base: Base) -> bool
    ensures { result ≡ may_lack_exponent base }
{
    !matches!(base, Base::Hex)
}

fn is_empty(text: &[u8]) -> bool
    ensures { result ≡ is_empty text.now }
{
    matches!(text, [])
}

// The front of a text that is digits and `_`, and what stands behind it.
fn split_digits(base: Base, text: &[u8]) -> (&[u8], &[u8])
    ensures front { result.0.now ≡ digit_front (is_digit_of base) text.now }
    ensures behind { result.1.now ≡ behind_digits (is_digit_of base) text.now }
{
    text.split_at(digit_front_len(base, text))
}
