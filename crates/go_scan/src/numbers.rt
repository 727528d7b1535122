// Number literals (Go specification, "Integer literals", "Floating-point literals", "Imaginary literals").
ghost use Rattle.std.specs.Prelude.{◌≡◌, ℕ, ◌+◌, ◌<◌, ◌≤◌, ◌||◌, true, length, slice_index, slice_range};
ghost use Rattle.go_tree.specs.Lexical.Numbers.{begins_number, is_hexadecimal, IsNumberRun, number_kind, is_int_lit, is_behind_zero, is_float_lit, is_imaginary_lit, is_digits, is_decimal};

use crate::characters::byte_at;
use crate::digits::{Base, is_digits, is_digits_behind_prefix};
use crate::floats::is_float_lit;
use crate::runs::{Test, is_either, run_end};
use go_tree::TokenKind;

/// Whether a number begins at an offset.
pub(crate) fn begins_number(bytes: &[u8], at: usize) -> bool
    ensures { result ≡ begins_number bytes.now at }
{
    match byte_at(bytes, at) {
        b'.' => byte_at(bytes, at.saturating_add(1)).is_ascii_digit(),
        first => first.is_ascii_digit(),
    }
}

/// The number that runs from the byte `from` on: the kind of its literal, where it is one, and the offset behind it.
pub(crate) fn number(bytes: &[u8], from: usize) -> (Option<TokenKind>, usize)
    requires { begins_number bytes.now from ≡ true }
    ensures run { IsNumberRun bytes.now from result.1 }
    ensures longest { (n : ℕ) → IsNumberRun bytes.now from n → n ≤ result.1 }
    ensures within { (from < result.1) × (result.1 ≤ length bytes.now) }
    ensures kind { result.0 ≡ number_kind (slice_range bytes.now from result.1) }
    ensures point { slice_index bytes.now from ≡ 46 → from + 2 ≤ result.1 }
{
    let to = run_end(bytes, from + 1, Test::Number(is_hexadecimal(bytes, from)));
    (number_kind(&bytes[from..to]), to)
}

// Whether `0x` or `0X` stands at an offset.
fn is_hexadecimal(bytes: &[u8], at: usize) -> bool
    requires { at < length bytes.now }
    ensures { result ≡ is_hexadecimal bytes.now at }
{
    byte_at(bytes, at) == b'0' && is_either(b'x', byte_at(bytes, at + 1))
}

// The kind of the literal that a text is, where it is one.
fn number_kind(text: &[u8]) -> Option<TokenKind>
    ensures { result ≡ number_kind text.now }
{
    if is_int_lit(text) {
        Some(TokenKind::Int)
    } else if is_float_lit(text) || is_imaginary_lit(text) {
        Some(TokenKind::Float)
    } else {
        None
    }
}

fn is_int_lit(text: &[u8]) -> bool
    ensures { result ≡ is_int_lit text.now }
{
    match text {
        [b'0', rest @ ..] => is_behind_zero(rest),
        _ => is_digits(Base::Decimal, text),
    }
}

// Whether a text makes an integer literal behind a `0`.
fn is_behind_zero(text: &[u8]) -> bool
    ensures { result ≡ is_behind_zero text.now }
{
    match text {
        [] => true,
        [b'b' | b'B', rest @ ..] => is_digits_behind_prefix(Base::Binary, rest),
        [b'o' | b'O', rest @ ..] => is_digits_behind_prefix(Base::Octal, rest),
        [b'x' | b'X', rest @ ..] => is_digits_behind_prefix(Base::Hex, rest),
        _ => is_digits_behind_prefix(Base::Octal, text),
    }
}

fn is_imaginary_lit(text: &[u8]) -> bool
    ensures { result ≡ is_imaginary_lit text.now }
{
    let front = text.len().saturating_sub(1);
    byte_at(text, front) == b'i' && is_before_i(&text[..front])
}

// Whether a text makes an imaginary literal before an `i`.
fn is_before_i(text: &[u8]) -> bool
    ensures { result ≡ (is_digits is_decimal text.now || (is_int_lit text.now || is_float_lit text.now)) }
{
    is_digits(Base::Decimal, text) || is_int_lit(text) || is_float_lit(text)
}
