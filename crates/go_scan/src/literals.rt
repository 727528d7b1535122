// Values of literals (Go specification, "Integer literals", "Rune literals", "String literals").
ghost use Rattle.std.specs.Prelude.{◌≡◌, ◌≤◌, ◌<◌, ◌^◌, ◌⊎◌, ◌↔◌, pos, IfOk, IsErrOf, IfSome, IfNone, length, slice_range};
ghost use Rattle.go_num.specs.Arithmetic.{limited};
ghost use Rattle.go_num.specs.Text.{most_text};
ghost use Rattle.go_tree.specs.Lexical.Literals.{number_in};
ghost use Rattle.go_tree.specs.Lexical.LiteralValues.{int_lit_value, value_behind_zero, string_lit_value};
ghost use Rattle.go_tree.specs.Lexical.Tokens.{IsToken};
ghost use Rattle.go_tree.specs.declared.token.TokenKind.TheVariants.{Int, Rune, Text};
ghost use Rattle.go_scan.specs.Digits.{size_of_base, next_number};
ghost use Rattle.go_tree.specs.Lexical.LiteralValues.{literal_number};

use crate::digits::{Base, digit_value, size_of_base};
use crate::values::{rune_value, string_len, string_value};
use go_base::Bytes;
use go_num::{MOST_TEXT, TextFault};
use go_tree::{Token, TokenKind};
use std::alloc::Global;

/// The value of an integer literal's text; None exactly where it is above 2^127-1.
pub fn int_lit_value(text: &[u8]) -> Option<i128>
    ensures { result ≡ limited (pos (int_lit_value text.now)) }
{
    match text {
        [] => Some(0),
        [b'0', rest @ ..] => value_behind_zero(rest),
        _ => number_in(Base::Decimal, text),
    }
}

/// The value of an integer or rune literal that stands in the bytes; None exactly where it is above
/// 2^127-1.
pub fn int_value(bytes: &[u8], token: Token) -> Option<i128>
    requires kind { (token.kind ≡ Int) ⊎ (token.kind ≡ Rune) }
    requires stands { IsToken bytes.now token.kind token.start token.end }
    requires within { token.end ≤ length bytes.now }
    ensures { result ≡ limited (pos (literal_number token.kind (slice_range bytes.now token.start token.end))) }
{
    let text = &bytes[token.start..token.end];
    match token.kind {
        TokenKind::Rune => Some(i128::from(rune_value(text))),
        _ => int_lit_value(text),
    }
}

/// The string of a string literal that stands in the bytes; LongText exactly where it has more than
/// `MOST_TEXT` bytes.
pub fn literal_text(alloc: Global, bytes: &[u8], token: Token) -> Result<Bytes, TextFault>
    requires kind { token.kind ≡ Text }
    requires stands { IsToken bytes.now token.kind token.start token.end }
    requires within { token.end ≤ length bytes.now }
    ensures value { IfOk result (λ text. text ≡ string_lit_value (slice_range bytes.now token.start token.end)) }
    ensures long { IsErrOf result TextFault.LongText ↔ (most_text < length (string_lit_value (slice_range bytes.now token.start token.end))) }
{
    if string_len(bytes, token.start, token.end) > MOST_TEXT {
        return Err(TextFault::LongText);
    }
    let text = string_value(alloc, bytes, token.start, token.end)?;
    Ok(text)
}

// The value of an integer literal that begins with `0`, by what stands behind it.
fn value_behind_zero(text: &[u8]) -> Option<i128>
    ensures { result ≡ limited (pos (value_behind_zero text.now)) }
{
    match text {
        [] => Some(0),
        [b'b' | b'B', rest @ ..] => number_in(Base::Binary, rest),
        [b'o' | b'O', rest @ ..] => number_in(Base::Octal, rest),
        [b'x' | b'X', rest @ ..] => number_in(Base::Hex, rest),
        _ => number_in(Base::Octal, text),
    }
}

// The number that digits write in a base; None exactly where it is above 2^127-1.
fn number_in(base: Base, digits: &[u8]) -> Option<i128>
    ensures { result ≡ limited (pos (number_in (size_of_base base) digits.now)) }
{
    i128::try_from(natural_in(base, digits)?).ok()
}

// The number that digits write in a base; None only where it is not below 2^128.
#[tactic(auto, using(crate::proofs::LiteralLemmas::number_in_more, crate::proofs::LiteralLemmas::number_in_more_le))]
fn natural_in(base: Base, digits: &[u8]) -> Option<u128>
    ensures value { IfSome result (λ n. n ≡ number_in (size_of_base base) digits.now) }
    ensures wide { IfNone result (2 ^ 128 ≤ number_in (size_of_base base) digits.now) }
{
    let mut value = 0;
    for byte in digits {
        value = with_digit(base, value, *byte)?;
    }
    Some(value)
}

// The number that one more digit writes; None only where it is not below 2^128.
fn with_digit(base: Base, value: u128, byte: u8) -> Option<u128>
    ensures value { IfSome result (λ n. n ≡ next_number (size_of_base base) value byte) }
    ensures wide { IfNone result (2 ^ 128 ≤ next_number (size_of_base base) value byte) }
{
    if byte == b'_' {
        return Some(value);
    }
    value
        .checked_mul(u128::from(size_of_base(base)))?
        .checked_add(u128::from(digit_value(byte)))
}
