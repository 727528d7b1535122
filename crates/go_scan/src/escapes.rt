// Escapes in rune and string literals (Go specification, "Rune literals").
ghost use Rattle.std.specs.Prelude.{◌≡◌, ◌≤◌, ◌<◌, ◌+◌, ◌-◌, ◌^◌, ℕ, true, length, slice_index, slice_range, IfOk, IfErr};
ghost use Rattle.go_tree.specs.Lexical.Numbers.{is_hex};
ghost use Rattle.go_tree.specs.Lexical.Literals.{digit_value, is_simple_escape, IsCharacter};
ghost use Rattle.go_scan.specs.Escapes.{base_in, base_of, count_of, is_escape_digit, is_value_of, AreDigits, IsEscape, IsQuote, NoCharacter, Stops};

use crate::characters::{byte_at, char_at, is_allowed};
use crate::digits::{self, Base, digit_value, size_of_base};

/// The digits of an escape: `\377`, `\xFF`, `\u00FF`, `\U000000FF`.
#[derive(Clone, Copy, Debug, PartialEq, Eq)]
pub(crate) enum Digits {
    Octal,
    Byte,
    Little,
    Big,
}

// The base of the digits.
fn base_in(kind: Digits) -> Base
    ensures { result ≡ base_in kind }
{
    match kind {
        Digits::Octal => Base::Octal,
        Digits::Byte | Digits::Little | Digits::Big => Base::Hex,
    }
}

pub(crate) fn base(kind: Digits) -> u64
    ensures { result ≡ base_of kind }
{
    u64::from(size_of_base(base_in(kind)))
}

// One more than the greatest number that as many digits write.
fn places(kind: Digits) -> u64
    ensures { result ≡ base_of kind ^ count_of kind }
{
    match kind {
        Digits::Octal => 512,
        Digits::Byte => 256,
        Digits::Little => 65_536,
        Digits::Big => 4_294_967_296,
    }
}

pub(crate) fn is_digit(kind: Digits, byte: u8) -> bool
    ensures { result ≡ is_escape_digit kind byte }
{
    digits::is_digit(base_in(kind), byte)
}

// The digits may write this number: a byte, or a code point that is no surrogate.
fn is_value(kind: Digits, value: u64) -> bool
    ensures { result ≡ is_value_of kind value }
{
    match kind {
        Digits::Octal => value <= 255,
        Digits::Byte => true,
        Digits::Little | Digits::Big => value < 0xD800 || (0xDFFF < value && value < 0x11_0000),
    }
}

// The digits of an escape from `from` on: Ok with the offset behind them, or Err with the offset
// of the first that does not fit.
fn read_digits(bytes: &[u8], from: usize, kind: Digits) -> Result<usize, usize>
    requires { from ≤ length bytes.now }
    ensures whole { IfOk result (λ to. AreDigits kind (slice_range bytes.now from to)) }
    ensures within { IfOk result (λ to. (from < to) × (to ≤ length bytes.now)) }
    ensures stops { IfErr result (λ at. Stops (AreDigits kind) bytes.now from at) }
{
    let mut at = from;
    let mut unit = places(kind);
    let mut least = 0; // what the digits write, completed by zeros
    while unit > 1 {
        let byte = byte_at(bytes, at);
        if !is_digit(kind, byte) {
            return Err(at);
        }
        unit /= base(kind);
        let next = least + u64::from(digit_value(byte)) * unit;
        if !is_value(kind, next) {
            return Err(at);
        }
        least = next;
        at += 1;
    }
    Ok(at)
}

/// One character of a literal from `at` on: Ok with the offset behind it, or Err with the offset
/// up to which one could go on.
pub(crate) fn character(bytes: &[u8], at: usize, quote: u8) -> Result<usize, usize>
    requires quote { IsQuote quote }
    requires within { at ≤ length bytes.now }
    ensures whole { IfOk result (λ to. IsCharacter quote bytes.now at to) }
    ensures within { IfOk result (λ to. (at < to) × (to ≤ length bytes.now)) }
    ensures none { IfErr result (λ stuck. NoCharacter quote bytes.now at stuck) }
{
    let byte = byte_at(bytes, at);
    if byte == b'\\' {
        return escape(bytes, at + 1, quote);
    }
    if byte == quote || byte == b'\n' {
        return Err(at);
    }
    match char_at(bytes, at) {
        None => Err(at),
        Some((c, size)) => {
            if is_allowed(c) {
                Ok(at + size)
            } else {
                Err(at)
            }
        }
    }
}

/// An escape whose backslash stands before `from`: Ok with the offset behind it, or Err with the
/// offset of the first byte that does not fit.
pub(crate) fn escape(bytes: &[u8], from: usize, quote: u8) -> Result<usize, usize>
    requires quote { IsQuote quote }
    requires within { from ≤ length bytes.now }
    ensures whole { IfOk result (λ to. IsEscape quote (slice_range bytes.now from to)) }
    ensures within { IfOk result (λ to. (from < to) × (to ≤ length bytes.now)) }
    ensures stops { IfErr result (λ at. Stops (IsEscape quote) bytes.now from at) }
{
    let e = byte_at(bytes, from);
    if is_simple(e, quote) {
        return Ok(from + 1);
    }
    if is_digit(Digits::Octal, e) {
        return read_digits(bytes, from, Digits::Octal);
    }
    if e == b'x' {
        return read_digits(bytes, from + 1, Digits::Byte);
    }
    if e == b'u' {
        return read_digits(bytes, from + 1, Digits::Little);
    }
    if e == b'U' {
        return read_digits(bytes, from + 1, Digits::Big);
    }
    Err(from)
}

fn is_simple(e: u8, quote: u8) -> bool
    ensures { result ≡ is_simple_escape quote e }
{
    e == quote || matches!(e, b'a' | b'b' | b'f' | b'n' | b'r' | b't' | b'v' | b'\\')
}
