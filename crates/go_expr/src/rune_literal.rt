// What rune literals stand for (Go specification, "Rune literals").
ghost use Rattle.std.specs.Prelude.{◌≡◌, pos, ◌∷◌, IfOk};
ghost use Rattle.bstr.specs.Utf8.{decoded, or_replacement};
ghost use Rattle.go_num.specs.Arithmetic.{limited};
ghost use Rattle.go_tree.specs.Lexical.LiteralValues.{code_point_of, escape_value, inside_of, int_lit_value, rune_lit_value, simple_value};

use bstr::decode_utf8;
use go_base::NoMemory;
use go_scan::int_lit_value;
use std::alloc::Global;

/// The value for which the text of a rune literal stands, and any text; None exactly where it is above 2^127-1. An error
/// is want of memory.
pub fn rune_value(alloc: Global, text: &[u8]) -> Result<Option<i128>, NoMemory>
    ensures { IfOk result (λ value. value ≡ limited (pos (rune_lit_value text.now))) }
{
    code_point(alloc, inside(text))
}

// What stands between the quotes of a literal; of a shorter text nothing.
fn inside(text: &[u8]) -> &[u8]
    ensures { result.now ≡ inside_of text.now }
{
    if text.len() < 2 {
        return &[];
    }
    &text[1..text.len() - 1]
}

// The value of what stands between the quotes: of an escape, or of the first character.
fn code_point(alloc: Global, inside: &[u8]) -> Result<Option<i128>, NoMemory>
    ensures { IfOk result (λ value. value ≡ limited (pos (code_point_of inside.now))) }
{
    match inside {
        [] => Ok(Some(0)),
        [b'\\', escape @ ..] => escape_value(alloc, escape),
        _ => Ok(small(first_character(inside))),
    }
}

// The code point of the first character, and that of the replacement character where none begins there.
fn first_character(text: &[u8]) -> u32
    ensures { result ≡ or_replacement (decoded text.now).char }
{
    match decode_utf8(text) {
        (Some(c), _) => c as u32,
        (None, _) => 0xFFFD,
    }
}

// The value of an escape, by what stands behind its backslash.
fn escape_value(alloc: Global, text: &[u8]) -> Result<Option<i128>, NoMemory>
    ensures { IfOk result (λ value. value ≡ limited (pos (escape_value text.now))) }
{
    match text {
        [] => Ok(Some(0)),
        [b'x' | b'u' | b'U', digits @ ..] => number(alloc, b'x', digits),
        [b'0'..=b'7', ..] => number(alloc, b'o', text),
        [e, ..] => Ok(small(u32::from(simple_value(*e)))),
    }
}

// The number that digits write, by the mark of their base.
fn number(alloc: Global, mark: u8, digits: &[u8]) -> Result<Option<i128>, NoMemory>
    ensures { IfOk result (λ value. value ≡ limited (pos (int_lit_value (48 ∷ (mark ∷ digits.now))))) }
{
    let mut text = Vec::new(alloc);
    text.push(b'0')?;
    text.push(mark)?;
    text.extend_from_slice(digits)?;
    Ok(int_lit_value(&text))
}

// What a simple escape stands for.
fn simple_value(e: u8) -> u8
    ensures { result ≡ simple_value e }
{
    match e {
        b'a' => 7,
        b'b' => 8,
        b'f' => 12,
        b'n' => 10,
        b'r' => 13,
        b't' => 9,
        b'v' => 11,
        _ => e,
    }
}

// A value that is within the limits.
fn small(value: u32) -> Option<i128>
    ensures { result ≡ limited (pos value) }
{
    Some(i128::from(value))
}
