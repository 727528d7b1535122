// For which string a text stands (Go specification, "String literals").
ghost use Rattle.std.specs.Prelude.{◌≡◌, ◌≤◌, ◌<◌, false, length, slice_range, IfOk, IfSome, IfNone};
ghost use Rattle.go_scan.specs.StringTexts.{are_escapes, is_string, string_of};

use crate::characters::byte_at;
use crate::escapes::escape;
use crate::values::{inside, text_value};
use go_base::{Bytes, NoMemory};
use std::alloc::Global;

/// The string for which a text stands: of a string literal its value. None exactly where the text is empty, or begins
/// with no back quote and between its first and its last byte a backslash begins no escape; no string literal is so.
/// An error is want of memory (Go specification, "String literals").
pub fn string_of(alloc: Global, text: &[u8]) -> Result<Option<Bytes>, NoMemory>
    ensures { IfOk result (λ found. found ≡ string_of text.now) }
{
    if !is_string(text) {
        return Ok(None);
    }
    let value = text_value(alloc, text)?;
    Ok(Some(value))
}

// The text begins with a back quote, or is not empty and each backslash inside begins an escape.
fn is_string(text: &[u8]) -> bool
    ensures { result ≡ is_string text.now }
{
    !text.is_empty() && (text[0] == b'`' || are_escapes(inside(text)))
}

// Each backslash begins an escape of an interpreted string.
fn are_escapes(inside: &[u8]) -> bool
    ensures { result ≡ are_escapes 0 inside.now }
{
    let mut at = 0;
    while at < inside.len() {
        match behind_character(inside, at) {
            None => return false,
            Some(to) => at = to,
        }
    }
    true
}

// The offset behind the byte or the escape at `at`; None at a backslash that begins no escape.
fn behind_character(inside: &[u8], at: usize) -> Option<usize>
    requires { at < length inside.now }
    ensures within { IfSome result (λ to. (at < to) × (to ≤ length inside.now)) }
    ensures some { IfSome result (λ to. are_escapes 0 (slice_range inside.now at (length inside.now)) ≡ are_escapes 0 (slice_range inside.now to (length inside.now))) }
    ensures none { IfNone result (are_escapes 0 (slice_range inside.now at (length inside.now)) ≡ false) }
{
    if byte_at(inside, at) != b'\\' {
        return Some(at + 1);
    }
    escape(inside, at + 1, b'"').ok()
}
