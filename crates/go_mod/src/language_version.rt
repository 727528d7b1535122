// The go directive of go.mod (Go modules reference, "go directive").
ghost use Rattle.std.specs.Prelude.{◌≡◌, ◌≤◌, ◌&&◌, nat_le, length, slice_index};
ghost use Rattle.std.specs.Char.{is_ascii_digit};
ghost use Rattle.std.specs.List.{after_first, list_all, position_or_len, prefix_len};
ghost use Rattle.std.specs.Option.{option_copied};
ghost use Rattle.go_mod.specs.LanguageVersion.{is_dot, is_number, major, minor, behind_minor, is_patch, is_version, go_version, is_1_21};

use crate::module_lines::{argument, first_word, is_text};

/// The version of a good go line: `go`, blanks, and a version; None where the line is no such line.
pub(crate) fn go_version(line: &[u8]) -> Option<&[u8]>
    ensures { option_copied result ≡ go_version line.now }
{
    let version = argument(line);
    if is_text(first_word(line), b"go") && is_version(version) {
        Some(version)
    } else {
        None
    }
}

/// Whether the first two numbers of a version are 1 and 21.
pub(crate) fn is_1_21(version: &[u8]) -> bool
    ensures { result ≡ is_1_21 version.now }
{
    is_text(major(version), b"1") && is_text(minor(version), b"21")
}

fn is_version(text: &[u8]) -> bool
    ensures { result ≡ is_version text.now }
{
    is_number(major(text)) && is_number(minor(text)) && is_patch(behind_minor(text))
}

// The first number, before the first dot.
fn major(version: &[u8]) -> &[u8]
    ensures { result.now ≡ major version.now }
{
    &version[..dot_at(version)]
}

// The second number: the digits behind that dot.
fn minor(version: &[u8]) -> &[u8]
    ensures { result.now ≡ minor version.now }
{
    let rest = behind_major(version);
    &rest[..digits_len(rest)]
}

fn behind_minor(version: &[u8]) -> &[u8]
    ensures { result.now ≡ behind_minor version.now }
{
    let rest = behind_major(version);
    &rest[digits_len(rest)..]
}

fn behind_major(version: &[u8]) -> &[u8]
    ensures { result.now ≡ after_first is_dot version.now }
{
    let dot = dot_at(version);
    if dot < version.len() {
        &version[dot + 1..]
    } else {
        &version[dot..]
    }
}

// How many bytes stand before the first dot.
fn dot_at(version: &[u8]) -> usize
    ensures at { result ≡ position_or_len is_dot version.now }
    ensures within { result ≤ length version.now }
{
    version.iter().take_while(|byte| **byte != b'.').count()
}

// How many digits the text begins with.
fn digits_len(text: &[u8]) -> usize
    ensures len { result ≡ prefix_len is_ascii_digit text.now }
    ensures within { result ≤ length text.now }
{
    text.iter().take_while(|byte| byte.is_ascii_digit()).count()
}

fn is_patch(text: &[u8]) -> bool
    ensures { result ≡ is_patch text.now }
{
    text.is_empty()
        || (text.starts_with(b".") && is_number(&text[1..]))
        || (text.starts_with(b"rc") && is_number(&text[2..]))
}

fn is_number(text: &[u8]) -> bool
    ensures { result ≡ is_number text.now }
{
    is_text(text, b"0") || (begins_high(text) && has_digits(text))
}

fn has_digits(text: &[u8]) -> bool
    ensures { result ≡ list_all is_ascii_digit text.now }
{
    text.iter().all(|byte| byte.is_ascii_digit())
}

// Whether the first byte is a digit from 1 to 9.
fn begins_high(text: &[u8]) -> bool
    ensures { result ≡ (nat_le 49 (slice_index text.now 0) && nat_le (slice_index text.now 0) 57) }
{
    match text {
        [] => false,
        [first, ..] => b'1' <= *first && *first <= b'9',
    }
}
