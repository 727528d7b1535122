// How the value of a constant reads.
ghost use Rattle.std.specs.Prelude.{◌≡◌, ◌++◌, ◌<◌, IfOk, OnOk, take};
ghost use Rattle.std.specs.Fmt.{signed_decimal};
ghost use Rattle.std.specs.List.{flat_map};
ghost use Rattle.go_num.specs.Strings as strings;
ghost use Rattle.go_num.specs.TextOfValues as texts;

use crate::value::Value;
use go_base::{Bytes, NoMemory};
use std::alloc::{AllocError, Global};

/// Of a longer string only so many bytes are printed.
const MOST_PRINTED: usize = 64;

/// The text of a value: a truth value by its word, a whole number in decimal, a string in quotes, of which the bytes
/// past the first 64 are only counted. An error is want of memory.
pub fn value_text(alloc: Global, v: &Value) -> Result<Bytes, NoMemory>
    ensures { IfOk result (λ text. text ≡ texts.value_text v.now) }
{
    let text = match v {
        Value::Bool(truth) => truth_text(alloc, *truth)?,
        Value::Int(number) => number_text(alloc, *number)?,
        Value::Text(bytes) => string_text(alloc, bytes.as_slice())?,
    };
    Ok(Bytes::new(text))
}

fn truth_text(alloc: Global, truth: bool) -> Result<Vec<u8>, AllocError>
    ensures { IfOk result (λ text. text.items ≡ texts.truth_text truth) }
{
    if truth {
        b"true".to_vec(alloc)
    } else {
        b"false".to_vec(alloc)
    }
}

fn number_text(alloc: Global, number: i128) -> Result<Vec<u8>, AllocError>
    ensures { IfOk result (λ text. text.items ≡ signed_decimal number) }
{
    let text = format!(in alloc; "{number}")?;
    Ok(text.into_bytes())
}

// A string in quotes, and how many of its bytes are left out.
fn string_text(alloc: Global, text: &[u8]) -> Result<Vec<u8>, AllocError>
    ensures { IfOk result (λ out. out.items ≡ strings.string_text text.now) }
{
    let mut out = Vec::new(alloc);
    put_quoted(&mut out, front(text))?;
    put_rest(alloc, &mut out, text.len())?;
    Ok(out)
}

// The bytes that are printed.
fn front(text: &[u8]) -> &[u8]
    ensures { result.now ≡ take strings.most_printed text.now }
{
    &text[..MOST_PRINTED.min(text.len())]
}

/// Appends bytes in double quotes, in printable ASCII. An error is want of memory.
pub fn put_quoted(out: &mut Vec<u8>, text: &[u8]) -> Result<(), AllocError>
    ensures { OnOk result (out.new.items ≡ out.old.items ++ strings.quoted text.now) }
{
    out.push(b'"')?;
    put_bytes(out, text)?;
    out.push(b'"')?;
    Ok(())
}

fn put_bytes(out: &mut Vec<u8>, text: &[u8]) -> Result<(), AllocError>
    ensures { OnOk result (out.new.items ≡ out.old.items ++ flat_map strings.byte_text text.now) }
{
    for byte in text {
        put_byte(out, *byte)?;
    }
    Ok(())
}

fn put_byte(out: &mut Vec<u8>, byte: u8) -> Result<(), AllocError>
    ensures { OnOk result (out.new.items ≡ out.old.items ++ strings.byte_text byte) }
{
    if byte == b'"' || byte == b'\\' {
        out.extend_from_slice(&[b'\\', byte])
    } else if byte >= b' ' && byte <= b'~' {
        out.push(byte)?;
        Ok(())
    } else {
        out.extend_from_slice(&[b'\\', b'x', digit_text(byte / 16), digit_text(byte % 16)])
    }
}

// A digit in base 16.
fn digit_text(digit: u8) -> u8
    requires { digit < 16 }
    ensures { result ≡ strings.digit_text digit }
{
    if digit < 10 {
        b'0' + digit
    } else {
        b'a' - 10 + digit
    }
}

fn put_rest(alloc: Global, out: &mut Vec<u8>, size: usize) -> Result<(), AllocError>
    ensures { OnOk result (out.new.items ≡ out.old.items ++ strings.rest_text size) }
{
    if size <= MOST_PRINTED {
        return Ok(());
    }
    let left = size - MOST_PRINTED;
    let text = format!(in alloc; "+{left}")?;
    out.extend_from_slice(text.as_bytes())
}
