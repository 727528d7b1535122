// Strings of constants (Go specification, "String concatenation", "Conversions to and from a string
// type").
ghost use Rattle.std.specs.Prelude.{◌≡◌, ◌+◌, ◌++◌, ◌<◌, ◌≤◌, ◌↔◌, IfOk, IsErrOf, length};
ghost use Rattle.go_num.specs.declared.text.TextFault.TheVariants.{NoMemory as OutOfMemory};
ghost use Rattle.go_num.specs.Text.{character_of, most_text, rune_value};

use go_base::{Bytes, NoMemory};
use std::alloc::{AllocError, AllocFailed, Global};

/// The most bytes of a string constant.
pub const MOST_TEXT: usize = 1_048_576;

/// Why an operation on strings has no value.
#[derive(Clone, Copy, Debug, PartialEq, Eq)]
pub enum TextFault {
    /// the string would have more than `MOST_TEXT` bytes
    LongText,
    /// memory was refused
    NoMemory,
}

impl From<AllocError> for TextFault {
    ghost from_gives = { λ _ fault. fault ≡ OutOfMemory };

    fn from(_: AllocError) -> Self {
        TextFault::NoMemory
    }
}

impl<T: Drop> From<AllocFailed<T>> for TextFault {
    ghost from_gives = { λ _ fault. fault ≡ OutOfMemory };

    fn from(_: AllocFailed<T>) -> Self {
        TextFault::NoMemory
    }
}

impl From<NoMemory> for TextFault {
    ghost from_gives = { λ _ fault. fault ≡ OutOfMemory };

    fn from(_: NoMemory) -> Self {
        TextFault::NoMemory
    }
}

/// The bytes of `a` and then those of `b`; LongText exactly where they are more than `MOST_TEXT`.
pub fn join(alloc: Global, a: &[u8], b: &[u8]) -> Result<Bytes, TextFault>
    ensures value { IfOk result (λ text. text ≡ a.now ++ b.now) }
    ensures within { IfOk result (λ text. length text ≤ most_text) }
    ensures long { IsErrOf result TextFault.LongText ↔ (most_text < length a.now + length b.now) }
{
    let size = a.len() + b.len();
    if size > MOST_TEXT {
        return Err(TextFault::LongText);
    }
    let mut bytes = Vec::with_capacity(alloc, size)?;
    bytes.extend_from_slice(a)?;
    bytes.extend_from_slice(b)?;
    Ok(Bytes::new(bytes))
}

/// The UTF-8 bytes of the character with that code point, or of U+FFFD where the number is no valid
/// code point.
pub fn rune_text(alloc: Global, code: i128) -> Result<Bytes, NoMemory>
    ensures { IfOk result (λ text. text ≡ rune_value code) }
{
    let mut room = [0; 4];
    let text = character(code).encode_utf8(&mut room);
    Ok(Bytes::new(text.as_bytes().to_vec(alloc)?))
}

fn character(code: i128) -> char
    ensures { result ≡ character_of code }
{
    u32::try_from(code)
        .ok()
        .and_then(char::from_u32)
        .unwrap_or(char::REPLACEMENT_CHARACTER)
}
