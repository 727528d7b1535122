// Strings in quotes, as rows write them.
use crate::numbers::number;
use std::alloc::{AllocError, Global};

/// The most bytes that a line in quotes stands for.
pub const MOST_BYTES: usize = 67_108_864;

/// The most times that a string in quotes may be repeated.
const MOST_TIMES: usize = 20_000_000;

// Where the reading of a string in quotes stands.
#[derive(Clone, Copy, Debug, PartialEq, Eq)]
enum Place {
    Inside,
    Escape,
    FirstDigit,
    LastDigit(u8),
    Closed,
    Wrong,
}

/// The bytes that a line stands for: a string in quotes, or one that is repeated, `"TEXT" * N`; None where it is
/// neither, and where it has too many bytes.
pub fn unquoted(alloc: Global, line: &str) -> Result<Option<Vec<u8>>, AllocError> {
    let Some(inside) = line.strip_prefix('"') else {
        return Ok(None);
    };
    let mut bytes = Vec::new(alloc);
    let mut place = Place::Inside;
    for (i, byte) in inside.as_bytes().iter().enumerate() {
        place = step(place, *byte, &mut bytes)?;
        if place == Place::Closed {
            let behind = inside.get(i.saturating_add(1)..);
            return repeated(alloc, bytes, behind.unwrap_or(""));
        }
    }
    Ok(None)
}

// Reads one byte of a string in quotes.
fn step(place: Place, byte: u8, bytes: &mut Vec<u8>) -> Result<Place, AllocError> {
    match place {
        Place::Inside => match byte {
            b'"' => return Ok(Place::Closed),
            b'\\' => return Ok(Place::Escape),
            _ => bytes.push(byte)?,
        },
        Place::Escape => match byte {
            b'x' => return Ok(Place::FirstDigit),
            b'n' => bytes.push(b'\n')?,
            b't' => bytes.push(b'\t')?,
            b'r' => bytes.push(b'\r')?,
            b'\\' | b'"' => bytes.push(byte)?,
            _ => return Ok(Place::Wrong),
        },
        Place::FirstDigit => match digit(byte) {
            Some(first) => return Ok(Place::LastDigit(first)),
            None => return Ok(Place::Wrong),
        },
        Place::LastDigit(first) => match digit(byte) {
            Some(last) => bytes.push(first.wrapping_mul(16).wrapping_add(last))?,
            None => return Ok(Place::Wrong),
        },
        Place::Closed => return Ok(Place::Closed),
        Place::Wrong => return Ok(Place::Wrong),
    }
    Ok(Place::Inside)
}

// The value of a hexadecimal digit.
fn digit(byte: u8) -> Option<u8> {
    match byte {
        b'0'..=b'9' => Some(byte - b'0'),
        b'a'..=b'f' => Some(byte - b'a' + 10),
        b'A'..=b'F' => Some(byte - b'A' + 10),
        _ => None,
    }
}

// The bytes, as many times as what stands behind the quotes says.
fn repeated(alloc: Global, bytes: Vec<u8>, behind: &str) -> Result<Option<Vec<u8>>, AllocError> {
    if behind.is_empty() {
        return Ok(Some(bytes));
    }
    let Some(times) = behind.strip_prefix(" * ").and_then(number) else {
        return Ok(None);
    };
    if times == 0 || times > MOST_TIMES || bytes.len().saturating_mul(times) > MOST_BYTES {
        return Ok(None);
    }
    let mut all = Vec::new(alloc);
    if let [byte] = bytes.as_slice() {
        all.resize(times, *byte)?;
    } else {
        for _ in 0..times {
            all.extend_from_slice(&bytes)?;
        }
    }
    Ok(Some(all))
}

/// The bytes as a string in quotes: text as it stands, and other bytes by escapes.
pub fn quoted(alloc: Global, bytes: &[u8]) -> Result<Vec<u8>, AllocError> {
    let mut out = b"\"".to_vec(alloc)?;
    for byte in bytes {
        match *byte {
            b'\n' => out.extend_from_slice(b"\\n")?,
            b'\t' => out.extend_from_slice(b"\\t")?,
            b'\r' => out.extend_from_slice(b"\\r")?,
            b'\\' => out.extend_from_slice(b"\\\\")?,
            b'"' => out.extend_from_slice(b"\\\"")?,
            b' '..=b'~' => out.push(*byte)?,
            _ => out.extend_from_slice(format!(in alloc; "\\x{byte:02x}")?.as_bytes())?,
        }
    }
    out.push(b'"')?;
    Ok(out)
}
