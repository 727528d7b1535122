// Tokens of texts, and why there are none.
use crate::cases::Case;
use crate::quoted::quoted;
use go_num::TextFault;
use go_scan::{int_value, literal_text, next};
use go_tree::{Lex, Token, TokenKind};
use std::alloc::{AllocError, Global};

// The tokens of a text up to the end, or up to the place where none starts.
fn scan(alloc: Global, text: &[u8]) -> Result<(Vec<Token>, Option<Lex>), AllocError> {
    let mut tokens = Vec::new(alloc);
    let mut at = 0;
    let mut last = None;
    loop {
        match next(text, at, last) {
            Err(fault) => return Ok((tokens, Some(fault))),
            Ok(token) => {
                tokens.push(token)?;
                if token.kind == TokenKind::End {
                    return Ok((tokens, None));
                }
                at = token.end;
                last = Some(token.kind);
            }
        }
    }
}

/// A line for each token from the offset `from` on, with offsets from there, and where none starts a line for
/// the fault.
pub fn token_lines(alloc: Global, text: &[u8], from: usize) -> Result<Vec<u8>, AllocError> {
    let (tokens, fault) = scan(alloc, text)?;
    let mut lines = Vec::new(alloc);
    for token in &tokens {
        put_token(alloc, &mut lines, *token, from)?;
    }
    if let Some(lex) = fault {
        lines.extend_from_slice(&lex_line(alloc, lex, from)?)?;
    }
    Ok(lines)
}

// The line of a token that ends behind `from`; where it starts before, the line says so.
fn put_token(
    alloc: Global,
    lines: &mut Vec<u8>,
    token: Token,
    from: usize,
) -> Result<(), AllocError> {
    let kind = token.kind;
    match (token.start.checked_sub(from), token.end.checked_sub(from)) {
        (Some(start), Some(end)) => {
            lines.extend_from_slice(format!(in alloc; "{kind:?} {start}-{end}\n")?.as_bytes())
        }
        (None, Some(end)) => {
            if end == 0 {
                return Ok(());
            }
            lines.extend_from_slice(format!(in alloc; "{kind:?} begins before\n")?.as_bytes())
        }
        _ => Ok(()),
    }
}

/// The line of a fault, `S1 OFFSET`, with an offset from `from`.
pub fn lex_line(alloc: Global, lex: Lex, from: usize) -> Result<Vec<u8>, AllocError> {
    let rule = lex.rule;
    let offset = offset_text(alloc, lex.offset, from)?;
    Ok(format!(in alloc; "{rule} {offset}\n")?.into_bytes())
}

/// An offset that counts from `from`, with a minus before that place.
pub fn offset_text(alloc: Global, offset: usize, from: usize) -> Result<String, AllocError> {
    match offset.checked_sub(from) {
        Some(behind) => format!(in alloc; "{behind}"),
        None => {
            let before = from.saturating_sub(offset);
            format!(in alloc; "-{before}")
        }
    }
}

/// The line of the fault of a text, with an offset from `from`; `none` where it has all its tokens.
pub fn scan_fault(alloc: Global, text: &[u8], from: usize) -> Result<Vec<u8>, AllocError> {
    match scan(alloc, text)? {
        (_, Some(lex)) => lex_line(alloc, lex, from),
        (_, None) => b"none\n".to_vec(alloc),
    }
}

/// What the literal at the start of a text stands for: a number, `wide` past the greatest, a string in quotes,
/// `long` past the longest; `none` where no such literal stands there.
pub fn value_line(alloc: Global, case: &Case) -> Result<Vec<u8>, AllocError> {
    let text = case.text.as_slice();
    let mut line = match next(text, 0, None) {
        Ok(token) if token.kind == TokenKind::Int || token.kind == TokenKind::Rune => {
            match int_value(text, token) {
                Some(value) => format!(in alloc; "{value}")?.into_bytes(),
                None => b"wide".to_vec(alloc)?,
            }
        }
        Ok(token) if token.kind == TokenKind::Text => match literal_text(alloc, text, token) {
            Ok(bytes) => quoted(alloc, bytes.as_slice())?,
            Err(TextFault::LongText) => b"long".to_vec(alloc)?,
            Err(TextFault::NoMemory) => return Err(AllocError),
        },
        _ => b"none".to_vec(alloc)?,
    };
    line.push(b'\n')?;
    Ok(line)
}
