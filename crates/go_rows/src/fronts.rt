// Fronts of texts: which are whole.
use crate::cases::Case;
use crate::faults::fault_line;
use crate::files::read_file;
use crate::head::Given;
use crate::marks::Mark;
use crate::pieces::{AMPLE, read_piece};
use crate::row::RowFault;
use go_parse_x::{Parsed, Reading};
use go_scan::tokens;
use go_tree::TokenKind;
use std::alloc::{AllocError, Global};

/// The word of a mark behind a front that is whole.
const WHOLE: &[u8] = b"whole";

/// The ends of the tokens that are written in a text; none where no token starts at some place.
fn ends_of(alloc: Global, text: &[u8]) -> Result<Vec<usize>, AllocError> {
    let mut ends = Vec::new(alloc);
    if let Ok(tokens) = tokens(alloc, text) {
        for token in &tokens {
            if token.kind != TokenKind::InsertedSemicolon && token.kind != TokenKind::End {
                ends.push(token.end)?;
            }
        }
    }
    Ok(ends)
}

/// What is wanted of the fronts of a text, and what the parser says: a line for each end of a token. The section
/// stands at that line.
pub fn fronts(
    alloc: Global,
    line: usize,
    given: Given,
    case: &Case,
) -> Result<(Vec<u8>, Vec<u8>), RowFault> {
    let ends = ends_of(alloc, &case.text)?;
    if ends.is_empty() {
        return Err(RowFault::unread(line, "the text has no tokens"));
    }
    check_marks(line, &case.marks, &ends)?;
    let mut wanted = Vec::new(alloc);
    let mut found = Vec::new(alloc);
    for end in &ends {
        let is_whole = case.marks.iter().any(|mark| mark.offset == *end);
        wanted.extend_from_slice(&wanted_line(alloc, *end, is_whole)?)?;
        let front = case.text.get(..*end).unwrap_or(&[]);
        found.extend_from_slice(format!(in alloc; "{end} ")?.as_bytes())?;
        found.extend_from_slice(&front_answer(alloc, line, given, front)?)?;
    }
    Ok((wanted, found))
}

// Refuses a mark that says nothing of a front.
fn check_marks(line: usize, marks: &[Mark], ends: &[usize]) -> Result<(), RowFault> {
    for mark in marks {
        if mark.word.as_slice() != WHOLE {
            return Err(RowFault::unread(line, "the word of a mark is not `whole`"));
        }
        if !ends.contains(&mark.offset) {
            return Err(RowFault::unread(line, "a mark stands right behind no token"));
        }
    }
    Ok(())
}

fn wanted_line(alloc: Global, end: usize, is_whole: bool) -> Result<Vec<u8>, AllocError> {
    let line = if is_whole {
        format!(in alloc; "{end} whole\n")?
    } else {
        format!(in alloc; "{end} Syntax {end}\n")?
    };
    Ok(line.into_bytes())
}

// Whether a front is whole, or its fault.
fn front_answer(
    alloc: Global,
    line: usize,
    given: Given,
    front: &[u8],
) -> Result<Vec<u8>, RowFault> {
    match given {
        Given::File => match read_file(alloc, front) {
            Ok(_) => Ok(b"whole\n".to_vec(alloc)?),
            Err(fault) => Ok(fault_line(alloc, fault, 0)?),
        },
        Given::Piece(reading) => Ok(piece_front(alloc, reading, front)?),
        _ => Err(RowFault::unread(line, "the row has no fronts")),
    }
}

// Whether a piece has all of a front, or its fault.
fn piece_front(alloc: Global, reading: Reading, front: &[u8]) -> Result<Vec<u8>, AllocError> {
    match read_piece(alloc, front, reading, AMPLE) {
        Ok((Parsed::Whole(_), Ok(token))) if token.start == front.len() => {
            b"whole\n".to_vec(alloc)
        }
        Ok(_) => b"a part\n".to_vec(alloc),
        Err(fault) => fault_line(alloc, fault, 0),
    }
}
