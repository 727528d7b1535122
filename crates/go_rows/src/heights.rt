// Heights of pieces.
use crate::faults::fault_line;
use crate::numbers::number;
use crate::pieces::read_piece;
use crate::row::RowFault;
use go_parse_x::{ParseFault, Parsed, Reading};
use std::alloc::{AllocError, Global};

/// What the parser says of the height that is wanted, `HEIGHT OFFSET`: the same where the piece is whole with that
/// height free, and too high at that token with one less. The section stands at that line.
pub fn height_answer(
    alloc: Global,
    line: usize,
    reading: Reading,
    text: &[u8],
    wanted: &[u8],
) -> Result<Vec<u8>, RowFault> {
    let Some(height) = height_of(wanted) else {
        return Err(RowFault::unread(line, "no height"));
    };
    let Some(less) = height.checked_sub(1) else {
        return Err(RowFault::unread(line, "the height is 0"));
    };
    match read_piece(alloc, text, reading, height) {
        Ok((Parsed::Whole(_), _)) => Ok(one_less(alloc, reading, text, height, less)?),
        Ok((Parsed::Block, _)) => Ok(b"block\n".to_vec(alloc)?),
        Err(fault) => Ok(behind_height(alloc, height, fault)?),
    }
}

// What the parser says where one less is free.
fn one_less(
    alloc: Global,
    reading: Reading,
    text: &[u8],
    height: usize,
    less: usize,
) -> Result<Vec<u8>, AllocError> {
    match read_piece(alloc, text, reading, less) {
        Err(ParseFault::High(offset)) => {
            Ok(format!(in alloc; "{height} {offset}\n")?.into_bytes())
        }
        Err(fault) => behind_height(alloc, less, fault),
        Ok(_) => Ok(format!(in alloc; "{less} is enough\n")?.into_bytes()),
    }
}

// The height that was free, and the fault.
fn behind_height(alloc: Global, height: usize, fault: ParseFault) -> Result<Vec<u8>, AllocError> {
    let mut line = format!(in alloc; "{height} free: ")?.into_bytes();
    line.extend_from_slice(&fault_line(alloc, fault, 0)?)?;
    Ok(line)
}

// The height of a line `HEIGHT OFFSET`.
fn height_of(line: &[u8]) -> Option<usize> {
    let text = str::from_utf8(line).ok()?;
    let (height, _) = text.split_once(' ')?;
    number(height)
}
