// Pieces of files.
use crate::faults::fault_line;
use crate::head::Asked;
use crate::row::RowFault;
use crate::shapes::{shapes, spans};
use crate::tokens::lex_line;
use go_parse_x::{Cursor, ParseFault, Parsed, Pending, Reading, parse_expr};
use go_tree::{Lex, NodeId, Token};
use std::alloc::{AllocError, Global};
use std::slice;

/// More height than any piece of a row has.
pub const AMPLE: usize = 10_000;

/// Reads a piece from the start of a text, and takes the token behind it. Its nodes have numbers from 7 on.
pub fn read_piece(
    alloc: Global,
    text: &[u8],
    reading: Reading,
    free: usize,
) -> Result<(Parsed, Result<Token, Lex>), ParseFault> {
    let mut cursor = Cursor::new(text, NodeId(7));
    let mut pending = Pending::new(alloc, reading, free);
    match parse_expr(alloc, &mut cursor, &mut pending) {
        Err(fault) => Err(fault),
        Ok(parsed) => {
            let behind = cursor.take();
            Ok((parsed, behind))
        }
    }
}

/// What the parser of pieces says of a text; None for what it does not say.
pub fn piece_answer(
    alloc: Global,
    reading: Reading,
    text: &[u8],
    asked: Asked,
) -> Result<Option<Vec<u8>>, RowFault> {
    match read_piece(alloc, text, reading, AMPLE) {
        Err(fault) => match asked {
            Asked::Fault | Asked::Tree | Asked::Spans | Asked::Behind => {
                Ok(Some(fault_line(alloc, fault, 0)?))
            }
            _ => Ok(None),
        },
        Ok((parsed, behind)) => match asked {
            Asked::Fault => Ok(Some(b"none\n".to_vec(alloc)?)),
            Asked::Tree => Ok(Some(tree_line(alloc, &parsed)?)),
            Asked::Spans => Ok(Some(span_line(alloc, &parsed)?)),
            Asked::Behind => Ok(Some(behind_line(alloc, behind)?)),
            _ => Ok(None),
        },
    }
}

// The tree, or `block` where the block of a function literal is handed over.
fn tree_line(alloc: Global, parsed: &Parsed) -> Result<Vec<u8>, AllocError> {
    match parsed {
        Parsed::Whole(node) => shapes(alloc, slice::from_ref(node)),
        Parsed::Block => b"block\n".to_vec(alloc),
    }
}

fn span_line(alloc: Global, parsed: &Parsed) -> Result<Vec<u8>, AllocError> {
    match parsed {
        Parsed::Whole(node) => spans(alloc, slice::from_ref(node), 0),
        Parsed::Block => b"block\n".to_vec(alloc),
    }
}

fn behind_line(alloc: Global, behind: Result<Token, Lex>) -> Result<Vec<u8>, AllocError> {
    match behind {
        Ok(token) => {
            let kind = token.kind;
            let start = token.start;
            Ok(format!(in alloc; "{kind:?} {start}\n")?.into_bytes())
        }
        Err(lex) => lex_line(alloc, lex, 0),
    }
}
