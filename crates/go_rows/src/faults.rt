// Why a text has no tree.
use crate::tokens::{lex_line, offset_text};
use go_parse_x::ParseFault;
use std::alloc::{AllocError, Global};

/// The line of a fault, with an offset from `from`.
pub fn fault_line(alloc: Global, fault: ParseFault, from: usize) -> Result<Vec<u8>, AllocError> {
    match fault {
        ParseFault::Lexical(lex) => lex_line(alloc, lex, from),
        ParseFault::Syntax(offset) => {
            let offset = offset_text(alloc, offset, from)?;
            Ok(format!(in alloc; "Syntax {offset}\n")?.into_bytes())
        }
        ParseFault::High(offset) => {
            let offset = offset_text(alloc, offset, from)?;
            Ok(format!(in alloc; "High {offset}\n")?.into_bytes())
        }
        ParseFault::NoMemory => b"NoMemory\n".to_vec(alloc),
    }
}
