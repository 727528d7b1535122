// All tokens of a text (Go specification, "Lexical elements").
ghost use Rattle.std.specs.Prelude.{◌≡◌, IfOk, IfErr};
ghost use Rattle.go_tree.specs.Lexical.Scan.{Scan};
ghost use Rattle.go_scan.specs.Lists.{HasNoTokens};
ghost use Rattle.go_scan.specs.declared.token_list.ScanFault.TheVariants.{NoMemory as OutOfMemory};

use crate::next_token::next;
use go_tree::{Lex, Token, TokenKind};
use std::alloc::{AllocError, AllocFailed, Global};

/// Why there is no list of tokens.
#[derive(Clone, Copy, Debug, PartialEq, Eq)]
pub enum ScanFault {
    /// no token starts at a place behind the others
    Lexical(Lex),
    /// memory was wanting
    NoMemory,
}

impl From<AllocError> for ScanFault {
    ghost from_gives = { λ _ fault. fault ≡ OutOfMemory };

    fn from(_: AllocError) -> Self {
        ScanFault::NoMemory
    }
}

impl<T: Drop> From<AllocFailed<T>> for ScanFault {
    ghost from_gives = { λ _ fault. fault ≡ OutOfMemory };

    fn from(_: AllocFailed<T>) -> Self {
        ScanFault::NoMemory
    }
}

/// The tokens of a text, the end last; Lexical exactly where it has no list of tokens, since behind
/// some tokens none starts: with the rule that is broken there and the byte to blame.
pub fn tokens(alloc: Global, bytes: &[u8]) -> Result<Vec<Token>, ScanFault>
    ensures tokens { IfOk result (λ tokens. Scan bytes.now tokens.items) }
    ensures none { IfErr result (λ fault. HasNoTokens bytes.now fault) }
{
    let mut tokens = Vec::new(alloc);
    let mut at = 0;
    let mut last = None;
    loop {
        let token = match next(bytes, at, last) {
            Ok(token) => token,
            Err(lex) => return Err(ScanFault::Lexical(lex)),
        };
        tokens.push(token)?;
        if token.kind == TokenKind::End {
            return Ok(tokens);
        }
        at = token.end;
        last = Some(token.kind);
    }
}
