// The next token of a text (Go specification, "Lexical elements").
ghost use Rattle.std.specs.Prelude.{◌≡◌, ◌≢◌, ◌⊎◌, ℕ, ◌<◌, ◌≤◌, ◌&&◌, nat_lt, IfOk, IfErr, if◌then◌else◌, length, Some};
ghost use Rattle.go_tree.specs.declared.token.Token.{Token as TokenOf};
ghost use Rattle.go_tree.specs.declared.token.TokenKind.TheVariants.{InsertedSemicolon, End};
ghost use Rattle.go_tree.specs.Lexical.Characters.{decoded_at, is_forbidden, IsForbidden};
ghost use Rattle.go_tree.specs.Lexical.Comments.{OpensLine, OpensGeneral};
ghost use Rattle.go_tree.specs.Lexical.Faults.{forbidden_byte, missing_token, IsForbiddenByte, IsMissingToken};
ghost use Rattle.go_tree.specs.Lexical.Scan.{IsFirst, IsNext};
ghost use Rattle.go_tree.specs.Lexical.Semicolons.{inserts_after};
ghost use Rattle.go_scan.specs.Blame.{IsBlamed};
ghost use Rattle.go_scan.specs.Gaps.{HasNoSpace};
ghost use Rattle.go_scan.specs.Weight.{scan_weight};

use crate::characters::char_at;
use crate::gap::{Here, place};
use crate::rules::{FORBIDDEN_BYTE, MISSING_TOKEN};
use crate::token::token;
use go_tree::{Lex, Token, TokenKind};

/// The next token from the byte `at` on, where a token of the kind `last` stands before.
///
/// Err exactly where there is none: at a byte that may not stand where the token should start, or
/// where a comment, a rune literal or a string literal that starts there could go on; else at the
/// first byte that is not passed over.
pub fn next(bytes: &[u8], at: usize, last: Option<TokenKind>) -> Result<Token, Lex>
    requires { at ≤ length bytes.now }
    ensures token { IfOk result (λ t. IsNext bytes.now at last t) }
    ensures within { IfOk result (λ t. (at ≤ t.start) × (t.start ≤ t.end) × (t.end ≤ length bytes.now)) }

    // so that a loop over the tokens ends
    ensures progress { IfOk result (λ t. t.kind ≢ End →
        scan_weight (length bytes.now) t.end (Some t.kind) < scan_weight (length bytes.now) at last) }

    ensures no_token { IfErr result (λ _. (t : TokenOf) → IsNext bytes.now at last t → ⊥) }
    ensures rule { IfErr result (λ e.
        ((e.rule ≡ forbidden_byte) × IsForbiddenByte bytes.now at last e.offset)
        ⊎ ((e.rule ≡ missing_token) × IsMissingToken bytes.now at last e.offset)) }
    ensures inside { IfErr result (λ e. e.offset < length bytes.now) }
{
    let (place, here) = place(bytes, at, inserts_after(last));
    match here {
        Here::Newline(start, end) => Ok(Token {
            kind: TokenKind::InsertedSemicolon,
            start,
            end,
        }),
        Here::Stuck(stuck) => Err(fault(bytes, place, stuck.at)),
        Here::Other => match written(bytes, place, last) {
            Ok(token) => Ok(token),
            Err(blamed) => Err(fault(bytes, place, blamed)),
        },
    }
}

// What stands at a place where neither space nor a comment does. Err, where no token starts there:
// the offset of the byte to blame, if one is.
fn written(bytes: &[u8], place: usize, last: Option<TokenKind>) -> Result<Token, usize>
    requires within { place ≤ length bytes.now }
    requires space { HasNoSpace bytes.now place }
    requires line { OpensLine bytes.now place → ⊥ }
    requires general { OpensGeneral bytes.now place → ⊥ }
    ensures first { IfOk result (λ t. IsFirst bytes.now last place t) }
    ensures none { IfErr result (λ _. (t : TokenOf) → IsFirst bytes.now last place t → ⊥) }
    ensures blamed { IfErr result (λ at. IsBlamed bytes.now place at) }
    ensures inside { IfErr result (λ _. place < length bytes.now) }
{
    if place == bytes.len() {
        return Ok(end_token(place, last));
    }
    match token(bytes, place) {
        Ok((kind, end)) => Ok(Token {
            kind,
            start: place,
            end,
        }),
        Err(stuck) => Err(stuck.at),
    }
}

// What stands at the end of the file: a semicolon, where the last line inserts one, or the end.
fn end_token(place: usize, last: Option<TokenKind>) -> Token
    ensures kind { result.kind ≡ (if inserts_after last then InsertedSemicolon else End) }
    ensures span { (result.start ≡ place) × (result.end ≡ place) }
{
    let kind = if inserts_after(last) {
        TokenKind::InsertedSemicolon
    } else {
        TokenKind::End
    };
    Token {
        kind,
        start: place,
        end: place,
    }
}

// The fault at a place where no token starts: at the byte to blame, if it may not stand there.
fn fault(bytes: &[u8], place: usize, blamed: usize) -> Lex
    ensures { ((result.rule ≡ forbidden_byte) × (result.offset ≡ blamed) × IsForbidden bytes.now blamed)
        ⊎ ((result.rule ≡ missing_token) × (result.offset ≡ place) × (IsForbidden bytes.now blamed → ⊥)) }
{
    if is_forbidden(bytes, blamed) {
        Lex {
            offset: blamed,
            rule: FORBIDDEN_BYTE,
        }
    } else {
        Lex {
            offset: place,
            rule: MISSING_TOKEN,
        }
    }
}

// Whether a byte stands at an offset that may not stand there.
fn is_forbidden(bytes: &[u8], at: usize) -> bool
    ensures { result ≡ (nat_lt at (length bytes.now) && is_forbidden at (decoded_at bytes.now at).char) }
{
    if at >= bytes.len() {
        return false;
    }
    match char_at(bytes, at) {
        Some((c, _)) => c == '\0' || (c == '\u{FEFF}' && at > 0),
        None => true,
    }
}

fn inserts_after(last: Option<TokenKind>) -> bool
    ensures { result ≡ inserts_after last }
{
    matches!(
        last,
        Some(
            TokenKind::Ident
                | TokenKind::Int
                | TokenKind::Float
                | TokenKind::Rune
                | TokenKind::Text
                | TokenKind::KwBreak
                | TokenKind::KwContinue
                | TokenKind::KwFallthrough
                | TokenKind::KwReturn
                | TokenKind::Inc
                | TokenKind::Dec
                | TokenKind::RightParen
                | TokenKind::RightBracket
                | TokenKind::RightBrace
        )
    )
}
