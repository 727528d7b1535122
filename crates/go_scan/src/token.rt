// The longest token that stands at an offset (Go specification, "Tokens").
ghost use Rattle.std.specs.Prelude.{◌≡◌, ◌<◌, ◌≤◌, ℕ, true, false, length, slice_index, IfOk, IfErr};
ghost use Rattle.go_tree.specs.Lexical.Comments.{OpensLine, OpensGeneral};
ghost use Rattle.go_tree.specs.Lexical.Numbers.{begins_number};
ghost use Rattle.go_tree.specs.Lexical.Tokens.{IsWord, IsLongest};
ghost use Rattle.go_tree.specs.declared.token.TokenKind.{TokenKind as Kind};
ghost use Rattle.go_scan.specs.Blame.{IsBlamed, OpensLiteral};

use crate::characters::byte_at;
use crate::keywords::keyword;
use crate::marks::mark;
use crate::numbers::{begins_number, number};
use crate::quoted::{interpreted_lit, raw_lit, rune_lit};
use crate::reading::Stuck;
use crate::words::word_end;
use go_tree::TokenKind;

/// The longest token from the byte `from` on, where no comment opens: its kind and the offset
/// behind it. Err, where no token starts there: the offset of the byte to blame, if one is.
pub(crate) fn token(bytes: &[u8], from: usize) -> Result<(TokenKind, usize), Stuck>
    requires within { from < length bytes.now }
    requires line { OpensLine bytes.now from → ⊥ }
    requires general { OpensGeneral bytes.now from → ⊥ }
    ensures token { IfOk result (λ r. IsLongest bytes.now r.0 from r.1) }
    ensures none { IfErr result (λ _. (kind : Kind) (to : ℕ) → IsLongest bytes.now kind from to → ⊥) }
    ensures blamed { IfErr result (λ e. IsBlamed bytes.now from e.at) }
{
    if let Some(to) = word_end(bytes, from) {
        return Ok((word_kind(bytes, from, to), to));
    }
    if begins_number(bytes, from) {
        return number_token(bytes, from);
    }
    match bytes[from] {
        b'\'' | b'"' | b'`' => quoted_token(bytes, from),
        _ => mark_token(bytes, from),
    }
}

// The kind of the word that stands there.
fn word_kind(bytes: &[u8], from: usize, to: usize) -> TokenKind
    requires word { IsWord bytes.now from to }
    requires longest { (n : ℕ) → IsWord bytes.now from n → n ≤ to }
    requires within { (from < to) × (to ≤ length bytes.now) }
    ensures { IsLongest bytes.now result from to }
{
    match keyword(&bytes[from..to]) {
        Some(kind) => kind,
        None => TokenKind::Ident,
    }
}

fn number_token(bytes: &[u8], from: usize) -> Result<(TokenKind, usize), Stuck>
    requires { begins_number bytes.now from ≡ true }
    ensures token { IfOk result (λ r. IsLongest bytes.now r.0 from r.1) }
    ensures none { IfErr result (λ _. (kind : Kind) (to : ℕ) → IsLongest bytes.now kind from to → ⊥) }
    ensures blamed { IfErr result (λ e. IsBlamed bytes.now from e.at) }
{
    match number(bytes, from) {
        (Some(kind), to) => Ok((kind, to)),
        (None, _) => Err(Stuck { at: from }),
    }
}

fn quoted_token(bytes: &[u8], from: usize) -> Result<(TokenKind, usize), Stuck>
    requires { OpensLiteral (slice_index bytes.now from) }
    ensures token { IfOk result (λ r. IsLongest bytes.now r.0 from r.1) }
    ensures none { IfErr result (λ _. (kind : Kind) (to : ℕ) → IsLongest bytes.now kind from to → ⊥) }
    ensures blamed { IfErr result (λ e. IsBlamed bytes.now from e.at) }
{
    let quote = byte_at(bytes, from);
    if quote == b'\'' {
        match rune_lit(bytes, from) {
            Ok(to) => Ok((TokenKind::Rune, to)),
            Err(stuck) => Err(stuck),
        }
    } else if quote == b'"' {
        match interpreted_lit(bytes, from) {
            Ok(to) => Ok((TokenKind::Text, to)),
            Err(stuck) => Err(stuck),
        }
    } else {
        match raw_lit(bytes, from) {
            Ok(to) => Ok((TokenKind::Text, to)),
            Err(stuck) => Err(stuck),
        }
    }
}

fn mark_token(bytes: &[u8], from: usize) -> Result<(TokenKind, usize), Stuck>
    requires within { from < length bytes.now }
    requires word { (to : ℕ) → IsWord bytes.now from to → ⊥ }
    requires number { begins_number bytes.now from ≡ false }
    requires quote { OpensLiteral (slice_index bytes.now from) → ⊥ }
    requires line { OpensLine bytes.now from → ⊥ }
    requires general { OpensGeneral bytes.now from → ⊥ }
    ensures token { IfOk result (λ r. IsLongest bytes.now r.0 from r.1) }
    ensures none { IfErr result (λ _. (kind : Kind) (to : ℕ) → IsLongest bytes.now kind from to → ⊥) }
    ensures blamed { IfErr result (λ e. IsBlamed bytes.now from e.at) }
{
    match mark(bytes, from) {
        Some(longest) => Ok(longest),
        None => Err(Stuck { at: from }),
    }
}
