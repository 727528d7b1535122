// Keywords (Go specification).
ghost use Rattle.std.specs.Prelude.{◌≡◌, true, length, slice_index, IfSome, IfNone};
ghost use Rattle.go_tree.specs.Lexical.Tokens.{spelling, IsSpelled};
ghost use Rattle.go_tree.specs.declared.token.TokenKind.{TokenKind as Kind};
ghost use Rattle.go_scan.specs.Ascii.{is_small_letter};

use crate::characters::byte_at;
use go_tree::TokenKind;

// The one keyword that can have these first bytes and this length, and its text.
fn candidate(a: u8, b: u8, len: usize) -> Option<(TokenKind, &'static [u8])>
    ensures text { IfSome result (λ r. IsSpelled r.0 r.1.now) }
    ensures other { IfSome result (λ r. (kind : Kind) → is_small_letter a ≡ true → slice_index (spelling kind) 0 ≡ a → slice_index (spelling kind) 1 ≡ b → length (spelling kind) ≡ len → kind ≡ r.0) }
    ensures none { IfNone result ((kind : Kind) → is_small_letter a ≡ true → slice_index (spelling kind) 0 ≡ a → slice_index (spelling kind) 1 ≡ b → length (spelling kind) ≡ len → ⊥) }
{
    match (a, b) {
        (b'b', b'r') => Some((TokenKind::KwBreak, b"break")),
        (b'c', b'a') => Some((TokenKind::KwCase, b"case")),
        (b'c', b'h') => Some((TokenKind::KwChan, b"chan")),
        (b'c', b'o') if len == 5 => Some((TokenKind::KwConst, b"const")),
        (b'c', b'o') => Some((TokenKind::KwContinue, b"continue")),
        (b'd', b'e') if len == 7 => Some((TokenKind::KwDefault, b"default")),
        (b'd', b'e') => Some((TokenKind::KwDefer, b"defer")),
        (b'e', b'l') => Some((TokenKind::KwElse, b"else")),
        (b'f', b'a') => Some((TokenKind::KwFallthrough, b"fallthrough")),
        (b'f', b'o') => Some((TokenKind::KwFor, b"for")),
        (b'f', b'u') => Some((TokenKind::KwFunc, b"func")),
        (b'g', b'o') if len == 2 => Some((TokenKind::KwGo, b"go")),
        (b'g', b'o') => Some((TokenKind::KwGoto, b"goto")),
        (b'i', b'f') => Some((TokenKind::KwIf, b"if")),
        (b'i', b'm') => Some((TokenKind::KwImport, b"import")),
        (b'i', b'n') => Some((TokenKind::KwInterface, b"interface")),
        (b'm', b'a') => Some((TokenKind::KwMap, b"map")),
        (b'p', b'a') => Some((TokenKind::KwPackage, b"package")),
        (b'r', b'a') => Some((TokenKind::KwRange, b"range")),
        (b'r', b'e') => Some((TokenKind::KwReturn, b"return")),
        (b's', b'e') => Some((TokenKind::KwSelect, b"select")),
        (b's', b't') => Some((TokenKind::KwStruct, b"struct")),
        (b's', b'w') => Some((TokenKind::KwSwitch, b"switch")),
        (b't', b'y') => Some((TokenKind::KwType, b"type")),
        (b'v', b'a') => Some((TokenKind::KwVar, b"var")),
        _ => None,
    }
}
/// The keyword that a word is, where it is one.
pub(crate) fn keyword(word: &[u8]) -> Option<TokenKind>
    ensures some { IfSome result (λ kind. IsSpelled kind word.now) }
    ensures none { IfNone result ((kind : Kind) → is_small_letter (slice_index word.now 0) ≡ true → IsSpelled kind word.now → ⊥) }
{
    let (kind, text) = candidate(byte_at(word, 0), byte_at(word, 1), word.len())?;
    if word == text { Some(kind) } else { None }
}
