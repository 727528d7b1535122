// Operators and punctuation (Go specification).
ghost use Rattle.std.specs.Prelude.{◌≡◌, ◌<◌, ◌≤◌, ℕ, false, ◌∷◌, [], length, slice_index, slice_range, IfSome, IfNone};
ghost use Rattle.go_tree.specs.Lexical.Tokens.{spelling, IsSpelled};
ghost use Rattle.go_scan.specs.Ascii.{is_small_letter};
ghost use Rattle.go_tree.specs.declared.token.TokenKind.{TokenKind as Kind};

use crate::characters::byte_at;
use go_tree::TokenKind;

// The operator of that byte.
fn mark_of_one(a: u8) -> Option<TokenKind>
    ensures some { IfSome result (λ kind. spelling kind ≡ a ∷ []) }
    ensures none { IfNone result ((kind : Kind) → spelling kind ≡ a ∷ [] → ⊥) }
{
    match a {
        b'+' => Some(TokenKind::Add),
        b'-' => Some(TokenKind::Sub),
        b'*' => Some(TokenKind::Mul),
        b'/' => Some(TokenKind::Quo),
        b'%' => Some(TokenKind::Rem),
        b'&' => Some(TokenKind::And),
        b'|' => Some(TokenKind::Or),
        b'^' => Some(TokenKind::Xor),
        b'<' => Some(TokenKind::Less),
        b'>' => Some(TokenKind::Greater),
        b'=' => Some(TokenKind::Assign),
        b'!' => Some(TokenKind::Not),
        b'~' => Some(TokenKind::Tilde),
        b'(' => Some(TokenKind::LeftParen),
        b'[' => Some(TokenKind::LeftBracket),
        b'{' => Some(TokenKind::LeftBrace),
        b',' => Some(TokenKind::Comma),
        b'.' => Some(TokenKind::Dot),
        b')' => Some(TokenKind::RightParen),
        b']' => Some(TokenKind::RightBracket),
        b'}' => Some(TokenKind::RightBrace),
        b';' => Some(TokenKind::Semicolon),
        b':' => Some(TokenKind::Colon),
        _ => None,
    }
}

// The operator of those two bytes.
fn mark_of_two(a: u8, b: u8) -> Option<TokenKind>
    requires { is_small_letter a ≡ false }
    ensures some { IfSome result (λ kind. spelling kind ≡ a ∷ (b ∷ [])) }
    ensures none { IfNone result ((kind : Kind) → spelling kind ≡ a ∷ (b ∷ []) → ⊥) }
{
    match (a, b) {
        (b'<', b'<') => Some(TokenKind::Shl),
        (b'<', b'-') => Some(TokenKind::Arrow),
        (b'<', b'=') => Some(TokenKind::LessEqual),
        (b'>', b'>') => Some(TokenKind::Shr),
        (b'>', b'=') => Some(TokenKind::GreaterEqual),
        (b'&', b'^') => Some(TokenKind::AndNot),
        (b'&', b'=') => Some(TokenKind::AndAssign),
        (b'&', b'&') => Some(TokenKind::LogicalAnd),
        (b'+', b'=') => Some(TokenKind::AddAssign),
        (b'+', b'+') => Some(TokenKind::Inc),
        (b'-', b'=') => Some(TokenKind::SubAssign),
        (b'-', b'-') => Some(TokenKind::Dec),
        (b'*', b'=') => Some(TokenKind::MulAssign),
        (b'/', b'=') => Some(TokenKind::QuoAssign),
        (b'%', b'=') => Some(TokenKind::RemAssign),
        (b'|', b'=') => Some(TokenKind::OrAssign),
        (b'|', b'|') => Some(TokenKind::LogicalOr),
        (b'^', b'=') => Some(TokenKind::XorAssign),
        (b'=', b'=') => Some(TokenKind::Equal),
        (b'!', b'=') => Some(TokenKind::NotEqual),
        (b':', b'=') => Some(TokenKind::Define),
        _ => None,
    }
}

// The operator of those three bytes.
fn mark_of_three(a: u8, b: u8, c: u8) -> Option<TokenKind>
    requires { is_small_letter a ≡ false }
    ensures some { IfSome result (λ kind. spelling kind ≡ a ∷ (b ∷ (c ∷ []))) }
    ensures none { IfNone result ((kind : Kind) → spelling kind ≡ a ∷ (b ∷ (c ∷ [])) → ⊥) }
{
    match (a, b, c) {
        (b'<', b'<', b'=') => Some(TokenKind::ShlAssign),
        (b'>', b'>', b'=') => Some(TokenKind::ShrAssign),
        (b'&', b'^', b'=') => Some(TokenKind::AndNotAssign),
        (b'.', b'.', b'.') => Some(TokenKind::Ellipsis),
        _ => None,
    }
}
/// The longest operator or punctuation mark from the byte `from` on, and the offset behind it.
pub(crate) fn mark(bytes: &[u8], from: usize) -> Option<(TokenKind, usize)>
    requires within { from < length bytes.now }
    requires letter { is_small_letter (slice_index bytes.now from) ≡ false }
    ensures some { IfSome result (λ r. IsSpelled r.0 (slice_range bytes.now from r.1) × (from < r.1) × (r.1 ≤ length bytes.now)) }
    ensures longest { IfSome result (λ r. (kind : Kind) (n : ℕ) → r.1 < n → n ≤ length bytes.now → IsSpelled kind (slice_range bytes.now from n) → ⊥) }
    ensures none { IfNone result ((kind : Kind) (n : ℕ) → n ≤ length bytes.now → IsSpelled kind (slice_range bytes.now from n) → ⊥) }
{
    let a = bytes[from];
    let b = byte_at(bytes, from + 1);
    let c = byte_at(bytes, from.saturating_add(2));
    if let Some(kind) = mark_of_three(a, b, c) {
        return Some((kind, from + 3));
    }
    if let Some(kind) = mark_of_two(a, b) {
        return Some((kind, from + 2));
    }
    match mark_of_one(a) {
        Some(kind) => Some((kind, from + 1)),
        None => None,
    }
}
