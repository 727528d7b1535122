// Identifiers (Go specification).
ghost use Rattle.std.specs.Prelude.{◌≡◌, ◌<◌, ◌≤◌, ℕ, length, IfSome, IfNone};
ghost use Rattle.go_tree.specs.Lexical.Tokens.{IsWord};

use crate::characters::{char_at, is_letter};
use crate::runs::{Test, run_end};

/// Where the longest identifier or keyword ends that starts at `from`.
pub(crate) fn word_end(bytes: &[u8], from: usize) -> Option<usize>
    requires { from ≤ length bytes.now }
    ensures word { IfSome result (λ to. IsWord bytes.now from to × (from < to) × (to ≤ length bytes.now)) }
    ensures longest { IfSome result (λ to. (n : ℕ) → IsWord bytes.now from n → n ≤ to) }
    ensures none { IfNone result ((n : ℕ) → IsWord bytes.now from n → ⊥) }
{
    let (c, len) = char_at(bytes, from)?;
    if is_letter(c) {
        Some(run_end(bytes, from + len, Test::Word))
    } else {
        None
    }
}
