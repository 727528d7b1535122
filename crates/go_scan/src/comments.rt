// Comments (Go specification).
ghost use Rattle.std.specs.Prelude.{◌≡◌, ℕ, ◌+◌, ◌≤◌, length, slice_index, IfOk, IfErr, IfSome, IfNone, ◌==◌, ◌&&◌};
ghost use Rattle.go_tree.specs.Lexical.Comments.{OpensLine, OpensGeneral, IsLineComment, IsGeneralComment, in_general_comment};
ghost use Rattle.go_scan.specs.Reading.{IsStuck};
ghost use Rattle.go_tree.specs.Lexical.Characters.{Ends};
ghost use Rattle.go_scan.specs.Runs.{IsAllowedChar};

use crate::characters::{byte_at, char_at, is_allowed};
use crate::reading::Stuck;
use crate::runs::{Test, run_end};

/// A line comment from the byte `from` on: Ok with the offset behind it.
#[tactic(auto, using(go_tree::proofs::SpaceLemmas::opens_within))]
pub(crate) fn line_comment(bytes: &[u8], from: usize) -> Result<usize, Stuck>
    requires { OpensLine bytes.now from }
    ensures whole { IfOk result (λ to. IsLineComment bytes.now from to) }
    ensures within { IfOk result (λ to. (from + 2 ≤ to) × (to ≤ length bytes.now)) }
    ensures stuck { IfErr result (λ e. IsStuck bytes.now from e.at) }
    ensures none { IfErr result (λ _. (to : ℕ) → IsLineComment bytes.now from to → ⊥) }
{
    let to = run_end(bytes, from + 2, Test::LineComment);
    if to == bytes.len() {
        return Ok(to);
    }
    if byte_at(bytes, to) == b'\n' {
        Ok(to)
    } else {
        Err(Stuck { at: to })
    }
}

/// A general comment from the byte `from` on: Ok with the offset behind it.
pub(crate) fn general_comment(bytes: &[u8], from: usize) -> Result<usize, Stuck>
    requires { OpensGeneral bytes.now from }
    ensures whole { IfOk result (λ to. IsGeneralComment bytes.now from to) }
    ensures within { IfOk result (λ to. (from + 2 ≤ to) × (to ≤ length bytes.now)) }
    ensures stuck { IfErr result (λ e. IsStuck bytes.now from e.at) }
    ensures none { IfErr result (λ _. (to : ℕ) → IsGeneralComment bytes.now from to → ⊥) }
{
    let mut at = from + 2;
    loop {
        if closes(bytes, at) {
            return Ok(at + 2);
        }
        match allowed_len(bytes, at) {
            Some(len) => at += len,
            None => return Err(Stuck { at }),
        }
    }
}

// The length of the character that stands at an offset, where one does that is allowed.
fn allowed_len(bytes: &[u8], at: usize) -> Option<usize>
    requires { at ≤ length bytes.now }
    ensures some { IfSome result (λ len. IsAllowedChar bytes.now at len) }
    ensures none { IfNone result (Ends in_general_comment bytes.now at) }
{
    let (c, len) = char_at(bytes, at)?;
    is_allowed(c).then_some(len)
}

// Whether `*/` stands at an offset.
fn closes(bytes: &[u8], at: usize) -> bool
    requires { at ≤ length bytes.now }
    ensures { result ≡ ((slice_index bytes.now at == 42) && (slice_index bytes.now (at + 1) == 47)) }
{
    byte_at(bytes, at) == b'*' && byte_at(bytes, at + 1) == b'/'
}
