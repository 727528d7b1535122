// Rune and string literals (Go specification, "Rune literals", "String literals").
ghost use Rattle.std.specs.Prelude.{◌≡◌, ◌≤◌, ◌<◌, ◌+◌, ℕ, length, slice_index, IfOk, IfErr};
ghost use Rattle.go_tree.specs.Lexical.Literals.{IsRuneLit, IsInterpretedLit, IsRawLit};
ghost use Rattle.go_scan.specs.Reading.{IsStuck};

use crate::characters::byte_at;
use crate::escapes::character;
use crate::reading::Stuck;
use crate::runs::{Test, run_end};

/// A rune literal from the byte `from` on: Ok with the offset behind it.
pub(crate) fn rune_lit(bytes: &[u8], from: usize) -> Result<usize, Stuck>
    requires { slice_index bytes.now from ≡ 39 }
    ensures whole { IfOk result (λ to. IsRuneLit bytes.now from to) }
    ensures within { IfOk result (λ to. (from < to) × (to ≤ length bytes.now)) }
    ensures stuck { IfErr result (λ e. IsStuck bytes.now from e.at) }
    ensures none { IfErr result (λ _. (to : ℕ) → IsRuneLit bytes.now from to → ⊥) }
{
    match character(bytes, from + 1, b'\'') {
        Err(at) => Err(Stuck { at }),
        Ok(close) => {
            if byte_at(bytes, close) == b'\'' {
                Ok(close + 1)
            } else {
                Err(Stuck { at: close })
            }
        }
    }
}

/// An interpreted string literal from the byte `from` on: Ok with the offset behind it.
pub(crate) fn interpreted_lit(bytes: &[u8], from: usize) -> Result<usize, Stuck>
    requires { slice_index bytes.now from ≡ 34 }
    ensures whole { IfOk result (λ to. IsInterpretedLit bytes.now from to) }
    ensures within { IfOk result (λ to. (from < to) × (to ≤ length bytes.now)) }
    ensures stuck { IfErr result (λ e. IsStuck bytes.now from e.at) }
    ensures none { IfErr result (λ _. (to : ℕ) → IsInterpretedLit bytes.now from to → ⊥) }
{
    let mut at = from + 1;
    loop {
        if byte_at(bytes, at) == b'"' {
            return Ok(at + 1);
        }
        match character(bytes, at, b'"') {
            Err(at) => return Err(Stuck { at }),
            Ok(to) => at = to,
        }
    }
}

/// A raw string literal from the byte `from` on: Ok with the offset behind it.
pub(crate) fn raw_lit(bytes: &[u8], from: usize) -> Result<usize, Stuck>
    requires { slice_index bytes.now from ≡ 96 }
    ensures whole { IfOk result (λ to. IsRawLit bytes.now from to) }
    ensures within { IfOk result (λ to. (from < to) × (to ≤ length bytes.now)) }
    ensures stuck { IfErr result (λ e. IsStuck bytes.now from e.at) }
    ensures none { IfErr result (λ _. (to : ℕ) → IsRawLit bytes.now from to → ⊥) }
{
    let close = run_end(bytes, from + 1, Test::RawLit);
    if byte_at(bytes, close) == b'`' {
        Ok(close + 1)
    } else {
        Err(Stuck { at: close })
    }
}
