// What stands between two tokens (Go specification, "Comments", "Tokens", "Semicolons").
ghost use Rattle.std.specs.Prelude.{◌≡◌, ◌≢◌, ◌<◌, ◌≤◌, ◌⊎◌, ℕ, true, false, length, slice_index, IfOk, IfErr, IfSome, IfNone};
ghost use Rattle.go_tree.specs.Lexical.Characters.{is_white_space};
ghost use Rattle.go_tree.specs.Lexical.Comments.{OpensLine, OpensGeneral};
ghost use Rattle.go_tree.specs.Lexical.Scan.{Space, Gap, IsFirstNewline};
ghost use Rattle.go_scan.specs.Gaps.{HasNoSpace, IsHere};
ghost use Rattle.go_scan.specs.Reading.{IsStuck};

use crate::characters::{byte_at, char_at, is_white_space};
use crate::comments::{general_comment, line_comment};
use crate::reading;

/// What stands behind all that is passed over.
#[derive(Clone, Copy, Debug, PartialEq, Eq)]
pub(crate) enum Here {
    /// a newline that inserts a semicolon: its offset, and where the space ends that it stands in
    Newline(usize, usize),
    /// a comment that is not whole
    Stuck(reading::Stuck),
    /// neither space nor a comment
    Other,
}

/// Where the next thing stands from `at` on, and what it is.
pub(crate) fn place(bytes: &[u8], at: usize, stops: bool) -> (usize, Here)
    requires { at ≤ length bytes.now }
    ensures gap { Gap stops bytes.now at result.0 }
    ensures within { (at ≤ result.0) × (result.0 ≤ length bytes.now) }
    ensures here { IsHere bytes.now result.0 stops result.1 }
{
    let mut place = at;
    loop {
        match space(bytes, place) {
            Ok(Some(end)) => match newline(bytes, place, end, stops) {
                Some(from) => return (place, Here::Newline(from, end)),
                None => place = end,
            },
            Ok(None) => return (place, Here::Other),
            Err(stuck) => return (place, Here::Stuck(stuck)),
        }
    }
}

// The end of the space that stands at an offset, where one does; Err where a comment opens there
// that is not whole.
fn space(bytes: &[u8], at: usize) -> Result<Option<usize>, reading::Stuck>
    requires { at ≤ length bytes.now }
    ensures space { IfOk result (λ r. IfSome r (λ to. Space bytes.now at to × (at < to) × (to ≤ length bytes.now))) }
    ensures other { IfOk result (λ r. IfNone r (HasNoSpace bytes.now at × (OpensLine bytes.now at → ⊥) × (OpensGeneral bytes.now at → ⊥))) }
    ensures stuck { IfErr result (λ e. HasNoSpace bytes.now at × (OpensLine bytes.now at ⊎ OpensGeneral bytes.now at) × IsStuck bytes.now at e.at) }
{
    let byte = byte_at(bytes, at);
    if is_white_space(byte) {
        Ok(Some(at + 1))
    } else if byte == b'/' {
        comment(bytes, at)
    } else {
        Ok(mark_end(bytes, at))
    }
}

// The end of the comment that stands at a `/`.
fn comment(bytes: &[u8], at: usize) -> Result<Option<usize>, reading::Stuck>
    requires { slice_index bytes.now at ≡ 47 }
    ensures space { IfOk result (λ r. IfSome r (λ to. Space bytes.now at to × (at < to) × (to ≤ length bytes.now))) }
    ensures other { IfOk result (λ r. IfNone r (HasNoSpace bytes.now at × (OpensLine bytes.now at → ⊥) × (OpensGeneral bytes.now at → ⊥))) }
    ensures stuck { IfErr result (λ e. HasNoSpace bytes.now at × (OpensLine bytes.now at ⊎ OpensGeneral bytes.now at) × IsStuck bytes.now at e.at) }
{
    let next = byte_at(bytes, at + 1);
    if next == b'/' {
        match line_comment(bytes, at) {
            Ok(end) => Ok(Some(end)),
            Err(stuck) => Err(stuck),
        }
    } else if next == b'*' {
        match general_comment(bytes, at) {
            Ok(end) => Ok(Some(end)),
            Err(stuck) => Err(stuck),
        }
    } else {
        Ok(None)
    }
}

// The end of the byte order mark that stands at an offset, where it is the first character.
fn mark_end(bytes: &[u8], at: usize) -> Option<usize>
    requires within { at ≤ length bytes.now }
    requires blank { is_white_space (slice_index bytes.now at) ≡ false }
    requires slash { slice_index bytes.now at ≢ 47 }
    ensures space { IfSome result (λ to. Space bytes.now at to × (at < to) × (to ≤ length bytes.now)) }
    ensures other { IfNone result (HasNoSpace bytes.now at × (OpensLine bytes.now at → ⊥) × (OpensGeneral bytes.now at → ⊥)) }
{
    if at > 0 {
        return None;
    }
    let (c, len) = char_at(bytes, at)?;
    if c == '\u{FEFF}' {
        Some(at + len)
    } else {
        None
    }
}

// The first newline in space that stops a line.
fn newline(bytes: &[u8], from: usize, to: usize, stops: bool) -> Option<usize>
    requires { to ≤ length bytes.now }
    ensures some { IfSome result (λ at. (stops ≡ true) × IsFirstNewline bytes.now from to at) }
    ensures none { IfNone result (stops ≡ true → (at : ℕ) → IsFirstNewline bytes.now from to at → ⊥) }
{
    if stops {
        first_newline(bytes, from, to)
    } else {
        None
    }
}

fn first_newline(bytes: &[u8], from: usize, to: usize) -> Option<usize>
    requires { to ≤ length bytes.now }
    ensures some { IfSome result (λ at. IsFirstNewline bytes.now from to at) }
    ensures none { IfNone result ((at : ℕ) → IsFirstNewline bytes.now from to at → ⊥) }
{
    let mut at = from;
    while at < to {
        if bytes[at] == b'\n' {
            return Some(at);
        }
        at += 1;
    }
    None
}
