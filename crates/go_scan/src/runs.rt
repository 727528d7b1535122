// Runs of characters.
ghost use Rattle.std.specs.Prelude.{◌≡◌, ◌≤◌, length, slice_index};
ghost use Rattle.go_tree.specs.Lexical.Characters.{Run, Ends};
ghost use Rattle.go_tree.specs.Lexical.Numbers.{goes_on, is_either};
ghost use Rattle.go_scan.specs.Runs.{passes_of};

use crate::characters::{byte_at, char_at, is_allowed, is_letter_or_digit};

/// What a run is made of.
#[derive(Clone, Copy, Debug, PartialEq, Eq)]
pub(crate) enum Test {
    /// letters and digits
    Word,
    /// what a number goes on over, in hexadecimal or not
    Number(bool),
    /// what stands in a line comment
    LineComment,
    /// what stands in a raw string literal
    RawLit,
}

/// Where the run ends that starts at `from`.
pub(crate) fn run_end(bytes: &[u8], from: usize, test: Test) -> usize
    requires { from ≤ length bytes.now }
    ensures run { Run (passes_of test) bytes.now from result }
    ensures ends { Ends (passes_of test) bytes.now result }
    ensures within { (from ≤ result) × (result ≤ length bytes.now) }
{
    let mut at = from;
    loop {
        let before = byte_at(bytes, at.saturating_sub(1));
        match char_at(bytes, at) {
            Some((c, size)) if passes(test, before, c) => at += size,
            _ => return at,
        }
    }
}

fn passes(test: Test, before: u8, c: char) -> bool
    ensures { result ≡ passes_of test before c }
{
    match test {
        Test::Word => is_letter_or_digit(c),
        Test::Number(hexadecimal) => goes_on(hexadecimal, before, c),
        Test::LineComment => is_allowed(c) && c != '\n',
        Test::RawLit => is_allowed(c) && c != '`',
    }
}

fn goes_on(hexadecimal: bool, before: u8, c: char) -> bool
    ensures { result ≡ goes_on hexadecimal before c }
{
    match c {
        '.' => true,
        '+' | '-' => {
            is_letter_or_digit(c)
                || is_either(b'p', before)
                || (is_either(b'e', before) && !hexadecimal)
        }
        _ => is_letter_or_digit(c),
    }
}

/// Whether a byte is a letter, small or capital, where `small` is the small one.
pub(crate) fn is_either(small: u8, byte: u8) -> bool
    ensures { result ≡ is_either small byte }
{
    byte == small || byte.checked_add(32) == Some(small)
}
