// Build constraints before the package clause (Go specification, "Comments").
ghost use Rattle.std.specs.Prelude.{◌≡◌, ◌≢◌, ℕ, ◌+◌, ◌-◌, ◌<◌, ◌≤◌, ◌⊎◌, ◌==◌, ◌&&◌, ◌↔◌, ◌++◌, ◌∷◌, [], true, false, length, slice_index, IsTrue, OnOk};
ghost use Rattle.go_base.specs.Place.{is_blank};
ghost use Rattle.go_tree.specs.Lexical.Characters.{decoded_at, is_white_space};
ghost use Rattle.go_tree.specs.Lexical.Comments.{Closes, IsLineComment, IsGeneralComment};
ghost use Rattle.go_tree.specs.Lexical.Scan.{Space, Gap};
ghost use Rattle.go_form.specs.BuildConstraints.{begins_with_mark, is_line_start, BeginsLine, is_build_line, GetsBuildConstraints};

use bstr::decode_utf8;
use go_base::{NoMemory, is_blank};

/// Pushes the offset of each build constraint, where `clause` is the offset of the package clause:
/// white space and whole comments lead up to it.
pub fn build_constraints(
    bytes: &[u8],
    clause: usize,
    found: &mut Vec<usize>,
) -> Result<(), NoMemory>
    requires { Gap false bytes.now 0 clause }
    ensures { OnOk result (GetsBuildConstraints bytes.now clause found.old.items found.new.items) }
{
    let mut at = 0;
    while at < clause {
        add_constraint(bytes, at, found)?;
        at = space_end(bytes, at);
    }
    Ok(())
}

// Pushes an offset, where a build constraint stands there if no comment does.
fn add_constraint(bytes: &[u8], at: usize, found: &mut Vec<usize>) -> Result<(), NoMemory>
    requires { at ≤ length bytes.now }
    ensures { OnOk result ((BeginsLine bytes.now at × (is_build_line bytes.now at ≡ true) × (found.new.items ≡ found.old.items ++ at ∷ []))
        ⊎ ((BeginsLine bytes.now at → is_build_line bytes.now at ≡ true → ⊥) × (found.new.items ≡ found.old.items))) }
{
    if is_build_line(bytes, at) && begins_line(bytes, at) {
        found.push(at)?;
    }
    Ok(())
}

fn is_build_line(bytes: &[u8], at: usize) -> bool
    requires { at ≤ length bytes.now }
    ensures { result ≡ is_build_line bytes.now at }
{
    bytes[at..].starts_with(b"//go:build")
        && (at + 10 == bytes.len() || is_white_space(byte_at(bytes, at + 10)))
}

fn begins_line(bytes: &[u8], at: usize) -> bool
    requires { at ≤ length bytes.now }
    ensures line { result ≡ true → BeginsLine bytes.now at }
    ensures none { result ≡ false → BeginsLine bytes.now at → ⊥ }
{
    is_line_start(bytes, blanks_start(bytes, at))
}

// Where the blanks of its line begin that stand directly before an offset.
fn blanks_start(bytes: &[u8], at: usize) -> usize
    requires { at ≤ length bytes.now }
    ensures behind { result ≤ at }
    ensures blanks { (k : ℕ) → result ≤ k → k < at → is_blank (slice_index bytes.now k) ≡ true }
    ensures first { 0 < result → is_blank (slice_index bytes.now (result - 1)) ≡ false }
{
    let mut start = at;
    while start > 0 && is_blank(bytes[start - 1]) {
        start -= 1;
    }
    start
}

fn is_line_start(bytes: &[u8], at: usize) -> bool
    ensures { result ≡ is_line_start bytes.now at }
{
    at == 0 || byte_at(bytes, at - 1) == b'\n' || (at == 3 && begins_with_mark(bytes))
}

fn begins_with_mark(bytes: &[u8]) -> bool
    ensures { result ≡ begins_with_mark bytes.now }
{
    byte_at(bytes, 0) == 0xEF && byte_at(bytes, 1) == 0xBB && byte_at(bytes, 2) == 0xBF
}

// Where the white space, the comment or the byte order mark ends that stands at an offset.
fn space_end(bytes: &[u8], at: usize) -> usize
    requires { (to : ℕ) × Space bytes.now at to }
    ensures { Space bytes.now at result }
{
    let byte = byte_at(bytes, at);
    if is_white_space(byte) {
        at + 1
    } else if byte != b'/' {
        at + char_size(bytes, at)
    } else if byte_at(bytes, at + 1) == b'/' {
        line_end(bytes, at)
    } else {
        general_end(bytes, at)
    }
}

// The bytes that the character takes which begins at an offset.
fn char_size(bytes: &[u8], at: usize) -> usize
    requires { at ≤ length bytes.now }
    ensures { result ≡ (decoded_at bytes.now at).size }
{
    decode_utf8(&bytes[at..]).1
}

fn line_end(bytes: &[u8], from: usize) -> usize
    requires { (to : ℕ) × IsLineComment bytes.now from to }
    ensures { IsLineComment bytes.now from result }
{
    let mut at = from + 2;
    while at < bytes.len() && bytes[at] != b'\n' {
        at += 1;
    }
    at
}

fn general_end(bytes: &[u8], from: usize) -> usize
    requires { (to : ℕ) × IsGeneralComment bytes.now from to }
    ensures { IsGeneralComment bytes.now from result }
{
    let mut at = from + 2;
    while !closes(bytes, at) {
        at += 1;
    }
    at + 2
}

// Whether `*/` stands at an offset.
fn closes(bytes: &[u8], at: usize) -> bool
    requires { at ≤ length bytes.now }
    ensures closes { result ≡ true → Closes bytes.now at }
    ensures open { result ≡ false → Closes bytes.now at → ⊥ }
{
    byte_at(bytes, at) == b'*' && byte_at(bytes, at + 1) == b'/'
}

// The byte at an offset; 0 behind the last.
fn byte_at(bytes: &[u8], at: usize) -> u8
    ensures { result ≡ slice_index bytes.now at }
{
    if at < bytes.len() { bytes[at] } else { 0 }
}

fn is_white_space(byte: u8) -> bool
    ensures { result ≡ is_white_space byte }
{
    matches!(byte, b' ' | b'\t' | b'\r' | b'\n')
}
