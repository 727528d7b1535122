// Lines of go.mod (Go modules reference, "go.mod files").
ghost use Rattle.std.specs.Prelude.{◌≡◌, ◌≤◌, ◌∷◌, ◌++◌, List, map, length, false, IfOk};
ghost use Rattle.std.specs.List.{position_or_len, prefix_len, suffix_len};
ghost use Rattle.go_base.specs.Place.{is_blank, is_newline};
ghost use Rattle.go_mod.specs.ModuleLines.{LineText, is_not_blank, is_text, trim_start, trim_end, before_comment, content, first_word, argument, opens_block, closes_block, lines_of, outside_blocks};
ghost use Rattle.go_mod.specs.Seen.{seen};

use go_base::{NoMemory, is_blank};
use std::alloc::Global;

/// A text of go.mod, and the offset of the line that it stands in.
#[derive(Clone, Copy, Debug)]
pub(crate) struct Line<'a> {
    pub(crate) offset: usize,
    pub(crate) text: &'a [u8],
}

/// What counts of each line that stands in no block.
pub(crate) fn outside_blocks(alloc: Global, bytes: &[u8]) -> Result<Vec<Line<'_>>, NoMemory>
    ensures { IfOk result (λ lines.
        map seen lines.items ≡ outside_blocks false (lines_of bytes.now)) }
{
    let mut lines = Vec::new(alloc);
    let mut in_block = false;
    let mut offset = 0;
    while offset <= bytes.len() {
        let rest = &bytes[offset..];
        let len = line_len(rest);
        let text = content(&rest[..len]);
        in_block = add_line(&mut lines, Line { offset, text }, in_block)?;
        offset += len + 1;
    }
    Ok(lines)
}

// Pushes the line, if it stands in no block, and says whether the next one stands in an open block.
fn add_line<'a>(lines: &mut Vec<Line<'a>>, line: Line<'a>, in_block: bool) -> Result<bool, NoMemory>
    ensures { IfOk result (λ next_in. (rest : List LineText) →
        map seen lines.new.items ++ outside_blocks next_in rest
        ≡ map seen lines.old.items ++ outside_blocks in_block (seen line.entry ∷ rest)) }
{
    if in_block {
        return Ok(!closes_block(line.text));
    }
    if opens_block(line.text) {
        return Ok(true);
    }
    lines.push(line)?;
    Ok(false)
}

// How many bytes stand before the first newline.
fn line_len(bytes: &[u8]) -> usize
    ensures within { result ≤ length bytes.now }
    ensures len { result ≡ position_or_len is_newline bytes.now }
{
    bytes.iter().take_while(|byte| **byte != b'\n').count()
}

fn content(line: &[u8]) -> &[u8]
    ensures { result.now ≡ content line.now }
{
    trim_end(trim_start(before_comment(line)))
}

fn before_comment(line: &[u8]) -> &[u8]
    ensures { result.now ≡ before_comment line.now }
{
    let mut end = 0;
    while end < line.len() && !line[end..].starts_with(b"//") {
        end += 1;
    }
    &line[..end]
}

fn trim_start(text: &[u8]) -> &[u8]
    ensures { result.now ≡ trim_start text.now }
{
    &text[blanks_len(text)..]
}

fn trim_end(text: &[u8]) -> &[u8]
    ensures { result.now ≡ trim_end text.now }
{
    &text[..text.len() - end_blanks_len(text)]
}

/// The longest front without blanks.
pub(crate) fn first_word(text: &[u8]) -> &[u8]
    ensures { result.now ≡ first_word text.now }
{
    &text[..word_len(text)]
}

/// What stands behind the first word and the blanks that follow it.
pub(crate) fn argument(text: &[u8]) -> &[u8]
    ensures { result.now ≡ argument text.now }
{
    trim_start(&text[word_len(text)..])
}

// How many blanks the text begins with.
fn blanks_len(text: &[u8]) -> usize
    ensures len { result ≡ prefix_len is_blank text.now }
    ensures within { result ≤ length text.now }
{
    text.iter().take_while(|byte| is_blank(**byte)).count()
}

// How many blanks the text ends with.
fn end_blanks_len(text: &[u8]) -> usize
    ensures len { result ≡ suffix_len is_blank text.now }
    ensures within { result ≤ length text.now }
{
    text.iter()
        .rev()
        .take_while(|byte| is_blank(**byte))
        .count()
}

// How many bytes the first word has.
fn word_len(text: &[u8]) -> usize
    ensures len { result ≡ prefix_len is_not_blank text.now }
    ensures within { result ≤ length text.now }
{
    text.iter().take_while(|byte| !is_blank(**byte)).count()
}

fn opens_block(text: &[u8]) -> bool
    ensures { result ≡ opens_block text.now }
{
    let word = first_word(text);
    text.ends_with(b"(") && !(is_text(word, b"module") || is_text(word, b"go"))
}

fn closes_block(text: &[u8]) -> bool
    ensures { result ≡ closes_block text.now }
{
    text.starts_with(b")")
}

/// Whether the bytes are this text.
pub(crate) fn is_text(bytes: &[u8], text: &[u8]) -> bool
    ensures { result ≡ is_text bytes.now text.now }
{
    bytes == text
}
