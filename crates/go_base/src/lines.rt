// Many places in one text.
ghost use Rattle.std.specs.Prelude.{◌≡◌, ◌≤◌, IfOk, length};
ghost use Rattle.std.specs.List.Sorted.{IsNonDecreasing};
ghost use Rattle.go_base.specs.Lines.{AreLineStarts, IsUpTo};
ghost use Rattle.go_base.specs.Place.{line_of, column_of};

use crate::no_memory::NoMemory;
use crate::places::LineCol;
use std::alloc::Global;
use std::marker::Model;

/// Where the lines of a text start, found once, so that each place takes a search and no walk.
#[derive(Debug, Drop)]
pub struct LineStarts {
    starts: Vec<usize>,
}

impl Model for LineStarts {
    ghost use Rattle.std.specs.Prelude.{ℕ, List};

    ghost Value = { List ℕ };

    ghost view = { λ lines. lines.starts.items };
}

impl LineStarts {
    /// The starts of the lines of this text. An error is want of memory.
    pub fn of(alloc: Global, text: &[u8]) -> Result<LineStarts, NoMemory>
        ensures { IfOk result (λ lines. AreLineStarts text.now lines) }
    {
        let starts = line_starts(alloc, text)?;
        Ok(LineStarts { starts })
    }

    /// The line and the column of the byte at `offset` of the text whose lines start there, as `place` has
    /// them; an offset past the end counts as the end.
    pub fn place(&self, text: &[u8], offset: usize) -> LineCol
        requires { AreLineStarts text.now self.now }
        ensures line { result.line ≡ line_of text.now offset }
        ensures col { result.col ≡ column_of text.now offset }
    {
        let offset = offset.min(text.len());
        place_by(&self.starts, text, offset)
    }
}

// The place of an offset that is at most the length of the text.
fn place_by(starts: &[usize], text: &[u8], offset: usize) -> LineCol
    requires starts { AreLineStarts text.now starts.now }
    requires within { offset ≤ length text.now }
    ensures line { result.line ≡ line_of text.now offset }
    ensures col { result.col ≡ column_of text.now offset }
{
    let line = starts_up_to(starts, offset);
    let start = starts[line - 1];
    LineCol {
        line,
        col: offset - start + 1,
    }
}

fn line_starts(alloc: Global, bytes: &[u8]) -> Result<Vec<usize>, NoMemory>
    ensures { IfOk result (λ starts. AreLineStarts bytes.now starts.items) }
{
    let mut starts = vec![in alloc; 0]?;
    for (i, byte) in bytes.iter().enumerate() {
        if *byte == b'\n' {
            starts.push(i + 1)?;
        }
    }
    Ok(starts)
}

// How many of the starts are at most the offset.
fn starts_up_to(starts: &[usize], offset: usize) -> usize
    requires { IsNonDecreasing starts.now }
    ensures { IsUpTo starts.now offset result }
{
    starts.partition_point(|start| *start <= offset)
}
