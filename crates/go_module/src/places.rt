// Places of a report, and of broken rules by the numbers of their files (Go specification, "Source code
// representation").
ghost use Rattle.std.specs.Prelude.{◌≡◌, IfOk, map};
ghost use Rattle.go_base.specs.Place.{line_of, column_of};
ghost use Rattle.go_module.specs.Modules.Module.{file_view};
ghost use Rattle.go_module.specs.Places as spec;

use crate::module::SourceFile;
use go_base::{Broken, LineCol, Name, NoMemory, Pos, Rule};
use std::alloc::Global;

/// A place: whether its file lies below the root of stubs, the file's path below its root, and the line
/// and the column, in bytes, both from 1.
#[derive(Debug, Drop)]
pub struct At {
    pub stub: bool,
    pub file: Name,
    pub line: usize,
    pub col: usize,
}

/// A broken rule and its place.
#[derive(Debug, Drop)]
pub struct Placed {
    pub at: At,
    pub rule: Rule,
}

impl SourceFile {
    /// The line and the column of an offset; one past the end is the end.
    pub fn line_col(&self, offset: usize) -> LineCol
        ensures line { result.line ≡ line_of self.now.bytes offset }
        ensures col { result.col ≡ column_of self.now.bytes offset }
    {
        self.lines.place(self.bytes.as_slice(), offset)
    }

    /// The place of an offset in a report, of a file below the root of stubs or not; one past the end is the
    /// end. An error is want of memory.
    pub fn at(&self, stub: bool, offset: usize) -> Result<At, NoMemory>
        ensures { IfOk result (λ at. at ≡ spec.at_offset stub (file_view self.now) offset) }
    {
        let place = self.line_col(offset);
        Ok(At {
            stub,
            file: self.name.clone()?,
            line: place.line,
            col: place.col,
        })
    }
}

/// These rules, which are broken in files that are known by their places among these, each told by the number
/// of its file. An error is want of memory.
pub fn with_numbers(
    alloc: Global,
    files: &[SourceFile],
    found: &[Broken],
) -> Result<Vec<Broken>, NoMemory>
    ensures { IfOk result (λ told.
        told.items ≡ map (spec.with_number (map file_view files.now)) found.now) }
{
    Ok(
        found
            .iter()
            .map(|broken| with_number(files, *broken))
            .collect(alloc)?,
    )
}

fn with_number(files: &[SourceFile], broken: Broken) -> Broken
    ensures { result ≡ spec.with_number (map file_view files.now) broken }
{
    Broken {
        pos: Pos {
            file: number_at(files, broken.pos.file),
            offset: broken.pos.offset,
        },
        rule: broken.rule,
    }
}

// The number of the file at a place, and 0 where there is none.
fn number_at(files: &[SourceFile], place: usize) -> usize
    ensures { result ≡ spec.number_at (map file_view files.now) place }
{
    match files.get(place) {
        Some(file) => file.tree.number,
        None => 0,
    }
}
