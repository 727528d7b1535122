// Places in the texts of a module, and their lines and columns.
ghost use Rattle.std.specs.Prelude.{◌≡◌, ◌≤◌, length};
ghost use Rattle.go_base.specs.Place.{line_of, column_of};

/// A byte of a module's text: the number of its file, and the bytes of that file before it. Files are
/// numbered from 0 in the order in which they are read; go.mod, which is no file of Go, has 0.
#[derive(Clone, Copy, Debug, PartialEq, Eq, PartialOrd, Ord)]
pub struct Pos {
    pub file: usize,
    pub offset: usize,
}

/// A line and a column, both counted from 1, the column in bytes.
#[derive(Clone, Copy, Debug, PartialEq, Eq)]
pub struct LineCol {
    pub line: usize,
    pub col: usize,
}

/// The line and the column of the byte at `offset`, or of the end of the text. A newline belongs to
/// the line that it ends.
pub fn place(bytes: &[u8], offset: usize) -> LineCol
    requires { offset ≤ length bytes.now }
    ensures line { result.line ≡ line_of bytes.now offset }
    ensures col { result.col ≡ column_of bytes.now offset }
{
    let before = &bytes[..offset];
    let mut newlines = 0;
    let mut start = 0;
    for (i, byte) in before.iter().enumerate() {
        if *byte == b'\n' {
            newlines += 1;
            start = i + 1;
        }
    }
    LineCol {
        line: newlines + 1,
        col: offset - start + 1,
    }
}
