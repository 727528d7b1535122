// What a token makes of a piece.

/// What a token makes of a piece.
#[derive(Clone, Copy, Debug, PartialEq, Eq)]
pub enum Progress {
    /// it is passed
    Passed,
    /// it opens the block of a function literal
    AtBlock,
}
