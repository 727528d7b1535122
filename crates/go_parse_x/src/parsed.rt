// What a call of the parser reads.
use go_tree::Node;

/// What was read.
#[derive(Debug, Drop)]
pub enum Parsed {
    /// A whole piece, and its tree.
    Whole(Node),
    /// A piece up to the block of a function literal, which is read by the caller and handed in.
    Block,
}
