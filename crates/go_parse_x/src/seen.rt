// What the machine sees of the text, and what it makes of a token.
use go_tree::{Token, TokenKind};

/// The next token, the kind of the one behind it where that was looked at, and where the one before it ended.
#[derive(Clone, Copy, Debug, PartialEq, Eq)]
pub struct Seen {
    pub token: Token,
    pub ahead: Option<TokenKind>,
    pub last: usize,
    /// Whether blocks are handed over.
    pub hands_over: bool,
}

/// What the machine makes of the next token.
#[derive(Clone, Copy, Debug, PartialEq, Eq)]
pub enum Turn {
    /// it is passed
    Passed,
    /// it is not passed yet, and less is to be read before it
    Turned,
    /// the same, and the token behind it was asked for
    Asked,
    /// it cannot stand here
    Stuck,
    /// it can stand here, but not before the token that follows
    Astray,
    /// it can stand here, and no token follows that would decide how
    Unseen,
    /// it opens a block that is handed over
    AtBlock,
}
