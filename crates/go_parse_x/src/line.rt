// Right sides of productions as flat lines of steps.
use go_tree::{NodeKind, Production, TokenKind};

/// What is asked of the tokens that come next.
#[derive(Clone, Copy, Debug, PartialEq, Eq)]
pub enum Asked {
    /// whether the next one is `{`
    Brace,
    /// whether it is `[`
    Bracket,
    /// whether it begins a result
    Result,
    /// whether the next two are `.` and an identifier
    Qualifier,
    /// whether they are `<-` and `chan`
    Receive,
}

/// What is done with the open nodes.
#[derive(Clone, Copy, Debug, PartialEq, Eq)]
pub enum Act {
    /// a node begins at the next token
    Open,
    /// a node begins whose first part is the node that was read last
    Reopen,
    /// the node that was read before the innermost open one becomes its first part
    Adopt,
    /// the node that was read last has to be written as a type is
    CheckType,
    /// the innermost open node ends with the last token
    Close(NodeKind),
}

/// One step of a line. Behind it stand the steps of its first part, and behind those the steps of the
/// second: the number says how many the first part has. Beside a choice stands the set of the kinds
/// that the first part begins with; the first part of an `Or` is never empty.
#[derive(Clone, Copy, Debug, PartialEq, Eq)]
pub enum Step {
    Pass(TokenKind),
    Open,
    Reopen,
    Adopt,
    CheckType,
    Close(NodeKind),
    Call(Production),
    Nothing,
    Seq(u16),
    Or(u16, u128),
    Many(u128),
    When(Asked, u16),
}
