// Why a text, or a piece of one, has no tree.
use go_base::NoMemory;
use go_tree::Lex;

/// Why there is no tree. Offsets are bytes of the text, from 0. A piece is what is read as one: a whole
/// file, or an expression, a type, a signature or a list of parameters.
#[derive(Clone, Copy, Debug, PartialEq, Eq)]
pub enum ParseFault {
    /// No token starts at the next place.
    Lexical(Lex),
    /// No piece begins with the tokens up to the one that starts here; those before it begin one, and
    /// are none.
    Syntax(usize),
    /// The token that starts here is the first whose height passes what is free.
    High(usize),
    /// Memory was refused, numbers of nodes were used up, or the copies of omitted lists would have more
    /// nodes together than a reader makes.
    NoMemory,
}

impl From<NoMemory> for ParseFault {
    fn from(_: NoMemory) -> Self {
        ParseFault::NoMemory
    }
}
