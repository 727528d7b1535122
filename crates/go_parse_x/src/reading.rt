// What is read as one piece.
ghost use Rattle.std.specs.Prelude.{◌≡◌};
ghost use Rattle.go_parse_x.specs.Targets.{hands, piece};

use go_tree::{Form, Production};

/// What a piece is.
#[derive(Clone, Copy, Debug, PartialEq, Eq)]
pub enum Reading {
    /// an expression
    Plain,
    /// an expression in the header of an `if`, `for` or `switch`: outside brackets a `{` after a name
    /// begins no composite literal ("Composite literals")
    Header,
    /// a type
    TypeOnly,
    /// parameters and results ("Function types")
    Signature,
    /// parameters in their parentheses
    Params,
    /// type parameters in their brackets ("Type parameter declarations")
    TypeParams,
}

/// What is read: a piece, or a whole file.
#[derive(Clone, Copy, Debug, PartialEq, Eq)]
pub enum Target {
    Piece(Reading),
    File,
}

impl Target {
    /// The production that is read.
    pub fn production(self) -> Production
        ensures { result ≡ piece self }
    {
        match self {
            Target::File => Production::File,
            Target::Piece(Reading::Plain) => Production::Expr(Form::Plain),
            Target::Piece(Reading::Header) => Production::Expr(Form::Header),
            Target::Piece(Reading::TypeOnly) => Production::AnyType,
            Target::Piece(Reading::Signature) => Production::Signature,
            Target::Piece(Reading::Params) => Production::Params,
            Target::Piece(Reading::TypeParams) => Production::TypeParams,
        }
    }

    /// Whether the blocks of function literals are handed over.
    pub fn hands_over(self) -> bool
        ensures { result ≡ hands self }
    {
        match self {
            Target::File => false,
            Target::Piece(_) => true,
        }
    }
}
