// The lines of an accepted package.
use go_base::{LineCol, Name};
use go_judge::Mode;
use go_module::{At, ObjId};
use go_num::Value;
use go_term::Term;

/// The lines of a package in their order, and the objects that their types name, each once, in the
/// order in which they first stand there.
#[derive(Debug, Drop)]
pub struct Records {
    pub lines: Vec<Line>,
    pub named: Vec<NamedObject>,
}

/// An object that a type names: the path of its package, its name and its place, none of a universe
/// name; whether it is declared in a function; the names of its type parameters.
#[derive(Debug, Drop)]
pub struct NamedObject {
    pub object: ObjId,
    pub path: Name,
    pub name: Name,
    pub at: Option<At>,
    pub local: bool,
    pub params: Vec<Name>,
}

/// A line: where it stands, and what it says.
#[derive(Debug, Drop)]
pub struct Line {
    pub at: At,
    pub what: What,
}

/// What a line says.
#[derive(Debug, Drop)]
pub enum What {
    /// a name, and what it is declared as
    Def(Name, DefKind),
    /// a name, and where what it denotes is declared; none in the universe
    Used(Name, Option<At>),
    /// where an expression ends, and its record
    Expr(LineCol, Mode, Option<Term>, Option<Value>),
}

/// What a name is declared as.
#[derive(Debug, Drop)]
pub enum DefKind {
    /// a constant, with its type and value
    Const(Term, Value),
    /// a defined type, and the type behind its name
    Defined(Term, Term),
    /// an alias, with the type for which it stands
    Alias(Term),
    /// a variable, a parameter or a result, with its type
    Var(Term),
    /// a field of a struct, with its type
    Field(Term),
    /// a method of an interface, with its type
    Func(Term),
    /// the name of an import, with the path of its package
    Package(Name),
}
