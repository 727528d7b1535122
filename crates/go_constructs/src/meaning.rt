// What identifiers mean where types are known and the headers of declarations are asked for (Go specification,
// "Declarations and scope", "Qualified identifiers", "Predeclared identifiers").
use go_module::ObjId;
use go_term::Basic;

/// What an identifier means in a package that is checked.
#[derive(Clone, Copy, Debug, PartialEq, Eq)]
pub enum Meaning {
    /// a constant, a variable or an alias that is declared in the package, or in one that it imports
    Declared(ObjId),
    /// a type that is defined in the package, or in one that it imports
    DefinedType(ObjId),
    /// a predeclared type, or an alias of one
    BasicType(ObjId, Basic),
    /// `any`
    AnyType(ObjId),
    /// `true`, `false`
    Truth(ObjId, bool),
    /// `iota`, with the number of the constant spec around it, where one stands around it
    Iota(ObjId, Option<usize>),
    /// any other predeclared identifier
    Predeclared,
    /// nothing that has a header or is a type: the name of a package, or nothing at all
    Other,
}
