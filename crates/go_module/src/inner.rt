// The parts of a node in which identifiers occur, and nodes stand that can have records (Go specification,
// "Expressions", "Types", "Statements").

/// Which parts of a node these are.
#[derive(Clone, Copy, Debug, PartialEq, Eq)]
pub enum Inner {
    /// all
    All,
    /// the first: what stands before a `.`, the type of an embedded field
    First,
    /// the last: the constraint of type parameters
    Last,
    /// all behind the first, which is the name of a method or a parameter, or a label
    BehindFirst,
    /// the type behind the names of fields, without the tag
    BehindNames,
    /// all but a key that is an identifier
    BehindKey,
    /// all but the names of parameters that have the next type
    TypesAlone,
    /// none, since a label stands alone
    Neither,
}
