// Declarations (Go specification, "Declarations and scope").

/// How the header of a declaration, which is what it tells others, is built of the parts that it rests on.
#[derive(Clone, Copy, Debug, PartialEq, Eq)]
pub enum Built {
    /// by the declaration itself: a type, an alias, a variable with a type, a function
    Itself,
    /// of the value that stands for the name ("the nth identifier on the left is bound to the value of the nth
    /// expression on the right")
    Pair,
    /// of a whole list, which stands for all names of its spec
    WholeList,
}
