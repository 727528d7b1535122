// Values of constants (Go specification, "Constants").

use go_base::Bytes;

/// The value of a constant.
#[derive(Debug, Drop, PartialEq, Eq)]
pub enum Value {
    /// a truth value
    Bool(bool),
    /// a whole number; runes are whole numbers too
    Int(i128),
    /// the bytes of a string
    Text(Bytes),
}

/// The kind of an untyped value.
#[derive(Clone, Copy, Debug, PartialEq, Eq)]
pub enum NumKind {
    /// untyped boolean
    Bool,
    /// untyped integer
    Int,
    /// untyped rune
    Rune,
    /// untyped string
    Text,
    /// untyped nil
    Nil,
}
