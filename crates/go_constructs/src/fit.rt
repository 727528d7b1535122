// How constants fit types (Go specification, "Representability").

/// How a constant fits a type.
#[derive(Clone, Copy, Debug, PartialEq, Eq)]
pub enum Fit {
    /// the type represents it
    Fits,
    /// it is outside the range of the integer type
    Overflows,
    /// it is no whole number that is kept of the float type
    Unkept,
    /// it is an untyped integer outside -2^127 to 2^127-1
    Wide,
    /// it is a string of more than 1,048,576 bytes
    Long,
    /// it is of another kind than the type
    Differs,
}
