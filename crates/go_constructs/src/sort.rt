// What operators see of types (Go specification, "Types", "Numeric types", "Constants").
use go_num::{IntType, NumKind};

/// A float type.
#[derive(Clone, Copy, Debug, PartialEq, Eq)]
pub enum FloatType {
    Float32,
    Float64,
}

/// An underlying type, as far as operators tell types apart.
#[derive(Clone, Copy, Debug, PartialEq, Eq)]
pub enum Sort {
    /// that of an untyped value
    Untyped(NumKind),
    /// a boolean type
    Bool,
    /// an integer type
    Int(IntType),
    /// a float type
    Float(FloatType),
    /// a string type
    Text,
    /// an interface
    Interface,
    /// any other type, and none
    Other,
}
