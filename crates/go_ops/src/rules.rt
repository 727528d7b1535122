// The rules that operators have.
use go_base::{Family, Rule};

/// Several values, where one is needed (Go specification, "Calls").
pub const SEVERAL_VALUES: Rule = Rule {
    family: Family::R,
    number: 2,
};

/// A unary operator that is not defined on the type of its operand (Go specification, "Arithmetic operators", "Logical
/// operators").
pub const UNDEFINED_UNARY: Rule = Rule {
    family: Family::R,
    number: 3,
};

/// Operands whose types do not match (Go specification, "Operators").
pub const MISMATCHED_OPERANDS: Rule = Rule {
    family: Family::R,
    number: 4,
};

/// A binary operator that is not defined on the type of its operands (Go specification, "Arithmetic operators",
/// "Logical operators").
pub const UNDEFINED_BINARY: Rule = Rule {
    family: Family::R,
    number: 5,
};

/// Operands that do not compare (Go specification, "Comparison operators").
pub const INCOMPARABLE_OPERANDS: Rule = Rule {
    family: Family::R,
    number: 6,
};

/// An integer or a constant that is divided by a constant zero (Go specification, "Integer operators", "Constant
/// expressions").
pub const DIVISION_BY_ZERO: Rule = Rule {
    family: Family::R,
    number: 7,
};

/// A constant that the integer type does not represent that it is given, or a typed constant that overflows (Go
/// specification, "Representability", "Constant expressions").
pub const CONSTANT_OVERFLOW: Rule = Rule {
    family: Family::R,
    number: 8,
};

/// A shift whose count or left operand is not allowed (Go specification, "Operators").
pub const INVALID_SHIFT: Rule = Rule {
    family: Family::R,
    number: 9,
};

/// The address of what is neither addressable nor a composite literal (Go specification, "Address operators").
pub const NO_ADDRESS: Rule = Rule {
    family: Family::R,
    number: 10,
};

/// An indirection of no pointer (Go specification, "Address operators").
pub const NO_POINTER: Rule = Rule {
    family: Family::R,
    number: 11,
};

/// A receive from no channel, or from one for sending alone (Go specification, "Receive operator").
pub const NO_RECEIVE: Rule = Rule {
    family: Family::R,
    number: 12,
};

/// A constant of a float type that is no whole number up to 2^24 or 2^53 in size (own).
pub const UNKEPT_FLOAT: Rule = Rule {
    family: Family::U,
    number: 9,
};

/// A string constant of more than 1,048,576 bytes (own).
pub const LONG_TEXT: Rule = Rule {
    family: Family::L,
    number: 3,
};
