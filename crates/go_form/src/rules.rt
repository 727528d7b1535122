// The rules on the form of a file, in the order of their table.
use go_base::{Family, Rule};

/// A token up to which no file begins with the tokens (Go specification, "Syntax" of each construct).
pub const UNEXPECTED_TOKEN: Rule = Rule {
    family: Family::S,
    number: 3,
};

/// A list of parameters where some have names and some have none (Go specification, "Function types").
pub const MIXED_PARAMETERS: Rule = Rule {
    family: Family::S,
    number: 4,
};

/// `...` at a parameter that is not the last one of a function's parameters (Go specification,
/// "Function types").
pub const MISPLACED_VARIADIC: Rule = Rule {
    family: Family::S,
    number: 5,
};

/// `.(type)` outside the guard of a type switch (Go specification, "Type switches").
pub const MISPLACED_GUARD: Rule = Rule {
    family: Family::S,
    number: 6,
};

/// A left side of `:=` that is no identifier, or the second one of a guard (Go specification, "Short
/// variable declarations", "Type switches").
pub const BAD_DEFINED_NAME: Rule = Rule {
    family: Family::S,
    number: 7,
};

/// A constant spec without expressions that no other stands before (Go specification, "Constant
/// declarations").
pub const MISSING_VALUES: Rule = Rule {
    family: Family::S,
    number: 8,
};

/// A case of a select that neither sends nor receives (Go specification, "Select statements").
pub const BAD_COMMUNICATION: Rule = Rule {
    family: Family::S,
    number: 9,
};

/// A switch over what is neither an expression nor a guard (Go specification, "Switch statements").
pub const BAD_SWITCH_HEADER: Rule = Rule {
    family: Family::S,
    number: 10,
};

/// `go` or `defer` of what is no call, or stands in parentheses (Go specification, "Go statements",
/// "Defer statements").
pub const MISSING_CALL: Rule = Rule {
    family: Family::S,
    number: 11,
};

/// A default of a switch or select that has several (Go specification, "Switch statements", "Select
/// statements").
pub const REPEATED_DEFAULT: Rule = Rule {
    family: Family::S,
    number: 12,
};

/// A post statement that is a `:=` (Go specification, "For statements").
pub const DEFINING_POST_STATEMENT: Rule = Rule {
    family: Family::S,
    number: 13,
};

/// A list of receivers that has not exactly one parameter, or `...` (Go specification, "Method
/// declarations").
pub const BAD_RECEIVER_LIST: Rule = Rule {
    family: Family::S,
    number: 14,
};

/// A method with type parameters (Go specification, "Method declarations").
pub const GENERIC_METHOD: Rule = Rule {
    family: Family::S,
    number: 15,
};

/// The third left side of a range (Go specification, "For statements").
pub const THIRD_RANGE_VARIABLE: Rule = Rule {
    family: Family::S,
    number: 16,
};

/// `[...]T` other than as the type of a literal (Go specification, "Composite literals").
pub const OPEN_ARRAY_TYPE: Rule = Rule {
    family: Family::S,
    number: 17,
};

/// An assignment with an operator that has several expressions on a side (Go specification,
/// "Assignment statements").
pub const SEVERAL_OPERANDS: Rule = Rule {
    family: Family::S,
    number: 18,
};

/// A floating-point or imaginary literal (Go specification, "Floating-point literals", "Imaginary
/// literals").
pub const FLOAT_LITERAL: Rule = Rule {
    family: Family::U,
    number: 2,
};

/// A line comment `//go:build` before the package clause, which would select the file.
pub const BUILD_CONSTRAINT: Rule = Rule {
    family: Family::U,
    number: 3,
};

/// An alias with type parameters (Go specification, "Alias declarations").
pub const GENERIC_ALIAS: Rule = Rule {
    family: Family::U,
    number: 4,
};

/// A type with type parameters that a function declares (Go specification, "Type parameter
/// declarations").
pub const LOCAL_GENERIC_TYPE: Rule = Rule {
    family: Family::U,
    number: 5,
};

/// The first token whose height passes 1,000, where a file begins with the tokens up to it.
pub const GREAT_HEIGHT: Rule = Rule {
    family: Family::L,
    number: 6,
};
