// The rules on expressions and types by themselves that several constructs can break. U0, which they break too, stands in
// go_module.
use go_base::{Family, Rule};

/// An integer constant outside -2^127 to 2^127-1 (Go specification, "Constants").
pub const WIDE_INTEGER: Rule = Rule {
    family: Family::L,
    number: 2,
};

/// A length of an array that is no constant from 0 on that an `int` represents (Go specification, "Array types").
pub const NO_LENGTH: Rule = Rule {
    family: Family::C,
    number: 12,
};

/// Something other than a type, where a type is needed (Go specification, "Types").
pub const NO_TYPE: Rule = Rule {
    family: Family::C,
    number: 13,
};

/// No value, or no constant, where one is needed (Go specification, "Expressions").
pub const NO_VALUE: Rule = Rule {
    family: Family::R,
    number: 1,
};

/// A type deeper than 256 types (own).
pub const DEEP_TYPE: Rule = Rule {
    family: Family::L,
    number: 4,
};

/// A type of more than 65,536 nodes (own).
pub const LARGE_TYPE: Rule = Rule {
    family: Family::L,
    number: 5,
};
