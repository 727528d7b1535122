// The rule on type definitions that contain themselves.
use go_base::{Family, Rule};

/// A type definition that contains itself by value, directly or indirectly (Go specification, "Array types", "Struct
/// types").
pub const CONTAINED_TYPE: Rule = Rule {
    family: Family::C,
    number: 3,
};
