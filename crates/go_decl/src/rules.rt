// The rules on values that are told at declarations and specs.
use go_base::{Family, Rule};

/// A declaration that needs its own header (Go specification, "Declarations and scope").
pub const CYCLIC_DECLARATION: Rule = Rule {
    family: Family::C,
    number: 1,
};

/// A constant spec with more or fewer names than expressions (Go specification, "Constant declarations").
pub const UNEQUAL_SIDES: Rule = Rule {
    family: Family::R,
    number: 37,
};
