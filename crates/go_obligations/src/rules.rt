// The rules on types that need headers no node waits for.
use go_base::{Family, Rule};

/// A type that is embedded in a struct and may not be (Go specification, "Struct types").
pub const INVALID_EMBEDDING: Rule = Rule {
    family: Family::C,
    number: 9,
};

/// An interface that is no basic one, used other than as a constraint (Go specification, "General interfaces").
pub const MISUSED_CONSTRAINT: Rule = Rule {
    family: Family::C,
    number: 15,
};

/// An interface that gets one method with two types (Go specification, "Interface types", "Embedded interfaces").
pub const DIFFERING_METHODS: Rule = Rule {
    family: Family::C,
    number: 19,
};
