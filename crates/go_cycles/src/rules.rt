// The rules on chains of type declarations.
use go_base::{Family, Rule};

/// A type definition or an alias whose chain of right sides never ends (Go specification, "Type declarations").
pub const CYCLIC_DEFINITION: Rule = Rule {
    family: Family::C,
    number: 4,
};

/// An interface that is embedded in itself, directly or indirectly (Go specification, "Interface types", "General
/// interfaces").
pub const CYCLIC_EMBEDDING: Rule = Rule {
    family: Family::C,
    number: 5,
};
