// The rules on the bytes of a text.
use go_base::{Family, Rule};

/// A byte that may not stand in a source file: not UTF-8, NUL, or a byte order mark that is not
/// first (Go specification, "Source code representation").
pub const FORBIDDEN_BYTE: Rule = Rule {
    family: Family::S,
    number: 1,
};

/// A place where no token starts (Go specification, "Tokens").
pub const MISSING_TOKEN: Rule = Rule {
    family: Family::S,
    number: 2,
};
