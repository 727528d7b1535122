// The rules on go.mod, in the order of their table.
use go_base::{Family, Rule};

/// A root without go.mod.
pub const MISSING_MODULE_FILE: Rule = Rule {
    family: Family::M,
    number: 1,
};

/// Not exactly one line of go.mod that names the module by a well-formed path.
pub const MODULE_LINE: Rule = Rule {
    family: Family::M,
    number: 2,
};

/// Not exactly one line of go.mod that names a version of Go.
pub const GO_LINE: Rule = Rule {
    family: Family::M,
    number: 3,
};

/// A version of Go other than 1.21 in go.mod.
pub const OTHER_VERSION: Rule = Rule {
    family: Family::U,
    number: 1,
};
