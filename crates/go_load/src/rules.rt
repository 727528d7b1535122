// The rules on files, imports and package clauses, in the order of their table.
use go_base::{Family, Rule};

/// An import whose path is empty or names no package (Go specification, "Import declarations").
pub const MISSING_PACKAGE: Rule = Rule {
    family: Family::P,
    number: 1,
};

/// An import on a cycle of imports (Go specification, "Import declarations").
pub const CYCLIC_IMPORT: Rule = Rule {
    family: Family::P,
    number: 2,
};

/// The name in a package clause, where those of a folder differ or one is `_` (Go specification,
/// "Package clause").
pub const MIXED_PACKAGE: Rule = Rule {
    family: Family::P,
    number: 3,
};

/// A path of a file with a byte other than ASCII letters, digits and `-._~+/`.
pub const SPECIAL_FILE_PATH: Rule = Rule {
    family: Family::U,
    number: 6,
};

/// An import of `C` or `unsafe`, or of a path that begins with `.` or `/`.
pub const SPECIAL_IMPORT: Rule = Rule {
    family: Family::U,
    number: 7,
};

/// A file of more than 16,777,216 bytes.
pub const LARGE_FILE: Rule = Rule {
    family: Family::L,
    number: 1,
};
