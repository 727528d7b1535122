// The rules on names, in the order of their table.
use go_base::{Family, Rule};

/// A declaration of a name that its block declares several times, or a parameter or result whose name its signature has
/// several times (Go specification, "Declarations and scope").
pub const REPEATED_NAME: Rule = Rule {
    family: Family::P,
    number: 4,
};

/// A name that several fields of a struct or several methods of an interface have, or a blank name of a method (Go
/// specification, "Struct types", "Interface types").
pub const REPEATED_MEMBER: Rule = Rule {
    family: Family::P,
    number: 5,
};

/// An import that declares a name which the package block declares too (Go specification, "Declarations
/// and scope").
pub const CONFLICTING_IMPORT: Rule = Rule {
    family: Family::P,
    number: 6,
};

/// An identifier that no declaration holds (Go specification, "Declarations and scope").
pub const UNDECLARED_NAME: Rule = Rule {
    family: Family::P,
    number: 7,
};

/// `init`, or `main` of package main, declared other than as a function (Go specification, "Package
/// initialization", "Program execution").
pub const RESERVED_NAME: Rule = Rule {
    family: Family::P,
    number: 8,
};

/// A package main without a function main (Go specification, "Program execution").
pub const MISSING_MAIN: Rule = Rule {
    family: Family::P,
    number: 9,
};

/// An import that nothing uses (Go specification, "Import declarations").
pub const UNUSED_IMPORT: Rule = Rule {
    family: Family::P,
    number: 10,
};

/// The blank identifier where a value or a type stands (Go specification, "Blank identifier").
pub const BLANK_VALUE: Rule = Rule {
    family: Family::P,
    number: 12,
};

/// A package name other than before a `.` (Go specification, "Qualified identifiers").
pub const MISPLACED_PACKAGE: Rule = Rule {
    family: Family::P,
    number: 13,
};

/// A name behind the `.` of a package that declares no such exported name (Go specification, "Qualified
/// identifiers", "Exported identifiers").
pub const MISSING_MEMBER: Rule = Rule {
    family: Family::P,
    number: 14,
};

/// A predeclared identifier of complex numbers, which are not checked.
pub const COMPLEX_NAME: Rule = Rule {
    family: Family::U,
    number: 8,
};
