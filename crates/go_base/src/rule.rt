// Rules that a module can break.
ghost use Rattle.std.specs.Prelude.{Some};
ghost use Rattle.go_base.specs.Rule.{family_letter, rule_text};

use crate::places::Pos;
use std::fmt;

/// What a rule speaks of. It prints as its letter.
#[derive(Clone, Copy, Debug, PartialEq, Eq)]
pub enum Family {
    /// The text of a file, its tokens and its syntax.
    S,
    /// The file go.mod.
    M,
    /// Imports, and the scopes of names.
    P,
    /// Declarations and types.
    C,
    /// Expressions and statements.
    R,
    /// Instantiations.
    I,
    /// Package initialization.
    N,
    /// Forms outside the language that is checked.
    U,
    /// Limits.
    L,
}

impl fmt::Display for Family {
    ghost output = { λ family. Some (family_letter family) };

    fn fmt<W: fmt::Write>(&self, f: &mut fmt::Formatter<W>) -> fmt::Result {
        f.write_str(match self {
            Family::S => "S",
            Family::M => "M",
            Family::P => "P",
            Family::C => "C",
            Family::R => "R",
            Family::I => "I",
            Family::N => "N",
            Family::U => "U",
            Family::L => "L",
        })
    }
}

/// A rule, by its family and its number in the table of rules. It prints as `R14`.
#[derive(Clone, Copy, Debug, PartialEq, Eq)]
pub struct Rule {
    pub family: Family,
    pub number: u16,
}

impl fmt::Display for Rule {
    ghost output = { λ rule. Some (rule_text rule) };

    fn fmt<W: fmt::Write>(&self, f: &mut fmt::Formatter<W>) -> fmt::Result {
        write!(f, "{}{}", self.family, self.number)
    }
}

/// A rule, and a place at which it is broken.
#[derive(Clone, Copy, Debug, PartialEq, Eq)]
pub struct Broken {
    pub pos: Pos,
    pub rule: Rule,
}
