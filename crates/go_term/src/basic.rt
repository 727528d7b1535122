// Basic types.
ghost use Rattle.std.specs.Prelude.{◌≡◌, Some};
ghost use Rattle.go_term.specs.Basics.{basic_text};

use std::fmt;

/// A predeclared type that is no alias, or the kind of an untyped constant (Go specification, "Predeclared
/// identifiers", "Constants"). It prints as in Go's error messages, an untyped kind as `untyped int`.
#[derive(Clone, Copy, Debug, PartialEq, Eq)]
pub enum Basic {
    Bool,
    /// the interface that all strictly comparable types implement
    Comparable,
    Complex64,
    Complex128,
    /// the interface with the one method `Error() string`
    Error,
    Float32,
    Float64,
    Int,
    Int8,
    Int16,
    Int32,
    Int64,
    String,
    Uint,
    Uint8,
    Uint16,
    Uint32,
    Uint64,
    Uintptr,
    UntypedBool,
    UntypedInt,
    UntypedRune,
    UntypedString,
    UntypedNil,
}

impl fmt::Display for Basic {
    ghost output = { λ basic. Some (basic_text basic) };

    fn fmt<W: fmt::Write>(&self, f: &mut fmt::Formatter<W>) -> fmt::Result {
        f.write_str(match self {
            Basic::Bool => "bool",
            Basic::Comparable => "comparable",
            Basic::Complex64 => "complex64",
            Basic::Complex128 => "complex128",
            Basic::Error => "error",
            Basic::Float32 => "float32",
            Basic::Float64 => "float64",
            Basic::Int => "int",
            Basic::Int8 => "int8",
            Basic::Int16 => "int16",
            Basic::Int32 => "int32",
            Basic::Int64 => "int64",
            Basic::String => "string",
            Basic::Uint => "uint",
            Basic::Uint8 => "uint8",
            Basic::Uint16 => "uint16",
            Basic::Uint32 => "uint32",
            Basic::Uint64 => "uint64",
            Basic::Uintptr => "uintptr",
            Basic::UntypedBool => "untyped bool",
            Basic::UntypedInt => "untyped int",
            Basic::UntypedRune => "untyped rune",
            Basic::UntypedString => "untyped string",
            Basic::UntypedNil => "untyped nil",
        })
    }
}
