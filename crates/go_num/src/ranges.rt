// The integer types (Go specification, "Numeric types").
ghost use Rattle.std.specs.Prelude.{◌≡◌};
ghost use Rattle.go_num.specs.Ranges as ranges;

/// An integer type.
#[derive(Clone, Copy, Debug, PartialEq, Eq)]
pub enum IntType {
    /// `int`, of 64 bits
    Int,
    /// `int8`
    Int8,
    /// `int16`
    Int16,
    /// `int32`
    Int32,
    /// `int64`
    Int64,
    /// `uint`, of 64 bits
    Uint,
    /// `uint8`
    Uint8,
    /// `uint16`
    Uint16,
    /// `uint32`
    Uint32,
    /// `uint64`
    Uint64,
    /// `uintptr`, of 64 bits
    Uintptr,
}

/// Whether a value of the type can be `a`.
pub fn fits(a: i128, t: IntType) -> bool
    ensures { result ≡ ranges.fits a t }
{
    least(t) <= a && a <= greatest(t)
}

// The least value of the type.
fn least(t: IntType) -> i128
    ensures { result ≡ ranges.least t }
{
    match t {
        IntType::Int8 => i128::from(i8::MIN),
        IntType::Int16 => i128::from(i16::MIN),
        IntType::Int32 => i128::from(i32::MIN),
        IntType::Int | IntType::Int64 => i128::from(i64::MIN),
        IntType::Uint
        | IntType::Uint8
        | IntType::Uint16
        | IntType::Uint32
        | IntType::Uint64
        | IntType::Uintptr => 0,
    }
}

// The greatest value of the type.
fn greatest(t: IntType) -> i128
    ensures { result ≡ ranges.greatest t }
{
    match t {
        IntType::Int8 => i128::from(i8::MAX),
        IntType::Int16 => i128::from(i16::MAX),
        IntType::Int32 => i128::from(i32::MAX),
        IntType::Int | IntType::Int64 => i128::from(i64::MAX),
        IntType::Uint8 => i128::from(u8::MAX),
        IntType::Uint16 => i128::from(u16::MAX),
        IntType::Uint32 => i128::from(u32::MAX),
        IntType::Uint | IntType::Uint64 | IntType::Uintptr => i128::from(u64::MAX),
    }
}

/// The number with all bits set: the greatest value of an unsigned type, else -1.
pub(crate) fn all_ones(of: Option<IntType>) -> i128
    ensures { result ≡ ranges.all_ones of }
{
    match of {
        Some(t) if least(t) == 0 => greatest(t),
        _ => -1,
    }
}
