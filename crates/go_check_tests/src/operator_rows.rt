// Operators on constants of basic types, by a rulebook, where memory is ample: where a rule or a value begins.
use crate::operators::Plain::{Number, Truth};
use crate::operators::Want::{self, Breaks, Is};
use crate::operators::{OfOne, OfTwo, first_wrong_of_one, first_wrong_of_two, is_wanted, of_two};
use crate::tests::no_packages;
use go_base::{Bytes, NoMemory};
use go_check::Rulebook;
use go_model::{Judge, Spot, WIDE_INTEGER};
use go_num::Value;
use go_ops::{
    CONSTANT_OVERFLOW, DIVISION_BY_ZERO, INCOMPARABLE_OPERANDS, INVALID_SHIFT, LONG_TEXT,
    MISMATCHED_OPERANDS, UNDEFINED_BINARY, UNDEFINED_UNARY, UNKEPT_FLOAT,
};
use go_term::Basic::{
    Float64, Int8, Int16, Uint8, Uint64, UntypedBool, UntypedInt, UntypedRune, UntypedString,
};
use go_tree::TokenKind::{
    Add, Equal, Greater, Less, LessEqual, LogicalAnd, Not, NotEqual, Quo, Rem, Shl, Shr, Sub, Xor,
};
use std::alloc::Global;
use std::test::Fail;

const NUMBERS: [OfTwo; 10] = [
    OfTwo(
        Number(UntypedInt, 1),
        Add,
        Number(UntypedRune, 97),
        Is(Number(UntypedRune, 98)),
    ),
    OfTwo(
        Number(Uint8, 254),
        Add,
        Number(UntypedInt, 1),
        Is(Number(Uint8, 255)),
    ),
    OfTwo(
        Number(Uint8, 255),
        Add,
        Number(UntypedInt, 1),
        Breaks(CONSTANT_OVERFLOW, Spot::Whole),
    ),
    OfTwo(
        Number(Uint8, 1),
        Add,
        Number(UntypedInt, 256),
        Breaks(CONSTANT_OVERFLOW, Spot::Part(1)),
    ),
    OfTwo(
        Number(UntypedInt, 1),
        Quo,
        Number(UntypedInt, 0),
        Breaks(DIVISION_BY_ZERO, Spot::Part(1)),
    ),
    OfTwo(
        Number(UntypedInt, -7),
        Quo,
        Number(UntypedInt, 2),
        Is(Number(UntypedInt, -3)),
    ),
    OfTwo(
        Number(Float64, 3),
        Quo,
        Number(UntypedInt, 2),
        Breaks(UNKEPT_FLOAT, Spot::Whole),
    ),
    OfTwo(
        Number(Float64, 3),
        Rem,
        Number(UntypedInt, 2),
        Breaks(UNDEFINED_BINARY, Spot::Whole),
    ),
    OfTwo(
        Number(Int8, 1),
        Less,
        Number(Int16, 1),
        Breaks(MISMATCHED_OPERANDS, Spot::Whole),
    ),
    OfTwo(
        Number(UntypedInt, 1),
        Less,
        Number(UntypedRune, 97),
        Is(Truth(UntypedBool, true)),
    ),
];

const TRUTHS: [OfTwo; 6] = [
    OfTwo(
        Truth(UntypedBool, true),
        Equal,
        Truth(UntypedBool, false),
        Is(Truth(UntypedBool, false)),
    ),
    OfTwo(
        Truth(UntypedBool, false),
        Equal,
        Truth(UntypedBool, false),
        Is(Truth(UntypedBool, true)),
    ),
    OfTwo(
        Truth(UntypedBool, true),
        NotEqual,
        Truth(UntypedBool, false),
        Is(Truth(UntypedBool, true)),
    ),
    OfTwo(
        Truth(UntypedBool, true),
        LogicalAnd,
        Truth(UntypedBool, false),
        Is(Truth(UntypedBool, false)),
    ),
    OfTwo(
        Truth(UntypedBool, true),
        Less,
        Truth(UntypedBool, false),
        Breaks(INCOMPARABLE_OPERANDS, Spot::Whole),
    ),
    OfTwo(
        Truth(UntypedBool, true),
        Equal,
        Number(UntypedInt, 1),
        Breaks(MISMATCHED_OPERANDS, Spot::Whole),
    ),
];

const SHIFTS: [OfTwo; 8] = [
    OfTwo(
        Number(UntypedInt, -1),
        Shl,
        Number(UntypedInt, 127),
        Is(Number(UntypedInt, -0x8000_0000_0000_0000_0000_0000_0000_0000)),
    ),
    OfTwo(
        Number(UntypedInt, 1),
        Shl,
        Number(UntypedInt, 1000),
        Breaks(WIDE_INTEGER, Spot::Whole),
    ),
    OfTwo(
        Number(UntypedInt, 0),
        Shl,
        Number(UntypedInt, 1000),
        Is(Number(UntypedInt, 0)),
    ),
    OfTwo(
        Number(Uint8, 1),
        Shl,
        Number(UntypedInt, 7),
        Is(Number(Uint8, 128)),
    ),
    OfTwo(
        Number(Uint8, 1),
        Shl,
        Number(UntypedInt, 8),
        Breaks(CONSTANT_OVERFLOW, Spot::Whole),
    ),
    OfTwo(
        Number(UntypedInt, -5),
        Shr,
        Number(UntypedInt, 1),
        Is(Number(UntypedInt, -3)),
    ),
    OfTwo(
        Number(UntypedInt, 1),
        Shl,
        Number(Int8, -1),
        Breaks(INVALID_SHIFT, Spot::Whole),
    ),
    OfTwo(
        Number(UntypedInt, 1),
        Shr,
        Number(UntypedInt, 0x1_0000_0000_0000_0000),
        Breaks(INVALID_SHIFT, Spot::Whole),
    ),
];

const SIGNS: [OfOne; 6] = [
    OfOne(Xor, Number(Uint8, 0), Is(Number(Uint8, 255))),
    OfOne(Xor, Number(UntypedInt, 0), Is(Number(UntypedInt, -1))),
    OfOne(
        Xor,
        Number(Float64, 0),
        Breaks(UNDEFINED_UNARY, Spot::Whole),
    ),
    OfOne(
        Sub,
        Number(Int8, -128),
        Breaks(CONSTANT_OVERFLOW, Spot::Whole),
    ),
    OfOne(Sub, Number(Uint64, 0), Is(Number(Uint64, 0))),
    OfOne(Not, Truth(UntypedBool, true), Is(Truth(UntypedBool, false))),
];

#[test]
fn numbers(rt: HostRuntime) -> Result<(), Fail> {
    let module = no_packages(rt.alloc())?;
    let mut book = Rulebook::new(rt.alloc(), &module, &[]);
    assert_eq!(rt; first_wrong_of_two(rt.alloc(), &mut book, &NUMBERS)?, None);
    Ok(())
}

#[test]
fn truth_values(rt: HostRuntime) -> Result<(), Fail> {
    let module = no_packages(rt.alloc())?;
    let mut book = Rulebook::new(rt.alloc(), &module, &[]);
    assert_eq!(rt; first_wrong_of_two(rt.alloc(), &mut book, &TRUTHS)?, None);
    Ok(())
}

#[test]
fn shifts(rt: HostRuntime) -> Result<(), Fail> {
    let module = no_packages(rt.alloc())?;
    let mut book = Rulebook::new(rt.alloc(), &module, &[]);
    assert_eq!(rt; first_wrong_of_two(rt.alloc(), &mut book, &SHIFTS)?, None);
    Ok(())
}

#[test]
fn signs(rt: HostRuntime) -> Result<(), Fail> {
    let module = no_packages(rt.alloc())?;
    let mut book = Rulebook::new(rt.alloc(), &module, &[]);
    assert_eq!(rt; first_wrong_of_one(rt.alloc(), &mut book, &SIGNS)?, None);
    Ok(())
}

// A string of so many bytes.
fn text(alloc: Global, size: usize) -> Result<Value, NoMemory> {
    Ok(Value::Text(Bytes::new(vec![in alloc; b'a'; size]?)))
}

// Whether a string of the first size joined to one of the second comes to that.
fn joins<J: Judge>(
    alloc: Global,
    judge: &mut J,
    sizes: (usize, usize),
    want: Want,
) -> Result<bool, NoMemory> {
    let first = text(alloc, sizes.0)?;
    let second = text(alloc, sizes.1)?;
    let joined = of_two(
        alloc,
        judge,
        Add,
        (UntypedString, first),
        (UntypedString, second),
    )?;
    Ok(is_wanted(&joined, want))
}

// Whether `"a" op "aa"` holds.
fn compares<J: Judge>(
    alloc: Global,
    judge: &mut J,
    op: go_tree::TokenKind,
) -> Result<bool, NoMemory> {
    let first = text(alloc, 1)?;
    let second = text(alloc, 2)?;
    let compared = of_two(
        alloc,
        judge,
        op,
        (UntypedString, first),
        (UntypedString, second),
    )?;
    Ok(is_wanted(&compared, Is(Truth(UntypedBool, true))))
}

#[test]
fn strings(rt: HostRuntime) -> Result<(), Fail> {
    let module = no_packages(rt.alloc())?;
    let mut book = Rulebook::new(rt.alloc(), &module, &[]);
    let long = Breaks(LONG_TEXT, Spot::Whole);
    assert!(rt; joins(rt.alloc(), &mut book, (1_048_576, 1), long)?);
    assert!(rt; !joins(rt.alloc(), &mut book, (1_048_575, 1), long)?);
    assert!(rt; compares(rt.alloc(), &mut book, LessEqual)?);
    assert!(rt; !compares(rt.alloc(), &mut book, Greater)?);
    let rune = (UntypedRune, Value::Int(97));
    let joined = of_two(
        rt.alloc(),
        &mut book,
        Add,
        (UntypedString, text(rt.alloc(), 1)?),
        rune,
    )?;
    assert!(rt; is_wanted(&joined, Breaks(MISMATCHED_OPERANDS, Spot::Whole)));
    Ok(())
}
