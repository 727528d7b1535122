// Operations on integers at both ends of the range of constants, the ends of the integer types, and comparisons, worked
// by hand.
use crate::{
    CmpOp, IntOp, IntType, NumFault, UnOp, fits, int_binary, int_compare, int_shift, int_unary,
    text_compare,
};

// The ends of the range.
const LEAST: i128 = -170141183460469231731687303715884105728;

const MOST: i128 = 170141183460469231731687303715884105727;

const OPERATIONS: &[(IntOp, i128, i128, Result<i128, NumFault>)] = &[
    (IntOp::Add, 2, 2, Ok(4)),
    (IntOp::Add, -7, 3, Ok(-4)),
    (
        IntOp::Add,
        170141183460469231731687303715884105726,
        1,
        Ok(MOST),
    ),
    (IntOp::Add, MOST, 0, Ok(MOST)),
    (IntOp::Add, MOST, 1, Err(NumFault::Wide)),
    (
        IntOp::Add,
        -170141183460469231731687303715884105727,
        -1,
        Ok(LEAST),
    ),
    (IntOp::Add, LEAST, -1, Err(NumFault::Wide)),
    (IntOp::Add, LEAST, MOST, Ok(-1)),
    (IntOp::Add, LEAST, LEAST, Err(NumFault::Wide)),
    (IntOp::Sub, 5, 7, Ok(-2)),
    (IntOp::Sub, LEAST, 0, Ok(LEAST)),
    (IntOp::Sub, LEAST, 1, Err(NumFault::Wide)),
    (
        IntOp::Sub,
        -170141183460469231731687303715884105727,
        1,
        Ok(LEAST),
    ),
    (IntOp::Sub, MOST, 0, Ok(MOST)),
    (IntOp::Sub, MOST, -1, Err(NumFault::Wide)),
    (IntOp::Sub, -1, LEAST, Ok(MOST)),
    (IntOp::Sub, 0, LEAST, Err(NumFault::Wide)),
    (IntOp::Mul, -3, 4, Ok(-12)),
    (IntOp::Mul, 0, LEAST, Ok(0)),
    (IntOp::Mul, MOST, 1, Ok(MOST)),
    (
        IntOp::Mul,
        MOST,
        -1,
        Ok(-170141183460469231731687303715884105727),
    ),
    (IntOp::Mul, MOST, 2, Err(NumFault::Wide)),
    (IntOp::Mul, LEAST, 1, Ok(LEAST)),
    (IntOp::Mul, LEAST, -1, Err(NumFault::Wide)),
    (
        IntOp::Mul,
        18446744073709551616,
        9223372036854775807,
        Ok(170141183460469231713240559642174554112),
    ),
    (
        IntOp::Mul,
        18446744073709551616,
        9223372036854775808,
        Err(NumFault::Wide),
    ),
    (
        IntOp::Mul,
        18446744073709551616,
        -9223372036854775808,
        Ok(LEAST),
    ),
    (
        IntOp::Mul,
        -18446744073709551616,
        -9223372036854775808,
        Err(NumFault::Wide),
    ),
    (IntOp::Quo, 7, 2, Ok(3)),
    (IntOp::Quo, -7, 2, Ok(-3)),
    (IntOp::Quo, 7, -2, Ok(-3)),
    (IntOp::Quo, -7, -2, Ok(3)),
    (IntOp::Quo, 0, -5, Ok(0)),
    (IntOp::Quo, LEAST, 1, Ok(LEAST)),
    (IntOp::Quo, LEAST, -1, Err(NumFault::Wide)),
    (
        IntOp::Quo,
        MOST,
        -1,
        Ok(-170141183460469231731687303715884105727),
    ),
    (IntOp::Quo, LEAST, MOST, Ok(-1)),
    (IntOp::Quo, 1, 0, Err(NumFault::Zero)),
    (IntOp::Quo, LEAST, 0, Err(NumFault::Zero)),
    (IntOp::Quo, 0, 0, Err(NumFault::Zero)),
    (IntOp::Rem, 7, 2, Ok(1)),
    (IntOp::Rem, -7, 2, Ok(-1)),
    (IntOp::Rem, 7, -2, Ok(1)),
    (IntOp::Rem, -7, -2, Ok(-1)),
    (IntOp::Rem, LEAST, 1, Ok(0)),
    (IntOp::Rem, LEAST, -1, Ok(0)),
    (IntOp::Rem, LEAST, MOST, Ok(-1)),
    (IntOp::Rem, MOST, LEAST, Ok(MOST)),
    (IntOp::Rem, 5, 0, Err(NumFault::Zero)),
    (IntOp::Rem, LEAST, 0, Err(NumFault::Zero)),
    (IntOp::And, 12, 10, Ok(8)),
    (IntOp::And, -8, 13, Ok(8)),
    (IntOp::And, 13, -8, Ok(8)),
    (IntOp::And, -4, -6, Ok(-8)),
    (IntOp::And, -1, MOST, Ok(MOST)),
    (IntOp::And, LEAST, MOST, Ok(0)),
    (IntOp::And, LEAST, -1, Ok(LEAST)),
    (IntOp::And, 5, 0, Ok(0)),
    (IntOp::Or, 12, 10, Ok(14)),
    (IntOp::Or, -8, 5, Ok(-3)),
    (IntOp::Or, 5, -8, Ok(-3)),
    (IntOp::Or, -4, -6, Ok(-2)),
    (IntOp::Or, LEAST, MOST, Ok(-1)),
    (IntOp::Or, LEAST, 0, Ok(LEAST)),
    (IntOp::Or, 5, 0, Ok(5)),
    (IntOp::Xor, 12, 10, Ok(6)),
    (IntOp::Xor, -8, 5, Ok(-3)),
    (IntOp::Xor, 6, -4, Ok(-6)),
    (IntOp::Xor, -4, -6, Ok(6)),
    (IntOp::Xor, -1, MOST, Ok(LEAST)),
    (IntOp::Xor, LEAST, MOST, Ok(-1)),
    (IntOp::Xor, LEAST, LEAST, Ok(0)),
    (IntOp::Xor, 5, 0, Ok(5)),
    (IntOp::AndNot, 12, 10, Ok(4)),
    (IntOp::AndNot, -8, 12, Ok(-16)),
    (IntOp::AndNot, 13, -8, Ok(5)),
    (IntOp::AndNot, -4, -6, Ok(4)),
    (IntOp::AndNot, -1, MOST, Ok(LEAST)),
    (IntOp::AndNot, MOST, -1, Ok(0)),
    (IntOp::AndNot, MOST, LEAST, Ok(MOST)),
    (IntOp::AndNot, -1, LEAST, Ok(MOST)),
    (IntOp::AndNot, 5, 0, Ok(5)),
];

const UNARY: &[(UnOp, i128, Option<IntType>, Result<i128, NumFault>)] = &[
    (UnOp::Plus, LEAST, None, Ok(LEAST)),
    (UnOp::Plus, MOST, None, Ok(MOST)),
    (UnOp::Plus, -5, Some(IntType::Int8), Ok(-5)),
    (UnOp::Minus, LEAST, None, Err(NumFault::Wide)),
    (
        UnOp::Minus,
        MOST,
        None,
        Ok(-170141183460469231731687303715884105727),
    ),
    (
        UnOp::Minus,
        -170141183460469231731687303715884105727,
        None,
        Ok(MOST),
    ),
    (UnOp::Minus, -128, Some(IntType::Int8), Ok(128)),
    (UnOp::Minus, 5, Some(IntType::Uint8), Ok(-5)),
    (UnOp::Minus, 0, Some(IntType::Uint), Ok(0)),
    (UnOp::Not, 0, None, Ok(-1)),
    (UnOp::Not, 0, Some(IntType::Int), Ok(-1)),
    (UnOp::Not, 0, Some(IntType::Int8), Ok(-1)),
    (UnOp::Not, 0, Some(IntType::Int16), Ok(-1)),
    (UnOp::Not, 0, Some(IntType::Int32), Ok(-1)),
    (UnOp::Not, 0, Some(IntType::Int64), Ok(-1)),
    (UnOp::Not, 0, Some(IntType::Uint), Ok(18446744073709551615)),
    (UnOp::Not, 0, Some(IntType::Uint8), Ok(255)),
    (UnOp::Not, 0, Some(IntType::Uint16), Ok(65535)),
    (UnOp::Not, 0, Some(IntType::Uint32), Ok(4294967295)),
    (
        UnOp::Not,
        0,
        Some(IntType::Uint64),
        Ok(18446744073709551615),
    ),
    (
        UnOp::Not,
        0,
        Some(IntType::Uintptr),
        Ok(18446744073709551615),
    ),
    (UnOp::Not, 5, None, Ok(-6)),
    (UnOp::Not, LEAST, None, Ok(MOST)),
    (UnOp::Not, MOST, None, Ok(LEAST)),
    (UnOp::Not, -128, Some(IntType::Int8), Ok(127)),
    (UnOp::Not, 127, Some(IntType::Int8), Ok(-128)),
    (UnOp::Not, 5, Some(IntType::Uint8), Ok(250)),
    (UnOp::Not, 255, Some(IntType::Uint8), Ok(0)),
    (
        UnOp::Not,
        18446744073709551615,
        Some(IntType::Uint64),
        Ok(0),
    ),
];

// whether to the left, the operand, the count and the value
const SHIFTS: &[(bool, i128, i128, Result<i128, NumFault>)] = &[
    (true, 1, 0, Ok(1)),
    (true, 3, 1, Ok(6)),
    (true, 1, 63, Ok(9223372036854775808)),
    (true, 1, 64, Ok(18446744073709551616)),
    (true, 1, 126, Ok(85070591730234615865843651857942052864)),
    (true, 1, 127, Err(NumFault::Wide)),
    (true, 1, 128, Err(NumFault::Wide)),
    (true, -1, 127, Ok(LEAST)),
    (true, -1, 128, Err(NumFault::Wide)),
    (true, -2, 126, Ok(LEAST)),
    (true, -2, 127, Err(NumFault::Wide)),
    (true, 2, 126, Err(NumFault::Wide)),
    (true, 0, 1000, Ok(0)),
    (true, 0, 18446744073709551615, Ok(0)),
    (true, 0, 18446744073709551616, Err(NumFault::Count)),
    (true, 1, 18446744073709551615, Err(NumFault::Wide)),
    (true, 5, -1, Err(NumFault::Count)),
    (true, MOST, 0, Ok(MOST)),
    (true, MOST, 1, Err(NumFault::Wide)),
    (true, LEAST, 0, Ok(LEAST)),
    (true, LEAST, 1, Err(NumFault::Wide)),
    (false, 1, 0, Ok(1)),
    (false, 1, 1, Ok(0)),
    (false, 7, 1, Ok(3)),
    (false, -1, 1, Ok(-1)),
    (false, -7, 1, Ok(-4)),
    (false, -8, 2, Ok(-2)),
    (false, MOST, 63, Ok(18446744073709551615)),
    (false, MOST, 64, Ok(9223372036854775807)),
    (false, MOST, 126, Ok(1)),
    (false, MOST, 127, Ok(0)),
    (false, MOST, 128, Ok(0)),
    (false, LEAST, 63, Ok(-18446744073709551616)),
    (false, LEAST, 64, Ok(-9223372036854775808)),
    (false, LEAST, 126, Ok(-2)),
    (false, LEAST, 127, Ok(-1)),
    (false, LEAST, 128, Ok(-1)),
    (false, -1, 18446744073709551615, Ok(-1)),
    (false, 5, 18446744073709551615, Ok(0)),
    (false, 5, 18446744073709551616, Err(NumFault::Count)),
    (false, 5, -1, Err(NumFault::Count)),
    (false, 5, LEAST, Err(NumFault::Count)),
];

// of each type the number below its least, its least, its greatest and the number above
const ENDS: &[(IntType, [i128; 4])] = &[
    (
        IntType::Int,
        [
            -9223372036854775809,
            -9223372036854775808,
            9223372036854775807,
            9223372036854775808,
        ],
    ),
    (IntType::Int8, [-129, -128, 127, 128]),
    (IntType::Int16, [-32769, -32768, 32767, 32768]),
    (
        IntType::Int32,
        [-2147483649, -2147483648, 2147483647, 2147483648],
    ),
    (
        IntType::Int64,
        [
            -9223372036854775809,
            -9223372036854775808,
            9223372036854775807,
            9223372036854775808,
        ],
    ),
    (
        IntType::Uint,
        [-1, 0, 18446744073709551615, 18446744073709551616],
    ),
    (IntType::Uint8, [-1, 0, 255, 256]),
    (IntType::Uint16, [-1, 0, 65535, 65536]),
    (IntType::Uint32, [-1, 0, 4294967295, 4294967296]),
    (
        IntType::Uint64,
        [-1, 0, 18446744073709551615, 18446744073709551616],
    ),
    (
        IntType::Uintptr,
        [-1, 0, 18446744073709551615, 18446744073709551616],
    ),
];

// whether each operator holds of a smaller operand, of an equal one and of a greater one
const COMPARISONS: &[(CmpOp, [bool; 3])] = &[
    (CmpOp::Eq, [false, true, false]),
    (CmpOp::Ne, [true, false, true]),
    (CmpOp::Lt, [true, false, false]),
    (CmpOp::Le, [true, true, false]),
    (CmpOp::Gt, [false, false, true]),
    (CmpOp::Ge, [false, true, true]),
];

#[test]
fn operations(rt: HostRuntime) {
    for (op, a, b, value) in OPERATIONS {
        assert_eq!(rt; int_binary(*op, *a, *b), *value, "{a} {op:?} {b}");
    }
}

#[test]
fn unary_operations(rt: HostRuntime) {
    for (op, a, of, value) in UNARY {
        assert_eq!(rt;
            unary_value(*op, *a, *of),
            Some(*value),
            "{op:?} {a} of {of:?}"
        );
    }
}

// None where the operand is outside its type.
fn unary_value(op: UnOp, a: i128, of: Option<IntType>) -> Option<Result<i128, NumFault>> {
    match of {
        Some(t) if !fits(a, t) => None,
        of => Some(int_unary(op, a, of)),
    }
}

#[test]
fn shifts(rt: HostRuntime) {
    for (left, a, count, value) in SHIFTS {
        assert_eq!(rt;
            int_shift(*left, *a, *count),
            *value,
            "{left} {a} by {count}"
        );
    }
}

#[test]
fn ends_of_types(rt: HostRuntime) {
    for (t, [below, least, greatest, above]) in ENDS {
        let holds = [
            fits(*below, *t),
            fits(*least, *t),
            fits(*greatest, *t),
            fits(*above, *t),
        ];
        assert_eq!(rt; holds, [false, true, true, false], "{t:?}");
    }
}

#[test]
fn comparisons(rt: HostRuntime) {
    for (op, holds) in COMPARISONS {
        let of_ends = [
            int_compare(*op, LEAST, MOST),
            int_compare(*op, MOST, MOST),
            int_compare(*op, MOST, LEAST),
        ];
        assert_eq!(rt; of_ends, *holds, "ends {op:?}");
        let of_signs = [
            int_compare(*op, -1, 0),
            int_compare(*op, -3, -3),
            int_compare(*op, -2, -3),
        ];
        assert_eq!(rt; of_signs, *holds, "signs {op:?}");
        let of_bytes = [
            text_compare(*op, b"ab", b"b"),
            text_compare(*op, b"ab", b"ab"),
            text_compare(*op, b"\x80", b"zz"),
        ];
        assert_eq!(rt; of_bytes, *holds, "bytes {op:?}");
        let of_lengths = [
            text_compare(*op, b"", b"a"),
            text_compare(*op, b"", b""),
            text_compare(*op, b"ab", b"a"),
        ];
        assert_eq!(rt; of_lengths, *holds, "lengths {op:?}");
    }
}
