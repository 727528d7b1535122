// Strings near the limit of their length, runes at each width of UTF-8, and the texts of values, worked by hand.
use crate::{TextFault, Value, join, rune_text, value_text};
use go_base::Bytes;
use std::test::Fail;

#[test]
fn joined_strings(rt: HostRuntime) -> Result<(), Fail> {
    let rows = [
        ("", "", ""),
        ("", "b", "b"),
        ("a", "", "a"),
        ("ab", "cd", "abcd"),
        ("cd", "ab", "cdab"),
    ];
    for (a, b, text) in rows {
        let joined = join(rt.alloc(), a.as_bytes(), b.as_bytes())?;
        assert_eq!(rt; joined.as_slice(), text.as_bytes(), "{a} and {b}");
    }
    Ok(())
}

#[test]
fn long_strings(rt: HostRuntime) -> Result<(), Fail> {
    // the lengths of two strings, and the length of the string of both
    let rows = [
        (0, 1_048_576, Ok(1_048_576)),
        (1, 1_048_575, Ok(1_048_576)),
        (524_288, 524_288, Ok(1_048_576)),
        (1_048_576, 0, Ok(1_048_576)),
        (0, 1_048_577, Err(TextFault::LongText)),
        (1, 1_048_576, Err(TextFault::LongText)),
        (524_289, 524_288, Err(TextFault::LongText)),
        (1_048_577, 0, Err(TextFault::LongText)),
        (1_048_577, 1_048_577, Err(TextFault::LongText)),
    ];
    for (a, b, size) in rows {
        let before = vec![in rt.alloc(); b'a'; a]?;
        let behind = vec![in rt.alloc(); b'b'; b]?;
        let joined = join(rt.alloc(), &before, &behind);
        assert_eq!(rt;
            joined.map(|text| text.as_slice().len()),
            size,
            "{a} and {b}"
        );
    }
    Ok(())
}

#[test]
fn runes(rt: HostRuntime) -> Result<(), Fail> {
    let rows: [(i128, &[u8]); 19] = [
        (0, &[0x00]),
        (0x41, &[0x41]),
        (0x7F, &[0x7F]),
        (0x80, &[0xC2, 0x80]),
        (0x7FF, &[0xDF, 0xBF]),
        (0x800, &[0xE0, 0xA0, 0x80]),
        (0xD7FF, &[0xED, 0x9F, 0xBF]),
        (0xD800, &[0xEF, 0xBF, 0xBD]),
        (0xDFFF, &[0xEF, 0xBF, 0xBD]),
        (0xE000, &[0xEE, 0x80, 0x80]),
        (0xFFFD, &[0xEF, 0xBF, 0xBD]),
        (0xFFFF, &[0xEF, 0xBF, 0xBF]),
        (0x1_0000, &[0xF0, 0x90, 0x80, 0x80]),
        (0x10_FFFF, &[0xF4, 0x8F, 0xBF, 0xBF]),
        (0x11_0000, &[0xEF, 0xBF, 0xBD]),
        (0x1_0000_0041, &[0xEF, 0xBF, 0xBD]),
        (-1, &[0xEF, 0xBF, 0xBD]),
        (i128::MAX, &[0xEF, 0xBF, 0xBD]),
        (i128::MIN, &[0xEF, 0xBF, 0xBD]),
    ];
    for (code, bytes) in rows {
        let text = rune_text(rt.alloc(), code)?;
        assert_eq!(rt; text.as_slice(), bytes, "{code}");
    }
    Ok(())
}

#[test]
fn texts_of_truth_and_numbers(rt: HostRuntime) -> Result<(), Fail> {
    let rows: [(Value, &str); 7] = [
        (Value::Bool(true), "true"),
        (Value::Bool(false), "false"),
        (Value::Int(0), "0"),
        (Value::Int(-7), "-7"),
        (Value::Int(65), "65"),
        (
            Value::Int(i128::MAX),
            "170141183460469231731687303715884105727",
        ),
        (
            Value::Int(i128::MIN),
            "-170141183460469231731687303715884105728",
        ),
    ];
    for (value, text) in &rows {
        let read = value_text(rt.alloc(), value)?;
        assert_eq!(rt; read.as_slice(), text.as_bytes(), "{value:?}");
    }
    Ok(())
}

#[test]
fn texts_of_strings(rt: HostRuntime) -> Result<(), Fail> {
    let rows: [(&[u8], &str); 7] = [
        (b"", r#""""#),
        (b"a b~", r#""a b~""#),
        (b"\"\\", r#""\"\\""#),
        (b"\x00\n\x1F\x7F\xC3\xBF", r#""\x00\x0a\x1f\x7f\xc3\xbf""#),
        (
            b"0123456789012345678901234567890123456789012345678901234567890123",
            r#""0123456789012345678901234567890123456789012345678901234567890123""#,
        ),
        (
            b"0123456789012345678901234567890123456789012345678901234567890123x",
            r#""0123456789012345678901234567890123456789012345678901234567890123"+1"#,
        ),
        (
            b"0123456789012345678901234567890123456789012345678901234567890123abcdefghijkl",
            r#""0123456789012345678901234567890123456789012345678901234567890123"+12"#,
        ),
    ];
    for (bytes, text) in rows {
        let value = Value::Text(Bytes::new(bytes.to_vec(rt.alloc())?));
        let read = value_text(rt.alloc(), &value)?;
        assert_eq!(rt; read.as_slice(), text.as_bytes(), "{text}");
    }
    Ok(())
}
