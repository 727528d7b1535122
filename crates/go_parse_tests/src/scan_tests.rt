// The public calls of the scanner once each, and `next` where no text is scanned from its start. All other
// texts are rows of go_rows.
use go_base::{Bytes, Rule};
use go_num::TextFault;
use go_scan::{
    FORBIDDEN_BYTE, Lex, MISSING_TOKEN, ScanFault, int_lit_value, int_value, literal_text, next,
    tokens,
};
use go_tree::TokenKind::*;
use go_tree::{Token, TokenKind};
use std::alloc::Global;
use std::test::Fail;

fn token(kind: TokenKind, start: usize, end: usize) -> Token {
    Token { kind, start, end }
}

#[test]
fn tokens_of_a_text(rt: HostRuntime) -> Result<(), Fail> {
    let list = tokens(rt.alloc(), b"x++ // y").ok().ok_or("no tokens")?;
    let want = [
        token(Ident, 0, 1),
        token(Inc, 1, 3),
        token(InsertedSemicolon, 8, 8),
        token(End, 8, 8),
    ];
    assert_eq!(rt; list.as_slice(), want.as_slice());
    let fault = Lex {
        offset: 2,
        rule: MISSING_TOKEN,
    };
    assert_eq!(rt;
        tokens(rt.alloc(), b"x #").err(),
        Some(ScanFault::Lexical(fault))
    );
    Ok(())
}

// The value of the integer or rune literal that is the next token from an offset on.
fn value_from(text: &[u8], at: usize) -> Option<i128> {
    if at > text.len() {
        return None;
    }
    match next(text, at, None) {
        Ok(token) if token.kind == Int || token.kind == Rune => int_value(text, token),
        _ => None,
    }
}

// The string of the literal that is the next token from an offset on.
fn text_from(alloc: Global, text: &[u8], at: usize) -> Result<Option<Bytes>, TextFault> {
    if at > text.len() {
        return Ok(None);
    }
    match next(text, at, None) {
        Ok(token) if token.kind == Text => Ok(Some(literal_text(alloc, text, token)?)),
        _ => Ok(None),
    }
}

#[test]
fn values_of_literals(rt: HostRuntime) -> Result<(), Fail> {
    assert_eq!(rt; value_from(b"x = 1_000 // 2", 3), Some(1000));
    assert_eq!(rt; value_from(b"x = '\\x41'", 3), Some(65));
    assert_eq!(rt; int_lit_value(b"0x_F"), Some(15));
    let text = text_from(rt.alloc(), b"x = \"a\\n\" + y", 3)?.ok_or("no string")?;
    assert_eq!(rt; text.as_slice(), b"a\n".as_slice());
    Ok(())
}

// The token from an offset on, behind a token of that kind, where a text is scanned neither from its start
// nor from the end of a token: the offset stands inside of a token, or another kind of token before it.
const TOKENS: [(&[u8], usize, Option<TokenKind>, (TokenKind, usize, usize)); 27] = [
    (b"ab", 1, None, (Ident, 1, 2)),
    (b"<<=", 1, None, (LessEqual, 1, 3)),
    (b"<<=", 2, None, (Assign, 2, 3)),
    (b"&^=", 1, None, (XorAssign, 1, 3)),
    (b"...", 1, None, (Dot, 1, 2)),
    (b"//a", 1, None, (Quo, 1, 2)),
    (b"/*a*/", 1, None, (Mul, 1, 2)),
    (b"/*a*/", 3, None, (Mul, 3, 4)),
    (b"1.5", 1, None, (Float, 1, 3)),
    // a number begins at a point before a digit, and at a digit
    (b"x.5", 1, None, (Float, 1, 3)),
    (b"x.5", 2, None, (Int, 2, 3)),
    (b"x.5", 3, None, (End, 3, 3)),
    (b"0x1", 1, None, (Ident, 1, 3)),
    (b"breaks", 1, None, (Ident, 1, 6)),
    (b"xbreak", 1, None, (KwBreak, 1, 6)),
    (b"\"a\" b", 1, Some(Text), (Ident, 1, 2)),
    (b"\"'a'\"", 1, None, (Rune, 1, 4)),
    (b"//\n", 1, Some(Float), (Quo, 1, 2)),
    (b"//\n", 2, Some(Float), (InsertedSemicolon, 2, 3)),
    (b"/*\n*/", 2, Some(Rune), (InsertedSemicolon, 2, 3)),
    (b"a b", 3, Some(End), (End, 3, 3)),
    (b"\xEF\xBB\xBFa", 0, Some(Int), (Ident, 3, 4)),
    (b"\xEF\xBB\xBF\n", 0, Some(Dec), (InsertedSemicolon, 3, 4)),
    (b"\xEF\xBB\xBF", 3, Some(Dec), (InsertedSemicolon, 3, 3)),
    (b"a\n", 1, None, (End, 2, 2)),
    (b"a\n", 2, Some(Ident), (InsertedSemicolon, 2, 2)),
    (b"\n\n", 1, Some(Text), (InsertedSemicolon, 1, 2)),
];

// No token starts from inside of a character or a literal on.
const FAULTS: [(&[u8], usize, Option<TokenKind>, Rule); 6] = [
    (b"\xEF\xBB\xBFa", 1, None, FORBIDDEN_BYTE),
    (b"\xEF\xBB\xBFa", 2, None, FORBIDDEN_BYTE),
    (b"\xC3\xA9", 1, Some(Ident), FORBIDDEN_BYTE),
    (b"\xE4\xB8\x96", 2, None, FORBIDDEN_BYTE),
    (b"'\0'", 2, None, MISSING_TOKEN),
    (b"\"a\" b", 2, Some(Ident), MISSING_TOKEN),
];

#[test]
fn tokens_from_the_middle(rt: HostRuntime) {
    for (text, at, last, (kind, start, end)) in TOKENS {
        assert!(rt; at <= text.len(), "{text:?}");
        assert_eq!(rt;
            next(text, at, last),
            Ok(token(kind, start, end)),
            "{text:?}"
        );
    }
    for (text, offset, last, rule) in FAULTS {
        assert!(rt; offset <= text.len(), "{text:?}");
        let want = Lex { offset, rule };
        assert_eq!(rt; next(text, offset, last), Err(want), "{text:?}");
    }
}
