// Pieces: each reading once, blocks that are handed over, heights that are free, and calls after a fault.
// All other texts are rows of go_rows.
use go_parse_x::{Cursor, ParseFault, Parsed, Pending, Reading, parse_expr};
use go_scan::{Lex, MISSING_TOKEN};
use go_tree::TokenKind::{self, *};
use go_tree::{Node, NodeId, NodeKind, Token};
use std::alloc::{AllocError, Global};
use std::test::Fail;

/// More height than any text of the tests has.
pub(crate) const AMPLE: usize = 100_000;

/// What was read, the token behind it, and the height that is left for a block.
pub(crate) type Behind = (Parsed, Result<Token, Lex>, Option<usize>);

/// Reads a piece from the start of a text, and takes the token behind it.
pub(crate) fn read_on(
    alloc: Global,
    text: &[u8],
    reading: Reading,
    free: usize,
) -> Result<Behind, ParseFault> {
    let mut cursor = Cursor::new(text, NodeId(7));
    let mut pending = Pending::new(alloc, reading, free);
    match parse_expr(alloc, &mut cursor, &mut pending) {
        Err(fault) => Err(fault),
        Ok(Parsed::Whole(node)) => Ok((Parsed::Whole(node), cursor.take(), None)),
        Ok(Parsed::Block) => {
            let left = pending.free();
            Ok((Parsed::Block, cursor.take(), Some(left)))
        }
    }
}

/// Reads a piece that is at fault, and reads on with the same cursor: both faults.
pub(crate) fn read_again(
    alloc: Global,
    text: &[u8],
    reading: Reading,
    free: usize,
) -> Option<(ParseFault, Option<ParseFault>)> {
    let mut cursor = Cursor::new(text, NodeId(7));
    let mut pending = Pending::new(alloc, reading, free);
    match parse_expr(alloc, &mut cursor, &mut pending) {
        Ok(_) => None,
        Err(first) => Some((first, parse_expr(alloc, &mut cursor, &mut pending).err())),
    }
}

/// A tree in brackets: each node by its kind, its text and its parts, a name by its text alone.
pub(crate) fn shape(alloc: Global, node: &Node) -> Result<String, AllocError> {
    let mut out = Vec::new(alloc);
    put(alloc, &mut out, node)?;
    String::from_utf8_lossy(alloc, &out)
}

#[cycle(put)]
fn put(alloc: Global, out: &mut Vec<u8>, node: &Node) -> Result<(), AllocError> {
    if node.is(NodeKind::Name) {
        return out.extend_from_slice(node.text());
    }
    put_head(alloc, out, node)?;
    put_parts(alloc, out, node.parts())?;
    out.extend_from_slice(b")")
}

#[cycle(put)]
fn put_parts(alloc: Global, out: &mut Vec<u8>, parts: &[Node]) -> Result<(), AllocError> {
    for part in parts {
        out.extend_from_slice(b" ")?;
        put(alloc, out, part)?;
    }
    Ok(())
}

// The kind, and the text if there is one.
fn put_head(alloc: Global, out: &mut Vec<u8>, node: &Node) -> Result<(), AllocError> {
    let kind = node.kind();
    let name = format!(in alloc; "({kind:?}")?;
    out.extend_from_slice(name.as_bytes())?;
    if node.text().is_empty() {
        return Ok(());
    }
    out.extend_from_slice(b" ")?;
    out.extend_from_slice(node.text())?;
    Ok(())
}

// The kind and the place of the token behind a piece.
fn end_of(behind: &Behind) -> Option<(TokenKind, usize)> {
    behind.1.ok().map(|token| (token.kind, token.start))
}

// A text, the piece that it begins with, and the token behind that.
const PIECES: [(Reading, &str, &str, TokenKind, usize); 6] = [
    (
        Reading::Plain,
        "a + 1 b",
        "(AddExpr a (IntLit 1))",
        Ident,
        6,
    ),
    (
        Reading::Header,
        "(T{}) {",
        "(ParenExpr (CompositeLit T (LiteralValue)))",
        LeftBrace,
        6,
    ),
    (Reading::TypeOnly, "*T + 1", "(StarExpr T)", Add, 3),
    (
        Reading::Signature,
        "(a T) U {",
        "(Signature (Params (Param a T)) U)",
        LeftBrace,
        8,
    ),
    (
        Reading::Params,
        "(T) U",
        "(Params (UnnamedParam T))",
        Ident,
        4,
    ),
    (
        Reading::TypeParams,
        "[T any](x T)",
        "(TypeParams (TypeParam T (Union any)))",
        LeftParen,
        7,
    ),
];

#[test]
fn pieces(rt: HostRuntime) -> Result<(), Fail> {
    for (reading, text, want, kind, start) in PIECES {
        let read = read_on(rt.alloc(), text.as_bytes(), reading, AMPLE)?;
        assert_eq!(rt; end_of(&read), Some((kind, start)), "{text}");
        match &read.0 {
            Parsed::Whole(node) => {
                let shape = shape(rt.alloc(), node)?;
                assert_eq!(rt; shape.as_str(), want, "{text}");
            }
            Parsed::Block => assert!(rt; false, "{text}"),
        }
    }
    Ok(())
}

// Function literals: a text, how much height is left at its first block where 100 is free, and where
// the block opens.
const BLOCKS: [(&str, Reading, usize, usize); 10] = [
    ("func() {", Reading::Plain, 97, 7),
    ("func() {}", Reading::Header, 97, 7),
    ("func() T { return x }", Reading::Plain, 96, 9),
    (
        "func(a int) bool { return true }(1)",
        Reading::Plain,
        96,
        17,
    ),
    ("func(a, b int) (c T) {", Reading::Plain, 95, 21),
    ("f(func() {", Reading::Plain, 95, 9),
    ("f(a + b, func() {", Reading::Plain, 95, 16),
    ("T{a: func() {", Reading::Plain, 93, 12),
    ("a == func() {", Reading::Header, 95, 12),
    ("[func() {", Reading::TypeOnly, 96, 8),
];

#[test]
fn blocks_are_handed_over(rt: HostRuntime) -> Result<(), Fail> {
    for (text, reading, height, start) in BLOCKS {
        let read = read_on(rt.alloc(), text.as_bytes(), reading, 100)?;
        assert!(rt; matches!(&read.0, Parsed::Block), "{text}");
        assert_eq!(rt; read.2, Some(height), "{text}");
        assert_eq!(rt; end_of(&read), Some((LeftBrace, start)), "{text}");
    }
    Ok(())
}

// A text, the height that is free, and the fault: the first token that is wrong or too high.
const FREE: [(&str, usize, Option<ParseFault>); 13] = [
    ("a", 0, Some(ParseFault::High(0))),
    (")", 0, Some(ParseFault::Syntax(0))),
    ("", 0, Some(ParseFault::Syntax(0))),
    ("a b", 1, None),
    ("a + )", 1, Some(ParseFault::High(2))),
    ("a + )", 2, Some(ParseFault::Syntax(4))),
    ("func() {", 2, Some(ParseFault::High(5))),
    ("func() {", 3, Some(ParseFault::High(7))),
    ("func() {", 4, None),
    ("f(func() {", 5, Some(ParseFault::High(9))),
    ("f(func() {", 6, None),
    // the token that is looked past is counted before the one behind it
    ("func() <- x", 3, Some(ParseFault::High(7))),
    ("func() <- x", 4, Some(ParseFault::Syntax(10))),
];

#[test]
fn the_earliest_token_is_at_fault(rt: HostRuntime) {
    for (text, free, want) in FREE {
        let fault = read_on(rt.alloc(), text.as_bytes(), Reading::Plain, free).err();
        assert_eq!(rt; fault, want, "{text} with {free}");
    }
}

// Texts at fault where a height of 5 is free.
const FAULTS: [(&str, ParseFault); 6] = [
    ("", ParseFault::Syntax(0)),
    ("a + )", ParseFault::Syntax(4)),
    ("f(a b) + c", ParseFault::Syntax(4)),
    ("p.(x)[", ParseFault::Syntax(6)),
    ("a+b+c+d", ParseFault::High(5)),
    (
        "a + #",
        ParseFault::Lexical(Lex {
            offset: 4,
            rule: MISSING_TOKEN,
        }),
    ),
];

#[test]
fn a_fault_stays(rt: HostRuntime) {
    for (text, fault) in FAULTS {
        let faults = read_again(rt.alloc(), text.as_bytes(), Reading::Plain, 5);
        assert_eq!(rt; faults, Some((fault, Some(fault))), "{text}");
    }
}
