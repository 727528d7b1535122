// Trees made by hand: `x + 1` with the nodes 7, 8 and 9. Heights of tokens without places.
use crate::{File, Node, NodeId, NodeKind, Token, TokenKind, find, height};
use go_base::Bytes;
use std::alloc::{AllocError, Global};
use std::process::Abort;
use std::test::Fail;

fn leaf(
    alloc: Global,
    id: usize,
    span: (usize, usize),
    kind: NodeKind,
    text: &[u8],
) -> Result<Node, AllocError> {
    Ok(Node {
        id: NodeId(id),
        start: span.0,
        end: span.1,
        kind,
        text: Bytes::new(text.to_vec(alloc)?),
        parts: Vec::new(alloc),
    })
}

fn sum(alloc: Global) -> Result<File, AllocError> {
    let x = leaf(alloc, 7, (0, 1), NodeKind::Name, b"x")?;
    let one = leaf(alloc, 8, (4, 5), NodeKind::IntLit, b"1")?;
    let mut root = leaf(alloc, 9, (0, 5), NodeKind::AddExpr, b"")?;
    root.parts = vec![in alloc; x, one]?;
    Ok(File { number: 0, root })
}

#[test]
fn nodes_are_found_by_their_numbers(rt: HostRuntime) -> Result<(), Fail> {
    let alloc = rt.alloc();
    let file = sum(alloc)?;
    let rows = [
        (7, Some((0, 1))),
        (8, Some((4, 5))),
        (9, Some((0, 5))),
        (6, None),
        (10, None),
    ];
    for (id, span) in rows {
        let found = find(&file, NodeId(id)).map(|node| (node.start(), node.end()));
        assert_eq!(rt; found, span, "node {id}");
    }
    Ok(())
}

#[test]
fn parts_stand_in_source_order(rt: HostRuntime) -> Result<(), Fail> {
    let alloc = rt.alloc();
    let file = sum(alloc)?;
    let (left, right) = file.root.both_parts().ok_or("no two parts")?;
    assert_eq!(rt; left.text(), b"x".as_slice());
    assert_eq!(rt; right.text(), b"1".as_slice());
    assert_eq!(rt; file.root.parts().len(), 2);
    assert!(rt; left.both_parts().is_none());
    Ok(())
}

// What `kinds` are the kinds of, and the height at the last of the first so many of them.
fn has_heights(
    rt: &impl Abort,
    alloc: Global,
    kinds: &[TokenKind],
    heights: &[usize],
) -> Result<(), Fail> {
    let mut tokens = Vec::new(alloc);
    assert_eq!(rt; kinds.len(), heights.len());
    for (kind, want) in kinds.iter().zip(heights) {
        tokens.push(Token {
            kind: *kind,
            start: 0,
            end: 0,
        })?;
        assert_eq!(rt; height(tokens.as_slice()), *want);
    }
    Ok(())
}

// `x(a, b);` and `{ L: x; } else {`: at a `,` or `;` what follows the open bracket ends, and an `else`
// and the colon of a label count on.
#[test]
fn heights_fall_at_separators_and_closing_brackets(rt: HostRuntime) -> Result<(), Fail> {
    let alloc = rt.alloc();
    assert_eq!(rt; height(&[]), 0);
    has_heights(
        &rt,
        alloc,
        &[
            TokenKind::Ident,
            TokenKind::LeftParen,
            TokenKind::Ident,
            TokenKind::Comma,
            TokenKind::Ident,
            TokenKind::RightParen,
            TokenKind::Semicolon,
        ],
        &[1, 2, 3, 2, 3, 3, 0],
    )?;
    has_heights(
        &rt,
        alloc,
        &[
            TokenKind::LeftBrace,
            TokenKind::Ident,
            TokenKind::Colon,
            TokenKind::Ident,
            TokenKind::InsertedSemicolon,
            TokenKind::RightBrace,
            TokenKind::KwElse,
            TokenKind::LeftBrace,
            TokenKind::RightBrace,
            TokenKind::Semicolon,
        ],
        &[1, 2, 3, 4, 2, 2, 3, 4, 5, 1],
    )
}
