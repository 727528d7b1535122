// What the cursor shows and takes.
ghost use Rattle.std.specs.Prelude.{◌≡◌, None};

use go_parse_x::Cursor;
use go_scan::{Lex, MISSING_TOKEN};
use go_tree::TokenKind::{self, *};
use go_tree::{NodeId, Token};
use std::process::Abort;

// The kinds of the next three tokens and of the one that is taken, and where that starts; nothing
// where no token starts.
type Shown = (Option<TokenKind>, Option<TokenKind>, Option<TokenKind>);

type Row = (Shown, Option<(TokenKind, usize)>);

const AMONG: [Row; 7] = [
    ((Some(Ident), Some(Dot), Some(Ident)), Some((Ident, 0))),
    (
        (Some(Dot), Some(Ident), Some(InsertedSemicolon)),
        Some((Dot, 2)),
    ),
    (
        (Some(Ident), Some(InsertedSemicolon), Some(LeftParen)),
        Some((Ident, 4)),
    ),
    (
        (Some(InsertedSemicolon), Some(LeftParen), Some(End)),
        Some((InsertedSemicolon, 5)),
    ),
    // behind the end there is the end
    (
        (Some(LeftParen), Some(End), Some(End)),
        Some((LeftParen, 6)),
    ),
    ((Some(End), Some(End), Some(End)), Some((End, 8))),
    ((Some(End), Some(End), Some(End)), Some((End, 8))),
];

const BEFORE_A_FAULT: [Row; 5] = [
    ((Some(Ident), Some(Add), Some(Ident)), Some((Ident, 0))),
    ((Some(Add), Some(Ident), None), Some((Add, 1))),
    ((Some(Ident), None, None), Some((Ident, 2))),
    // it stays before the fault
    ((None, None, None), None),
    ((None, None, None), None),
];

const EMPTY: [Row; 2] = [
    ((Some(End), Some(End), Some(End)), Some((End, 0))),
    ((Some(End), Some(End), Some(End)), Some((End, 0))),
];

fn kind_of(token: Result<Token, Lex>) -> Option<TokenKind> {
    token.ok().map(|t| t.kind)
}

// What the cursor shows, and what it takes. It is not spent, and is not then.
fn seen(cursor: &mut Cursor<'_>) -> Row
    requires unspent { cursor.old.fault ≡ None }
    ensures unspent { cursor.new.fault ≡ None }
{
    let first = kind_of(cursor.look(0));
    let second = kind_of(cursor.look(1));
    let third = kind_of(cursor.look(2));
    let taken = cursor.take().ok().map(|t| (t.kind, t.start));
    ((first, second, third), taken)
}

fn shows(rt: &impl Abort, text: &str, rows: &[Row]) {
    let mut cursor = Cursor::new(text.as_bytes(), NodeId(7));
    for row in rows {
        assert_eq!(rt; seen(&mut cursor), *row, "{text}");
    }
}

#[test]
fn tokens_are_shown_and_taken(rt: HostRuntime) {
    shows(&rt, "a . b\n( ", &AMONG);
    shows(&rt, "a+b #", &BEFORE_A_FAULT);
    shows(&rt, "", &EMPTY);
}

// The fault that is shown so many tokens ahead.
fn fault_ahead(text: &str, ahead: usize) -> Option<Lex> {
    let cursor = Cursor::new(text.as_bytes(), NodeId(7));
    cursor.look(ahead.min(2)).err()
}

#[test]
fn faults_are_shown(rt: HostRuntime) {
    let rows = [("#", 0, 0), ("a #", 1, 2), ("a.#", 2, 2), ("#", 2, 0)];
    for (text, ahead, offset) in rows {
        let want = Some(Lex {
            offset,
            rule: MISSING_TOKEN,
        });
        assert_eq!(rt; fault_ahead(text, ahead), want, "{text}");
    }
}

// The next two numbers of nodes.
fn numbers(first: usize) -> (Option<usize>, Option<usize>) {
    let mut cursor = Cursor::new(b"", NodeId(first));
    let one = cursor.fresh().ok().map(|id| id.0);
    let two = cursor.fresh().ok().map(|id| id.0);
    (one, two)
}

#[test]
fn numbers_rise_and_end(rt: HostRuntime) {
    let last = usize::MAX;
    assert_eq!(rt; numbers(7), (Some(7), Some(8)));
    // the greatest number is given to no node
    assert_eq!(rt; numbers(last - 1), (Some(last - 1), None));
    assert_eq!(rt; numbers(last), (None, None));
}
