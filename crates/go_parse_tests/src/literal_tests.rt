// Function literals whose block is read here and handed in: `{}` or `{ return }`.
ghost use Rattle.std.specs.Prelude.{◌≡◌, ◌≢◌, ◌+◌, ℕ, List, [], ◌∷◌, true, None, IfOk, IfSome, map};
ghost use Rattle.go_tree.specs.declared.token.Token.{Token as TokenOf};
ghost use Rattle.go_tree.specs.declared.token.TokenKind.TheVariants.{End};
ghost use Rattle.go_parse_x.specs.Answers.{IsBlockRead};
ghost use Rattle.go_parse_tests.specs.HandedBlocks.{IsEmptyBlock, IsReturnBlock};
ghost use Rattle.go_tree.specs.Tree.{tree_of, trees_of, branch};
ghost use Rattle.go_parse_x.specs.Pieces.{IsAwaiting, open_view};
ghost use Rattle.go_parse_x.specs.Targets.{hands};
ghost use Rattle.go_tree.specs.Lexical.Scan.{Stand};

use crate::piece_tests::{AMPLE, shape};
use go_base::Bytes;
use go_parse_x::{Cursor, ParseFault, Parsed, Pending, Reading, parse_expr};
use go_tree::{Node, NodeId, NodeKind, Token, TokenKind};
use std::alloc::Global;
use std::process::Abort;
use std::test::Fail;

// A token of that kind; none where another stands there.
fn taken(cursor: &mut Cursor, kind: TokenKind) -> Result<Option<Token>, ParseFault>
    requires unspent { cursor.old.fault ≡ None }
    requires kind { kind ≢ End }
    ensures token { IfOk result (λ o. IfSome o (λ t. (t.kind ≡ kind) × Stand cursor.old.bytes.now cursor.old.at cursor.old.last (t ∷ []) cursor.new.at cursor.new.last)) }
    ensures others { (cursor.new.bytes.now ≡ cursor.old.bytes.now) × (cursor.new.fault ≡ cursor.old.fault) × (cursor.new.number ≡ cursor.old.number) }
{
    match cursor.take() {
        Err(lex) => Err(ParseFault::Lexical(lex)),
        Ok(token) => {
            if kind == token.kind {
                return Ok(Some(token));
            }
            Ok(None)
        }
    }
}

// The node that gets the next number, from the one token to the other, with these parts.
fn node_of(
    alloc: Global,
    cursor: &mut Cursor,
    kind: NodeKind,
    first: Token,
    last: Token,
    parts: Vec<Node>,
) -> Result<Node, ParseFault>
    requires { cursor.old.fault ≡ None }
    ensures tree { IfOk result (λ node. tree_of node ≡ branch cursor.old.number first.start last.end kind [] (trees_of (map tree_of parts.items))) }
    ensures number { IfOk result (λ _. cursor.new.number ≡ cursor.old.number + 1) }
    ensures others { (cursor.new.bytes.now ≡ cursor.old.bytes.now) × (cursor.new.at ≡ cursor.old.at) × (cursor.new.last ≡ cursor.old.last) × (cursor.new.fault ≡ cursor.old.fault) }
{
    match cursor.fresh() {
        Err(_) => Err(ParseFault::NoMemory),
        Ok(id) => Ok(Node {
            id,
            start: first.start,
            end: last.end,
            kind,
            text: Bytes::new(Vec::new(alloc)),
            parts,
        }),
    }
}

// The block `{}` from the cursor on; none where something else stands there.
fn empty_block(alloc: Global, cursor: &mut Cursor) -> Result<Option<Node>, ParseFault>
    requires { cursor.old.fault ≡ None }
    ensures block { IfOk result (λ o. IfSome o (λ node. IsEmptyBlock cursor.old cursor.new node)) }
    ensures others { (cursor.new.bytes.now ≡ cursor.old.bytes.now) × (cursor.new.fault ≡ cursor.old.fault) }
{
    let Some(opening) = taken(cursor, TokenKind::LeftBrace)? else {
        return Ok(None);
    };
    let Some(closing) = taken(cursor, TokenKind::RightBrace)? else {
        return Ok(None);
    };
    let parts = Vec::new(alloc);
    Ok(Some(node_of(alloc, cursor, NodeKind::Block, opening, closing, parts)?))
}

// The block `{ return }` from the cursor on; none where something else stands there.
fn return_block(alloc: Global, cursor: &mut Cursor) -> Result<Option<Node>, ParseFault>
    requires { cursor.old.fault ≡ None }
    ensures block { IfOk result (λ o. IfSome o (λ node. IsReturnBlock cursor.old cursor.new node)) }
    ensures others { (cursor.new.bytes.now ≡ cursor.old.bytes.now) × (cursor.new.fault ≡ cursor.old.fault) }
{
    let Some(opening) = taken(cursor, TokenKind::LeftBrace)? else {
        return Ok(None);
    };
    let Some(word) = taken(cursor, TokenKind::KwReturn)? else {
        return Ok(None);
    };
    let Some(closing) = taken(cursor, TokenKind::RightBrace)? else {
        return Ok(None);
    };
    let none = Vec::new(alloc);
    let statement = node_of(alloc, cursor, NodeKind::ReturnStmt, word, word, none)?;
    let parts = vec![in alloc; statement].map_err(|_| ParseFault::NoMemory)?;
    Ok(Some(node_of(alloc, cursor, NodeKind::Block, opening, closing, parts)?))
}

// Reads on behind the answer Block, where `{ return }` is awaited if `returns`, and else `{}`.
fn rest_of_literal(
    alloc: Global,
    cursor: &mut Cursor,
    pending: &mut Pending,
    returns: bool,
) -> Result<Option<Parsed>, ParseFault>
    requires unspent { cursor.old.fault ≡ None }
    requires begun { pending.old.begun ≡ true }
    requires awaits { pending.old.awaits ≡ true }
    requires piece { hands pending.old.reading ≡ true }
    requires block { (front : List TokenOf) × ((low : ℕ) × IsAwaiting cursor.old.bytes.now (open_view pending.old) front low cursor.old.number cursor.old.at cursor.old.last) }
{
    if pending.free() < 2 {
        return Ok(None);
    }
    if returns {
        match return_block(alloc, cursor)? {
            None => Ok(None),
            Some(block) => hand_in(alloc, cursor, pending, block),
        }
    } else {
        match empty_block(alloc, cursor)? {
            None => Ok(None),
            Some(block) => hand_in(alloc, cursor, pending, block),
        }
    }
}

// Hands the block in, and reads on behind it.
fn hand_in(
    alloc: Global,
    cursor: &mut Cursor,
    pending: &mut Pending,
    block: Node,
) -> Result<Option<Parsed>, ParseFault>
    requires unspent { cursor.old.fault ≡ None }
    requires awaits { pending.old.awaits ≡ true }
    requires read { (front : List TokenOf) × ((low : ℕ) × IsBlockRead cursor.old pending.old front low block) }
{
    match pending.give(cursor, block) {
        Err(_) => Err(ParseFault::NoMemory),
        Ok(()) => match parse_expr(alloc, cursor, pending) {
            Err(fault) => Err(fault),
            Ok(parsed) => Ok(Some(parsed)),
        },
    }
}

// Reads a piece with one function literal, whose block is `{ return }` if `returns`, and else `{}`.
fn read_literal(alloc: Global, text: &[u8], returns: bool) -> Result<Option<Parsed>, ParseFault> {
    let mut cursor = Cursor::new(text, NodeId(7));
    let mut pending = Pending::new(alloc, Reading::Plain, AMPLE);
    match parse_expr(alloc, &mut cursor, &mut pending) {
        Err(fault) => Err(fault),
        Ok(Parsed::Whole(_)) => Ok(None),
        Ok(Parsed::Block) => rest_of_literal(alloc, &mut cursor, &mut pending, returns),
    }
}

// A text, whether its block returns, and the shape of its tree.
const LITERALS: [(&str, bool, &str); 10] = [
    ("func(){}", false, "(FuncLit (Signature (Params)) (Block))"),
    (
        "func(){}()",
        false,
        "(CallExpr (FuncLit (Signature (Params)) (Block)))",
    ),
    (
        "f(func(a int) bool {}, b...)",
        false,
        "(SpreadCallExpr f (FuncLit (Signature (Params (Param a int)) bool) (Block)) b)",
    ),
    (
        "a + func() T {} (x)",
        false,
        "(AddExpr a (CallExpr (FuncLit (Signature (Params) T) (Block)) x))",
    ),
    (
        "[]func(){func(){}}",
        false,
        "(CompositeLit (SliceType (FuncType (Signature (Params)))) (LiteralValue (FuncLit (Signature (Params)) (Block))))",
    ),
    (
        "func() (func() T) {}",
        false,
        "(FuncLit (Signature (Params) (Params (UnnamedParam (FuncType (Signature (Params) T))))) (Block))",
    ),
    (
        "func() { return }",
        true,
        "(FuncLit (Signature (Params)) (Block (ReturnStmt)))",
    ),
    (
        "func() { return }()",
        true,
        "(CallExpr (FuncLit (Signature (Params)) (Block (ReturnStmt))))",
    ),
    (
        "f(a, func(b T) { return }) + c",
        true,
        "(AddExpr (CallExpr f a (FuncLit (Signature (Params (Param b T))) (Block (ReturnStmt)))) c)",
    ),
    (
        "T{func() { return }, a}",
        true,
        "(CompositeLit T (LiteralValue (FuncLit (Signature (Params)) (Block (ReturnStmt))) a))",
    ),
];

#[test]
fn function_literals(rt: HostRuntime) -> Result<(), Fail> {
    for (text, returns, want) in LITERALS {
        match read_literal(rt.alloc(), text.as_bytes(), returns)? {
            Some(Parsed::Whole(node)) => {
                let shape = shape(rt.alloc(), &node)?;
                assert_eq!(rt; shape.as_str(), want, "{text}");
            }
            _ => assert!(rt; false, "{text}"),
        }
    }
    Ok(())
}
