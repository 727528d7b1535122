// Reading a piece.
ghost use Rattle.std.specs.Prelude.{◌≡◌, ◌≢◌, ◌⊎◌, ℕ, true, false, List, Some, None, IfOk, IfErr, IsTrue, IsFalse, MatchBool, Err as ErrOf};
ghost use Rattle.go_tree.specs.declared.token.Token.{Token as TokenOf};
ghost use Rattle.go_tree.specs.declared.token.TokenKind.{TokenKind as TokenKindOf};
ghost use Rattle.go_tree.specs.declared.token.TokenKind.TheVariants.{End};
ghost use Rattle.go_tree.specs.Lexical.Scan.{IsNext};
ghost use Rattle.go_tree.specs.Grammar.Tables.Prediction.{starts as starts_so};
ghost use Rattle.go_tree.specs.Grammar.Trees.Sentence.{tables, IsA};
ghost use Rattle.go_text.specs.declared.fault.ParseFault.{ParseFault as ParseFaultOf};
ghost use Rattle.go_parse_x.specs.declared.progress.Progress.TheVariants.{Passed as ThePassed};
ghost use Rattle.go_parse_x.specs.Answers.{spot_of, IsAnswer, IsReady};
ghost use Rattle.go_parse_x.specs.Tables.Lines.{sides};
ghost use Rattle.go_parse_x.specs.Tables.Opened.{frames, numbers};
ghost use Rattle.go_parse_x.specs.Targets.{hands, piece};
ghost use Rattle.go_parse_x.specs.Pieces.{view_of, open_view, IsNew, IsOpen};
ghost use Rattle.go_parse_x.specs.Machine.Steps.{behind, HasNumbers, IsProgress, IsRead};
ghost use Rattle.go_parse_x.specs.Machine.Turns.{is_asked as is_asked_so, IsSolid};

use crate::counting::{hand_over, pass, stray};
use crate::cursor::Cursor;
use crate::finish::finish;
use crate::opened::last_node;
use crate::parsed::Parsed;
use crate::pending::Pending;
use crate::prediction::{is_asked, starts};
use crate::progress::Progress;
use crate::seen::{Seen, Turn};
use crate::settle::settle;
use go_text::ParseFault;
use go_tree::{Token, TokenKind};
use std::alloc::Global;

/// Reads a piece, or goes on with one behind a block that was handed in.
///
/// Whole where the tokens that are passed are a whole piece and no piece begins with them and the next
/// one; Block where the next token opens the block of a function literal. The faults say what is wrong
/// at the earliest token. After a fault the cursor is spent: each later call answers the same fault.
/// After Whole the pending value is as new.
pub fn parse_expr(
    alloc: Global,
    cursor: &mut Cursor,
    pending: &mut Pending,
) -> Result<Parsed, ParseFault>
    requires ready { cursor.old.fault ≡ None → (front : List TokenOf) × ((low : ℕ) × IsReady cursor.old pending.old front low) }
    ensures answer { cursor.old.fault ≡ None → (front : List TokenOf) (low : ℕ) → IsReady cursor.old pending.old front low →
        IsAnswer cursor.old.bytes.now (piece pending.old.reading) pending.old.free front (spot_of cursor.old) (spot_of cursor.new) low cursor.new.number pending.new result }
    ensures spent { IfErr result (λ fault. cursor.new.fault ≡ Some fault) }
    ensures unspent { IfOk result (λ _. cursor.new.fault ≡ None) }
    ensures again { (fault : ParseFaultOf) → cursor.old.fault ≡ Some fault → result ≡ ErrOf fault }
    ensures text { cursor.new.bytes.now ≡ cursor.old.bytes.now }
    ensures piece { (pending.new.reading ≡ pending.old.reading) × (pending.new.free ≡ pending.old.free) }
{
    if let Some(fault) = cursor.fault {
        return Err(fault);
    }
    match read(alloc, cursor, pending) {
        Ok(parsed) => Ok(parsed),
        Err(fault) => {
            cursor.fault = Some(fault);
            Err(fault)
        }
    }
}

// Reads on from the place where the cursor stands.
fn read(alloc: Global, cursor: &mut Cursor, pending: &mut Pending) -> Result<Parsed, ParseFault>
    requires solid { IsSolid (view_of pending.old).rest }
    requires awaits { pending.old.awaits ≡ false }
    requires piece { hands pending.old.reading ≡ true }
    ensures answer { (front : List TokenOf) (low : ℕ) → IsReady cursor.old pending.old front low →
        IsAnswer cursor.old.bytes.now (piece pending.old.reading) pending.old.free front (spot_of cursor.old) (spot_of cursor.new) low cursor.new.number pending.new result }
    ensures text { (cursor.new.bytes.now ≡ cursor.old.bytes.now) × (cursor.new.fault ≡ cursor.old.fault) }
    ensures piece { (pending.new.reading ≡ pending.old.reading) × (pending.new.free ≡ pending.old.free) }
{
    if pending.begin(alloc).is_err() {
        return Err(ParseFault::NoMemory);
    }
    go_on(alloc, cursor, pending)
}

// Reads token after token.
fn go_on(alloc: Global, cursor: &mut Cursor, pending: &mut Pending) -> Result<Parsed, ParseFault>
    requires solid { IsSolid (sides pending.old.todo.items) }
    requires begun { pending.old.begun ≡ true }
    requires awaits { pending.old.awaits ≡ false }
    requires piece { hands pending.old.reading ≡ true }
    ensures answer { (front : List TokenOf) (low : ℕ) → IsOpen cursor.old.bytes.now (open_view pending.old) front low cursor.old.number cursor.old.at cursor.old.last →
        IsAnswer cursor.old.bytes.now (piece pending.old.reading) pending.old.free front (spot_of cursor.old) (spot_of cursor.new) low cursor.new.number pending.new result }
    ensures text { (cursor.new.bytes.now ≡ cursor.old.bytes.now) × (cursor.new.fault ≡ cursor.old.fault) }
    ensures piece { (pending.new.reading ≡ pending.old.reading) × (pending.new.free ≡ pending.old.free) }
{
    loop {
        let token = match cursor.peek() {
            Err(lex) => return Err(ParseFault::Lexical(lex)),
            Ok(token) => token,
        };
        if is_last(pending, token) {
            return end(alloc, cursor, pending, token);
        }
        match one_token(alloc, cursor, pending, token) {
            Err(fault) => return Err(fault),
            Ok(Progress::AtBlock) => return Ok(Parsed::Block),
            Ok(Progress::Passed) => {}
        }
    }
}

// Whether no piece goes on with the token.
fn is_last(pending: &Pending, token: Token) -> bool
    ensures yes { IsTrue result → (token.kind ≡ End) ⊎ (starts_so tables (sides pending.now.todo.items) token.kind ≡ false) }
    ensures no { IsFalse result → (token.kind ≢ End) × (starts_so tables (sides pending.now.todo.items) token.kind ≡ true) }
{
    token.kind == TokenKind::End || !starts(&pending.todo, token.kind)
}

/// What the next token makes of the piece or file.
pub fn one_token(
    alloc: Global,
    cursor: &mut Cursor,
    pending: &mut Pending,
    token: Token,
) -> Result<Progress, ParseFault>
    requires solid { IsSolid (sides pending.old.todo.items) }
    requires next { IsNext cursor.old.bytes.now cursor.old.at cursor.old.last token }
    requires more { token.kind ≢ End }
    ensures progress { (front : List TokenOf) (low : ℕ) → IsOpen cursor.old.bytes.now (open_view pending.old) front low cursor.old.number cursor.old.at cursor.old.last →
        (starts_so tables (sides pending.old.todo.items) token.kind ≡ false → IsA cursor.old.bytes.now (piece pending.old.reading) front → ⊥) →
        IsProgress cursor.old.bytes.now (piece pending.old.reading) pending.old.free front (spot_of cursor.old) (spot_of cursor.new) low cursor.new.number pending.new token result }
    ensures passed { IfOk result (λ progress. progress ≡ ThePassed → (spot_of cursor.new ≡ behind token) × IsSolid (sides pending.new.todo.items) × (pending.new.awaits ≡ pending.old.awaits)) }
    ensures begun { IfOk result (λ _. pending.new.begun ≡ pending.old.begun) }
    ensures text { (cursor.new.bytes.now ≡ cursor.old.bytes.now) × (cursor.new.fault ≡ cursor.old.fault) }
    ensures piece { (pending.new.reading ≡ pending.old.reading) × (pending.new.free ≡ pending.old.free) }
{
    let seen = Seen {
        token,
        ahead: ahead(cursor, token),
        last: pending.last,
        hands_over: pending.reading.hands_over(),
    };
    match settle(
        alloc,
        cursor.bytes,
        &mut cursor.number,
        &mut pending.todo,
        &mut pending.opened,
        seen,
    ) {
        Err(_) => Err(ParseFault::NoMemory),
        Ok(Turn::Passed) => pass(cursor, pending, token),
        Ok(Turn::Stuck) => Err(ParseFault::Syntax(token.start)),
        Ok(Turn::Astray) => Err(stray(cursor, pending, token)),
        Ok(Turn::Unseen) => Err(stray(cursor, pending, token)),
        Ok(Turn::AtBlock) => hand_over(pending, token),
        // all steps do not end so
        Ok(Turn::Turned) => Err(ParseFault::Syntax(token.start)),
        Ok(Turn::Asked) => Err(ParseFault::Syntax(token.start)),
    }
}

// The kind of the token behind the next one, where that is asked for and follows.
fn ahead(cursor: &Cursor, token: Token) -> Option<TokenKind>
    requires next { IsNext cursor.now.bytes.now cursor.now.at cursor.now.last token }
    requires more { token.kind ≢ End }
    ensures some { (kind : TokenKindOf) → result ≡ Some kind → (u : TokenOf) × IsNext cursor.now.bytes.now token.end (Some token.kind) u × (u.kind ≡ kind) }
    ensures none { result ≡ None → is_asked_so token.kind ≡ true → (u : TokenOf) → IsNext cursor.now.bytes.now token.end (Some token.kind) u → ⊥ }
{
    if is_asked(token.kind) {
        cursor.kind_behind(token)
    } else {
        None
    }
}

// The answer where no piece goes on with the next token.
fn end(
    alloc: Global,
    cursor: &mut Cursor,
    pending: &mut Pending,
    token: Token,
) -> Result<Parsed, ParseFault>
    requires solid { IsSolid (sides pending.old.todo.items) }
    requires next { IsNext cursor.old.bytes.now cursor.old.at cursor.old.last token }
    requires piece { hands pending.old.reading ≡ true }
    requires last { (token.kind ≡ End) ⊎ (starts_so tables (sides pending.old.todo.items) token.kind ≡ false) }
    ensures answer { (front : List TokenOf) (low : ℕ) → IsOpen cursor.old.bytes.now (open_view pending.old) front low cursor.old.number cursor.old.at cursor.old.last →
        IsAnswer cursor.old.bytes.now (piece pending.old.reading) pending.old.free front (spot_of cursor.old) (spot_of cursor.new) low cursor.new.number pending.new result }
    ensures text { (cursor.new.bytes.now ≡ cursor.old.bytes.now) × (cursor.new.fault ≡ cursor.old.fault) }
    ensures piece { (pending.new.reading ≡ pending.old.reading) × (pending.new.free ≡ pending.old.free) }
{
    if ends_asked(cursor.last) {
        return Err(ParseFault::Syntax(token.start));
    }
    match finish(
        alloc,
        cursor.bytes,
        &mut cursor.number,
        &mut pending.todo,
        &mut pending.opened,
        pending.last,
    ) {
        Err(_) => Err(ParseFault::NoMemory),
        Ok(false) => Err(ParseFault::Syntax(token.start)),
        Ok(true) => whole(alloc, pending, token),
    }
}

// The tree of a whole piece; the pending value is as new.
fn whole(alloc: Global, pending: &mut Pending, token: Token) -> Result<Parsed, ParseFault>
    ensures node { IsRead (frames pending.old.opened.items) result }
    ensures numbers { HasNumbers (numbers pending.old.opened.items) result }
    ensures anew { IfOk result (λ _. IsNew pending.new) }
    ensures piece { (pending.new.reading ≡ pending.old.reading) × (pending.new.free ≡ pending.old.free) }
{
    match last_node(&mut pending.opened) {
        // a piece has a node
        None => Err(ParseFault::Syntax(token.start)),
        Some(node) => {
            pending.renew(alloc);
            Ok(Parsed::Whole(node))
        }
    }
}

// Whether the last token was asked for together with the one behind it.
fn ends_asked(last: Option<TokenKind>) -> bool
    ensures { MatchBool result ((kind : TokenKindOf) × (last ≡ Some kind) × (is_asked_so kind ≡ true)) ((kind : TokenKindOf) → last ≡ Some kind → is_asked_so kind ≡ false) }
{
    match last {
        None => false,
        Some(kind) => is_asked(kind),
    }
}
