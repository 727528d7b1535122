// Reading a whole file.
ghost use Rattle.std.specs.Prelude.{◌≡◌, ◌≢◌, ℕ, true, List, [], ◌⊎◌, Some, None, IfOk, IfErr, OnOk, MatchBool};
ghost use Rattle.go_tree.specs.declared.token.Token.{Token as TokenOf};
ghost use Rattle.go_tree.specs.declared.token.TokenKind.TheVariants.{End};
ghost use Rattle.go_tree.specs.declared.production.Production.TheVariants.{File};
ghost use Rattle.go_tree.specs.Lexical.Scan.{IsNext};
ghost use Rattle.go_tree.specs.Grammar.Tables.Prediction.{AllDecided};
ghost use Rattle.go_tree.specs.Grammar.Trees.Sentence.{tables};
ghost use Rattle.go_parse_x.specs.declared.reading.Target.TheVariants.{File as TheFile};
ghost use Rattle.go_parse_x.specs.Answers.{spot_of};
ghost use Rattle.go_parse_x.specs.Files.{EndsText, IsFinishedBy, IsTextAnswer, IsUnfinished};
ghost use Rattle.go_parse_x.specs.Tables.Lines.{sides};
ghost use Rattle.go_tree.specs.Tree.{tree_of};
ghost use Rattle.go_parse_x.specs.Tables.Opened.{frames, numbers, numbers_in, tree_without, Rises};
ghost use Rattle.go_parse_x.specs.Machine.Steps.{Fits, IsTooHigh};
ghost use Rattle.go_parse_x.specs.Pieces.{IsNew, IsOpen, open_view};
ghost use Rattle.go_parse_x.specs.Machine.Turns.{IsSolid};

use crate::counting::count;
use crate::cursor::Cursor;
use crate::finish::finish;
use crate::opened::last_node;
use crate::pending::Pending;
use crate::progress::Progress;
use crate::reader::one_token;
use crate::seen::{Seen, Turn};
use crate::settle::settle;
use go_text::ParseFault;
use go_tree::{Node, Token, TokenKind};
use std::alloc::Global;

/// Reads a whole file, up to its end.
///
/// Ok is the tree of all its tokens. The faults say what is wrong at the earliest token: Syntax where
/// no file begins with the tokens up to it, High at the first whose height passes what is free, and
/// Lexical where no token starts behind those before. After a fault the cursor is spent with it.
pub fn parse_text(
    alloc: Global,
    cursor: &mut Cursor,
    pending: &mut Pending,
) -> Result<Node, ParseFault>
    requires file { pending.old.reading ≡ TheFile }
    requires anew { IsNew pending.old }
    requires unspent { cursor.old.fault ≡ None }
    ensures answer { IsTextAnswer cursor.old.bytes.now File pending.old.free (spot_of cursor.old) (spot_of cursor.new) cursor.old.number cursor.new.number result }
    ensures spent { IfErr result (λ fault. cursor.new.fault ≡ Some fault) }
    ensures unspent { IfOk result (λ _. cursor.new.fault ≡ None) }
    ensures text { cursor.new.bytes.now ≡ cursor.old.bytes.now }
    ensures piece { (pending.new.reading ≡ pending.old.reading) × (pending.new.free ≡ pending.old.free) }
{
    match read(alloc, cursor, pending) {
        Ok(root) => Ok(root),
        Err(fault) => {
            cursor.fault = Some(fault);
            Err(fault)
        }
    }
}

// Reads all of the text.
fn read(alloc: Global, cursor: &mut Cursor, pending: &mut Pending) -> Result<Node, ParseFault>
    requires file { pending.old.reading ≡ TheFile }
    requires anew { IsNew pending.old }
    ensures answer { IsTextAnswer cursor.old.bytes.now File pending.old.free (spot_of cursor.old) (spot_of cursor.new) cursor.old.number cursor.new.number result }
    ensures text { (cursor.new.bytes.now ≡ cursor.old.bytes.now) × (cursor.new.fault ≡ cursor.old.fault) }
    ensures piece { (pending.new.reading ≡ pending.old.reading) × (pending.new.free ≡ pending.old.free) }
{
    if pending.begin(alloc).is_err() {
        return Err(ParseFault::NoMemory);
    }
    read_tokens(alloc, cursor, pending)
}

// Reads token after token.
fn read_tokens(
    alloc: Global,
    cursor: &mut Cursor,
    pending: &mut Pending,
) -> Result<Node, ParseFault>
    requires file { pending.old.reading ≡ TheFile }
    requires open { IsOpen cursor.old.bytes.now (open_view pending.old) [] cursor.old.number cursor.old.number cursor.old.at cursor.old.last }
    ensures answer { IsTextAnswer cursor.old.bytes.now File pending.old.free (spot_of cursor.old) (spot_of cursor.new) cursor.old.number cursor.new.number result }
    ensures text { (cursor.new.bytes.now ≡ cursor.old.bytes.now) × (cursor.new.fault ≡ cursor.old.fault) }
    ensures piece { (pending.new.reading ≡ pending.old.reading) × (pending.new.free ≡ pending.old.free) }
{
    loop {
        let token = match cursor.peek() {
            Err(lex) => return Err(ParseFault::Lexical(lex)),
            Ok(token) => token,
        };
        if is_end(token.kind) {
            return last_token(alloc, cursor, pending, token);
        }
        match one_token(alloc, cursor, pending, token) {
            Err(fault) => return Err(fault),
            // a file hands no block over
            Ok(Progress::AtBlock) => return Err(ParseFault::Syntax(token.start)),
            Ok(Progress::Passed) => {}
        }
    }
}

fn is_end(kind: TokenKind) -> bool
    ensures { MatchBool result (kind ≡ End) (kind ≢ End) }
{
    kind == TokenKind::End
}

// Passes the end of the file, which is not counted as passed by the cursor.
fn last_token(
    alloc: Global,
    cursor: &mut Cursor,
    pending: &mut Pending,
    token: Token,
) -> Result<Node, ParseFault>
    requires file { pending.old.reading ≡ TheFile }
    requires solid { IsSolid (sides pending.old.todo.items) }
    requires next { IsNext cursor.old.bytes.now cursor.old.at cursor.old.last token }
    requires end { token.kind ≡ End }
    ensures answer { (tokens : List TokenOf) (low : ℕ) → IsOpen cursor.old.bytes.now (open_view pending.old) tokens low cursor.old.number cursor.old.at cursor.old.last →
        EndsText cursor.old.bytes.now pending.old.free tokens token (spot_of cursor.old) low cursor.new.number result }
    ensures text { (cursor.new.bytes.now ≡ cursor.old.bytes.now) × (spot_of cursor.new ≡ spot_of cursor.old) × (cursor.new.fault ≡ cursor.old.fault) }
    ensures piece { (pending.new.reading ≡ pending.old.reading) × (pending.new.free ≡ pending.old.free) }
{
    let seen = Seen {
        token,
        ahead: None,
        last: pending.last,
        hands_over: false,
    };
    match settle(
        alloc,
        cursor.bytes,
        &mut cursor.number,
        &mut pending.todo,
        &mut pending.opened,
        seen,
    ) {
        Err(_) => Err(ParseFault::NoMemory),
        Ok(Turn::Passed) => root(alloc, cursor, pending, token),
        Ok(Turn::Stuck) => Err(ParseFault::Syntax(token.start)),
        // nothing is asked for behind the end, and it opens no block
        Ok(Turn::Astray) => Err(ParseFault::Syntax(token.start)),
        Ok(Turn::Unseen) => Err(ParseFault::Syntax(token.start)),
        Ok(Turn::AtBlock) => Err(ParseFault::Syntax(token.start)),
        Ok(Turn::Turned) => Err(ParseFault::Syntax(token.start)),
        Ok(Turn::Asked) => Err(ParseFault::Syntax(token.start)),
    }
}

// The tree, where the end of the file was passed.
fn root(
    alloc: Global,
    cursor: &mut Cursor,
    pending: &mut Pending,
    token: Token,
) -> Result<Node, ParseFault>
    requires decided { AllDecided tables (sides pending.old.todo.items) }
    ensures high { IfErr result (λ fault. IsTooHigh pending.old.free token pending.old.heights fault ⊎ IsUnfinished cursor.old.bytes.now token.end (sides pending.old.todo.items) (frames pending.old.opened.items)) }
    ensures fits { OnOk result (Fits pending.old.free token pending.old.heights) }
    ensures tree { IfOk result (λ node. IsFinishedBy cursor.old.bytes.now token.end (sides pending.old.todo.items) (frames pending.old.opened.items) (tree_without node)) }
    ensures numbers { IfOk result (λ node. (low : ℕ) → Rises low (numbers pending.old.opened.items) cursor.old.number → Rises low (numbers_in (tree_of node)) cursor.new.number) }
    ensures text { (cursor.new.bytes.now ≡ cursor.old.bytes.now) × (spot_of cursor.new ≡ spot_of cursor.old) × (cursor.new.fault ≡ cursor.old.fault) }
    ensures piece { (pending.new.reading ≡ pending.old.reading) × (pending.new.free ≡ pending.old.free) }
{
    match count(&mut pending.heights, pending.free, token) {
        Err(fault) => Err(fault),
        Ok(()) => match finish(
            alloc,
            cursor.bytes,
            &mut cursor.number,
            &mut pending.todo,
            &mut pending.opened,
            token.end,
        ) {
            Err(_) => Err(ParseFault::NoMemory),
            Ok(false) => Err(ParseFault::Syntax(token.start)),
            Ok(true) => match last_node(&mut pending.opened) {
                None => Err(ParseFault::Syntax(token.start)),
                Some(node) => Ok(node),
            },
        },
    }
}
