// The height at a token.
ghost use Rattle.std.specs.Prelude.{◌≡◌, true, List, [], ◌∷◌, ◌++◌, IfOk, IfErr, OnOk};
ghost use Rattle.go_tree.specs.declared.token.Token.{Token as TokenOf};
ghost use Rattle.go_tree.specs.declared.token.TokenKind.TheVariants.{LeftBrace};
ghost use Rattle.go_tree.specs.Lexical.Scan.{IsNext};
ghost use Rattle.go_parse_x.specs.declared.progress.Progress.TheVariants.{AtBlock, Passed};
ghost use Rattle.go_parse_x.specs.Answers.{spot_of};
ghost use Rattle.go_parse_x.specs.Machine.Heights.{Counts};
ghost use Rattle.go_parse_x.specs.Pieces.{open_view};
ghost use Rattle.go_parse_x.specs.Machine.Steps.{Fits, IsTooHigh, IsStray, behind};

use crate::cursor::Cursor;
use crate::heights::Heights;
use crate::pending::Pending;
use crate::progress::Progress;
use go_text::ParseFault;
use go_tree::Token;

/// Counts a token, or says that its height passes what is free.
pub fn count(heights: &mut Heights, free: usize, token: Token) -> Result<(), ParseFault>
    ensures counts { OnOk result ((ts : List TokenOf) → Counts heights.old ts → Counts heights.new (ts ++ token ∷ [])) }
    ensures fits { OnOk result (Fits free token heights.old) }
    ensures high { IfErr result (λ fault. IsTooHigh free token heights.old fault) }
{
    if heights.take(token.kind).is_err() {
        return Err(ParseFault::NoMemory);
    }
    if heights.total() > free {
        return Err(ParseFault::High(token.start));
    }
    Ok(())
}

/// Passes a token that goes on with the piece.
pub fn pass(
    cursor: &mut Cursor,
    pending: &mut Pending,
    token: Token,
) -> Result<Progress, ParseFault>
    requires { IsNext cursor.old.bytes.now cursor.old.at cursor.old.last token }
    ensures passed { IfOk result (λ progress. (progress ≡ Passed) × (spot_of cursor.new ≡ behind token)) }
    ensures view { open_view pending.new ≡ record (open_view pending.old) { last = token.end; heights = pending.new.heights } }
    ensures counts { OnOk result ((ts : List TokenOf) → Counts pending.old.heights ts → Counts pending.new.heights (ts ++ token ∷ [])) }
    ensures fits { OnOk result (Fits pending.old.free token pending.old.heights) }
    ensures high { IfErr result (λ fault. (spot_of cursor.new ≡ spot_of cursor.old) × IsTooHigh pending.old.free token pending.old.heights fault) }
    ensures others { (cursor.new.bytes.now ≡ cursor.old.bytes.now) × (cursor.new.number ≡ cursor.old.number) × (cursor.new.fault ≡ cursor.old.fault) }
    ensures stays { (pending.new.todo ≡ pending.old.todo) × (pending.new.begun ≡ pending.old.begun) × (pending.new.awaits ≡ pending.old.awaits) × (pending.new.reading ≡ pending.old.reading) × (pending.new.free ≡ pending.old.free) }
{
    pending.last = token.end;
    match count(&mut pending.heights, pending.free, token) {
        Err(fault) => Err(fault),
        Ok(()) => {
            cursor.pass(token);
            Ok(Progress::Passed)
        }
    }
}

/// Passes a token that could go on with the piece, but not before what stands behind it.
pub fn stray(cursor: &mut Cursor, pending: &mut Pending, token: Token) -> ParseFault
    requires { IsNext cursor.old.bytes.now cursor.old.at cursor.old.last token }
    ensures stray { IsStray cursor.old.bytes.now pending.old.free token pending.old.heights (spot_of cursor.old) (spot_of cursor.new) result }
    ensures others { (cursor.new.bytes.now ≡ cursor.old.bytes.now) × (cursor.new.number ≡ cursor.old.number) × (cursor.new.fault ≡ cursor.old.fault) }
    ensures stays { (pending.new.reading ≡ pending.old.reading) × (pending.new.free ≡ pending.old.free) }
{
    match count(&mut pending.heights, pending.free, token) {
        Err(fault) => fault,
        Ok(()) => {
            cursor.pass(token);
            match cursor.peek() {
                Err(lex) => ParseFault::Lexical(lex),
                Ok(behind) => ParseFault::Syntax(behind.start),
            }
        }
    }
}

/// Stops before the block of a function literal.
pub fn hand_over(pending: &mut Pending, token: Token) -> Result<Progress, ParseFault>
    requires { token.kind ≡ LeftBrace }
    ensures block { IfOk result (λ progress. (progress ≡ AtBlock) × (pending.new.awaits ≡ true)) }
    ensures view { open_view pending.new ≡ open_view pending.old }
    ensures fits { OnOk result (Fits pending.old.free token pending.old.heights) }
    ensures high { IfErr result (λ fault. IsTooHigh pending.old.free token pending.old.heights fault) }
    ensures stays { (pending.new.begun ≡ pending.old.begun) × (pending.new.reading ≡ pending.old.reading) × (pending.new.free ≡ pending.old.free) }
{
    if pending.heights.total() >= pending.free {
        return Err(ParseFault::High(token.start));
    }
    pending.awaits = true;
    Ok(Progress::AtBlock)
}
