// A place between the tokens of a text.
ghost use Rattle.std.specs.Prelude.{◌≡◌, ◌^◌, ◌≢◌, ◌+◌, ◌≤◌, ◌<◌, length, None, Some, IfOk, IfErr, IfSome, IfNone, OnErr};
ghost use Rattle.go_tree.specs.declared.token.Token.{Token as TokenOf};
ghost use Rattle.go_tree.specs.declared.token.TokenKind.TheVariants.{End};
ghost use Rattle.go_tree.specs.Lexical.Scan.{IsNext};
ghost use Rattle.go_scan.specs.Weight.{scan_weight};
ghost use Rattle.go_parse_x.specs.Texts.{IsAhead, IsLexAhead};
ghost use Rattle.go_tree.specs.Lexical.Faults.{IsLex};

use crate::closing::next_number;
use go_base::NoMemory;
use go_scan::{Lex, next};
use go_text::ParseFault;
use go_tree::{NodeId, Token, TokenKind};

/// A place between the tokens of a text, the number for the next node, and the fault that ended the
/// reading, if one did.
#[derive(Debug, Drop)]
pub struct Cursor<'a> {
    pub(crate) bytes: &'a [u8],
    pub(crate) at: usize,
    pub(crate) last: Option<TokenKind>,
    pub(crate) number: usize,
    pub(crate) fault: Option<ParseFault>,
    ghost within: { at ≤ length bytes.now },
}

impl<'a> Cursor<'a> {
    /// Stands before the first token of a text; the next node gets the number `first`.
    pub fn new(bytes: &'a [u8], first: NodeId) -> Cursor<'a>
        ensures start { (result.bytes.now ≡ bytes.now) × (result.at ≡ 0) × (result.last ≡ None) }
        ensures number { result.number ≡ first.0 }
        ensures fault { result.fault ≡ None }
    {
        Cursor {
            bytes,
            at: 0,
            last: None,
            number: first.0,
            fault: None,
        }
    }

    /// The token `ahead` places behind the next one, or the end where there are not as many.
    pub fn look(&self, ahead: usize) -> Result<Token, Lex>
        requires unspent { self.now.fault ≡ None }
        requires near { ahead ≤ 2 }
        ensures token { IfOk result (λ t. IsAhead self.now.bytes.now self.now.at self.now.last ahead t) }
        ensures none { IfErr result (λ e. IsLexAhead self.now.bytes.now self.now.at self.now.last ahead e) }
    {
        token_ahead(self.bytes, self.at, self.last, ahead)
    }

    /// The next token, which is passed; the end is never passed.
    pub fn take(&mut self) -> Result<Token, Lex>
        requires { self.old.fault ≡ None }
        ensures token { IfOk result (λ t. IsNext self.old.bytes.now self.old.at self.old.last t) }
        ensures passed { IfOk result (λ t. t.kind ≢ End → (self.new.at ≡ t.end) × (self.new.last ≡ Some t.kind)) }
        ensures end { IfOk result (λ t. t.kind ≡ End → (self.new.at ≡ self.old.at) × (self.new.last ≡ self.old.last)) }
        ensures none { IfErr result (λ e. IsLex self.old.bytes.now self.old.at self.old.last e) }
        ensures stays { IfErr result (λ _. (self.new.at ≡ self.old.at) × (self.new.last ≡ self.old.last)) }
        ensures others { (self.new.bytes.now ≡ self.old.bytes.now) × (self.new.number ≡ self.old.number) × (self.new.fault ≡ self.old.fault) }
    {
        match self.peek() {
            Err(lex) => Err(lex),
            Ok(token) => {
                if token.kind == TokenKind::End {
                    return Ok(token);
                }
                self.pass(token);
                Ok(token)
            }
        }
    }

    /// The number for the next node, which is used up. Numbers that are used up count as want of
    /// memory.
    pub fn fresh(&mut self) -> Result<NodeId, NoMemory>
        requires { self.old.fault ≡ None }
        ensures number { IfOk result (λ id. (id.0 ≡ self.old.number) × (self.new.number ≡ self.old.number + 1)) }
        ensures kept { OnErr result (self.new.number ≡ self.old.number) }
        ensures used_up { OnErr result (self.old.number + 1 ≡ 2 ^ 64) }
        ensures others { (self.new.bytes.now ≡ self.old.bytes.now) × (self.new.at ≡ self.old.at) × (self.new.last ≡ self.old.last) × (self.new.fault ≡ self.old.fault) }
    {
        next_number(&mut self.number)
    }

    /// The next token.
    pub(crate) fn peek(&self) -> Result<Token, Lex>
        ensures token { IfOk result (λ t. IsNext self.now.bytes.now self.now.at self.now.last t) }
        ensures progress { IfOk result (λ t. t.kind ≢ End →
            scan_weight (length self.now.bytes.now) t.end (Some t.kind) < scan_weight (length self.now.bytes.now) self.now.at self.now.last) }
        ensures none { IfErr result (λ e. IsLex self.now.bytes.now self.now.at self.now.last e) }
    {
        next(self.bytes, self.at, self.last)
    }

    /// Passes a token that is no end.
    pub(crate) fn pass(&mut self, token: Token)
        requires { IsNext self.old.bytes.now self.old.at self.old.last token }
        ensures passed { (self.new.at ≡ token.end) × (self.new.last ≡ Some token.kind) }
        ensures others { (self.new.bytes.now ≡ self.old.bytes.now) × (self.new.number ≡ self.old.number) × (self.new.fault ≡ self.old.fault) }
    {
        self.at = token.end;
        self.last = Some(token.kind);
    }

    /// The kind of the token behind the next one, where one follows.
    pub(crate) fn kind_behind(&self, token: Token) -> Option<TokenKind>
        requires next { IsNext self.now.bytes.now self.now.at self.now.last token }
        requires more { token.kind ≢ End }
        ensures some { IfSome result (λ kind. (t : TokenOf) × IsNext self.now.bytes.now token.end (Some token.kind) t × (t.kind ≡ kind)) }
        ensures none { IfNone result ((t : TokenOf) → IsNext self.now.bytes.now token.end (Some token.kind) t → ⊥) }
    {
        match next(self.bytes, token.end, Some(token.kind)) {
            Ok(behind) => Some(behind.kind),
            Err(_) => None,
        }
    }
}

// The token so many places behind the next one, or the end where there are not as many.
fn token_ahead(bytes: &[u8], at: usize, last: Option<TokenKind>, ahead: usize) -> Result<Token, Lex>
    requires { at ≤ length bytes.now }
    ensures token { IfOk result (λ t. IsAhead bytes.now at last ahead t) }
    ensures none { IfErr result (λ e. IsLexAhead bytes.now at last ahead e) }
{
    match next(bytes, at, last) {
        Err(lex) => Err(lex),
        Ok(token) => {
            if ahead == 0 || token.kind == TokenKind::End {
                return Ok(token);
            }
            token_ahead(bytes, token.end, Some(token.kind), ahead - 1)
        }
    }
}
