// What the next token decides.
ghost use Rattle.std.specs.Prelude.{◌≡◌, List, ◌∷◌, IfSome, IfNone};
ghost use Rattle.go_tree.specs.declared.token.Token.{Token as TokenOf};
ghost use Rattle.go_tree.specs.Grammar.Tables.Prediction.{begins as begins_so, is_empty as is_empty_so, starts as starts_so, may_look as may_look_so, may_miss as may_miss_so};
ghost use Rattle.go_tree.specs.Grammar.Trees.Reading.{looks};
ghost use Rattle.go_tree.specs.Grammar.Trees.Sentence.{tables};
ghost use Rattle.go_parse_x.specs.Tables.Lines.{ahead_of, side, sides};
ghost use Rattle.go_parse_x.specs.Machine.Turns.{BeginsWith, is_asked as is_asked_so, AsksFor};

use crate::firsts::{begins_with, can_be_empty};
use crate::kind_sets::{has, kinds, same};
use crate::line::Asked;
use crate::place::Place;
use crate::shape::{Shape, shape_at};
use go_tree::TokenKind;

const RESULTS: u128 =
    kinds![Ident LeftParen LeftBracket Mul KwMap KwChan KwFunc KwStruct KwInterface];

/// Whether what stands there can begin with a token of that kind.
pub fn begins(place: &Place, kind: TokenKind) -> bool
    ensures { result ≡ begins_so tables (side place.now) kind }
{
    match shape_at(place) {
        Shape::Pass(wanted) => same(wanted, kind),
        Shape::Act(_) => false,
        Shape::Call(n) => begins_with(n, kind),
        Shape::Nothing => false,
        Shape::Seq(first, second) => {
            begins(&first, kind) || is_empty(&first) && begins(&second, kind)
        }
        Shape::Or(_, first, second) => begins(&first, kind) || begins(&second, kind),
        Shape::Many(_, part) => begins(&part, kind),
        Shape::When(asked, first, second) => {
            may_look(asked, kind) && begins(&first, kind)
                || may_miss(asked, kind) && begins(&second, kind)
        }
    }
}

/// Whether it can be empty.
pub fn is_empty(place: &Place) -> bool
    ensures { result ≡ is_empty_so tables (side place.now) }
{
    match shape_at(place) {
        Shape::Pass(_) => false,
        Shape::Act(_) => true,
        Shape::Call(n) => can_be_empty(n),
        Shape::Nothing => true,
        Shape::Seq(first, second) => is_empty(&first) && is_empty(&second),
        Shape::Or(_, first, second) => is_empty(&first) || is_empty(&second),
        Shape::Many(..) => true,
        Shape::When(_, first, second) => is_empty(&first) || is_empty(&second),
    }
}

/// Whether a token of that kind can stand next where all these come, the last of them first.
pub fn starts(todo: &[Place], kind: TokenKind) -> bool
    ensures { result ≡ starts_so tables (sides todo.now) kind }
{
    let mut i = todo.len();
    while i > 0 {
        i -= 1;
        let place = &todo[i];
        if begins(place, kind) {
            return true;
        }
        if !is_empty(place) {
            return false;
        }
    }
    false
}

/// The answer to what is asked of the tokens that come next, where the next one is of that kind and
/// answers it alone; none where the one behind it decides.
pub fn alone(asked: Asked, kind: TokenKind) -> Option<bool>
    ensures some { IfSome result (λ b. (t : TokenOf) (ts : List TokenOf) → t.kind ≡ kind → looks (ahead_of asked) (t ∷ ts) ≡ b) }
    ensures none { IfNone result (AsksFor asked kind) }
{
    match asked {
        Asked::Brace | Asked::Bracket | Asked::Result => Some(may_look(asked, kind)),
        Asked::Qualifier | Asked::Receive => {
            if may_look(asked, kind) {
                None
            } else {
                Some(false)
            }
        }
    }
}

/// The answer where the one behind it decides, and is of that kind.
pub fn together(asked: Asked, second: TokenKind) -> bool
    ensures { (t : TokenOf) (ts : List TokenOf) → AsksFor asked t.kind → BeginsWith second ts → looks (ahead_of asked) (t ∷ ts) ≡ result }
{
    match asked {
        Asked::Brace | Asked::Bracket | Asked::Result => false,
        Asked::Qualifier => same(TokenKind::Ident, second),
        Asked::Receive => same(TokenKind::KwChan, second),
    }
}

/// Whether a token of that kind is ever asked for together with the one behind it.
pub fn is_asked(kind: TokenKind) -> bool
    ensures { result ≡ is_asked_so kind }
{
    matches!(kind, TokenKind::Dot | TokenKind::Arrow)
}

// Whether the tokens that come next can be as asked, and can be otherwise, where the next one is of that kind.
fn may_look(asked: Asked, kind: TokenKind) -> bool
    ensures { result ≡ may_look_so (ahead_of asked) kind }
{
    match asked {
        Asked::Brace => same(TokenKind::LeftBrace, kind),
        Asked::Bracket => same(TokenKind::LeftBracket, kind),
        Asked::Result => has(RESULTS, kind),
        Asked::Qualifier => same(TokenKind::Dot, kind),
        Asked::Receive => same(TokenKind::Arrow, kind),
    }
}

fn may_miss(asked: Asked, kind: TokenKind) -> bool
    ensures { result ≡ may_miss_so (ahead_of asked) kind }
{
    match asked {
        Asked::Qualifier | Asked::Receive => true,
        _ => !may_look(asked, kind),
    }
}
