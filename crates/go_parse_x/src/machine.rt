// One step of the machine: what the next token makes of what is to be read.
ghost use Rattle.std.specs.Prelude.{◌≡◌, ℕ, ◌∷◌, true, false, List, Some, OnOk, IfOk, IsTrue, IsFalse};
ghost use Rattle.go_tree.specs.Grammar.RightSide.{RightSide, Do, Call, Seq, Or, Many, When, Pass};
ghost use Rattle.go_tree.specs.Grammar.Trees.Reading.{OpenNode as Opened};
ghost use Rattle.go_tree.specs.Grammar.Tables.Prediction.{is_empty as is_empty_so};
ghost use Rattle.go_tree.specs.Grammar.Trees.Sentence.{tables};
ghost use Rattle.go_tree.specs.declared.production.Production.{Production as ProductionOf};
ghost use Rattle.go_tree.specs.declared.production.Production.TheVariants.{Block};
ghost use Rattle.go_parse_x.specs.declared.seen.Turn.TheVariants.{Turned as TheTurned};
ghost use Rattle.go_parse_x.specs.Machine.Braces.{is_block};
ghost use Rattle.go_parse_x.specs.Tables.Leads.{IsSetOf};
ghost use Rattle.go_parse_x.specs.Tables.Lines.{ahead_of, on_top, side, sides};
ghost use Rattle.go_parse_x.specs.Tables.Opened.{frames, numbers, Rises};
ghost use Rattle.go_parse_x.specs.Tables.Shapes.{act_of};
ghost use Rattle.go_parse_x.specs.Machine.Turns.{IsSound, IsTurn, IsCheaper, AsksFor};

use crate::acts::{Here, act};
use crate::kind_sets::{has, same};
use crate::line::{Act, Asked};
use crate::opened::OpenNode;
use crate::place::Place;
use crate::prediction::{alone, together};
use crate::seen::{Seen, Turn};
use crate::shape::{Shape, shape_at};
use go_base::NoMemory;
use go_tree::{Production, TokenKind};
use std::alloc::Global;

/// What a step makes of the token, and what is then to be read before all that waits, if anything is.
#[derive(Debug, Drop)]
pub struct Stepped {
    pub turn: Turn,
    pub next: Option<Place>,
}

/// Does what the next token makes of the place, before which nothing is to be read, and behind which
/// all that waits is.
pub fn step(
    alloc: Global,
    bytes: &[u8],
    number: &mut usize,
    todo: &mut Vec<Place>,
    opened: &mut Vec<OpenNode>,
    place: Place,
    seen: Seen,
) -> Result<Stepped, NoMemory>
    requires { IsSound (side place ∷ sides todo.old.items) }
    ensures turn { IfOk result (λ s. IsTurn bytes.now seen s.turn (side place ∷ sides todo.old.items) (on_top s.next (sides todo.new.items)) (frames opened.old.items) (frames opened.new.items)) }
    ensures cheaper { IfOk result (λ s. IsCheaper s.turn (side place ∷ sides todo.old.items) (on_top s.next (sides todo.new.items))) }
    ensures numbers { OnOk result ((low : ℕ) → Rises low (numbers opened.old.items) number.old → Rises low (numbers opened.new.items) number.new) }
{
    match shape_at(&place) {
        Shape::Pass(kind) => Ok(Stepped {
            turn: pass(kind, seen),
            next: None,
        }),
        Shape::Act(made) => {
            let turn = make(alloc, bytes, number, opened, made, seen)?;
            Ok(Stepped { turn, next: None })
        }
        Shape::Call(n) => Ok(call(place, n, seen)),
        Shape::Nothing => Ok(Stepped {
            turn: Turn::Turned,
            next: None,
        }),
        Shape::Seq(g, h) => series(alloc, bytes, number, todo, opened, g, h, seen),
        Shape::Or(set, g, h) => Ok(either(set, g, h, seen)),
        Shape::Many(set, g) => many(todo, set, place, g, seen),
        Shape::When(asked, g, h) => Ok(when(asked, g, h, seen)),
    }
}

// An act.
fn make(
    alloc: Global,
    bytes: &[u8],
    number: &mut usize,
    opened: &mut Vec<OpenNode>,
    made: Act,
    seen: Seen,
) -> Result<Turn, NoMemory>
    ensures turn { IfOk result (λ turn. (gs : List (RightSide ProductionOf)) → IsTurn bytes.now seen turn (Do (act_of made) ∷ gs) gs (frames opened.old.items) (frames opened.new.items)) }
    ensures cheaper { IfOk result (λ turn. (gs : List (RightSide ProductionOf)) → IsCheaper turn (Do (act_of made) ∷ gs) gs) }
    ensures numbers { OnOk result ((low : ℕ) → Rises low (numbers opened.old.items) number.old → Rises low (numbers opened.new.items) number.new) }
{
    let here = Here {
        bytes,
        start: seen.token.start,
        last: seen.last,
    };
    match act(alloc, here, number, opened, made) {
        Err(fault) => Err(fault),
        Ok(made) => {
            if made {
                Ok(Turn::Turned)
            } else {
                Ok(Turn::Stuck)
            }
        }
    }
}

// One behind the other; a token, an act or a production in front is taken at once.
fn series(
    alloc: Global,
    bytes: &[u8],
    number: &mut usize,
    todo: &mut Vec<Place>,
    opened: &mut Vec<OpenNode>,
    g: Place,
    h: Place,
    seen: Seen,
) -> Result<Stepped, NoMemory>
    requires { IsSound (Seq (side g) (side h) ∷ sides todo.old.items) }
    ensures turn { IfOk result (λ s. IsTurn bytes.now seen s.turn (Seq (side g) (side h) ∷ sides todo.old.items) (on_top s.next (sides todo.new.items)) (frames opened.old.items) (frames opened.new.items)) }
    ensures cheaper { IfOk result (λ s. IsCheaper s.turn (Seq (side g) (side h) ∷ sides todo.old.items) (on_top s.next (sides todo.new.items))) }
    ensures numbers { OnOk result ((low : ℕ) → Rises low (numbers opened.old.items) number.old → Rises low (numbers opened.new.items) number.new) }
{
    match shape_at(&g) {
        Shape::Pass(kind) => Ok(Stepped {
            turn: pass(kind, seen),
            next: Some(h),
        }),
        Shape::Act(made) => {
            let turn = make(alloc, bytes, number, opened, made, seen)?;
            Ok(Stepped {
                turn,
                next: Some(h),
            })
        }
        Shape::Call(n) => {
            todo.push(h)?;
            if hands_over(n, seen) {
                return Ok(turned(g));
            }
            Ok(turned(Place::start(n)))
        }
        _ => {
            todo.push(h)?;
            Ok(turned(g))
        }
    }
}

// A token of that kind.
fn pass(kind: TokenKind, seen: Seen) -> Turn
    ensures turn { (bytes : List ℕ) (fs : List Opened) (gs : List (RightSide ProductionOf)) → IsTurn bytes seen result (Do (Pass kind) ∷ gs) gs fs fs }
    ensures cheaper { (gs : List (RightSide ProductionOf)) → IsCheaper result (Do (Pass kind) ∷ gs) gs }
{
    if same(kind, seen.token.kind) {
        Turn::Passed
    } else {
        Turn::Stuck
    }
}

// A production; a block may be handed over.
fn call(place: Place, n: Production, seen: Seen) -> Stepped
    requires { side place ≡ Call n }
    ensures turn { (bytes : List ℕ) (fs : List Opened) (gs : List (RightSide ProductionOf)) → IsSound (Call n ∷ gs) → IsTurn bytes seen result.turn (Call n ∷ gs) (on_top result.next gs) fs fs }
    ensures cheaper { (gs : List (RightSide ProductionOf)) → IsCheaper result.turn (Call n ∷ gs) (on_top result.next gs) }
{
    if hands_over(n, seen) {
        return block(place, n, seen);
    }
    turned(Place::start(n))
}

// A block that is handed over.
fn block(place: Place, n: Production, seen: Seen) -> Stepped
    requires call { side place ≡ Call n }
    requires block { n ≡ Block }
    requires over { seen.hands_over ≡ true }
    ensures turn { (bytes : List ℕ) (fs : List Opened) (gs : List (RightSide ProductionOf)) → IsTurn bytes seen result.turn (Call n ∷ gs) (on_top result.next gs) fs fs }
    ensures cheaper { (gs : List (RightSide ProductionOf)) → IsCheaper result.turn (Call n ∷ gs) (on_top result.next gs) }
{
    if same(TokenKind::LeftBrace, seen.token.kind) {
        return Stepped {
            turn: Turn::AtBlock,
            next: Some(place),
        };
    }
    Stepped {
        turn: Turn::Stuck,
        next: None,
    }
}

// One of two.
fn either(set: u128, g: Place, h: Place, seen: Seen) -> Stepped
    requires set { IsSetOf set (side g) }
    requires some { is_empty_so tables (side g) ≡ false }
    ensures turn { (bytes : List ℕ) (fs : List Opened) (gs : List (RightSide ProductionOf)) → IsSound (Or (side g) (side h) ∷ gs) → IsTurn bytes seen result.turn (Or (side g) (side h) ∷ gs) (on_top result.next gs) fs fs }
    ensures cheaper { (gs : List (RightSide ProductionOf)) → IsCheaper result.turn (Or (side g) (side h) ∷ gs) (on_top result.next gs) }
{
    if has(set, seen.token.kind) {
        turned(g)
    } else {
        turned(h)
    }
}

// As often as it stands there.
fn many(
    todo: &mut Vec<Place>,
    set: u128,
    place: Place,
    g: Place,
    seen: Seen,
) -> Result<Stepped, NoMemory>
    requires many { side place ≡ Many (side g) }
    requires set { IsSetOf set (side g) }
    requires sound { IsSound (Many (side g) ∷ sides todo.old.items) }
    ensures turn { IfOk result (λ s. (bytes : List ℕ) (fs : List Opened) → IsTurn bytes seen s.turn (Many (side g) ∷ sides todo.old.items) (on_top s.next (sides todo.new.items)) fs fs) }
    ensures cheaper { IfOk result (λ s. IsCheaper s.turn (Many (side g) ∷ sides todo.old.items) (on_top s.next (sides todo.new.items))) }
{
    if has(set, seen.token.kind) {
        todo.push(place)?;
        return Ok(turned(g));
    }
    Ok(Stepped {
        turn: Turn::Turned,
        next: None,
    })
}

// The first, where the tokens that come next are as is asked, else the second.
fn when(asked: Asked, g: Place, h: Place, seen: Seen) -> Stepped
    ensures turn { (bytes : List ℕ) (fs : List Opened) (gs : List (RightSide ProductionOf)) → IsSound (When (ahead_of asked) (side g) (side h) ∷ gs) → IsTurn bytes seen result.turn (When (ahead_of asked) (side g) (side h) ∷ gs) (on_top result.next gs) fs fs }
    ensures cheaper { (gs : List (RightSide ProductionOf)) → IsCheaper result.turn (When (ahead_of asked) (side g) (side h) ∷ gs) (on_top result.next gs) }
{
    match alone(asked, seen.token.kind) {
        Some(true) => turned(g),
        Some(false) => turned(h),
        None => pair(asked, g, h, seen),
    }
}

// The same where the token behind the next one decides.
fn pair(asked: Asked, g: Place, h: Place, seen: Seen) -> Stepped
    requires { AsksFor asked seen.token.kind }
    ensures turn { (bytes : List ℕ) (fs : List Opened) (gs : List (RightSide ProductionOf)) → IsSound (When (ahead_of asked) (side g) (side h) ∷ gs) → IsTurn bytes seen result.turn (When (ahead_of asked) (side g) (side h) ∷ gs) (on_top result.next gs) fs fs }
    ensures cheaper { (gs : List (RightSide ProductionOf)) → IsCheaper result.turn (When (ahead_of asked) (side g) (side h) ∷ gs) (on_top result.next gs) }
{
    match seen.ahead {
        None => Stepped {
            turn: Turn::Unseen,
            next: None,
        },
        Some(second) => {
            if together(asked, second) {
                return Stepped {
                    turn: Turn::Asked,
                    next: Some(g),
                };
            }
            Stepped {
                turn: Turn::Asked,
                next: Some(h),
            }
        }
    }
}

// Less is to be read before the token, and this first.
fn turned(place: Place) -> Stepped
    ensures turn { result.turn ≡ TheTurned }
    ensures next { result.next ≡ Some place }
{
    Stepped {
        turn: Turn::Turned,
        next: Some(place),
    }
}

// Whether it is a block, and blocks are handed over.
fn hands_over(n: Production, seen: Seen) -> bool
    ensures yes { IsTrue result → (n ≡ Block) × (seen.hands_over ≡ true) }
    ensures no { IsFalse result → seen.hands_over ≡ true → is_block n ≡ false }
{
    match n {
        Production::Block => seen.hands_over,
        _ => false,
    }
}
