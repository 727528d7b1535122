// What the next token makes of all that is to be read.
ghost use Rattle.std.specs.Prelude.{◌≡◌, ℕ, [], ◌∷◌, OnOk, IfOk, IfSome, IfNone, if◌then◌else◌};
ghost use Rattle.go_parse_x.specs.declared.seen.Turn.TheVariants.{Astray as TheAstray, Stuck as TheStuck};
ghost use Rattle.go_parse_x.specs.Tables.Lines.{on_top, side, sides};
ghost use Rattle.go_parse_x.specs.Tables.Opened.{frames, numbers, Rises};
ghost use Rattle.go_parse_x.specs.Machine.Turns.{IsSound, IsSettled};

use crate::machine::step;
use crate::opened::OpenNode;
use crate::place::Place;
use crate::seen::{Seen, Turn};
use go_base::NoMemory;
use std::alloc::Global;

/// Steps until the token is passed, or cannot be, or its block is handed over.
pub fn settle(
    alloc: Global,
    bytes: &[u8],
    number: &mut usize,
    todo: &mut Vec<Place>,
    opened: &mut Vec<OpenNode>,
    seen: Seen,
) -> Result<Turn, NoMemory>
    requires { IsSound (sides todo.old.items) }
    ensures turn { IfOk result (λ turn. IsSettled bytes.now seen turn (sides todo.old.items) (sides todo.new.items) (frames opened.old.items) (frames opened.new.items)) }
    ensures numbers { OnOk result ((low : ℕ) → Rises low (numbers opened.old.items) number.old → Rises low (numbers opened.new.items) number.new) }
{
    let mut asked = false;
    let mut next = None;
    loop {
        let Some(place) = take(next, todo) else {
            return Ok(stuck(asked));
        };
        let stepped = step(alloc, bytes, number, todo, opened, place, seen)?;
        next = stepped.next;
        match stepped.turn {
            Turn::Turned => {}
            Turn::Asked => asked = true,
            Turn::Stuck => return Ok(stuck(asked)),
            // one step does not go astray
            Turn::Astray => return Ok(Turn::Astray),
            Turn::Unseen => return Ok(Turn::Unseen),
            Turn::Passed => return put_back(next, todo, Turn::Passed),
            Turn::AtBlock => return put_back(next, todo, Turn::AtBlock),
        }
    }
}

// What is to be read next.
fn take(next: Option<Place>, todo: &mut Vec<Place>) -> Option<Place>
    ensures some { IfSome result (λ place. on_top next (sides todo.old.items) ≡ side place ∷ sides todo.new.items) }
    ensures none { IfNone result (on_top next (sides todo.old.items) ≡ []) }
{
    match next {
        Some(place) => Some(place),
        None => todo.pop(),
    }
}

// The answer, where that is to be read before all that waits.
fn put_back(next: Option<Place>, todo: &mut Vec<Place>, turn: Turn) -> Result<Turn, NoMemory>
    ensures turn { IfOk result (λ so. so ≡ turn) }
    ensures todo { OnOk result (sides todo.new.items ≡ on_top next (sides todo.old.items)) }
{
    if let Some(place) = next {
        todo.push(place)?;
    }
    Ok(turn)
}

// Whether it is the token that cannot stand here, or the one behind it.
fn stuck(asked: bool) -> Turn
    ensures { result ≡ (if asked then TheAstray else TheStuck) }
{
    if asked { Turn::Astray } else { Turn::Stuck }
}
