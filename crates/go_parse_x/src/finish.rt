// What is still to be read where no token is left.
ghost use Rattle.std.specs.Prelude.{◌≡◌, ℕ, ◌∷◌, ◌<◌, List, OnOk, IfOk, IsTrue, cond};
ghost use Rattle.go_tree.specs.declared.production.Production.{Production as ProductionOf};
ghost use Rattle.go_tree.specs.Grammar.RightSide.{RightSide, Do};
ghost use Rattle.go_tree.specs.Grammar.Tables.Prediction.{AllDecided, is_empty as is_empty_so};
ghost use Rattle.go_tree.specs.Grammar.Trees.Sentence.{tables};
ghost use Rattle.go_parse_x.specs.Machine.Ends.{IsEnding, IsFinished};
ghost use Rattle.go_parse_x.specs.Tables.Lines.{side, sides};
ghost use Rattle.go_parse_x.specs.Tables.Opened.{frames, numbers, Rises};
ghost use Rattle.go_parse_x.specs.Tables.Shapes.{act_of};
ghost use Rattle.go_parse_x.specs.Machine.Weights.{cost};

use crate::acts::{Here, act};
use crate::line::Act;
use crate::opened::OpenNode;
use crate::place::Place;
use crate::prediction::is_empty;
use crate::shape::{Shape, shape_at};
use go_base::NoMemory;
use std::alloc::Global;

/// Reads on where no token is left; whether all that is to be read can end here.
pub fn finish(
    alloc: Global,
    bytes: &[u8],
    number: &mut usize,
    todo: &mut Vec<Place>,
    opened: &mut Vec<OpenNode>,
    last: usize,
) -> Result<bool, NoMemory>
    requires { AllDecided tables (sides todo.old.items) }
    ensures whole { IfOk result (λ whole. IsFinished bytes.now last whole (sides todo.old.items) (frames opened.old.items) (frames opened.new.items)) }
    ensures numbers { OnOk result ((low : ℕ) → Rises low (numbers opened.old.items) number.old → Rises low (numbers opened.new.items) number.new) }
{
    loop {
        let Some(place) = todo.pop() else {
            return Ok(true);
        };
        match end(alloc, bytes, number, todo, opened, place, last) {
            Err(fault) => return Err(fault),
            Ok(true) => {}
            Ok(false) => return Ok(false),
        }
    }
}

// What the end makes of the place; whether it can stand there.
fn end(
    alloc: Global,
    bytes: &[u8],
    number: &mut usize,
    todo: &mut Vec<Place>,
    opened: &mut Vec<OpenNode>,
    place: Place,
    last: usize,
) -> Result<bool, NoMemory>
    requires { AllDecided tables (side place ∷ sides todo.old.items) }
    ensures ending { IfOk result (λ goes. IsEnding bytes.now last goes (side place ∷ sides todo.old.items) (sides todo.new.items) (frames opened.old.items) (frames opened.new.items)) }
    ensures cheaper { IfOk result (λ goes. IsTrue goes → cost (sides todo.new.items) < cost (side place ∷ sides todo.old.items)) }
    ensures numbers { OnOk result ((low : ℕ) → Rises low (numbers opened.old.items) number.old → Rises low (numbers opened.new.items) number.new) }
{
    match shape_at(&place) {
        Shape::Pass(_) => return Ok(false),
        Shape::Act(made) => return make(alloc, bytes, number, opened, made, last),
        Shape::Call(n) => todo.push(Place::start(n))?,
        Shape::Nothing | Shape::Many(..) => {}
        Shape::Seq(g, h) => series(todo, g, h)?,
        Shape::Or(_, g, h) => either(todo, g, h)?,
        Shape::When(_, _, h) => todo.push(h)?,
    }
    Ok(true)
}

// An act; whether it is possible.
fn make(
    alloc: Global,
    bytes: &[u8],
    number: &mut usize,
    opened: &mut Vec<OpenNode>,
    made: Act,
    last: usize,
) -> Result<bool, NoMemory>
    ensures ending { IfOk result (λ goes. (gs : List (RightSide ProductionOf)) → IsEnding bytes.now last goes (Do (act_of made) ∷ gs) gs (frames opened.old.items) (frames opened.new.items)) }
    ensures numbers { OnOk result ((low : ℕ) → Rises low (numbers opened.old.items) number.old → Rises low (numbers opened.new.items) number.new) }
{
    let start = last;
    act(alloc, Here { bytes, start, last }, number, opened, made)
}

// One behind the other.
fn series(todo: &mut Vec<Place>, g: Place, h: Place) -> Result<(), NoMemory>
    ensures { OnOk result (sides todo.new.items ≡ side g ∷ side h ∷ sides todo.old.items) }
{
    todo.push(h)?;
    todo.push(g)?;
    Ok(())
}

// The one of two that can be empty.
fn either(todo: &mut Vec<Place>, g: Place, h: Place) -> Result<(), NoMemory>
    ensures { OnOk result (sides todo.new.items ≡ cond (is_empty_so tables (side g)) (side g) (side h) ∷ sides todo.old.items) }
{
    if is_empty(&g) {
        todo.push(g)?;
        return Ok(());
    }
    todo.push(h)?;
    Ok(())
}
