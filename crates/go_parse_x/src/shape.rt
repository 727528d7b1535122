// What stands at a place.
ghost use Rattle.std.specs.Prelude.{◌≡◌, ◌<◌, ◌+◌, length, true};
ghost use Rattle.go_parse_x.specs.Tables.Leads.{is_led};
ghost use Rattle.go_parse_x.specs.Tables.Lines.{side, side_at, from_step};
ghost use Rattle.go_parse_x.specs.Tables.Shapes.{side_of, IsLed};

use crate::line::{Act, Asked, Step};
use crate::place::Place;
use go_tree::{Production, TokenKind};

/// What stands at a place, and the places of its parts.
#[derive(Debug, Drop)]
pub enum Shape {
    Pass(TokenKind),
    Act(Act),
    Call(Production),
    Nothing,
    Seq(Place, Place),
    /// with the set of the kinds that the first begins with
    Or(u128, Place, Place),
    /// with that of its part
    Many(u128, Place),
    When(Asked, Place, Place),
}

/// What stands at the place.
#[tactic(auto, using(crate::proofs::LineLemmas::nothing_past))]
pub fn shape_at(place: &Place) -> Shape
    ensures side { side_of result ≡ side place.now }
    ensures led { IsLed result }
{
    match place.step() {
        None => Shape::Nothing,
        Some(step) => shape_of(place, step),
    }
}

// The shape of a place with that step.
fn shape_of(place: &Place, step: Step) -> Shape
    requires within { place.now.1 < length place.now.0 }
    requires led { is_led (λ further. side_at place.now.0 (place.now.1 + 1 + further)) step ≡ true }
    ensures side { side_of result ≡ from_step (λ further. side_at place.now.0 (place.now.1 + 1 + further)) step }
    ensures led { IsLed result }
{
    match step {
        Step::Pass(kind) => Shape::Pass(kind),
        Step::Open => Shape::Act(Act::Open),
        Step::Reopen => Shape::Act(Act::Reopen),
        Step::Adopt => Shape::Act(Act::Adopt),
        Step::CheckType => Shape::Act(Act::CheckType),
        Step::Close(kind) => Shape::Act(Act::Close(kind)),
        Step::Call(n) => Shape::Call(n),
        Step::Nothing => Shape::Nothing,
        Step::Seq(first) => Shape::Seq(place.behind(0), place.behind(first)),
        Step::Or(first, set) => Shape::Or(set, place.behind(0), place.behind(first)),
        Step::Many(set) => Shape::Many(set, place.behind(0)),
        Step::When(asked, first) => Shape::When(asked, place.behind(0), place.behind(first)),
    }
}
