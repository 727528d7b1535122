// Receive operations (Go specification, "Receive operator").
ghost use Rattle.std.specs.Prelude.{◌≡◌, Some, IfOk, IfSome, if◌then◌else◌};
ghost use Rattle.std.specs.Option.{option_map};
ghost use Rattle.go_term.specs.Shapes.{shape_tree};
ghost use Rattle.go_judge.specs.Judged.{asked};
ghost use Rattle.go_judge.specs.Records.{rec_as};
ghost use Rattle.go_judge.specs.View.{outcome_as};
ghost use Rattle.go_judge.specs.Types.Own.{AreOwn, IsOwnOutcome, IsOwnRec, Keeps};
ghost use Rattle.go_constructs.specs.Operators.Channels as spec;

use crate::operands::refused_one;
use crate::source::{Source, read};
use go_base::NoMemory;
use go_judge::{Judge, Outcome, Rec};
use go_term::{Dir, Shape, Ty};
use std::alloc::Global;

/// `<-x`: R1 or R2 where x is no single value, else R12 where its underlying type is no channel that permits receive
/// operations. An error is want of memory.
pub(crate) fn receive<J: Judge>(alloc: Global, judge: &mut J, a: &Rec) -> Result<Outcome, NoMemory>
    requires { IsOwnRec (J.is_type judge.old) a.now }
    ensures outcome { IfOk result (λ outcome. outcome_as (J.tree judge.new) outcome
        ≡ asked (J.headers judge.old) (Some (spec.receive (rec_as (J.tree judge.old) a.now)))) }
    ensures own { IfOk result (IsOwnOutcome (J.is_type judge.new)) }
    ensures keeps { Keeps (J.headers judge.old) (J.headers judge.new) (J.names judge.old) (J.names judge.new)
        (J.outcomes judge.old) (J.outcomes judge.new) (J.is_spent judge.old) (J.is_spent judge.new)
        (J.world judge.old) (J.world judge.new) (J.is_type judge.old) (J.is_type judge.new)
        (J.tree judge.old) (J.tree judge.new) }
{
    match refused_one(alloc, judge, a)? {
        Some(refused) => Ok(refused),
        None => read(alloc, judge, Source::Channel, a),
    }
}

/// The type of what is received from a channel whose underlying type has this form; none where the form is no channel,
/// or one for sending alone.
pub(crate) fn received_from<J: Judge>(judge: &J, shape: Shape) -> Option<Ty>
    requires { AreOwn (J.is_type judge.now) shape }
    ensures received { option_map (J.tree judge.now) result
        ≡ spec.received_from (Some (shape_tree (J.tree judge.now) shape)) }
    ensures own { IfSome result (J.is_type judge.now) }
{
    match shape {
        Shape::Chan(dir, element) => received_in(judge, dir, element),
        _ => None,
    }
}

// From a channel in these directions.
fn received_in<J: Judge>(judge: &J, dir: Dir, element: Ty) -> Option<Ty>
    requires { J.is_type judge.now element }
    ensures received { option_map (J.tree judge.now) result
        ≡ (if spec.permits_receive dir then Some (J.tree judge.now element) else None) }
    ensures own { IfSome result (J.is_type judge.now) }
{
    match dir {
        Dir::Send => None,
        Dir::Receive => Some(element),
        Dir::Both => Some(element),
    }
}
