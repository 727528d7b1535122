// Type literals (Go specification, "Types"), where all that stands in them is a type.
ghost use Rattle.std.specs.Prelude.{◌≡◌, IfOk};
ghost use Rattle.go_term.specs.Shapes.{shape_tree};
ghost use Rattle.go_judge.specs.Records as records;
ghost use Rattle.go_judge.specs.Records.{rec_as};
ghost use Rattle.go_judge.specs.View.{outcome_as};
ghost use Rattle.go_judge.specs.Types.Own.{AreOwn, IsOwnOutcome, IsOwnRec, Keeps};
ghost use Rattle.go_expr.specs.TypeLiteral.{type_outcome};

use go_base::NoMemory;
use go_model::{DEEP_TYPE, Judge, LARGE_TYPE, Mode, Outcome, Rec, broken};
use go_term::{Shape, TermFault, Ty};
use std::alloc::Global;

/// What the type of a form comes to: L4 where it is deeper than 256, else L5 where it has more than 65,536 nodes. An
/// error is want of memory.
pub fn type_literal<J: Judge>(
    alloc: Global,
    judge: &mut J,
    shape: Shape,
) -> Result<Outcome, NoMemory>
    requires { AreOwn (J.is_type judge.old) shape }
    ensures outcome { IfOk result (λ outcome. outcome_as (J.tree judge.new) outcome
        ≡ type_outcome (J.headers judge.old) (shape_tree (J.tree judge.old) shape)) }
    ensures own { IfOk result (IsOwnOutcome (J.is_type judge.new)) }
    ensures keeps { Keeps (J.headers judge.old) (J.headers judge.new) (J.names judge.old) (J.names judge.new)
        (J.outcomes judge.old) (J.outcomes judge.new) (J.is_spent judge.old) (J.is_spent judge.new)
        (J.world judge.old) (J.world judge.new) (J.is_type judge.old) (J.is_type judge.new)
        (J.tree judge.old) (J.tree judge.new) }
{
    match judge.make(alloc, shape) {
        Ok(ty) => Ok(Outcome::Found(type_record(judge, ty))),
        Err(TermFault::Deep) => broken(alloc, judge, DEEP_TYPE),
        Err(TermFault::Large) => broken(alloc, judge, LARGE_TYPE),
        Err(TermFault::NoMemory) => Err(NoMemory),
    }
}

// The record of a type literal.
fn type_record<J: Judge>(judge: &J, ty: Ty) -> Rec
    requires { J.is_type judge.now ty }
    ensures record { rec_as (J.tree judge.now) result ≡ records.type_record (J.tree judge.now ty) }
    ensures own { IsOwnRec (J.is_type judge.now) result }
{
    Rec {
        mode: Mode::IsType,
        ty: Some(ty),
        value: None,
        object: None,
        span: None,
    }
}
