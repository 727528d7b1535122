// Pointer types, and embedded fields of such a type (Go specification, "Pointer types", "Struct types").
ghost use Rattle.std.specs.Prelude.{◌≡◌, IfOk, map};
ghost use Rattle.std.specs.List.{AllByRecursion};
ghost use Rattle.go_constructs.specs.Pointer as spec;
ghost use Rattle.go_judge.specs.Judged.{judged};
ghost use Rattle.go_judge.specs.View.{outcome_as};
ghost use Rattle.go_judge.specs.Types.Own.{IsOwnOutcome, Keeps};

use crate::one_type::{OneForm, one_type};
use go_base::NoMemory;
use go_model::{Judge, Outcome};
use std::alloc::Global;

/// `*T` by the outcome of T: C13 where that is no type; L4 and L5 by its size. An error is want of memory.
pub fn pointer_to<J: Judge>(
    alloc: Global,
    judge: &mut J,
    outcomes: &[Outcome],
) -> Result<Outcome, NoMemory>
    requires { AllByRecursion (IsOwnOutcome (J.is_type judge.old)) outcomes.now }
    ensures outcome { IfOk result (λ outcome. outcome_as (J.tree judge.new) outcome
        ≡ judged (J.headers judge.old) spec.pointer_to
        (map (outcome_as (J.tree judge.old)) outcomes.now)) }
    ensures own { IfOk result (IsOwnOutcome (J.is_type judge.new)) }
    ensures keeps { Keeps (J.headers judge.old) (J.headers judge.new) (J.names judge.old) (J.names judge.new)
        (J.outcomes judge.old) (J.outcomes judge.new) (J.is_spent judge.old) (J.is_spent judge.new)
        (J.world judge.old) (J.world judge.new) (J.is_type judge.old) (J.is_type judge.new)
        (J.tree judge.old) (J.tree judge.new) }
{
    one_type(alloc, judge, OneForm::Pointer, outcomes)
}
