// Function types (Go specification, "Function types").
ghost use Rattle.std.specs.Prelude.{◌≡◌, IfOk, length, map};
ghost use Rattle.std.specs.List.{AllByRecursion};
ghost use Rattle.go_tree.specs.Tree.{tree_of};
ghost use Rattle.go_constructs.specs.Function as spec;
ghost use Rattle.go_judge.specs.Judged.{judged};
ghost use Rattle.go_judge.specs.View.{outcome_as};
ghost use Rattle.go_judge.specs.Types.Own.{IsOwnOutcome, Keeps};

use crate::signature::signature_of;
use crate::type_literal::type_literal;
use crate::typed::{Typed, all_types};
use go_base::NoMemory;
use go_model::{Judge, Outcome};
use go_term::Shape;
use go_tree::Node;
use std::alloc::Global;

/// A function type with this signature, by the outcomes of the types in it: C13 at each that is no type; L4 and L5 by
/// its size. An error is want of memory.
pub fn function_type<J: Judge>(
    alloc: Global,
    judge: &mut J,
    signature: &Node,
    outcomes: &[Outcome],
) -> Result<Outcome, NoMemory>
    requires { AllByRecursion (IsOwnOutcome (J.is_type judge.old)) outcomes.now }
    ensures outcome { IfOk result (λ outcome. outcome_as (J.tree judge.new) outcome
        ≡ judged (J.headers judge.old) (spec.function (length outcomes.now) (tree_of signature.now))
        (map (outcome_as (J.tree judge.old)) outcomes.now)) }
    ensures own { IfOk result (IsOwnOutcome (J.is_type judge.new)) }
    ensures keeps { Keeps (J.headers judge.old) (J.headers judge.new) (J.names judge.old) (J.names judge.new)
        (J.outcomes judge.old) (J.outcomes judge.new) (J.is_spent judge.old) (J.is_spent judge.new)
        (J.world judge.old) (J.world judge.new) (J.is_type judge.old) (J.is_type judge.new)
        (J.tree judge.old) (J.tree judge.new) }
{
    match all_types(alloc, judge, outcomes)? {
        Typed::Types(types) => {
            let signature = signature_of(alloc, judge, signature, &types)?;
            type_literal(alloc, judge, Shape::Func(signature))
        }
        Typed::Without(outcome) => Ok(outcome),
    }
}
