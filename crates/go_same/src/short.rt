// What is answered of two types where names run short (Go specification, "Type identity").
ghost use Rattle.std.specs.Prelude.{◌≡◌, IfOk};
ghost use Rattle.go_judge.specs.Types.Forms.{answer_as};
ghost use Rattle.go_judge.specs.Types.Own.{AreOwnFunc, Keeps};
ghost use Rattle.go_judge.specs.Types.TypeIdentity.{by_form};
ghost use Rattle.go_judge.specs.Types.TypeSets.{plain};
ghost use Rattle.go_judge.specs.Quests.{run};
ghost use Rattle.go_same.specs.Sets.{func_type};

use crate::bounds::{Bounds, answer};
use crate::budget::Budget;
use crate::outline::{outline, outline_funcs};
use go_base::NoMemory;
use go_judge::{Answer, Forms};
use go_term::{FuncShape, Ty};
use std::alloc::Global;

/// What is answered of two types where names run short: No, or in a premise whether they fit.
pub(crate) fn types_by_form<J: Forms>(
    alloc: Global,
    judge: &mut J,
    budget: &mut Budget,
    bounds: Bounds,
    a: &Ty,
    b: &Ty,
) -> Result<Answer, NoMemory>
    requires a_own { J.is_type judge.old a.now }
    requires b_own { J.is_type judge.old b.now }
    ensures answer { IfOk result (λ answer. answer_as answer ≡ run (J.headers judge.old)
        (by_form bounds.short (plain (J.tree judge.old a.now)) (plain (J.tree judge.old b.now)))) }
    ensures keeps { Keeps (J.headers judge.old) (J.headers judge.new) (J.names judge.old) (J.names judge.new)
        (J.outcomes judge.old) (J.outcomes judge.new) (J.is_spent judge.old) (J.is_spent judge.new)
        (J.world judge.old) (J.world judge.new) (J.is_type judge.old) (J.is_type judge.new)
        (J.tree judge.old) (J.tree judge.new) }
{
    if !bounds.short {
        return Ok(Answer::No);
    }
    let mut unread = Vec::new(alloc);
    let fits = outline(alloc, judge, budget, a, b, &mut unread)?;
    Ok(answer(fits))
}

/// The same of two signatures, as the types of functions are.
pub(crate) fn funcs_by_form<J: Forms>(
    alloc: Global,
    judge: &mut J,
    budget: &mut Budget,
    bounds: Bounds,
    f: &FuncShape,
    g: &FuncShape,
) -> Result<Answer, NoMemory>
    requires f_own { AreOwnFunc (J.is_type judge.old) f.now }
    requires g_own { AreOwnFunc (J.is_type judge.old) g.now }
    ensures answer { IfOk result (λ answer. answer_as answer ≡ run (J.headers judge.old)
        (by_form bounds.short (plain (func_type (J.tree judge.old) f.now)) (plain (func_type (J.tree judge.old) g.now)))) }
    ensures keeps { Keeps (J.headers judge.old) (J.headers judge.new) (J.names judge.old) (J.names judge.new)
        (J.outcomes judge.old) (J.outcomes judge.new) (J.is_spent judge.old) (J.is_spent judge.new)
        (J.world judge.old) (J.world judge.new) (J.is_type judge.old) (J.is_type judge.new)
        (J.tree judge.old) (J.tree judge.new) }
{
    if !bounds.short {
        return Ok(Answer::No);
    }
    let mut unread = Vec::new(alloc);
    let fits = outline_funcs(alloc, judge, budget, f, g, &mut unread)?;
    Ok(answer(fits))
}
