// Whether two types are alike, but for the objects of fields and methods (Go specification, "Type identity").
ghost use Rattle.std.specs.Prelude.{◌≡◌, false, IfOk, length};
ghost use Rattle.std.specs.List.{AllByRecursion};
ghost use Rattle.go_term.specs.Shapes.{shape_tree};
ghost use Rattle.go_judge.specs.Types.Heads.{alike, all_alike};
ghost use Rattle.go_judge.specs.Types.Own.{AreOwn, Keeps};
ghost use Rattle.go_judge.specs.Types.TypeSets.{plain};
ghost use Rattle.go_same.specs.Layers.{lent, plain_types};

use crate::budget::Budget;
use crate::layer::{Homes, same_layer, types_in};
use crate::see::see_both;
use go_base::NoMemory;
use go_judge::Forms;
use go_term::{Shape, Ty};
use std::alloc::Global;

/// Whether two types are equal, but for the objects of fields and methods. It takes steps of the budget. An error is
/// want of memory, also past these.
#[cycle(alike)]
pub(crate) fn alike<J: Forms>(
    alloc: Global,
    judge: &mut J,
    budget: &mut Budget,
    a: &Ty,
    b: &Ty,
) -> Result<bool, NoMemory>
    requires a_own { J.is_type judge.old a.now }
    requires b_own { J.is_type judge.old b.now }
    ensures alike { IfOk result (λ same. same ≡ alike (plain (J.tree judge.old a.now)) (plain (J.tree judge.old b.now))) }
    ensures unspent { IfOk result (λ same. J.is_spent judge.old ≡ false) }
    ensures keeps { Keeps (J.headers judge.old) (J.headers judge.new) (J.names judge.old) (J.names judge.new)
        (J.outcomes judge.old) (J.outcomes judge.new) (J.is_spent judge.old) (J.is_spent judge.new)
        (J.world judge.old) (J.world judge.new) (J.is_type judge.old) (J.is_type judge.new)
        (J.tree judge.old) (J.tree judge.new) }
{
    let (x, y) = see_both(alloc, judge, a, b)?;
    alike_layers(alloc, judge, budget, &x, &y)
}

/// The same of two types that have these layers.
#[cycle(alike)]
pub(crate) fn alike_layers<J: Forms>(
    alloc: Global,
    judge: &mut J,
    budget: &mut Budget,
    x: &Shape,
    y: &Shape,
) -> Result<bool, NoMemory>
    requires x_own { AreOwn (J.is_type judge.old) x.now }
    requires y_own { AreOwn (J.is_type judge.old) y.now }
    ensures alike { IfOk result (λ same. same ≡ alike (plain (shape_tree (J.tree judge.old) x.now)) (plain (shape_tree (J.tree judge.old) y.now))) }
    ensures keeps { Keeps (J.headers judge.old) (J.headers judge.new) (J.names judge.old) (J.names judge.new)
        (J.outcomes judge.old) (J.outcomes judge.new) (J.is_spent judge.old) (J.is_spent judge.new)
        (J.world judge.old) (J.world judge.new) (J.is_type judge.old) (J.is_type judge.new)
        (J.tree judge.old) (J.tree judge.new) }
{
    budget.spend(1)?;
    if !same_layer(Homes::Each, x, y) {
        return Ok(false);
    }
    let ts = types_in(alloc, x)?;
    let us = types_in(alloc, y)?;
    alike_all(alloc, judge, budget, &ts, &us)
}

// Whether each two of as many types are alike.
#[cycle(alike)]
fn alike_all<J: Forms>(
    alloc: Global,
    judge: &mut J,
    budget: &mut Budget,
    ts: &[&Ty],
    us: &[&Ty],
) -> Result<bool, NoMemory>
    requires ts_own { AllByRecursion (J.is_type judge.old) (lent ts.now) }
    requires us_own { AllByRecursion (J.is_type judge.old) (lent us.now) }
    requires long { length ts.now ≡ length us.now }
    ensures alike { IfOk result (λ same. same ≡ all_alike (plain_types (J.tree judge.old) (lent ts.now))
        (plain_types (J.tree judge.old) (lent us.now))) }
    ensures keeps { Keeps (J.headers judge.old) (J.headers judge.new) (J.names judge.old) (J.names judge.new)
        (J.outcomes judge.old) (J.outcomes judge.new) (J.is_spent judge.old) (J.is_spent judge.new)
        (J.world judge.old) (J.world judge.new) (J.is_type judge.old) (J.is_type judge.new)
        (J.tree judge.old) (J.tree judge.new) }
{
    for (i, t) in ts.iter().enumerate() {
        if !alike(alloc, judge, budget, t, us[i])? {
            return Ok(false);
        }
    }
    Ok(true)
}
