// Whether two types fit, whatever the interfaces in them have (Go specification, "Type identity").
ghost use Rattle.std.specs.Prelude.{◌≡◌, ◌++◌, true, false, IfOk, length, map};
ghost use Rattle.std.specs.List.{AllByRecursion};
ghost use Rattle.go_term.specs.Shapes.{shape_tree};
ghost use Rattle.go_judge.specs.Types.Own.{AreOwn, AreOwnFunc, Keeps};
ghost use Rattle.go_judge.specs.Types.TypeIdentity.{all_fit, fit, interfaces_in, interfaces_in_all};
ghost use Rattle.go_judge.specs.Types.TypeSets.{plain};
ghost use Rattle.go_same.specs.Layers.{IsOwnPair, lent, pair_view, plain_types};
ghost use Rattle.go_same.specs.Layers as layers;
ghost use Rattle.go_same.specs.Sets.{func_type};

use crate::budget::Budget;
use crate::layer::{Homes, both_interfaces, same_func, same_layer, types_in, types_in_func};
use crate::see::see_both;
use go_base::NoMemory;
use go_judge::Forms;
use go_term::{FuncShape, Shape, Ty};
use std::alloc::Global;

/// Whether two types fit: they have the same form throughout, whatever interfaces in them have. Where they do, the
/// layers of the interfaces that stand at the same places are pushed in order. It takes steps of the budget. An error is
/// want of memory, also past these.
#[cycle(outline)]
pub(crate) fn outline<J: Forms>(
    alloc: Global,
    judge: &mut J,
    budget: &mut Budget,
    a: &Ty,
    b: &Ty,
    pairs: &mut Vec<(Shape, Shape)>,
) -> Result<bool, NoMemory>
    requires a_own { J.is_type judge.old a.now }
    requires b_own { J.is_type judge.old b.now }
    requires pairs_own { AllByRecursion (IsOwnPair (J.is_type judge.old)) pairs.old.items }
    ensures fits { IfOk result (λ fits. fits ≡ fit (plain (J.tree judge.old a.now)) (plain (J.tree judge.old b.now))) }
    ensures pairs { IfOk result (λ fits. fits ≡ true → map (pair_view (J.tree judge.new)) pairs.new.items
        ≡ map (pair_view (J.tree judge.old)) pairs.old.items
        ++ interfaces_in (plain (J.tree judge.old a.now)) (plain (J.tree judge.old b.now))) }
    ensures pairs_own { AllByRecursion (IsOwnPair (J.is_type judge.new)) pairs.new.items }
    ensures unspent { IfOk result (λ fits. J.is_spent judge.old ≡ false) }
    ensures keeps { Keeps (J.headers judge.old) (J.headers judge.new) (J.names judge.old) (J.names judge.new)
        (J.outcomes judge.old) (J.outcomes judge.new) (J.is_spent judge.old) (J.is_spent judge.new)
        (J.world judge.old) (J.world judge.new) (J.is_type judge.old) (J.is_type judge.new)
        (J.tree judge.old) (J.tree judge.new) }
{
    let (x, y) = see_both(alloc, judge, a, b)?;
    outline_layers(alloc, judge, budget, x, y, pairs)
}

/// The same of two types that have these layers.
#[cycle(outline)]
pub(crate) fn outline_layers<J: Forms>(
    alloc: Global,
    judge: &mut J,
    budget: &mut Budget,
    x: Shape,
    y: Shape,
    pairs: &mut Vec<(Shape, Shape)>,
) -> Result<bool, NoMemory>
    requires x_own { AreOwn (J.is_type judge.old) x }
    requires y_own { AreOwn (J.is_type judge.old) y }
    requires pairs_own { AllByRecursion (IsOwnPair (J.is_type judge.old)) pairs.old.items }
    ensures fits { IfOk result (λ fits. fits ≡ fit (plain (shape_tree (J.tree judge.old) x)) (plain (shape_tree (J.tree judge.old) y))) }
    ensures pairs { IfOk result (λ fits. fits ≡ true → map (pair_view (J.tree judge.new)) pairs.new.items
        ≡ map (pair_view (J.tree judge.old)) pairs.old.items
        ++ interfaces_in (plain (shape_tree (J.tree judge.old) x)) (plain (shape_tree (J.tree judge.old) y))) }
    ensures pairs_own { AllByRecursion (IsOwnPair (J.is_type judge.new)) pairs.new.items }
    ensures keeps { Keeps (J.headers judge.old) (J.headers judge.new) (J.names judge.old) (J.names judge.new)
        (J.outcomes judge.old) (J.outcomes judge.new) (J.is_spent judge.old) (J.is_spent judge.new)
        (J.world judge.old) (J.world judge.new) (J.is_type judge.old) (J.is_type judge.new)
        (J.tree judge.old) (J.tree judge.new) }
{
    budget.spend(1)?;
    if both_interfaces(&x, &y) {
        pairs.push((x, y))?;
        Ok(true)
    } else {
        outline_apart(alloc, judge, budget, &x, &y, pairs)
    }
}

/// The same where they are not both those of interfaces.
#[cycle(outline)]
pub(crate) fn outline_apart<J: Forms>(
    alloc: Global,
    judge: &mut J,
    budget: &mut Budget,
    x: &Shape,
    y: &Shape,
    pairs: &mut Vec<(Shape, Shape)>,
) -> Result<bool, NoMemory>
    requires x_own { AreOwn (J.is_type judge.old) x.now }
    requires y_own { AreOwn (J.is_type judge.old) y.now }
    requires apart { layers.both_interfaces x.now y.now ≡ false }
    requires pairs_own { AllByRecursion (IsOwnPair (J.is_type judge.old)) pairs.old.items }
    ensures fits { IfOk result (λ fits. fits ≡ fit (plain (shape_tree (J.tree judge.old) x.now)) (plain (shape_tree (J.tree judge.old) y.now))) }
    ensures pairs { IfOk result (λ fits. fits ≡ true → map (pair_view (J.tree judge.new)) pairs.new.items
        ≡ map (pair_view (J.tree judge.old)) pairs.old.items
        ++ interfaces_in (plain (shape_tree (J.tree judge.old) x.now)) (plain (shape_tree (J.tree judge.old) y.now))) }
    ensures pairs_own { AllByRecursion (IsOwnPair (J.is_type judge.new)) pairs.new.items }
    ensures keeps { Keeps (J.headers judge.old) (J.headers judge.new) (J.names judge.old) (J.names judge.new)
        (J.outcomes judge.old) (J.outcomes judge.new) (J.is_spent judge.old) (J.is_spent judge.new)
        (J.world judge.old) (J.world judge.new) (J.is_type judge.old) (J.is_type judge.new)
        (J.tree judge.old) (J.tree judge.new) }
{
    if !same_layer(Homes::Unexported, x, y) {
        return Ok(false);
    }
    let ts = types_in(alloc, x)?;
    let us = types_in(alloc, y)?;
    outline_all(alloc, judge, budget, &ts, &us, pairs)
}

// Whether each two of as many types fit.
#[cycle(outline)]
fn outline_all<J: Forms>(
    alloc: Global,
    judge: &mut J,
    budget: &mut Budget,
    ts: &[&Ty],
    us: &[&Ty],
    pairs: &mut Vec<(Shape, Shape)>,
) -> Result<bool, NoMemory>
    requires ts_own { AllByRecursion (J.is_type judge.old) (lent ts.now) }
    requires us_own { AllByRecursion (J.is_type judge.old) (lent us.now) }
    requires long { length ts.now ≡ length us.now }
    requires pairs_own { AllByRecursion (IsOwnPair (J.is_type judge.old)) pairs.old.items }
    ensures fits { IfOk result (λ fits. fits ≡ all_fit (plain_types (J.tree judge.old) (lent ts.now))
        (plain_types (J.tree judge.old) (lent us.now))) }
    ensures pairs { IfOk result (λ fits. fits ≡ true → map (pair_view (J.tree judge.new)) pairs.new.items
        ≡ map (pair_view (J.tree judge.old)) pairs.old.items
        ++ interfaces_in_all (plain_types (J.tree judge.old) (lent ts.now))
        (plain_types (J.tree judge.old) (lent us.now))) }
    ensures pairs_own { AllByRecursion (IsOwnPair (J.is_type judge.new)) pairs.new.items }
    ensures keeps { Keeps (J.headers judge.old) (J.headers judge.new) (J.names judge.old) (J.names judge.new)
        (J.outcomes judge.old) (J.outcomes judge.new) (J.is_spent judge.old) (J.is_spent judge.new)
        (J.world judge.old) (J.world judge.new) (J.is_type judge.old) (J.is_type judge.new)
        (J.tree judge.old) (J.tree judge.new) }
{
    for (i, t) in ts.iter().enumerate() {
        if !outline(alloc, judge, budget, t, us[i], pairs)? {
            return Ok(false);
        }
    }
    Ok(true)
}

/// Whether two signatures fit, as the types of functions do. Where they do, the layers of the interfaces that stand at
/// the same places are pushed in order. It takes steps of the budget. An error is want of memory, also past these.
pub(crate) fn outline_funcs<J: Forms>(
    alloc: Global,
    judge: &mut J,
    budget: &mut Budget,
    f: &FuncShape,
    g: &FuncShape,
    pairs: &mut Vec<(Shape, Shape)>,
) -> Result<bool, NoMemory>
    requires f_own { AreOwnFunc (J.is_type judge.old) f.now }
    requires g_own { AreOwnFunc (J.is_type judge.old) g.now }
    requires pairs_own { AllByRecursion (IsOwnPair (J.is_type judge.old)) pairs.old.items }
    ensures fits { IfOk result (λ fits. fits ≡ fit (plain (func_type (J.tree judge.old) f.now))
        (plain (func_type (J.tree judge.old) g.now))) }
    ensures pairs { IfOk result (λ fits. fits ≡ true → map (pair_view (J.tree judge.new)) pairs.new.items
        ≡ map (pair_view (J.tree judge.old)) pairs.old.items
        ++ interfaces_in (plain (func_type (J.tree judge.old) f.now))
        (plain (func_type (J.tree judge.old) g.now))) }
    ensures pairs_own { AllByRecursion (IsOwnPair (J.is_type judge.new)) pairs.new.items }
    ensures keeps { Keeps (J.headers judge.old) (J.headers judge.new) (J.names judge.old) (J.names judge.new)
        (J.outcomes judge.old) (J.outcomes judge.new) (J.is_spent judge.old) (J.is_spent judge.new)
        (J.world judge.old) (J.world judge.new) (J.is_type judge.old) (J.is_type judge.new)
        (J.tree judge.old) (J.tree judge.new) }
{
    budget.spend(1)?;
    if !same_func(Homes::Unexported, f, g) {
        return Ok(false);
    }
    let ts = types_in_func(alloc, f)?;
    let us = types_in_func(alloc, g)?;
    outline_all(alloc, judge, budget, &ts, &us, pairs)
}
