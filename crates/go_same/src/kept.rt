// Pairs of interfaces that were found identical within one question (Go specification, "Type identity").
ghost use Rattle.std.specs.Prelude.{◌≡◌, true, IfOk};
ghost use Rattle.go_term.specs.Shapes.{shape_tree};
ghost use Rattle.go_judge.specs.Types.Own.{AreOwn, Keeps};
ghost use Rattle.go_judge.specs.Types.TypeSets.{plain};
ghost use Rattle.go_judge.specs.Quests.{Decided, run};
ghost use Rattle.go_same.specs.Bounded as bounded;
ghost use Rattle.go_same.specs.Kept.{AreKept};
ghost use Rattle.go_same.specs.Layers.{IsOwnPair, pair_view};

use crate::alike::alike_layers;
use crate::bounds::Bounds;
use crate::budget::Budget;
use crate::either::type_of_shape;
use go_base::NoMemory;
use go_judge::Forms;
use go_term::{Shape, Ty};
use std::alloc::Global;

// So many pairs are passed by in one step of the budget.
const PAIRS_A_STEP: usize = 64;

/// The layers of two interfaces that were found identical within these bounds.
#[derive(Debug, Drop)]
pub(crate) struct KeptPair {
    pub bounds: Bounds,
    pub x: Shape,
    pub y: Shape,
}

/// Pairs of interfaces that were found identical, the newest last.
#[derive(Debug, Drop)]
pub(crate) struct Kept {
    pub pairs: Vec<KeptPair>,
}

/// Whether two interfaces, by their layers, were found identical within these bounds; the newest pairs are looked at
/// first. It takes steps of the budget. An error is want of memory, also past these.
pub(crate) fn is_kept<J: Forms>(
    alloc: Global,
    judge: &mut J,
    budget: &mut Budget,
    kept: &Kept,
    bounds: Bounds,
    x: &Shape,
    y: &Shape,
) -> Result<bool, NoMemory>
    requires kept { AreKept (J.headers judge.old) (J.is_type judge.old) (J.tree judge.old) kept.now }
    requires x_own { AreOwn (J.is_type judge.old) x.now }
    requires y_own { AreOwn (J.is_type judge.old) y.now }
    ensures told { IfOk result (λ found. found ≡ true
        → run (J.headers judge.old) (bounded.same_interfaces bounds (pair_view (J.tree judge.old) (x.now, y.now))) ≡ Decided true) }
    ensures keeps { Keeps (J.headers judge.old) (J.headers judge.new) (J.names judge.old) (J.names judge.new)
        (J.outcomes judge.old) (J.outcomes judge.new) (J.is_spent judge.old) (J.is_spent judge.new)
        (J.world judge.old) (J.world judge.new) (J.is_type judge.old) (J.is_type judge.new)
        (J.tree judge.old) (J.tree judge.new) }
{
    let count = kept.pairs.len();
    budget.spend(count / PAIRS_A_STEP)?;
    for i in (0..count).rev() {
        if is_pair(alloc, judge, budget, &kept.pairs[i], bounds, x, y)? {
            return Ok(true);
        }
    }
    Ok(false)
}

// Whether a pair was found identical within these bounds, and its layers are alike to these.
fn is_pair<J: Forms>(
    alloc: Global,
    judge: &mut J,
    budget: &mut Budget,
    pair: &KeptPair,
    bounds: Bounds,
    x: &Shape,
    y: &Shape,
) -> Result<bool, NoMemory>
    requires pair_own { IsOwnPair (J.is_type judge.old) (pair.now.x, pair.now.y) }
    requires x_own { AreOwn (J.is_type judge.old) x.now }
    requires y_own { AreOwn (J.is_type judge.old) y.now }
    ensures bounds { IfOk result (λ found. found ≡ true → pair.now.bounds ≡ bounds) }
    ensures layers { IfOk result (λ found. found ≡ true
        → pair_view (J.tree judge.old) (pair.now.x, pair.now.y) ≡ pair_view (J.tree judge.old) (x.now, y.now)) }
    ensures keeps { Keeps (J.headers judge.old) (J.headers judge.new) (J.names judge.old) (J.names judge.new)
        (J.outcomes judge.old) (J.outcomes judge.new) (J.is_spent judge.old) (J.is_spent judge.new)
        (J.world judge.old) (J.world judge.new) (J.is_type judge.old) (J.is_type judge.new)
        (J.tree judge.old) (J.tree judge.new) }
{
    if !pair.bounds.is(bounds) {
        return Ok(false);
    }
    both_alike(alloc, judge, budget, pair, x, y)
}

// Whether the layers of a pair are alike to these.
fn both_alike<J: Forms>(
    alloc: Global,
    judge: &mut J,
    budget: &mut Budget,
    pair: &KeptPair,
    x: &Shape,
    y: &Shape,
) -> Result<bool, NoMemory>
    requires pair_own { IsOwnPair (J.is_type judge.old) (pair.now.x, pair.now.y) }
    requires x_own { AreOwn (J.is_type judge.old) x.now }
    requires y_own { AreOwn (J.is_type judge.old) y.now }
    ensures layers { IfOk result (λ found. found ≡ true
        → pair_view (J.tree judge.old) (pair.now.x, pair.now.y) ≡ pair_view (J.tree judge.old) (x.now, y.now)) }
    ensures keeps { Keeps (J.headers judge.old) (J.headers judge.new) (J.names judge.old) (J.names judge.new)
        (J.outcomes judge.old) (J.outcomes judge.new) (J.is_spent judge.old) (J.is_spent judge.new)
        (J.world judge.old) (J.world judge.new) (J.is_type judge.old) (J.is_type judge.new)
        (J.tree judge.old) (J.tree judge.new) }
{
    if !alike_layers(alloc, judge, budget, &pair.x, x)? {
        return Ok(false);
    }
    alike_layers(alloc, judge, budget, &pair.y, y)
}

// The type of this form, and its layer once more.
fn typed<J: Forms>(alloc: Global, judge: &mut J, x: Shape) -> Result<(Ty, Shape), NoMemory>
    requires { AreOwn (J.is_type judge.old) x }
    ensures type_own { IfOk result (λ r. J.is_type judge.new r.0) }
    ensures layer_own { IfOk result (λ r. AreOwn (J.is_type judge.new) r.1) }
    ensures made { IfOk result (λ r. J.tree judge.new r.0 ≡ shape_tree (J.tree judge.old) x) }
    ensures layer { IfOk result (λ r. shape_tree (J.tree judge.new) r.1 ≡ shape_tree (J.tree judge.old) x) }
    ensures keeps { Keeps (J.headers judge.old) (J.headers judge.new) (J.names judge.old) (J.names judge.new)
        (J.outcomes judge.old) (J.outcomes judge.new) (J.is_spent judge.old) (J.is_spent judge.new)
        (J.world judge.old) (J.world judge.new) (J.is_type judge.old) (J.is_type judge.new)
        (J.tree judge.old) (J.tree judge.new) }
{
    let t = type_of_shape(alloc, judge, x)?;
    let layer = judge.see(alloc, &t)?;
    Ok((t, layer))
}

/// The types of these forms, and their layers once more. An error is want of memory, or that a type is too deep or too
/// large to be made.
pub(crate) fn both_typed<J: Forms>(
    alloc: Global,
    judge: &mut J,
    x: Shape,
    y: Shape,
) -> Result<((Ty, Ty), (Shape, Shape)), NoMemory>
    requires x_own { AreOwn (J.is_type judge.old) x }
    requires y_own { AreOwn (J.is_type judge.old) y }
    ensures a_own { IfOk result (λ r. J.is_type judge.new r.0.0) }
    ensures b_own { IfOk result (λ r. J.is_type judge.new r.0.1) }
    ensures layers_own { IfOk result (λ r. IsOwnPair (J.is_type judge.new) r.1) }
    ensures types { IfOk result (λ r. (plain (J.tree judge.new r.0.0), plain (J.tree judge.new r.0.1))
        ≡ pair_view (J.tree judge.old) (x, y)) }
    ensures layers { IfOk result (λ r. pair_view (J.tree judge.new) r.1 ≡ pair_view (J.tree judge.old) (x, y)) }
    ensures keeps { Keeps (J.headers judge.old) (J.headers judge.new) (J.names judge.old) (J.names judge.new)
        (J.outcomes judge.old) (J.outcomes judge.new) (J.is_spent judge.old) (J.is_spent judge.new)
        (J.world judge.old) (J.world judge.new) (J.is_type judge.old) (J.is_type judge.new)
        (J.tree judge.old) (J.tree judge.new) }
{
    let (a, first) = typed(alloc, judge, x)?;
    let (b, second) = typed(alloc, judge, y)?;
    Ok(((a, b), (first, second)))
}
