// Whether two interfaces are identical (Go specification, "Type identity").
ghost use Rattle.std.specs.Prelude.{◌≡◌, false, IfOk, OnOk};
ghost use Rattle.go_term.specs.Shapes.{shape_tree};
ghost use Rattle.go_judge.specs.Types.Forms.{answer_as};
ghost use Rattle.go_judge.specs.Types.Heads.{alike};
ghost use Rattle.go_judge.specs.Types.Own.{AreOwn, Keeps};
ghost use Rattle.go_judge.specs.Types.TypeIdentity as identity;
ghost use Rattle.go_judge.specs.Types.TypeSets.{plain};
ghost use Rattle.go_judge.specs.Quests.{run};
ghost use Rattle.go_same.specs.Bounded as bounded;
ghost use Rattle.go_same.specs.Collect.{asked_then};
ghost use Rattle.go_same.specs.Kept.{AreKept};
ghost use Rattle.go_same.specs.Layers.{IsOwnPair, pair_view};
ghost use Rattle.go_same.specs.Sets.{IsOwnFound, IsOwnSet, found_as, set_view};

use crate::alike::alike_layers;
use crate::bounds::{Bounds, answer};
use crate::collect::set_of;
use crate::identity::same_sets;
use crate::kept::{KeptPair, both_typed, is_kept};
use crate::set::{FoundSet, TypeSet};
use crate::work::Work;
use go_base::NoMemory;
use go_judge::{Answer, Forms};
use go_term::{Shape, Ty};
use std::alloc::Global;

/// Whether two interfaces are identical, by their layers.
#[cycle(same)]
pub(crate) fn same_interfaces<J: Forms>(
    alloc: Global,
    judge: &mut J,
    work: &mut Work,
    bounds: Bounds,
    x: Shape,
    y: Shape,
) -> Result<Answer, NoMemory>
    requires x_own { AreOwn (J.is_type judge.old) x }
    requires y_own { AreOwn (J.is_type judge.old) y }
    requires kept { AreKept (J.headers judge.old) (J.is_type judge.old) (J.tree judge.old) work.old.kept }
    ensures answer { IfOk result (λ answer. answer_as answer
        ≡ run (J.headers judge.old) (bounded.same_interfaces bounds (pair_view (J.tree judge.old) (x, y)))) }
    ensures keeps { Keeps (J.headers judge.old) (J.headers judge.new) (J.names judge.old) (J.names judge.new)
        (J.outcomes judge.old) (J.outcomes judge.new) (J.is_spent judge.old) (J.is_spent judge.new)
        (J.world judge.old) (J.world judge.new) (J.is_type judge.old) (J.is_type judge.new)
        (J.tree judge.old) (J.tree judge.new) }
    ensures kept { OnOk result (AreKept (J.headers judge.new) (J.is_type judge.new) (J.tree judge.new) work.new.kept) }
{
    if alike_layers(alloc, judge, &mut work.budget, &x, &y)? {
        return Ok(Answer::Yes);
    }
    work.budget.spend(1)?;
    same_unlike(alloc, judge, work, bounds, x, y)
}

// The same of those that are not alike: a pair that was found identical is not asked anew.
#[cycle(same)]
fn same_unlike<J: Forms>(
    alloc: Global,
    judge: &mut J,
    work: &mut Work,
    bounds: Bounds,
    x: Shape,
    y: Shape,
) -> Result<Answer, NoMemory>
    requires x_own { AreOwn (J.is_type judge.old) x }
    requires y_own { AreOwn (J.is_type judge.old) y }
    requires apart { alike (plain (shape_tree (J.tree judge.old) x)) (plain (shape_tree (J.tree judge.old) y)) ≡ false }
    requires kept { AreKept (J.headers judge.old) (J.is_type judge.old) (J.tree judge.old) work.old.kept }
    ensures answer { IfOk result (λ answer. answer_as answer
        ≡ run (J.headers judge.old) (bounded.same_interfaces bounds (pair_view (J.tree judge.old) (x, y)))) }
    ensures keeps { Keeps (J.headers judge.old) (J.headers judge.new) (J.names judge.old) (J.names judge.new)
        (J.outcomes judge.old) (J.outcomes judge.new) (J.is_spent judge.old) (J.is_spent judge.new)
        (J.world judge.old) (J.world judge.new) (J.is_type judge.old) (J.is_type judge.new)
        (J.tree judge.old) (J.tree judge.new) }
    ensures kept { OnOk result (AreKept (J.headers judge.new) (J.is_type judge.new) (J.tree judge.new) work.new.kept) }
{
    if is_kept(alloc, judge, &mut work.budget, &work.kept, bounds, &x, &y)? {
        return Ok(Answer::Yes);
    }
    same_anew(alloc, judge, work, bounds, x, y)
}

// The same of a pair that is not kept.
#[cycle(same)]
fn same_anew<J: Forms>(
    alloc: Global,
    judge: &mut J,
    work: &mut Work,
    bounds: Bounds,
    x: Shape,
    y: Shape,
) -> Result<Answer, NoMemory>
    requires x_own { AreOwn (J.is_type judge.old) x }
    requires y_own { AreOwn (J.is_type judge.old) y }
    requires apart { alike (plain (shape_tree (J.tree judge.old) x)) (plain (shape_tree (J.tree judge.old) y)) ≡ false }
    requires kept { AreKept (J.headers judge.old) (J.is_type judge.old) (J.tree judge.old) work.old.kept }
    ensures answer { IfOk result (λ answer. answer_as answer
        ≡ run (J.headers judge.old) (bounded.same_interfaces bounds (pair_view (J.tree judge.old) (x, y)))) }
    ensures keeps { Keeps (J.headers judge.old) (J.headers judge.new) (J.names judge.old) (J.names judge.new)
        (J.outcomes judge.old) (J.outcomes judge.new) (J.is_spent judge.old) (J.is_spent judge.new)
        (J.world judge.old) (J.world judge.new) (J.is_type judge.old) (J.is_type judge.new)
        (J.tree judge.old) (J.tree judge.new) }
    ensures kept { OnOk result (AreKept (J.headers judge.new) (J.is_type judge.new) (J.tree judge.new) work.new.kept) }
{
    let ((a, b), layers) = both_typed(alloc, judge, x, y)?;
    same_and_kept(alloc, judge, work, bounds, a, b, layers)
}

// The same by their types; where they are identical, the pair of their layers is kept.
#[cycle(same)]
fn same_and_kept<J: Forms>(
    alloc: Global,
    judge: &mut J,
    work: &mut Work,
    bounds: Bounds,
    a: Ty,
    b: Ty,
    layers: (Shape, Shape),
) -> Result<Answer, NoMemory>
    requires a_own { J.is_type judge.old a }
    requires b_own { J.is_type judge.old b }
    requires apart { alike (plain (J.tree judge.old a)) (plain (J.tree judge.old b)) ≡ false }
    requires layers_own { IsOwnPair (J.is_type judge.old) layers }
    requires layers { pair_view (J.tree judge.old) layers ≡ (plain (J.tree judge.old a), plain (J.tree judge.old b)) }
    requires kept { AreKept (J.headers judge.old) (J.is_type judge.old) (J.tree judge.old) work.old.kept }
    ensures answer { IfOk result (λ answer. answer_as answer
        ≡ run (J.headers judge.old) (bounded.same_interfaces bounds (plain (J.tree judge.old a), plain (J.tree judge.old b)))) }
    ensures keeps { Keeps (J.headers judge.old) (J.headers judge.new) (J.names judge.old) (J.names judge.new)
        (J.outcomes judge.old) (J.outcomes judge.new) (J.is_spent judge.old) (J.is_spent judge.new)
        (J.world judge.old) (J.world judge.new) (J.is_type judge.old) (J.is_type judge.new)
        (J.tree judge.old) (J.tree judge.new) }
    ensures kept { OnOk result (AreKept (J.headers judge.new) (J.is_type judge.new) (J.tree judge.new) work.new.kept) }
{
    match same_by_sets(alloc, judge, work, bounds, a, b)? {
        Answer::Yes => {
            let (x, y) = layers;
            work.keep(KeptPair { bounds, x, y })?;
            Ok(Answer::Yes)
        }
        other => Ok(other),
    }
}

// The same by what each has.
#[cycle(same)]
fn same_by_sets<J: Forms>(
    alloc: Global,
    judge: &mut J,
    work: &mut Work,
    bounds: Bounds,
    a: Ty,
    b: Ty,
) -> Result<Answer, NoMemory>
    requires a_own { J.is_type judge.old a }
    requires b_own { J.is_type judge.old b }
    requires apart { alike (plain (J.tree judge.old a)) (plain (J.tree judge.old b)) ≡ false }
    requires kept { AreKept (J.headers judge.old) (J.is_type judge.old) (J.tree judge.old) work.old.kept }
    ensures answer { IfOk result (λ answer. answer_as answer
        ≡ run (J.headers judge.old) (bounded.same_interfaces bounds (plain (J.tree judge.old a), plain (J.tree judge.old b)))) }
    ensures keeps { Keeps (J.headers judge.old) (J.headers judge.new) (J.names judge.old) (J.names judge.new)
        (J.outcomes judge.old) (J.outcomes judge.new) (J.is_spent judge.old) (J.is_spent judge.new)
        (J.world judge.old) (J.world judge.new) (J.is_type judge.old) (J.is_type judge.new)
        (J.tree judge.old) (J.tree judge.new) }
    ensures kept { OnOk result (AreKept (J.headers judge.new) (J.is_type judge.new) (J.tree judge.new) work.new.kept) }
{
    let first = set_of(alloc, judge, &mut work.budget, bounds.left, a)?;
    same_as(alloc, judge, work, bounds, first, b)
}

// By what the first of two interfaces has.
#[cycle(same)]
fn same_as<J: Forms>(
    alloc: Global,
    judge: &mut J,
    work: &mut Work,
    bounds: Bounds,
    first: FoundSet,
    b: Ty,
) -> Result<Answer, NoMemory>
    requires first_own { IsOwnFound (J.is_type judge.old) first }
    requires b_own { J.is_type judge.old b }
    requires kept { AreKept (J.headers judge.old) (J.is_type judge.old) (J.tree judge.old) work.old.kept }
    ensures answer { IfOk result (λ answer. answer_as answer
        ≡ asked_then (found_as (J.tree judge.old) first) (λ s. run (J.headers judge.old)
        (identity.same_as (identity.same bounds.levels) bounds.left bounds.short (plain (J.tree judge.old b)) s))) }
    ensures keeps { Keeps (J.headers judge.old) (J.headers judge.new) (J.names judge.old) (J.names judge.new)
        (J.outcomes judge.old) (J.outcomes judge.new) (J.is_spent judge.old) (J.is_spent judge.new)
        (J.world judge.old) (J.world judge.new) (J.is_type judge.old) (J.is_type judge.new)
        (J.tree judge.old) (J.tree judge.new) }
    ensures kept { OnOk result (AreKept (J.headers judge.new) (J.is_type judge.new) (J.tree judge.new) work.new.kept) }
{
    match first {
        FoundSet::Is(s) => {
            let second = set_of(alloc, judge, &mut work.budget, bounds.left, b)?;
            same_as_set(alloc, judge, work, bounds, s, second)
        }
        FoundSet::Absent => Ok(answer(bounds.short)),
        FoundSet::Unknown(d) => Ok(Answer::Unknown(d)),
    }
}

// By what the second has too.
#[cycle(same)]
fn same_as_set<J: Forms>(
    alloc: Global,
    judge: &mut J,
    work: &mut Work,
    bounds: Bounds,
    s: TypeSet,
    second: FoundSet,
) -> Result<Answer, NoMemory>
    requires first_own { IsOwnSet (J.is_type judge.old) s }
    requires second_own { IsOwnFound (J.is_type judge.old) second }
    requires kept { AreKept (J.headers judge.old) (J.is_type judge.old) (J.tree judge.old) work.old.kept }
    ensures answer { IfOk result (λ answer. answer_as answer
        ≡ asked_then (found_as (J.tree judge.old) second) (λ t. run (J.headers judge.old)
        (identity.same_as_set (identity.same bounds.levels) bounds.left bounds.short (set_view (J.tree judge.old) s) t))) }
    ensures keeps { Keeps (J.headers judge.old) (J.headers judge.new) (J.names judge.old) (J.names judge.new)
        (J.outcomes judge.old) (J.outcomes judge.new) (J.is_spent judge.old) (J.is_spent judge.new)
        (J.world judge.old) (J.world judge.new) (J.is_type judge.old) (J.is_type judge.new)
        (J.tree judge.old) (J.tree judge.new) }
    ensures kept { OnOk result (AreKept (J.headers judge.new) (J.is_type judge.new) (J.tree judge.new) work.new.kept) }
{
    match second {
        FoundSet::Is(t) => same_sets(alloc, judge, work, bounds, s, t),
        FoundSet::Absent => Ok(answer(bounds.short)),
        FoundSet::Unknown(d) => Ok(Answer::Unknown(d)),
    }
}
