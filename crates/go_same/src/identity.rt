// Whether two types are identical: interfaces by their sets, and these by their methods (Go specification, "Type identity").
ghost use Rattle.std.specs.Prelude.{◌≡◌, false, IfOk, OnOk, map};
ghost use Rattle.std.specs.List.{AllByRecursion};
ghost use Rattle.go_judge.specs.Types.Forms.{answer_as};
ghost use Rattle.go_judge.specs.Types.Own.{AreOwnFunc, Keeps};
ghost use Rattle.go_judge.specs.Types.TypeIdentity as identity;
ghost use Rattle.go_judge.specs.Types.TypeIdentity.{and_ask, ask_each};
ghost use Rattle.go_judge.specs.Types.TypeSets.{MethodData, plain};
ghost use Rattle.go_judge.specs.Quests.{Decided, Done, run};
ghost use Rattle.go_same.specs.Bounded as bounded;
ghost use Rattle.go_same.specs.Kept.{AreKept};
ghost use Rattle.go_same.specs.Layers.{IsOwnPair, pair_view};
ghost use Rattle.go_same.specs.MethodOrder.{AreByName, AreInRange, named_pairs, views_at};
ghost use Rattle.go_same.specs.Sets.{IsOwnSet, func_type, method_view, set_view};

use crate::bounds::Bounds;
use crate::budget::Budget;
use crate::interfaces::same_interfaces;
use crate::methods::{pairs_of, sets_fit, sort_methods};
use crate::outline::{outline, outline_funcs};
use crate::set::{Method, TypeSet};
use crate::short::funcs_by_form;
use crate::within::same_terms;
use crate::work::Work;
use go_base::NoMemory;
use go_judge::{Answer, Forms};
use go_term::{FuncShape, Shape, Ty};
use std::alloc::Global;

// No two types that are not too deep have more levels of interfaces within methods and terms of interfaces.
const MOST_LEVELS: u32 = 33 * 257;

// The number of names that may be opened on one path.
const MOST_OPENED: u32 = 32;

/// Whether two types are identical (Go specification, "Type identity"), Unknown with the first header that the answer
/// lacks. No where more than 32 names would have to be opened on one path: those that interfaces embed, and the
/// underlying types of terms of unions, each of which counts as one. An error is want of memory, also past 4,194,304
/// steps, or that a type would have to be made once more that is too deep or too large. What the judge has stays.
pub fn same<J: Forms>(alloc: Global, judge: &mut J, a: &Ty, b: &Ty) -> Result<Answer, NoMemory>
    requires a_own { J.is_type judge.old a.now }
    requires b_own { J.is_type judge.old b.now }
    ensures answer { IfOk result (λ answer. answer_as answer
        ≡ run (J.headers judge.old) (identity.identical (J.tree judge.old a.now) (J.tree judge.old b.now))) }
    ensures unspent { IfOk result (λ answer. J.is_spent judge.old ≡ false) }
    ensures keeps { Keeps (J.headers judge.old) (J.headers judge.new) (J.names judge.old) (J.names judge.new)
        (J.outcomes judge.old) (J.outcomes judge.new) (J.is_spent judge.old) (J.is_spent judge.new)
        (J.world judge.old) (J.world judge.new) (J.is_type judge.old) (J.is_type judge.new)
        (J.tree judge.old) (J.tree judge.new) }
{
    let mut work = Work::new(alloc);
    let mut pairs = Vec::new(alloc);
    if !outline(alloc, judge, &mut work.budget, a, b, &mut pairs)? {
        return Ok(Answer::No);
    }
    let bounds = Bounds {
        levels: MOST_LEVELS - 1,
        left: MOST_OPENED,
        short: false,
    };
    same_pairs(alloc, judge, &mut work, bounds, pairs)
}

/// Whether interfaces are identical two by two, by their layers.
#[cycle(same)]
pub(crate) fn same_pairs<J: Forms>(
    alloc: Global,
    judge: &mut J,
    work: &mut Work,
    bounds: Bounds,
    pairs: Vec<(Shape, Shape)>,
) -> Result<Answer, NoMemory>
    requires own { AllByRecursion (IsOwnPair (J.is_type judge.old)) pairs.items }
    requires kept { AreKept (J.headers judge.old) (J.is_type judge.old) (J.tree judge.old) work.old.kept }
    ensures answer { IfOk result (λ answer. answer_as answer
        ≡ run (J.headers judge.old) (ask_each (bounded.same_interfaces bounds) (map (pair_view (J.tree judge.old)) pairs.items))) }
    ensures keeps { Keeps (J.headers judge.old) (J.headers judge.new) (J.names judge.old) (J.names judge.new)
        (J.outcomes judge.old) (J.outcomes judge.new) (J.is_spent judge.old) (J.is_spent judge.new)
        (J.world judge.old) (J.world judge.new) (J.is_type judge.old) (J.is_type judge.new)
        (J.tree judge.old) (J.tree judge.new) }
    ensures kept { OnOk result (AreKept (J.headers judge.new) (J.is_type judge.new) (J.tree judge.new) work.new.kept) }
{
    for (x, y) in pairs {
        match same_interfaces(alloc, judge, work, bounds, x, y)? {
            Answer::Yes => {}
            other => return Ok(other),
        }
    }
    Ok(Answer::Yes)
}

/// Whether two sets are the same.
#[cycle(same)]
pub(crate) fn same_sets<J: Forms>(
    alloc: Global,
    judge: &mut J,
    work: &mut Work,
    bounds: Bounds,
    s: TypeSet,
    t: TypeSet,
) -> Result<Answer, NoMemory>
    requires s_own { IsOwnSet (J.is_type judge.old) s }
    requires t_own { IsOwnSet (J.is_type judge.old) t }
    requires kept { AreKept (J.headers judge.old) (J.is_type judge.old) (J.tree judge.old) work.old.kept }
    ensures answer { IfOk result (λ answer. answer_as answer
        ≡ run (J.headers judge.old) (bounded.same_sets bounds (set_view (J.tree judge.old) s) (set_view (J.tree judge.old) t))) }
    ensures keeps { Keeps (J.headers judge.old) (J.headers judge.new) (J.names judge.old) (J.names judge.new)
        (J.outcomes judge.old) (J.outcomes judge.new) (J.is_spent judge.old) (J.is_spent judge.new)
        (J.world judge.old) (J.world judge.new) (J.is_type judge.old) (J.is_type judge.new)
        (J.tree judge.old) (J.tree judge.new) }
    ensures kept { OnOk result (AreKept (J.headers judge.new) (J.is_type judge.new) (J.tree judge.new) work.new.kept) }
{
    let mut s = s;
    let mut t = t;
    sort_methods(&mut s.methods)?;
    sort_methods(&mut t.methods)?;
    if !sets_fit(&s, &t) {
        return Ok(Answer::No);
    }
    same_fitting(alloc, judge, work, bounds, &s, &t)
}

// The same of sets that fit, with their methods by name.
#[cycle(same)]
fn same_fitting<J: Forms>(
    alloc: Global,
    judge: &mut J,
    work: &mut Work,
    bounds: Bounds,
    s: &TypeSet,
    t: &TypeSet,
) -> Result<Answer, NoMemory>
    requires s_own { IsOwnSet (J.is_type judge.old) s.now }
    requires t_own { IsOwnSet (J.is_type judge.old) t.now }
    requires s_sorted { AreByName s.now.methods.items }
    requires t_sorted { AreByName t.now.methods.items }
    requires kept { AreKept (J.headers judge.old) (J.is_type judge.old) (J.tree judge.old) work.old.kept }
    ensures answer { IfOk result (λ answer. answer_as answer
        ≡ run (J.headers judge.old) (and_ask (bounded.same_methods_all bounds
        (named_pairs (map (method_view (J.tree judge.old)) s.now.methods.items) (map (method_view (J.tree judge.old)) t.now.methods.items)))
        (bounded.same_terms bounds (set_view (J.tree judge.old) s.now) (set_view (J.tree judge.old) t.now)))) }
    ensures keeps { Keeps (J.headers judge.old) (J.headers judge.new) (J.names judge.old) (J.names judge.new)
        (J.outcomes judge.old) (J.outcomes judge.new) (J.is_spent judge.old) (J.is_spent judge.new)
        (J.world judge.old) (J.world judge.new) (J.is_type judge.old) (J.is_type judge.new)
        (J.tree judge.old) (J.tree judge.new) }
    ensures kept { OnOk result (AreKept (J.headers judge.new) (J.is_type judge.new) (J.tree judge.new) work.new.kept) }
{
    let pairs = pairs_of(alloc, &mut work.budget, &s.methods, &t.methods)?;
    match same_methods_all(alloc, judge, work, bounds, &s.methods, &t.methods, &pairs)? {
        Answer::Yes => same_terms(alloc, judge, work, bounds, s, t),
        other => Ok(other),
    }
}

// Whether methods at the places of the pairs have identical types: they fit, and the interfaces in them are identical.
#[cycle(same)]
fn same_methods_all<J: Forms>(
    alloc: Global,
    judge: &mut J,
    work: &mut Work,
    bounds: Bounds,
    ms: &[Method],
    ns: &[Method],
    pairs: &[(usize, usize)],
) -> Result<Answer, NoMemory>
    requires m_own { AllByRecursion (λ m. AreOwnFunc (J.is_type judge.old) m.signature) ms.now }
    requires n_own { AllByRecursion (λ m. AreOwnFunc (J.is_type judge.old) m.signature) ns.now }
    requires in_range { AreInRange ms.now ns.now pairs.now }
    requires kept { AreKept (J.headers judge.old) (J.is_type judge.old) (J.tree judge.old) work.old.kept }
    ensures answer { IfOk result (λ answer. (other : MethodData) → answer_as answer
        ≡ run (J.headers judge.old) (bounded.same_methods_all bounds (map (views_at (map (method_view (J.tree judge.old)) ms.now) (map (method_view (J.tree judge.old)) ns.now) other) pairs.now))) }
    ensures keeps { Keeps (J.headers judge.old) (J.headers judge.new) (J.names judge.old) (J.names judge.new)
        (J.outcomes judge.old) (J.outcomes judge.new) (J.is_spent judge.old) (J.is_spent judge.new)
        (J.world judge.old) (J.world judge.new) (J.is_type judge.old) (J.is_type judge.new)
        (J.tree judge.old) (J.tree judge.new) }
    ensures kept { OnOk result (AreKept (J.headers judge.new) (J.is_type judge.new) (J.tree judge.new) work.new.kept) }
{
    if !methods_fit(alloc, judge, &mut work.budget, ms, ns, pairs)? {
        return Ok(Answer::No);
    }
    same_methods(alloc, judge, work, bounds, ms, ns, pairs)
}

// Whether the types of the methods at the places of each pair fit.
fn methods_fit<J: Forms>(
    alloc: Global,
    judge: &mut J,
    budget: &mut Budget,
    ms: &[Method],
    ns: &[Method],
    pairs: &[(usize, usize)],
) -> Result<bool, NoMemory>
    requires m_own { AllByRecursion (λ m. AreOwnFunc (J.is_type judge.old) m.signature) ms.now }
    requires n_own { AllByRecursion (λ m. AreOwnFunc (J.is_type judge.old) m.signature) ns.now }
    requires in_range { AreInRange ms.now ns.now pairs.now }
    ensures fits { IfOk result (λ fits. (other : MethodData)
        → run (J.headers judge.old) (ask_each (λ p. Done (identity.fit p.0.type p.1.type)) (map (views_at (map (method_view (J.tree judge.old)) ms.now) (map (method_view (J.tree judge.old)) ns.now) other) pairs.now))
        ≡ Decided fits) }
    ensures keeps { Keeps (J.headers judge.old) (J.headers judge.new) (J.names judge.old) (J.names judge.new)
        (J.outcomes judge.old) (J.outcomes judge.new) (J.is_spent judge.old) (J.is_spent judge.new)
        (J.world judge.old) (J.world judge.new) (J.is_type judge.old) (J.is_type judge.new)
        (J.tree judge.old) (J.tree judge.new) }
{
    for (i, k) in pairs {
        let mut unread = Vec::new(alloc);
        if !outline_funcs(
            alloc,
            judge,
            budget,
            &ms[*i].signature,
            &ns[*k].signature,
            &mut unread,
        )? {
            return Ok(false);
        }
    }
    Ok(true)
}

// Whether the methods at the places of each pair have identical types.
#[cycle(same)]
fn same_methods<J: Forms>(
    alloc: Global,
    judge: &mut J,
    work: &mut Work,
    bounds: Bounds,
    ms: &[Method],
    ns: &[Method],
    pairs: &[(usize, usize)],
) -> Result<Answer, NoMemory>
    requires m_own { AllByRecursion (λ m. AreOwnFunc (J.is_type judge.old) m.signature) ms.now }
    requires n_own { AllByRecursion (λ m. AreOwnFunc (J.is_type judge.old) m.signature) ns.now }
    requires in_range { AreInRange ms.now ns.now pairs.now }
    requires kept { AreKept (J.headers judge.old) (J.is_type judge.old) (J.tree judge.old) work.old.kept }
    ensures answer { IfOk result (λ answer. (other : MethodData) → answer_as answer
        ≡ run (J.headers judge.old) (ask_each (bounded.same_methods bounds) (map (views_at (map (method_view (J.tree judge.old)) ms.now) (map (method_view (J.tree judge.old)) ns.now) other) pairs.now))) }
    ensures keeps { Keeps (J.headers judge.old) (J.headers judge.new) (J.names judge.old) (J.names judge.new)
        (J.outcomes judge.old) (J.outcomes judge.new) (J.is_spent judge.old) (J.is_spent judge.new)
        (J.world judge.old) (J.world judge.new) (J.is_type judge.old) (J.is_type judge.new)
        (J.tree judge.old) (J.tree judge.new) }
    ensures kept { OnOk result (AreKept (J.headers judge.new) (J.is_type judge.new) (J.tree judge.new) work.new.kept) }
{
    for (i, k) in pairs {
        match same_method(alloc, judge, work, bounds, &ms[*i], &ns[*k])? {
            Answer::Yes => {}
            other => return Ok(other),
        }
    }
    Ok(Answer::Yes)
}

// Whether two methods have identical types.
#[cycle(same)]
fn same_method<J: Forms>(
    alloc: Global,
    judge: &mut J,
    work: &mut Work,
    bounds: Bounds,
    m: &Method,
    n: &Method,
) -> Result<Answer, NoMemory>
    requires m_own { AreOwnFunc (J.is_type judge.old) m.now.signature }
    requires n_own { AreOwnFunc (J.is_type judge.old) n.now.signature }
    requires kept { AreKept (J.headers judge.old) (J.is_type judge.old) (J.tree judge.old) work.old.kept }
    ensures answer { IfOk result (λ answer. answer_as answer
        ≡ run (J.headers judge.old) (bounded.same_methods bounds (method_view (J.tree judge.old) m.now, method_view (J.tree judge.old) n.now))) }
    ensures keeps { Keeps (J.headers judge.old) (J.headers judge.new) (J.names judge.old) (J.names judge.new)
        (J.outcomes judge.old) (J.outcomes judge.new) (J.is_spent judge.old) (J.is_spent judge.new)
        (J.world judge.old) (J.world judge.new) (J.is_type judge.old) (J.is_type judge.new)
        (J.tree judge.old) (J.tree judge.new) }
    ensures kept { OnOk result (AreKept (J.headers judge.new) (J.is_type judge.new) (J.tree judge.new) work.new.kept) }
{
    match bounds.behind(m.opened as u64 + n.opened as u64) {
        Some(inner) => same_funcs(alloc, judge, work, inner, &m.signature, &n.signature),
        None => funcs_by_form(
            alloc,
            judge,
            &mut work.budget,
            bounds,
            &m.signature,
            &n.signature,
        ),
    }
}

// Whether two signatures are identical.
#[cycle(same)]
fn same_funcs<J: Forms>(
    alloc: Global,
    judge: &mut J,
    work: &mut Work,
    bounds: Bounds,
    f: &FuncShape,
    g: &FuncShape,
) -> Result<Answer, NoMemory>
    requires f_own { AreOwnFunc (J.is_type judge.old) f.now }
    requires g_own { AreOwnFunc (J.is_type judge.old) g.now }
    requires kept { AreKept (J.headers judge.old) (J.is_type judge.old) (J.tree judge.old) work.old.kept }
    ensures answer { IfOk result (λ answer. answer_as answer
        ≡ run (J.headers judge.old) (bounded.same bounds (plain (func_type (J.tree judge.old) f.now)) (plain (func_type (J.tree judge.old) g.now)))) }
    ensures keeps { Keeps (J.headers judge.old) (J.headers judge.new) (J.names judge.old) (J.names judge.new)
        (J.outcomes judge.old) (J.outcomes judge.new) (J.is_spent judge.old) (J.is_spent judge.new)
        (J.world judge.old) (J.world judge.new) (J.is_type judge.old) (J.is_type judge.new)
        (J.tree judge.old) (J.tree judge.new) }
    ensures kept { OnOk result (AreKept (J.headers judge.new) (J.is_type judge.new) (J.tree judge.new) work.new.kept) }
{
    if bounds.levels == 0 {
        return funcs_by_form(alloc, judge, &mut work.budget, bounds, f, g);
    }
    let mut pairs = Vec::new(alloc);
    if !outline_funcs(alloc, judge, &mut work.budget, f, g, &mut pairs)? {
        return Ok(Answer::No);
    }
    let inner = Bounds {
        levels: bounds.levels - 1,
        ..bounds
    };
    same_pairs(alloc, judge, work, inner, pairs)
}
