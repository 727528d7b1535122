// Whether the terms of two type sets are the same (Go specification, "General interfaces", "Type identity").
ghost use Rattle.std.specs.Prelude.{◌≡◌, IfOk, OnOk, map};
ghost use Rattle.std.specs.List.{AllByRecursion};
ghost use Rattle.go_judge.specs.Types.Forms.{answer_as};
ghost use Rattle.go_judge.specs.Types.Own.{Keeps};
ghost use Rattle.go_judge.specs.Types.TypeIdentity.{ask_any, ask_each};
ghost use Rattle.go_judge.specs.Types.TypeSets.{plain};
ghost use Rattle.go_judge.specs.Quests.{run};
ghost use Rattle.go_same.specs.Bounded as bounded;
ghost use Rattle.go_same.specs.Kept.{AreKept};
ghost use Rattle.go_same.specs.Sets.{IsOwnSet, part_view, set_view};

use crate::bounds::{Bounds, answer};
use crate::identity::same_pairs;
use crate::one_type::same_term;
use crate::outline::outline;
use crate::set::{TypeSet, UnionPart};
use crate::short::types_by_form;
use crate::work::Work;
use go_base::NoMemory;
use go_judge::{Answer, Form, Forms};
use go_term::Ty;
use std::alloc::Global;

/// Whether the terms of each of two sets lie in the other.
#[cycle(same)]
pub(crate) fn same_terms<J: Forms>(
    alloc: Global,
    judge: &mut J,
    work: &mut Work,
    bounds: Bounds,
    s: &TypeSet,
    t: &TypeSet,
) -> Result<Answer, NoMemory>
    requires s_own { IsOwnSet (J.is_type judge.old) s.now }
    requires t_own { IsOwnSet (J.is_type judge.old) t.now }
    requires kept { AreKept (J.headers judge.old) (J.is_type judge.old) (J.tree judge.old) work.old.kept }
    ensures answer { IfOk result (λ answer. answer_as answer
        ≡ run (J.headers judge.old) (bounded.same_terms bounds (set_view (J.tree judge.old) s.now) (set_view (J.tree judge.old) t.now))) }
    ensures keeps { Keeps (J.headers judge.old) (J.headers judge.new) (J.names judge.old) (J.names judge.new)
        (J.outcomes judge.old) (J.outcomes judge.new) (J.is_spent judge.old) (J.is_spent judge.new)
        (J.world judge.old) (J.world judge.new) (J.is_type judge.old) (J.is_type judge.new)
        (J.tree judge.old) (J.tree judge.new) }
    ensures kept { OnOk result (AreKept (J.headers judge.new) (J.is_type judge.new) (J.tree judge.new) work.new.kept) }
{
    match terms_lie(alloc, judge, work, bounds, s, t)? {
        Answer::Yes => terms_lie(alloc, judge, work, bounds, t, s),
        other => Ok(other),
    }
}

// Whether the terms of a set that lie in all its unions lie in those of the other.
#[cycle(same)]
fn terms_lie<J: Forms>(
    alloc: Global,
    judge: &mut J,
    work: &mut Work,
    bounds: Bounds,
    s: &TypeSet,
    t: &TypeSet,
) -> Result<Answer, NoMemory>
    requires s_own { IsOwnSet (J.is_type judge.old) s.now }
    requires t_own { IsOwnSet (J.is_type judge.old) t.now }
    requires kept { AreKept (J.headers judge.old) (J.is_type judge.old) (J.tree judge.old) work.old.kept }
    ensures answer { IfOk result (λ answer. answer_as answer
        ≡ run (J.headers judge.old) (bounded.terms_lie bounds (set_view (J.tree judge.old) s.now) (set_view (J.tree judge.old) t.now))) }
    ensures keeps { Keeps (J.headers judge.old) (J.headers judge.new) (J.names judge.old) (J.names judge.new)
        (J.outcomes judge.old) (J.outcomes judge.new) (J.is_spent judge.old) (J.is_spent judge.new)
        (J.world judge.old) (J.world judge.new) (J.is_type judge.old) (J.is_type judge.new)
        (J.tree judge.old) (J.tree judge.new) }
    ensures kept { OnOk result (AreKept (J.headers judge.new) (J.is_type judge.new) (J.tree judge.new) work.new.kept) }
{
    for u in &s.unions {
        match union_lies(alloc, judge, work, bounds, u, s, t)? {
            Answer::Yes => {}
            other => return Ok(other),
        }
    }
    Ok(Answer::Yes)
}

// The same of the terms of one union.
#[cycle(same)]
fn union_lies<J: Forms>(
    alloc: Global,
    judge: &mut J,
    work: &mut Work,
    bounds: Bounds,
    u: &[UnionPart],
    s: &TypeSet,
    t: &TypeSet,
) -> Result<Answer, NoMemory>
    requires u_own { AllByRecursion (λ p. J.is_type judge.old p.ty) u.now }
    requires s_own { IsOwnSet (J.is_type judge.old) s.now }
    requires t_own { IsOwnSet (J.is_type judge.old) t.now }
    requires kept { AreKept (J.headers judge.old) (J.is_type judge.old) (J.tree judge.old) work.old.kept }
    ensures answer { IfOk result (λ answer. answer_as answer
        ≡ run (J.headers judge.old) (ask_each (bounded.term_lies bounds (set_view (J.tree judge.old) s.now) (set_view (J.tree judge.old) t.now)) (map (part_view (J.tree judge.old)) u.now))) }
    ensures keeps { Keeps (J.headers judge.old) (J.headers judge.new) (J.names judge.old) (J.names judge.new)
        (J.outcomes judge.old) (J.outcomes judge.new) (J.is_spent judge.old) (J.is_spent judge.new)
        (J.world judge.old) (J.world judge.new) (J.is_type judge.old) (J.is_type judge.new)
        (J.tree judge.old) (J.tree judge.new) }
    ensures kept { OnOk result (AreKept (J.headers judge.new) (J.is_type judge.new) (J.tree judge.new) work.new.kept) }
{
    for a in u {
        match term_lies(alloc, judge, work, bounds, a, s, t)? {
            Answer::Yes => {}
            other => return Ok(other),
        }
    }
    Ok(Answer::Yes)
}

// The same of one term.
#[cycle(same)]
fn term_lies<J: Forms>(
    alloc: Global,
    judge: &mut J,
    work: &mut Work,
    bounds: Bounds,
    a: &UnionPart,
    s: &TypeSet,
    t: &TypeSet,
) -> Result<Answer, NoMemory>
    requires a_own { J.is_type judge.old a.now.ty }
    requires s_own { IsOwnSet (J.is_type judge.old) s.now }
    requires t_own { IsOwnSet (J.is_type judge.old) t.now }
    requires kept { AreKept (J.headers judge.old) (J.is_type judge.old) (J.tree judge.old) work.old.kept }
    ensures answer { IfOk result (λ answer. answer_as answer
        ≡ run (J.headers judge.old) (bounded.term_lies bounds (set_view (J.tree judge.old) s.now) (set_view (J.tree judge.old) t.now) (part_view (J.tree judge.old) a.now))) }
    ensures keeps { Keeps (J.headers judge.old) (J.headers judge.new) (J.names judge.old) (J.names judge.new)
        (J.outcomes judge.old) (J.outcomes judge.new) (J.is_spent judge.old) (J.is_spent judge.new)
        (J.world judge.old) (J.world judge.new) (J.is_type judge.old) (J.is_type judge.new)
        (J.tree judge.old) (J.tree judge.new) }
    ensures kept { OnOk result (AreKept (J.headers judge.new) (J.is_type judge.new) (J.tree judge.new) work.new.kept) }
{
    match lies_in(alloc, judge, work, bounds.of_premise(), &s.unions, a)? {
        Answer::Yes => lies_in(alloc, judge, work, bounds, &t.unions, a),
        Answer::No => Ok(Answer::Yes),
        other => Ok(other),
    }
}

// Whether a term lies in each union.
#[cycle(same)]
fn lies_in<J: Forms>(
    alloc: Global,
    judge: &mut J,
    work: &mut Work,
    bounds: Bounds,
    unions: &[Vec<UnionPart>],
    a: &UnionPart,
) -> Result<Answer, NoMemory>
    requires own { AllByRecursion (λ u. AllByRecursion (λ p. J.is_type judge.old p.ty) u.items) unions.now }
    requires a_own { J.is_type judge.old a.now.ty }
    requires kept { AreKept (J.headers judge.old) (J.is_type judge.old) (J.tree judge.old) work.old.kept }
    ensures answer { IfOk result (λ answer. answer_as answer
        ≡ run (J.headers judge.old) (bounded.lies_in bounds (map (λ u. map (part_view (J.tree judge.old)) u.items) unions.now) (part_view (J.tree judge.old) a.now))) }
    ensures keeps { Keeps (J.headers judge.old) (J.headers judge.new) (J.names judge.old) (J.names judge.new)
        (J.outcomes judge.old) (J.outcomes judge.new) (J.is_spent judge.old) (J.is_spent judge.new)
        (J.world judge.old) (J.world judge.new) (J.is_type judge.old) (J.is_type judge.new)
        (J.tree judge.old) (J.tree judge.new) }
    ensures kept { OnOk result (AreKept (J.headers judge.new) (J.is_type judge.new) (J.tree judge.new) work.new.kept) }
{
    for u in unions {
        match lies_in_union(alloc, judge, work, bounds, u, a)? {
            Answer::Yes => {}
            other => return Ok(other),
        }
    }
    Ok(Answer::Yes)
}

// Whether a term lies in one of the terms of a union.
#[cycle(same)]
fn lies_in_union<J: Forms>(
    alloc: Global,
    judge: &mut J,
    work: &mut Work,
    bounds: Bounds,
    u: &[UnionPart],
    a: &UnionPart,
) -> Result<Answer, NoMemory>
    requires own { AllByRecursion (λ p. J.is_type judge.old p.ty) u.now }
    requires a_own { J.is_type judge.old a.now.ty }
    requires kept { AreKept (J.headers judge.old) (J.is_type judge.old) (J.tree judge.old) work.old.kept }
    ensures answer { IfOk result (λ answer. answer_as answer
        ≡ run (J.headers judge.old) (ask_any (bounded.lies_within bounds (part_view (J.tree judge.old) a.now)) (map (part_view (J.tree judge.old)) u.now))) }
    ensures keeps { Keeps (J.headers judge.old) (J.headers judge.new) (J.names judge.old) (J.names judge.new)
        (J.outcomes judge.old) (J.outcomes judge.new) (J.is_spent judge.old) (J.is_spent judge.new)
        (J.world judge.old) (J.world judge.new) (J.is_type judge.old) (J.is_type judge.new)
        (J.tree judge.old) (J.tree judge.new) }
    ensures kept { OnOk result (AreKept (J.headers judge.new) (J.is_type judge.new) (J.tree judge.new) work.new.kept) }
{
    for b in u {
        match lies_within(alloc, judge, work, bounds, a, b)? {
            Answer::No => {}
            other => return Ok(other),
        }
    }
    Ok(Answer::No)
}

// Whether a term lies in another.
#[cycle(same)]
fn lies_within<J: Forms>(
    alloc: Global,
    judge: &mut J,
    work: &mut Work,
    bounds: Bounds,
    a: &UnionPart,
    b: &UnionPart,
) -> Result<Answer, NoMemory>
    requires a_own { J.is_type judge.old a.now.ty }
    requires b_own { J.is_type judge.old b.now.ty }
    requires kept { AreKept (J.headers judge.old) (J.is_type judge.old) (J.tree judge.old) work.old.kept }
    ensures answer { IfOk result (λ answer. answer_as answer
        ≡ run (J.headers judge.old) (bounded.lies_within bounds (part_view (J.tree judge.old) a.now) (part_view (J.tree judge.old) b.now))) }
    ensures keeps { Keeps (J.headers judge.old) (J.headers judge.new) (J.names judge.old) (J.names judge.new)
        (J.outcomes judge.old) (J.outcomes judge.new) (J.is_spent judge.old) (J.is_spent judge.new)
        (J.world judge.old) (J.world judge.new) (J.is_type judge.old) (J.is_type judge.new)
        (J.tree judge.old) (J.tree judge.new) }
    ensures kept { OnOk result (AreKept (J.headers judge.new) (J.is_type judge.new) (J.tree judge.new) work.new.kept) }
{
    work.budget.spend(1)?;
    let opened = a.opened as u64 + b.opened as u64;
    match (a.tilde, b.tilde) {
        (true, false) => Ok(Answer::No),
        (false, true) => has_underlying(alloc, judge, work, bounds, opened + 1, &a.ty, &b.ty),
        (true, true) => same_behind(alloc, judge, work, bounds, opened, &a.ty, &b.ty),
        (false, false) => same_term(alloc, judge, work, bounds, a, b),
    }
}

/// Whether the underlying type of a type is the other, behind so many names.
#[cycle(same)]
pub(crate) fn has_underlying<J: Forms>(
    alloc: Global,
    judge: &mut J,
    work: &mut Work,
    bounds: Bounds,
    opened: u64,
    a: &Ty,
    b: &Ty,
) -> Result<Answer, NoMemory>
    requires a_own { J.is_type judge.old a.now }
    requires b_own { J.is_type judge.old b.now }
    requires kept { AreKept (J.headers judge.old) (J.is_type judge.old) (J.tree judge.old) work.old.kept }
    ensures answer { IfOk result (λ answer. answer_as answer
        ≡ run (J.headers judge.old) (bounded.has_underlying bounds opened (plain (J.tree judge.old a.now)) (plain (J.tree judge.old b.now)))) }
    ensures keeps { Keeps (J.headers judge.old) (J.headers judge.new) (J.names judge.old) (J.names judge.new)
        (J.outcomes judge.old) (J.outcomes judge.new) (J.is_spent judge.old) (J.is_spent judge.new)
        (J.world judge.old) (J.world judge.new) (J.is_type judge.old) (J.is_type judge.new)
        (J.tree judge.old) (J.tree judge.new) }
    ensures kept { OnOk result (AreKept (J.headers judge.new) (J.is_type judge.new) (J.tree judge.new) work.new.kept) }
{
    match judge.underlying(alloc, a)? {
        Form::Is(u) => same_behind(alloc, judge, work, bounds, opened, &u, b),
        Form::Absent => Ok(answer(bounds.short)),
        Form::Unknown(d) => Ok(Answer::Unknown(d)),
    }
}

/// Whether two types are identical, behind so many names.
#[cycle(same)]
pub(crate) fn same_behind<J: Forms>(
    alloc: Global,
    judge: &mut J,
    work: &mut Work,
    bounds: Bounds,
    opened: u64,
    a: &Ty,
    b: &Ty,
) -> Result<Answer, NoMemory>
    requires a_own { J.is_type judge.old a.now }
    requires b_own { J.is_type judge.old b.now }
    requires kept { AreKept (J.headers judge.old) (J.is_type judge.old) (J.tree judge.old) work.old.kept }
    ensures answer { IfOk result (λ answer. answer_as answer
        ≡ run (J.headers judge.old) (bounded.behind bounds opened (plain (J.tree judge.old a.now)) (plain (J.tree judge.old b.now)))) }
    ensures keeps { Keeps (J.headers judge.old) (J.headers judge.new) (J.names judge.old) (J.names judge.new)
        (J.outcomes judge.old) (J.outcomes judge.new) (J.is_spent judge.old) (J.is_spent judge.new)
        (J.world judge.old) (J.world judge.new) (J.is_type judge.old) (J.is_type judge.new)
        (J.tree judge.old) (J.tree judge.new) }
    ensures kept { OnOk result (AreKept (J.headers judge.new) (J.is_type judge.new) (J.tree judge.new) work.new.kept) }
{
    match bounds.behind(opened) {
        Some(inner) => same_types(alloc, judge, work, inner, a, b),
        None => types_by_form(alloc, judge, &mut work.budget, bounds, a, b),
    }
}

// Whether two types are identical.
#[cycle(same)]
fn same_types<J: Forms>(
    alloc: Global,
    judge: &mut J,
    work: &mut Work,
    bounds: Bounds,
    a: &Ty,
    b: &Ty,
) -> Result<Answer, NoMemory>
    requires a_own { J.is_type judge.old a.now }
    requires b_own { J.is_type judge.old b.now }
    requires kept { AreKept (J.headers judge.old) (J.is_type judge.old) (J.tree judge.old) work.old.kept }
    ensures answer { IfOk result (λ answer. answer_as answer
        ≡ run (J.headers judge.old) (bounded.same bounds (plain (J.tree judge.old a.now)) (plain (J.tree judge.old b.now)))) }
    ensures keeps { Keeps (J.headers judge.old) (J.headers judge.new) (J.names judge.old) (J.names judge.new)
        (J.outcomes judge.old) (J.outcomes judge.new) (J.is_spent judge.old) (J.is_spent judge.new)
        (J.world judge.old) (J.world judge.new) (J.is_type judge.old) (J.is_type judge.new)
        (J.tree judge.old) (J.tree judge.new) }
    ensures kept { OnOk result (AreKept (J.headers judge.new) (J.is_type judge.new) (J.tree judge.new) work.new.kept) }
{
    if bounds.levels == 0 {
        return types_by_form(alloc, judge, &mut work.budget, bounds, a, b);
    }
    let mut pairs = Vec::new(alloc);
    if !outline(alloc, judge, &mut work.budget, a, b, &mut pairs)? {
        return Ok(Answer::No);
    }
    let inner = Bounds {
        levels: bounds.levels - 1,
        ..bounds
    };
    same_pairs(alloc, judge, work, inner, pairs)
}
