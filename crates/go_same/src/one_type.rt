// Whether two terms without `~` are of one type (Go specification, "General interfaces", "Type identity").
ghost use Rattle.std.specs.Prelude.{◌≡◌, ◌+◌, IfOk, OnOk};
ghost use Rattle.go_judge.specs.Types.Forms.{answer_as};
ghost use Rattle.go_judge.specs.Types.Own.{Keeps};
ghost use Rattle.go_judge.specs.Types.TypeIdentity.{and_ask};
ghost use Rattle.go_judge.specs.Types.TypeSets.{plain};
ghost use Rattle.go_judge.specs.Quests.{run};
ghost use Rattle.go_same.specs.Bounded as bounded;
ghost use Rattle.go_same.specs.Kept.{AreKept};

use crate::alike::alike;
use crate::bounds::{Bounds, answer};
use crate::see::is_declared;
use crate::set::UnionPart;
use crate::within::{has_underlying, same_behind};
use crate::work::Work;
use go_base::NoMemory;
use go_judge::{Answer, Form, Forms};
use go_term::Ty;
use std::alloc::Global;

/// Whether two terms are of one type; of declared ones the underlying types are asked too.
#[cycle(same)]
pub(crate) fn same_term<J: Forms>(
    alloc: Global,
    judge: &mut J,
    work: &mut Work,
    bounds: Bounds,
    a: &UnionPart,
    b: &UnionPart,
) -> Result<Answer, NoMemory>
    requires a_own { J.is_type judge.old a.now.ty }
    requires b_own { J.is_type judge.old b.now.ty }
    requires kept { AreKept (J.headers judge.old) (J.is_type judge.old) (J.tree judge.old) work.old.kept }
    ensures answer { IfOk result (λ answer. answer_as answer
        ≡ run (J.headers judge.old) (bounded.same_term bounds (a.now.opened + b.now.opened)
        (plain (J.tree judge.old a.now.ty)) (plain (J.tree judge.old b.now.ty)))) }
    ensures keeps { Keeps (J.headers judge.old) (J.headers judge.new) (J.names judge.old) (J.names judge.new)
        (J.outcomes judge.old) (J.outcomes judge.new) (J.is_spent judge.old) (J.is_spent judge.new)
        (J.world judge.old) (J.world judge.new) (J.is_type judge.old) (J.is_type judge.new)
        (J.tree judge.old) (J.tree judge.new) }
    ensures kept { OnOk result (AreKept (J.headers judge.new) (J.is_type judge.new) (J.tree judge.new) work.new.kept) }
{
    if alike(alloc, judge, &mut work.budget, &a.ty, &b.ty)? {
        return Ok(Answer::Yes);
    }
    same_apart(alloc, judge, work, bounds, a, b)
}

// The same of terms that are not alike.
#[cycle(same)]
fn same_apart<J: Forms>(
    alloc: Global,
    judge: &mut J,
    work: &mut Work,
    bounds: Bounds,
    a: &UnionPart,
    b: &UnionPart,
) -> Result<Answer, NoMemory>
    requires a_own { J.is_type judge.old a.now.ty }
    requires b_own { J.is_type judge.old b.now.ty }
    requires kept { AreKept (J.headers judge.old) (J.is_type judge.old) (J.tree judge.old) work.old.kept }
    ensures answer { IfOk result (λ answer. answer_as answer
        ≡ run (J.headers judge.old) (and_ask
        (bounded.behind bounds (a.now.opened + b.now.opened) (plain (J.tree judge.old a.now.ty)) (plain (J.tree judge.old b.now.ty)))
        (bounded.same_declared bounds (a.now.opened + b.now.opened + 2) (plain (J.tree judge.old a.now.ty)) (plain (J.tree judge.old b.now.ty))))) }
    ensures keeps { Keeps (J.headers judge.old) (J.headers judge.new) (J.names judge.old) (J.names judge.new)
        (J.outcomes judge.old) (J.outcomes judge.new) (J.is_spent judge.old) (J.is_spent judge.new)
        (J.world judge.old) (J.world judge.new) (J.is_type judge.old) (J.is_type judge.new)
        (J.tree judge.old) (J.tree judge.new) }
    ensures kept { OnOk result (AreKept (J.headers judge.new) (J.is_type judge.new) (J.tree judge.new) work.new.kept) }
{
    let opened = a.opened as u64 + b.opened as u64;
    match same_behind(alloc, judge, work, bounds, opened, &a.ty, &b.ty)? {
        Answer::Yes => same_declared(alloc, judge, work, bounds, opened + 2, &a.ty, &b.ty),
        other => Ok(other),
    }
}

// Whether the underlying types of two types are identical, where the first is a declared one.
#[cycle(same)]
fn same_declared<J: Forms>(
    alloc: Global,
    judge: &mut J,
    work: &mut Work,
    bounds: Bounds,
    opened: u64,
    a: &Ty,
    b: &Ty,
) -> Result<Answer, NoMemory>
    requires a_own { J.is_type judge.old a.now }
    requires b_own { J.is_type judge.old b.now }
    requires kept { AreKept (J.headers judge.old) (J.is_type judge.old) (J.tree judge.old) work.old.kept }
    ensures answer { IfOk result (λ answer. answer_as answer
        ≡ run (J.headers judge.old) (bounded.same_declared bounds opened (plain (J.tree judge.old a.now)) (plain (J.tree judge.old b.now)))) }
    ensures keeps { Keeps (J.headers judge.old) (J.headers judge.new) (J.names judge.old) (J.names judge.new)
        (J.outcomes judge.old) (J.outcomes judge.new) (J.is_spent judge.old) (J.is_spent judge.new)
        (J.world judge.old) (J.world judge.new) (J.is_type judge.old) (J.is_type judge.new)
        (J.tree judge.old) (J.tree judge.new) }
    ensures kept { OnOk result (AreKept (J.headers judge.new) (J.is_type judge.new) (J.tree judge.new) work.new.kept) }
{
    if is_declared(alloc, judge, a)? {
        same_underlying(alloc, judge, work, bounds, opened, a, b)
    } else {
        Ok(Answer::Yes)
    }
}

// Whether the underlying types of two types are identical, behind so many names; that of the second is asked first.
#[cycle(same)]
fn same_underlying<J: Forms>(
    alloc: Global,
    judge: &mut J,
    work: &mut Work,
    bounds: Bounds,
    opened: u64,
    a: &Ty,
    b: &Ty,
) -> Result<Answer, NoMemory>
    requires a_own { J.is_type judge.old a.now }
    requires b_own { J.is_type judge.old b.now }
    requires kept { AreKept (J.headers judge.old) (J.is_type judge.old) (J.tree judge.old) work.old.kept }
    ensures answer { IfOk result (λ answer. answer_as answer
        ≡ run (J.headers judge.old) (bounded.same_underlying bounds opened (plain (J.tree judge.old a.now)) (plain (J.tree judge.old b.now)))) }
    ensures keeps { Keeps (J.headers judge.old) (J.headers judge.new) (J.names judge.old) (J.names judge.new)
        (J.outcomes judge.old) (J.outcomes judge.new) (J.is_spent judge.old) (J.is_spent judge.new)
        (J.world judge.old) (J.world judge.new) (J.is_type judge.old) (J.is_type judge.new)
        (J.tree judge.old) (J.tree judge.new) }
    ensures kept { OnOk result (AreKept (J.headers judge.new) (J.is_type judge.new) (J.tree judge.new) work.new.kept) }
{
    match judge.underlying(alloc, b)? {
        Form::Is(v) => has_underlying(alloc, judge, work, bounds, opened, a, &v),
        Form::Absent => Ok(answer(bounds.short)),
        Form::Unknown(d) => Ok(Answer::Unknown(d)),
    }
}
