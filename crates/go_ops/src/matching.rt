// Operands that match, and the type that both have then (Go specification, "Operators", "Constant expressions").
ghost use Rattle.std.specs.Prelude.{◌≡◌, IfOk, None};
ghost use Rattle.go_term.specs.Types.{TypeData};
ghost use Rattle.go_term.specs.declared.term.Term.{Term};
ghost use Rattle.go_judge.specs.Operands.{type_or_none};
ghost use Rattle.go_judge.specs.Records.{rec_as};
ghost use Rattle.go_judge.specs.Types.Forms.{answer_as};
ghost use Rattle.go_judge.specs.Types.Own.{IsOwnRec, Keeps};
ghost use Rattle.go_judge.specs.Types.TypeIdentity.{identical};
ghost use Rattle.go_judge.specs.Quests.{run};
ghost use Rattle.go_constructs.specs.Operators.Matching as spec;
ghost use Rattle.go_ops.specs.MatchingParts.{answer_of, kind_of};

use crate::representability::fit_of;
use crate::sort_kinds::is_number;
use go_base::NoMemory;
use go_constructs::{Fit, Sort};
use go_judge::{Answer, Rec, Same};
use go_num::{NumKind, Value};
use go_term::{Basic, Ty};
use std::alloc::Global;

/// Whether two operands of these sorts match, Unknown with the first header that the answer lacks. An error is want of
/// memory.
pub(crate) fn matches<J: Same>(
    alloc: Global,
    judge: &mut J,
    x: &Rec,
    y: &Rec,
    s: Sort,
    t: Sort,
) -> Result<Answer, NoMemory>
    requires first { IsOwnRec (J.is_type judge.old) x.now }
    requires second { IsOwnRec (J.is_type judge.old) y.now }
    ensures answer { IfOk result (λ answer. answer_as answer ≡ run (J.headers judge.old)
        (spec.match_by (rec_as (J.tree judge.old) x.now) (rec_as (J.tree judge.old) y.now) s t)) }
    ensures keeps { Keeps (J.headers judge.old) (J.headers judge.new) (J.names judge.old) (J.names judge.new)
        (J.outcomes judge.old) (J.outcomes judge.new) (J.is_spent judge.old) (J.is_spent judge.new)
        (J.world judge.old) (J.world judge.new) (J.is_type judge.old) (J.is_type judge.new)
        (J.tree judge.old) (J.tree judge.new) }
{
    match (kind_of(s), kind_of(t)) {
        (Some(k), Some(l)) => Ok(answer_of(same_kind(k, l))),
        (Some(k), None) => Ok(answer_of(suits(k, t))),
        (None, Some(l)) => Ok(answer_of(suits(l, s))),
        (None, None) => identical(alloc, judge, x, y),
    }
}

fn answer_of(yes: bool) -> Answer
    ensures { result ≡ answer_of yes }
{
    if yes { Answer::Yes } else { Answer::No }
}

// Whether the types of two operands are identical; those that have none are so to one another alone.
fn identical<J: Same>(alloc: Global, judge: &mut J, x: &Rec, y: &Rec) -> Result<Answer, NoMemory>
    requires first { IsOwnRec (J.is_type judge.old) x.now }
    requires second { IsOwnRec (J.is_type judge.old) y.now }
    ensures answer { IfOk result (λ answer. answer_as answer ≡ run (J.headers judge.old)
        (identical (type_or_none (rec_as (J.tree judge.old) x.now)) (type_or_none (rec_as (J.tree judge.old) y.now)))) }
    ensures keeps { Keeps (J.headers judge.old) (J.headers judge.new) (J.names judge.old) (J.names judge.new)
        (J.outcomes judge.old) (J.outcomes judge.new) (J.is_spent judge.old) (J.is_spent judge.new)
        (J.world judge.old) (J.world judge.new) (J.is_type judge.old) (J.is_type judge.new)
        (J.tree judge.old) (J.tree judge.new) }
{
    match (&x.ty, &y.ty) {
        (Some(a), Some(b)) => judge.identical(alloc, a, b),
        (Some(_), None) => Ok(Answer::No),
        (None, Some(_)) => Ok(Answer::No),
        (None, None) => Ok(Answer::Yes),
    }
}

/// The kind of an untyped sort.
pub(crate) fn kind_of(s: Sort) -> Option<NumKind>
    ensures { result ≡ kind_of s }
{
    match s {
        Sort::Untyped(kind) => Some(kind),
        Sort::Bool => None,
        Sort::Int(_) => None,
        Sort::Float(_) => None,
        Sort::Text => None,
        Sort::Interface => None,
        Sort::Other => None,
    }
}

// Whether two untyped operands of these kinds match.
fn same_kind(k: NumKind, l: NumKind) -> bool
    ensures { result ≡ spec.same_kind k l }
{
    match k {
        NumKind::Bool => matches!(l, NumKind::Bool),
        NumKind::Text => matches!(l, NumKind::Text),
        NumKind::Nil => matches!(l, NumKind::Nil),
        NumKind::Int => is_number(l),
        NumKind::Rune => is_number(l),
    }
}

// Whether an untyped operand of this kind and a typed one match.
fn suits(k: NumKind, s: Sort) -> bool
    ensures { result ≡ spec.suits k s }
{
    match k {
        NumKind::Bool => matches!(s, Sort::Bool),
        NumKind::Text => matches!(s, Sort::Text),
        NumKind::Int => matches!(s, Sort::Int(_) | Sort::Float(_)),
        NumKind::Rune => matches!(s, Sort::Int(_) | Sort::Float(_)),
        NumKind::Nil => false,
    }
}

/// The sort of the type that matched operands have.
pub(crate) fn common_sort(s: Sort, t: Sort) -> Sort
    ensures { result ≡ spec.common_sort s t }
{
    match (kind_of(s), kind_of(t)) {
        (Some(k), Some(l)) => Sort::Untyped(later(k, l)),
        (Some(_), None) => t,
        (None, Some(_)) => s,
        (None, None) => s,
    }
}

/// The later of two kinds of untyped operands that match.
pub(crate) fn later(k: NumKind, l: NumKind) -> NumKind
    ensures { result ≡ spec.later k l }
{
    match k {
        NumKind::Rune => NumKind::Rune,
        NumKind::Bool => l,
        NumKind::Int => l,
        NumKind::Text => l,
        NumKind::Nil => l,
    }
}

/// The basic type that an untyped kind is.
pub(crate) fn untyped_basic(kind: NumKind) -> Basic
    ensures { result ≡ spec.untyped_basic kind }
{
    match kind {
        NumKind::Bool => Basic::UntypedBool,
        NumKind::Int => Basic::UntypedInt,
        NumKind::Rune => Basic::UntypedRune,
        NumKind::Text => Basic::UntypedString,
        NumKind::Nil => Basic::UntypedNil,
    }
}

/// How an operand of the first sort fits the type that an operand of the second gives it; Fits where it is given none.
pub(crate) fn given_fit(x: &Rec, s: Sort, t: Sort) -> Fit
    ensures { (tree : Term → TypeData) → result ≡ spec.given_fit (rec_as tree x.now) s t }
{
    match (kind_of(s), kind_of(t)) {
        (Some(_), Some(_)) => Fit::Fits,
        (Some(_), None) => fit_by(&x.value, t),
        (None, Some(_)) => Fit::Fits,
        (None, None) => Fit::Fits,
    }
}

fn fit_by(value: &Option<Value>, s: Sort) -> Fit
    ensures { result ≡ spec.fit_by value.now s }
{
    match value {
        Some(value) => fit_of(value, s),
        None => Fit::Fits,
    }
}
