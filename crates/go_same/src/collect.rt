// What an interface has, with all that it embeds (Go specification, "Interface types", "Embedded interfaces", "General
// interfaces").
ghost use Rattle.std.specs.Prelude.{◌≡◌, ◌∷◌, [], true, false, Option, None, Some, IfOk, IfSome, map};
ghost use Rattle.std.specs.List.{AllByRecursion};
ghost use Rattle.std.specs.Option.{option_map};
ghost use Rattle.go_term.specs.Shapes.{elem_tree, union_tree};
ghost use Rattle.go_term.specs.Types.{parts_of};
ghost use Rattle.go_judge.specs.Types.Forms.{IsOwnForm, form_as};
ghost use Rattle.go_judge.specs.Types.Own.{IsOwnElem, Keeps};
ghost use Rattle.go_judge.specs.Types.TypeSets as sets;
ghost use Rattle.go_judge.specs.Quests.{run};
ghost use Rattle.go_same.specs.Collect as spec;
ghost use Rattle.go_same.specs.Sets.{IsOwnFound, found_as};

use crate::budget::Budget;
use crate::either::joined_after;
use crate::join::{join_both, raised_found};
use crate::kind::{TypeKind, is_interface, is_param, kind_of};
use crate::set::{FoundSet, is_set};
use crate::terms::{error_types, every_comparable, every_type, one_method, one_term};
use go_base::NoMemory;
use go_judge::{Form, Forms};
use go_term::{ElemShape, Ty, UnionShape};
use std::alloc::Global;

/// What an interface has, where at most so many names are opened on the way to each method and term: Absent where that
/// is too few, or where a name has no underlying type; Unknown with the first header that is lacking. It takes steps of
/// the budget. An error is want of memory, also past these, or that a term of a union would have to be copied whose type
/// is too deep or too large to be made.
#[cycle(collect)]
pub(crate) fn set_of<J: Forms>(
    alloc: Global,
    judge: &mut J,
    budget: &mut Budget,
    left: u32,
    t: Ty,
) -> Result<FoundSet, NoMemory>
    requires { J.is_type judge.old t }
    ensures answer { IfOk result (λ found. found_as (J.tree judge.new) found
        ≡ run (J.headers judge.old) (sets.set_of left (sets.plain (J.tree judge.old t)))) }
    ensures own { IfOk result (IsOwnFound (J.is_type judge.new)) }
    ensures keeps { Keeps (J.headers judge.old) (J.headers judge.new) (J.names judge.old) (J.names judge.new)
        (J.outcomes judge.old) (J.outcomes judge.new) (J.is_spent judge.old) (J.is_spent judge.new)
        (J.world judge.old) (J.world judge.new) (J.is_type judge.old) (J.is_type judge.new)
        (J.tree judge.old) (J.tree judge.new) }
{
    let shape = judge.see(alloc, &t)?;
    set_of_kind(alloc, judge, budget, left, t, kind_of(shape))
}

#[cycle(collect)]
fn set_of_kind<J: Forms>(
    alloc: Global,
    judge: &mut J,
    budget: &mut Budget,
    left: u32,
    t: Ty,
    kind: TypeKind,
) -> Result<FoundSet, NoMemory>
    requires own_type { J.is_type judge.old t }
    requires own_kind { spec.IsOwnKind (J.is_type judge.old) kind }
    requires stands { spec.IsKindOf (J.tree judge.old) (J.tree judge.old t) kind }
    ensures answer { IfOk result (λ found. found_as (J.tree judge.new) found
        ≡ run (J.headers judge.old) (spec.kind_set (spec.opening_within left) (J.tree judge.old)
        (sets.plain (J.tree judge.old t)) kind)) }
    ensures own { IfOk result (IsOwnFound (J.is_type judge.new)) }
    ensures keeps { Keeps (J.headers judge.old) (J.headers judge.new) (J.names judge.old) (J.names judge.new)
        (J.outcomes judge.old) (J.outcomes judge.new) (J.is_spent judge.old) (J.is_spent judge.new)
        (J.world judge.old) (J.world judge.new) (J.is_type judge.old) (J.is_type judge.new)
        (J.tree judge.old) (J.tree judge.new) }
{
    match kind {
        TypeKind::Literal(elems) => elements_set(alloc, judge, budget, left, elems),
        TypeKind::Error => Ok(FoundSet::Is(error_types(alloc, judge)?)),
        TypeKind::Comparable => Ok(FoundSet::Is(every_comparable(alloc))),
        TypeKind::Name => named_set(alloc, judge, budget, left, t),
        TypeKind::Other => Ok(FoundSet::Is(one_term(alloc, false, t)?)),
    }
}

// The elements of an interface, all together.
#[cycle(collect)]
fn elements_set<J: Forms>(
    alloc: Global,
    judge: &mut J,
    budget: &mut Budget,
    left: u32,
    elems: Vec<ElemShape>,
) -> Result<FoundSet, NoMemory>
    requires { AllByRecursion (IsOwnElem (J.is_type judge.old)) elems.items }
    ensures answer { IfOk result (λ found. found_as (J.tree judge.new) found
        ≡ run (J.headers judge.old) (sets.elements_set (spec.opening_within left)
        (sets.plain_all (parts_of (map (elem_tree (J.tree judge.old)) elems.items))))) }
    ensures own { IfOk result (IsOwnFound (J.is_type judge.new)) }
    ensures keeps { Keeps (J.headers judge.old) (J.headers judge.new) (J.names judge.old) (J.names judge.new)
        (J.outcomes judge.old) (J.outcomes judge.new) (J.is_spent judge.old) (J.is_spent judge.new)
        (J.world judge.old) (J.world judge.new) (J.is_type judge.old) (J.is_type judge.new)
        (J.tree judge.old) (J.tree judge.new) }
{
    budget.spend(elems.len())?;
    let mut all = FoundSet::Is(every_type(alloc));
    for e in elems {
        let one = element_set(alloc, judge, budget, left, e)?;
        all = join_both(all, one)?;
        if !is_set(&all) {
            return Ok(all);
        }
    }
    Ok(all)
}

#[cycle(collect)]
fn element_set<J: Forms>(
    alloc: Global,
    judge: &mut J,
    budget: &mut Budget,
    left: u32,
    elem: ElemShape,
) -> Result<FoundSet, NoMemory>
    requires { IsOwnElem (J.is_type judge.old) elem }
    ensures answer { IfOk result (λ found. found_as (J.tree judge.new) found
        ≡ run (J.headers judge.old) (sets.element_set (spec.opening_within left)
        (sets.plain (elem_tree (J.tree judge.old) elem)))) }
    ensures own { IfOk result (IsOwnFound (J.is_type judge.new)) }
    ensures keeps { Keeps (J.headers judge.old) (J.headers judge.new) (J.names judge.old) (J.names judge.new)
        (J.outcomes judge.old) (J.outcomes judge.new) (J.is_spent judge.old) (J.is_spent judge.new)
        (J.world judge.old) (J.world judge.new) (J.is_type judge.old) (J.is_type judge.new)
        (J.tree judge.old) (J.tree judge.new) }
{
    match elem {
        ElemShape::Method(_, name, package, signature) => {
            Ok(FoundSet::Is(one_method(alloc, name, package, signature)?))
        }
        ElemShape::Union(terms) => union_set(alloc, judge, budget, left, terms),
    }
}

// The terms of a union, one or another; one alone is embedded.
#[cycle(collect)]
fn union_set<J: Forms>(
    alloc: Global,
    judge: &mut J,
    budget: &mut Budget,
    left: u32,
    terms: Vec<UnionShape>,
) -> Result<FoundSet, NoMemory>
    requires { AllByRecursion (λ u. J.is_type judge.old u.ty) terms.items }
    ensures answer { IfOk result (λ found. found_as (J.tree judge.new) found
        ≡ run (J.headers judge.old) (sets.union_set (spec.opening_within left)
        (sets.plain_all (parts_of (map (union_tree (J.tree judge.old)) terms.items))))) }
    ensures own { IfOk result (IsOwnFound (J.is_type judge.new)) }
    ensures keeps { Keeps (J.headers judge.old) (J.headers judge.new) (J.names judge.old) (J.names judge.new)
        (J.outcomes judge.old) (J.outcomes judge.new) (J.is_spent judge.old) (J.is_spent judge.new)
        (J.world judge.old) (J.world judge.new) (J.is_type judge.old) (J.is_type judge.new)
        (J.tree judge.old) (J.tree judge.new) }
{
    budget.spend(terms.len())?;
    let mut all = None;
    for u in terms {
        let more = with_term(alloc, judge, budget, left, all, u)?;
        if !is_set(&more) {
            return Ok(more);
        }
        all = Some(more);
    }
    match all {
        Some(found) => Ok(found),
        None => Ok(FoundSet::Is(every_type(alloc))),
    }
}

// The set of the terms before, where there are any, or that of one more.
#[cycle(collect)]
fn with_term<J: Forms>(
    alloc: Global,
    judge: &mut J,
    budget: &mut Budget,
    left: u32,
    before: Option<FoundSet>,
    term: UnionShape,
) -> Result<FoundSet, NoMemory>
    requires own_before { IfSome before (IsOwnFound (J.is_type judge.old)) }
    requires own_term { J.is_type judge.old term.ty }
    ensures answer { IfOk result (λ found. found_as (J.tree judge.new) found
        ≡ spec.asked_after sets.either_set (option_map (found_as (J.tree judge.old)) before)
        (run (J.headers judge.old) (sets.union_term_set (spec.opening_within left)
        (sets.plain (union_tree (J.tree judge.old) term))))) }
    ensures own { IfOk result (IsOwnFound (J.is_type judge.new)) }
    ensures keeps { Keeps (J.headers judge.old) (J.headers judge.new) (J.names judge.old) (J.names judge.new)
        (J.outcomes judge.old) (J.outcomes judge.new) (J.is_spent judge.old) (J.is_spent judge.new)
        (J.world judge.old) (J.world judge.new) (J.is_type judge.old) (J.is_type judge.new)
        (J.tree judge.old) (J.tree judge.new) }
{
    let one = term_set(alloc, judge, budget, left, term)?;
    joined_after(alloc, judge, budget, before, one)
}

#[cycle(collect)]
fn term_set<J: Forms>(
    alloc: Global,
    judge: &mut J,
    budget: &mut Budget,
    left: u32,
    term: UnionShape,
) -> Result<FoundSet, NoMemory>
    requires { J.is_type judge.old term.ty }
    ensures answer { IfOk result (λ found. found_as (J.tree judge.new) found
        ≡ run (J.headers judge.old) (sets.union_term_set (spec.opening_within left)
        (sets.plain (union_tree (J.tree judge.old) term)))) }
    ensures own { IfOk result (IsOwnFound (J.is_type judge.new)) }
    ensures keeps { Keeps (J.headers judge.old) (J.headers judge.new) (J.names judge.old) (J.names judge.new)
        (J.outcomes judge.old) (J.outcomes judge.new) (J.is_spent judge.old) (J.is_spent judge.new)
        (J.world judge.old) (J.world judge.new) (J.is_type judge.old) (J.is_type judge.new)
        (J.tree judge.old) (J.tree judge.new) }
{
    if term.tilde {
        tilde_set(alloc, judge, budget, left, term.ty)
    } else {
        set_of(alloc, judge, budget, left, term.ty)
    }
}

// The type of a term with `~`; a type parameter counts as its constraint.
#[cycle(collect)]
fn tilde_set<J: Forms>(
    alloc: Global,
    judge: &mut J,
    budget: &mut Budget,
    left: u32,
    t: Ty,
) -> Result<FoundSet, NoMemory>
    requires { J.is_type judge.old t }
    ensures answer { IfOk result (λ found. found_as (J.tree judge.new) found
        ≡ run (J.headers judge.old) (sets.tilde_set (spec.opening_within left) (sets.plain (J.tree judge.old t)))) }
    ensures own { IfOk result (IsOwnFound (J.is_type judge.new)) }
    ensures keeps { Keeps (J.headers judge.old) (J.headers judge.new) (J.names judge.old) (J.names judge.new)
        (J.outcomes judge.old) (J.outcomes judge.new) (J.is_spent judge.old) (J.is_spent judge.new)
        (J.world judge.old) (J.world judge.new) (J.is_type judge.old) (J.is_type judge.new)
        (J.tree judge.old) (J.tree judge.new) }
{
    let shape = judge.see(alloc, &t)?;
    tilde_set_by(alloc, judge, budget, left, t, is_param(&shape))
}

#[cycle(collect)]
fn tilde_set_by<J: Forms>(
    alloc: Global,
    judge: &mut J,
    budget: &mut Budget,
    left: u32,
    t: Ty,
    param: bool,
) -> Result<FoundSet, NoMemory>
    requires own { J.is_type judge.old t }
    requires kind { spec.is_param (J.tree judge.old t) ≡ param }
    ensures answer { IfOk result (λ found. found_as (J.tree judge.new) found
        ≡ run (J.headers judge.old) (sets.tilde_set (spec.opening_within left) (sets.plain (J.tree judge.old t)))) }
    ensures own { IfOk result (IsOwnFound (J.is_type judge.new)) }
    ensures keeps { Keeps (J.headers judge.old) (J.headers judge.new) (J.names judge.old) (J.names judge.new)
        (J.outcomes judge.old) (J.outcomes judge.new) (J.is_spent judge.old) (J.is_spent judge.new)
        (J.world judge.old) (J.world judge.new) (J.is_type judge.old) (J.is_type judge.new)
        (J.tree judge.old) (J.tree judge.new) }
{
    if param {
        named_set(alloc, judge, budget, left, t)
    } else {
        Ok(FoundSet::Is(one_term(alloc, true, t)?))
    }
}

// By the underlying type of a name.
#[cycle(collect)]
fn named_set<J: Forms>(
    alloc: Global,
    judge: &mut J,
    budget: &mut Budget,
    left: u32,
    t: Ty,
) -> Result<FoundSet, NoMemory>
    requires own { J.is_type judge.old t }
    requires name { sets.is_interface (J.tree judge.old t) ≡ false }
    ensures answer { IfOk result (λ found. found_as (J.tree judge.new) found
        ≡ run (J.headers judge.old) (sets.named_set (spec.opening_within left) (sets.plain (J.tree judge.old t)))) }
    ensures own { IfOk result (IsOwnFound (J.is_type judge.new)) }
    ensures keeps { Keeps (J.headers judge.old) (J.headers judge.new) (J.names judge.old) (J.names judge.new)
        (J.outcomes judge.old) (J.outcomes judge.new) (J.is_spent judge.old) (J.is_spent judge.new)
        (J.world judge.old) (J.world judge.new) (J.is_type judge.old) (J.is_type judge.new)
        (J.tree judge.old) (J.tree judge.new) }
{
    let form = judge.underlying(alloc, &t)?;
    set_by_form(alloc, judge, budget, left, t, form)
}

#[cycle(collect)]
fn set_by_form<J: Forms>(
    alloc: Global,
    judge: &mut J,
    budget: &mut Budget,
    left: u32,
    t: Ty,
    form: Form,
) -> Result<FoundSet, NoMemory>
    requires own { J.is_type judge.old t }
    requires own_form { IsOwnForm (J.is_type judge.old) form }
    requires shallow { spec.IsShallowForm (J.tree judge.old) form }
    ensures answer { IfOk result (λ found. found_as (J.tree judge.new) found
        ≡ spec.asked_then (form_as (J.tree judge.old) form) (λ u. run (J.headers judge.old)
        (sets.named_set_by (spec.opening_within left) (sets.plain (J.tree judge.old t)) u))) }
    ensures own { IfOk result (IsOwnFound (J.is_type judge.new)) }
    ensures keeps { Keeps (J.headers judge.old) (J.headers judge.new) (J.names judge.old) (J.names judge.new)
        (J.outcomes judge.old) (J.outcomes judge.new) (J.is_spent judge.old) (J.is_spent judge.new)
        (J.world judge.old) (J.world judge.new) (J.is_type judge.old) (J.is_type judge.new)
        (J.tree judge.old) (J.tree judge.new) }
{
    match form {
        Form::Is(u) => {
            let shape = judge.see(alloc, &u)?;
            set_by_kind(alloc, judge, budget, left, t, u, is_interface(shape))
        }
        Form::Absent => Ok(FoundSet::Absent),
        Form::Unknown(d) => Ok(FoundSet::Unknown(d)),
    }
}

// An interface is opened; any other type is the term itself.
#[cycle(collect)]
fn set_by_kind<J: Forms>(
    alloc: Global,
    judge: &mut J,
    budget: &mut Budget,
    left: u32,
    t: Ty,
    u: Ty,
    interface: bool,
) -> Result<FoundSet, NoMemory>
    requires own { J.is_type judge.old t }
    requires own_found { J.is_type judge.old u }
    requires kind { sets.is_interface (J.tree judge.old u) ≡ interface }
    requires shallow { spec.IsShallow (J.tree judge.old u) }
    ensures answer { IfOk result (λ found. found_as (J.tree judge.new) found
        ≡ run (J.headers judge.old) (sets.named_set_by (spec.opening_within left)
        (sets.plain (J.tree judge.old t)) (Some (J.tree judge.old u)))) }
    ensures own { IfOk result (IsOwnFound (J.is_type judge.new)) }
    ensures keeps { Keeps (J.headers judge.old) (J.headers judge.new) (J.names judge.old) (J.names judge.new)
        (J.outcomes judge.old) (J.outcomes judge.new) (J.is_spent judge.old) (J.is_spent judge.new)
        (J.world judge.old) (J.world judge.new) (J.is_type judge.old) (J.is_type judge.new)
        (J.tree judge.old) (J.tree judge.new) }
{
    if !interface {
        return Ok(FoundSet::Is(one_term(alloc, false, t)?));
    }
    if left == 0 {
        return Ok(FoundSet::Absent);
    }
    let found = set_of(alloc, judge, budget, left - 1, u)?;
    budget.spend_found(&found)?;
    Ok(raised_found(found))
}
