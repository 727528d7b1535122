// Unions of type sets (Go specification, "General interfaces").
ghost use Rattle.std.specs.Prelude.{◌≡◌, ◌++◌, [], ◌∷◌, IfOk, IfSome, length, map};
ghost use Rattle.std.specs.List.{AllByRecursion, flat_map};
ghost use Rattle.std.specs.Option.{option_map};
ghost use Rattle.go_term.specs.Shapes.{shape_tree};
ghost use Rattle.go_judge.specs.Types.Own.{AreOwn, Keeps};
ghost use Rattle.go_judge.specs.Types.TypeSets.{either_set, either_unions};
ghost use Rattle.go_same.specs.Collect.{asked_after, asked_joined};
ghost use Rattle.go_same.specs.Sets.{IsOwnFound, IsOwnSet, found_as, part_view, set_view};

use crate::budget::Budget;
use crate::set::{FoundSet, TypeSet, UnionPart};
use go_base::NoMemory;
use go_judge::Forms;
use go_term::{Shape, Ty};
use std::alloc::Global;

/// The type of this form. An error is want of memory, or that the type is too deep or too large to be made.
pub(crate) fn type_of_shape<J: Forms>(
    alloc: Global,
    judge: &mut J,
    shape: Shape,
) -> Result<Ty, NoMemory>
    requires { AreOwn (J.is_type judge.old) shape }
    ensures same { IfOk result (λ t. J.tree judge.new t ≡ shape_tree (J.tree judge.old) shape) }
    ensures own { IfOk result (J.is_type judge.new) }
    ensures keeps { Keeps (J.headers judge.old) (J.headers judge.new) (J.names judge.old) (J.names judge.new)
        (J.outcomes judge.old) (J.outcomes judge.new) (J.is_spent judge.old) (J.is_spent judge.new)
        (J.world judge.old) (J.world judge.new) (J.is_type judge.old) (J.is_type judge.new)
        (J.tree judge.old) (J.tree judge.new) }
{
    match judge.make(alloc, shape) {
        Ok(t) => Ok(t),
        Err(_) => Err(NoMemory),
    }
}

// Another type that stands for the same.
fn copied_type<J: Forms>(alloc: Global, judge: &mut J, t: &Ty) -> Result<Ty, NoMemory>
    requires { J.is_type judge.old t.now }
    ensures same { IfOk result (λ copy. J.tree judge.new copy ≡ J.tree judge.old t.now) }
    ensures own { IfOk result (J.is_type judge.new) }
    ensures keeps { Keeps (J.headers judge.old) (J.headers judge.new) (J.names judge.old) (J.names judge.new)
        (J.outcomes judge.old) (J.outcomes judge.new) (J.is_spent judge.old) (J.is_spent judge.new)
        (J.world judge.old) (J.world judge.new) (J.is_type judge.old) (J.is_type judge.new)
        (J.tree judge.old) (J.tree judge.new) }
{
    let shape = judge.see(alloc, t)?;
    type_of_shape(alloc, judge, shape)
}

// These terms, and then copies of the others.
fn with_copies<J: Forms>(
    alloc: Global,
    judge: &mut J,
    first: Vec<UnionPart>,
    parts: &[UnionPart],
) -> Result<Vec<UnionPart>, NoMemory>
    requires own_first { AllByRecursion (λ p. J.is_type judge.old p.ty) first.items }
    requires own_parts { AllByRecursion (λ p. J.is_type judge.old p.ty) parts.now }
    ensures made { IfOk result (λ all. map (part_view (J.tree judge.new)) all.items
        ≡ map (part_view (J.tree judge.old)) first.items ++ map (part_view (J.tree judge.old)) parts.now) }
    ensures own { IfOk result (λ all. AllByRecursion (λ p. J.is_type judge.new p.ty) all.items) }
    ensures keeps { Keeps (J.headers judge.old) (J.headers judge.new) (J.names judge.old) (J.names judge.new)
        (J.outcomes judge.old) (J.outcomes judge.new) (J.is_spent judge.old) (J.is_spent judge.new)
        (J.world judge.old) (J.world judge.new) (J.is_type judge.old) (J.is_type judge.new)
        (J.tree judge.old) (J.tree judge.new) }
{
    let mut all = first;
    for p in parts {
        let ty = copied_type(alloc, judge, &p.ty)?;
        all.push(UnionPart {
            tilde: p.tilde,
            ty,
            opened: p.opened,
        })?;
    }
    Ok(all)
}

// Copies of the terms of two unions.
fn both_copied<J: Forms>(
    alloc: Global,
    judge: &mut J,
    u: &[UnionPart],
    v: &[UnionPart],
) -> Result<Vec<UnionPart>, NoMemory>
    requires own_first { AllByRecursion (λ p. J.is_type judge.old p.ty) u.now }
    requires own_second { AllByRecursion (λ p. J.is_type judge.old p.ty) v.now }
    ensures made { IfOk result (λ all. map (part_view (J.tree judge.new)) all.items
        ≡ map (part_view (J.tree judge.old)) u.now ++ map (part_view (J.tree judge.old)) v.now) }
    ensures own { IfOk result (λ all. AllByRecursion (λ p. J.is_type judge.new p.ty) all.items) }
    ensures keeps { Keeps (J.headers judge.old) (J.headers judge.new) (J.names judge.old) (J.names judge.new)
        (J.outcomes judge.old) (J.outcomes judge.new) (J.is_spent judge.old) (J.is_spent judge.new)
        (J.world judge.old) (J.world judge.new) (J.is_type judge.old) (J.is_type judge.new)
        (J.tree judge.old) (J.tree judge.new) }
{
    let first = with_copies(alloc, judge, Vec::new(alloc), u)?;
    with_copies(alloc, judge, first, v)
}

// These unions, and then u joined to each of the others.
fn with_each<J: Forms>(
    alloc: Global,
    judge: &mut J,
    budget: &mut Budget,
    first: Vec<Vec<UnionPart>>,
    u: &[UnionPart],
    vs: &[Vec<UnionPart>],
) -> Result<Vec<Vec<UnionPart>>, NoMemory>
    requires own_first { AllByRecursion (λ u. AllByRecursion (λ p. J.is_type judge.old p.ty) u.items) first.items }
    requires own_one { AllByRecursion (λ p. J.is_type judge.old p.ty) u.now }
    requires own_each { AllByRecursion (λ u. AllByRecursion (λ p. J.is_type judge.old p.ty) u.items) vs.now }
    ensures made { IfOk result (λ all. map (λ u. map (part_view (J.tree judge.new)) u.items) all.items
        ≡ map (λ u. map (part_view (J.tree judge.old)) u.items) first.items
        ++ map (λ v. map (part_view (J.tree judge.old)) u.now ++ map (part_view (J.tree judge.old)) v.items) vs.now) }
    ensures own { IfOk result (λ all. AllByRecursion (λ u. AllByRecursion (λ p. J.is_type judge.new p.ty) u.items) all.items) }
    ensures keeps { Keeps (J.headers judge.old) (J.headers judge.new) (J.names judge.old) (J.names judge.new)
        (J.outcomes judge.old) (J.outcomes judge.new) (J.is_spent judge.old) (J.is_spent judge.new)
        (J.world judge.old) (J.world judge.new) (J.is_type judge.old) (J.is_type judge.new)
        (J.tree judge.old) (J.tree judge.new) }
{
    let mut all = first;
    for v in vs {
        budget.spend(u.len())?;
        budget.spend(v.len())?;
        let both = both_copied(alloc, judge, u, v)?;
        all.push(both)?;
    }
    Ok(all)
}

// Each of the ones joined to each of the others.
fn products<J: Forms>(
    alloc: Global,
    judge: &mut J,
    budget: &mut Budget,
    us: &[Vec<UnionPart>],
    vs: &[Vec<UnionPart>],
) -> Result<Vec<Vec<UnionPart>>, NoMemory>
    requires own_first { AllByRecursion (λ u. AllByRecursion (λ p. J.is_type judge.old p.ty) u.items) us.now }
    requires own_second { AllByRecursion (λ u. AllByRecursion (λ p. J.is_type judge.old p.ty) u.items) vs.now }
    ensures made { IfOk result (λ all. map (λ u. map (part_view (J.tree judge.new)) u.items) all.items
        ≡ either_unions (map (λ u. map (part_view (J.tree judge.old)) u.items) us.now)
        (map (λ u. map (part_view (J.tree judge.old)) u.items) vs.now)) }
    ensures own { IfOk result (λ all. AllByRecursion (λ u. AllByRecursion (λ p. J.is_type judge.new p.ty) u.items) all.items) }
    ensures keeps { Keeps (J.headers judge.old) (J.headers judge.new) (J.names judge.old) (J.names judge.new)
        (J.outcomes judge.old) (J.outcomes judge.new) (J.is_spent judge.old) (J.is_spent judge.new)
        (J.world judge.old) (J.world judge.new) (J.is_type judge.old) (J.is_type judge.new)
        (J.tree judge.old) (J.tree judge.new) }
{
    let mut all = Vec::new(alloc);
    for u in us {
        all = with_each(alloc, judge, budget, all, u, vs)?;
    }
    Ok(all)
}

// The one union of each, as one.
fn one_of_both(
    us: Vec<Vec<UnionPart>>,
    vs: Vec<Vec<UnionPart>>,
) -> Result<Vec<Vec<UnionPart>>, NoMemory>
    requires one { length us.items ≡ 1 }
    requires other { length vs.items ≡ 1 }
    ensures { IfOk result (λ all. map (λ u. u.items) all.items
        ≡ flat_map (λ u. map (λ v. u.items ++ v.items) vs.items) us.items) }
{
    let mut all = us;
    let mut others = vs;
    let u = &mut all[0];
    let v = &mut others[0];
    u.append(v)?;
    Ok(all)
}

fn joined_unions<J: Forms>(
    alloc: Global,
    judge: &mut J,
    budget: &mut Budget,
    us: Vec<Vec<UnionPart>>,
    vs: Vec<Vec<UnionPart>>,
) -> Result<Vec<Vec<UnionPart>>, NoMemory>
    requires own_first { AllByRecursion (λ u. AllByRecursion (λ p. J.is_type judge.old p.ty) u.items) us.items }
    requires own_second { AllByRecursion (λ u. AllByRecursion (λ p. J.is_type judge.old p.ty) u.items) vs.items }
    ensures made { IfOk result (λ all. map (λ u. map (part_view (J.tree judge.new)) u.items) all.items
        ≡ either_unions (map (λ u. map (part_view (J.tree judge.old)) u.items) us.items)
        (map (λ u. map (part_view (J.tree judge.old)) u.items) vs.items)) }
    ensures own { IfOk result (λ all. AllByRecursion (λ u. AllByRecursion (λ p. J.is_type judge.new p.ty) u.items) all.items) }
    ensures keeps { Keeps (J.headers judge.old) (J.headers judge.new) (J.names judge.old) (J.names judge.new)
        (J.outcomes judge.old) (J.outcomes judge.new) (J.is_spent judge.old) (J.is_spent judge.new)
        (J.world judge.old) (J.world judge.new) (J.is_type judge.old) (J.is_type judge.new)
        (J.tree judge.old) (J.tree judge.new) }
{
    if us.len() == 1 && vs.len() == 1 {
        one_of_both(us, vs)
    } else {
        products(alloc, judge, budget, &us, &vs)
    }
}

// The one set or the other.
fn either_sets<J: Forms>(
    alloc: Global,
    judge: &mut J,
    budget: &mut Budget,
    a: TypeSet,
    b: TypeSet,
) -> Result<TypeSet, NoMemory>
    requires own_first { IsOwnSet (J.is_type judge.old) a }
    requires own_second { IsOwnSet (J.is_type judge.old) b }
    ensures made { IfOk result (λ s. set_view (J.tree judge.new) s
        ≡ either_set (set_view (J.tree judge.old) a) (set_view (J.tree judge.old) b)) }
    ensures own { IfOk result (IsOwnSet (J.is_type judge.new)) }
    ensures keeps { Keeps (J.headers judge.old) (J.headers judge.new) (J.names judge.old) (J.names judge.new)
        (J.outcomes judge.old) (J.outcomes judge.new) (J.is_spent judge.old) (J.is_spent judge.new)
        (J.world judge.old) (J.world judge.new) (J.is_type judge.old) (J.is_type judge.new)
        (J.tree judge.old) (J.tree judge.new) }
{
    let unions = joined_unions(alloc, judge, budget, a.unions, b.unions)?;
    Ok(TypeSet {
        methods: Vec::new(alloc),
        unions,
        comparable: false,
    })
}

// The one or the other of what is found, as far as unions may have it: the first where it is no set, else the second
// where that is none.
fn join_either<J: Forms>(
    alloc: Global,
    judge: &mut J,
    budget: &mut Budget,
    a: FoundSet,
    b: FoundSet,
) -> Result<FoundSet, NoMemory>
    requires own_first { IsOwnFound (J.is_type judge.old) a }
    requires own_second { IsOwnFound (J.is_type judge.old) b }
    ensures answer { IfOk result (λ found. found_as (J.tree judge.new) found
        ≡ asked_joined either_set (found_as (J.tree judge.old) a) (found_as (J.tree judge.old) b)) }
    ensures own { IfOk result (IsOwnFound (J.is_type judge.new)) }
    ensures keeps { Keeps (J.headers judge.old) (J.headers judge.new) (J.names judge.old) (J.names judge.new)
        (J.outcomes judge.old) (J.outcomes judge.new) (J.is_spent judge.old) (J.is_spent judge.new)
        (J.world judge.old) (J.world judge.new) (J.is_type judge.old) (J.is_type judge.new)
        (J.tree judge.old) (J.tree judge.new) }
{
    match a {
        FoundSet::Unknown(d) => Ok(FoundSet::Unknown(d)),
        FoundSet::Absent => Ok(FoundSet::Absent),
        FoundSet::Is(x) => match b {
            FoundSet::Unknown(d) => Ok(FoundSet::Unknown(d)),
            FoundSet::Is(y) => Ok(FoundSet::Is(either_sets(alloc, judge, budget, x, y)?)),
            FoundSet::Absent => Ok(FoundSet::Absent),
        },
    }
}

/// The one or the other of what is found before, where there is something, and of one more.
pub(crate) fn joined_after<J: Forms>(
    alloc: Global,
    judge: &mut J,
    budget: &mut Budget,
    before: Option<FoundSet>,
    one: FoundSet,
) -> Result<FoundSet, NoMemory>
    requires own_before { IfSome before (IsOwnFound (J.is_type judge.old)) }
    requires own_one { IsOwnFound (J.is_type judge.old) one }
    ensures answer { IfOk result (λ found. found_as (J.tree judge.new) found
        ≡ asked_after either_set (option_map (found_as (J.tree judge.old)) before)
        (found_as (J.tree judge.old) one)) }
    ensures own { IfOk result (IsOwnFound (J.is_type judge.new)) }
    ensures keeps { Keeps (J.headers judge.old) (J.headers judge.new) (J.names judge.old) (J.names judge.new)
        (J.outcomes judge.old) (J.outcomes judge.new) (J.is_spent judge.old) (J.is_spent judge.new)
        (J.world judge.old) (J.world judge.new) (J.is_type judge.old) (J.is_type judge.new)
        (J.tree judge.old) (J.tree judge.new) }
{
    match before {
        None => Ok(one),
        Some(first) => join_either(alloc, judge, budget, first, one),
    }
}
