// Intersections of type sets (Go specification, "Interface types").
ghost use Rattle.std.specs.Prelude.{◌≡◌, ◌+◌, ◌^◌, ◌<◌, IfOk, map};
ghost use Rattle.std.specs.List.{AllByRecursion};
ghost use Rattle.go_same.specs.Collect.{IsRaisableFound, IsRaisedFound};
ghost use Rattle.go_same.specs.Joins.{IsBoth, IsBothSets, IsRaisable, IsRaised, raised_method, raised_part};

use crate::set::{FoundSet, Method, TypeSet, UnionPart};
use go_base::NoMemory;

/// What the one and the other have. An error is want of memory.
pub(crate) fn both_sets(a: TypeSet, b: TypeSet) -> Result<TypeSet, NoMemory>
    ensures { IfOk result (IsBothSets a b) }
{
    let mut methods = a.methods;
    let mut more_methods = b.methods;
    methods.append(&mut more_methods)?;
    let mut unions = a.unions;
    let mut more_unions = b.unions;
    unions.append(&mut more_unions)?;
    Ok(TypeSet {
        methods,
        unions,
        comparable: a.comparable || b.comparable,
    })
}

/// The same of what is found: the first where it is no set, else the second where that is none. An error is want of
/// memory.
pub(crate) fn join_both(a: FoundSet, b: FoundSet) -> Result<FoundSet, NoMemory>
    ensures { IfOk result (IsBoth a b) }
{
    match a {
        FoundSet::Unknown(d) => Ok(FoundSet::Unknown(d)),
        FoundSet::Absent => Ok(FoundSet::Absent),
        FoundSet::Is(x) => match b {
            FoundSet::Unknown(d) => Ok(FoundSet::Unknown(d)),
            FoundSet::Is(y) => Ok(FoundSet::Is(both_sets(x, y)?)),
            FoundSet::Absent => Ok(FoundSet::Absent),
        },
    }
}

/// What is found, with one name more opened on the way to each method and term.
pub(crate) fn raised_found(found: FoundSet) -> FoundSet
    requires { IsRaisableFound found }
    ensures { IsRaisedFound found result }
{
    match found {
        FoundSet::Is(set) => FoundSet::Is(raised(set)),
        FoundSet::Absent => FoundSet::Absent,
        FoundSet::Unknown(d) => FoundSet::Unknown(d),
    }
}

fn raised(set: TypeSet) -> TypeSet
    requires { IsRaisable set }
    ensures { IsRaised set result }
{
    let mut methods = set.methods;
    raise_methods(&mut methods);
    let mut unions = set.unions;
    raise_unions(&mut unions);
    TypeSet {
        methods,
        unions,
        comparable: set.comparable,
    }
}

fn raise_methods(methods: &mut [Method])
    requires { AllByRecursion (λ m. m.opened + 1 < 2 ^ 32) methods.old }
    ensures { methods.new ≡ map raised_method methods.old }
{
    for m in methods.iter_mut() {
        m.opened += 1;
    }
}

fn raise_parts(parts: &mut [UnionPart])
    requires { AllByRecursion (λ p. p.opened + 1 < 2 ^ 32) parts.old }
    ensures { parts.new ≡ map raised_part parts.old }
{
    for p in parts.iter_mut() {
        p.opened += 1;
    }
}

fn raise_unions(unions: &mut [Vec<UnionPart>])
    requires { AllByRecursion (λ u. AllByRecursion (λ p. p.opened + 1 < 2 ^ 32) u.items) unions.old }
    ensures { map (λ u. u.items) unions.new ≡ map (λ u. map raised_part u.items) unions.old }
{
    for u in unions.iter_mut() {
        raise_parts(u);
    }
}
