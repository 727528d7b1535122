// The type to which a type refers (Go specification, "Underlying types", "Type definitions").
ghost use Rattle.std.specs.Prelude.{◌≡◌, IfErr, IfOk, None, map, option_and_then, slice_get};
ghost use Rattle.std.specs.Option.{option_map};
ghost use Rattle.go_term.specs.Shapes.{IsCause};
ghost use Rattle.go_term.specs.Size.{size_fault};
ghost use Rattle.go_term.specs.View.{type_of};
ghost use Rattle.go_judge.specs.Records.{header_as, param_as};
ghost use Rattle.go_judge.specs.Types.UnderlyingType as spec;
ghost use Rattle.go_subst.specs.Chains as chain;

use crate::path::Origin;
use crate::substitution::subst;
use go_base::{NoMemory, ObjId};
use go_judge::{Header, TypeParam};
use go_term::{Term, TermFault, Ty};
use std::alloc::Global;

/// Where a type is declared, if it is a named type: the header of that declaration says to which type it refers.
pub(crate) fn origin_of(t: &Ty) -> Option<Origin>
    ensures { option_map chain.origin_as result ≡ chain.origin_of (type_of t.now) }
{
    match t {
        Term::Named(d, _) => Some(Origin {
            declaration: *d,
            parameter: None,
        }),
        Term::Param(d, place) => Some(Origin {
            declaration: *d,
            parameter: Some(*place),
        }),
        _ => None,
    }
}

/// The type to which a type refers by the header of that declaration, None where there is none. Deep where it is deeper
/// than 256, else Large where it has more than 65,536 nodes.
pub(crate) fn referred(alloc: Global, t: &Ty, header: &Header) -> Result<Option<Ty>, TermFault>
    ensures next { IfOk result (λ next. option_map type_of next
        ≡ chain.referred (type_of t.now) (header_as type_of header.now)) }
    ensures fits { IfOk result (λ next. option_and_then size_fault
        (chain.referred (type_of t.now) (header_as type_of header.now)) ≡ None) }
    ensures cause { IfErr result (λ fault. chain.IsReferredCause fault
        (chain.referred (type_of t.now) (header_as type_of header.now))) }
{
    match t {
        Term::Named(d, arguments) => right_side(alloc, *d, arguments, header),
        Term::Param(_, place) => constraint(*place, header),
        _ => Ok(None),
    }
}

// The right side of a type definition with type arguments, None of what defines no type or has other parameters.
fn right_side(
    alloc: Global,
    d: ObjId,
    arguments: &[Ty],
    header: &Header,
) -> Result<Option<Ty>, TermFault>
    ensures next { IfOk result (λ next. option_map type_of next
        ≡ spec.right_side d (map type_of arguments.now) (header_as type_of header.now)) }
    ensures fits { IfOk result (λ next. option_and_then size_fault
        (spec.right_side d (map type_of arguments.now) (header_as type_of header.now)) ≡ None) }
    ensures cause { IfErr result (λ fault. chain.IsReferredCause fault
        (spec.right_side d (map type_of arguments.now) (header_as type_of header.now))) }
{
    match header {
        Header::Defined(params, right, _) if params.len() == arguments.len() => {
            let from = params_of(alloc, d, params)?;
            Ok(Some(subst(alloc, right, &from, arguments)?))
        }
        _ => Ok(None),
    }
}

// The type parameters of a declaration, each with its place.
fn params_of(alloc: Global, d: ObjId, params: &[TypeParam]) -> Result<Vec<(ObjId, usize)>, NoMemory>
    ensures { IfOk result (λ all. all.items ≡ spec.params_from d 0 (map (param_as type_of) params.now)) }
{
    let mut all = Vec::new(alloc);
    for place in 0..params.len() {
        all.push((d, place))?;
    }
    Ok(all)
}

// The constraint of the type parameter at a place of a declaration.
fn constraint(place: usize, header: &Header) -> Result<Option<Ty>, TermFault>
    ensures next { IfOk result (λ next. option_map type_of next
        ≡ spec.constraint_of place (header_as type_of header.now)) }
    ensures fits { IfOk result (λ next. option_and_then size_fault
        (spec.constraint_of place (header_as type_of header.now)) ≡ None) }
    ensures cause { IfErr result (λ fault. chain.IsReferredCause fault
        (spec.constraint_of place (header_as type_of header.now))) }
{
    match header {
        Header::Defined(params, _, _) => bound_at(params, place),
        Header::Func(params, _) => bound_at(params, place),
        _ => Ok(None),
    }
}

// The constraint of the type parameter at a place.
fn bound_at(params: &[TypeParam], place: usize) -> Result<Option<Ty>, TermFault>
    ensures next { IfOk result (λ next. option_map type_of next
        ≡ option_map (λ p. p.constraint) (slice_get (map (param_as type_of) params.now) place)) }
    ensures fits { IfOk result (λ next. option_and_then size_fault
        (option_map (λ p. p.constraint) (slice_get (map (param_as type_of) params.now) place)) ≡ None) }
    ensures cause { IfErr result (λ fault. chain.IsReferredCause fault
        (option_map (λ p. p.constraint) (slice_get (map (param_as type_of) params.now) place))) }
{
    match params.get(place) {
        Some(param) => Ok(Some(measured(&param.bound)?)),
        None => Ok(None),
    }
}

// The type once more. Deep where it is deeper than 256, else Large where it has more than 65,536 nodes.
fn measured(t: &Ty) -> Result<Ty, TermFault>
    ensures copy { IfOk result (λ copy. type_of copy ≡ type_of t.now) }
    ensures fits { IfOk result (λ copy. size_fault (type_of t.now) ≡ None) }
    ensures cause { IfErr result (λ fault. IsCause fault (type_of t.now)) }
{
    t.size().check()?;
    Ok(t.clone()?)
}
