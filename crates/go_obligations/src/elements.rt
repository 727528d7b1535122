// What the elements of an interface literal are (Go specification, "Embedded interfaces", "General interfaces").
ghost use Rattle.std.specs.Prelude.{◌≡◌, ◌++◌, true, IfOk, OnOk, is_some, option_to_list};
ghost use Rattle.std.specs.List.{list_any};
ghost use Rattle.go_obligations.specs.EmbeddedShapes.{adds_basic, adds_shape, is_terms, only_type, type_embedded, types_embedded, types_in};

use go_base::NoMemory;
use go_term::{Basic, ElemShape, Shape, Ty, UnionShape};
use std::alloc::Global;

/// The types that an interface literal with this layer embeds directly; a type with another layer embeds none. An error
/// is want of memory.
pub(crate) fn types_in(alloc: Global, shape: Shape) -> Result<Vec<Ty>, NoMemory>
    ensures { IfOk result (λ types. types.items ≡ types_in shape) }
{
    match shape {
        Shape::Interface(elems) => types_embedded(alloc, elems),
        Shape::Basic(_) => Ok(Vec::new(alloc)),
        Shape::Pointer(_) => Ok(Vec::new(alloc)),
        Shape::Slice(_) => Ok(Vec::new(alloc)),
        Shape::Array(_, _) => Ok(Vec::new(alloc)),
        Shape::Map(_, _) => Ok(Vec::new(alloc)),
        Shape::Chan(_, _) => Ok(Vec::new(alloc)),
        Shape::Func(_) => Ok(Vec::new(alloc)),
        Shape::Struct(_) => Ok(Vec::new(alloc)),
        Shape::Tuple(_) => Ok(Vec::new(alloc)),
        Shape::Named(_, _) => Ok(Vec::new(alloc)),
        Shape::Param(_, _) => Ok(Vec::new(alloc)),
        Shape::Bound(_) => Ok(Vec::new(alloc)),
    }
}

// The types of the elements that are one term without `~`.
fn types_embedded(alloc: Global, elems: Vec<ElemShape>) -> Result<Vec<Ty>, NoMemory>
    ensures { IfOk result (λ types. types.items ≡ types_embedded elems.items) }
{
    let mut types = Vec::new(alloc);
    for elem in elems {
        push_embedded(elem, &mut types)?;
    }
    Ok(types)
}

fn push_embedded(elem: ElemShape, types: &mut Vec<Ty>) -> Result<(), NoMemory>
    ensures { OnOk result (types.new.items ≡ types.old.items ++ option_to_list (type_embedded elem)) }
{
    if let Some(t) = type_embedded(elem) {
        types.push(t)?;
    }
    Ok(())
}

fn type_embedded(elem: ElemShape) -> Option<Ty>
    ensures { result ≡ type_embedded elem }
{
    match elem {
        ElemShape::Union(terms) => only_type(terms),
        ElemShape::Method(_, _, _, _) => None,
    }
}

// The type of terms that are one without `~`.
fn only_type(terms: Vec<UnionShape>) -> Option<Ty>
    ensures { result ≡ only_type terms.items }
{
    if is_one_type(&terms) {
        last_type(terms)
    } else {
        None
    }
}

fn is_one_type(terms: &[UnionShape]) -> bool
    ensures { result ≡ is_some (only_type terms.now) }
{
    terms.len() == 1 && !terms[0].tilde
}

// The type of the last term.
fn last_type(terms: Vec<UnionShape>) -> Option<Ty>
    requires { is_some (only_type terms.items) ≡ true }
    ensures { result ≡ only_type terms.items }
{
    let mut terms = terms;
    match terms.pop() {
        Some(term) => Some(term.ty),
        None => None,
    }
}

/// Whether a type with this layer adds terms, or `comparable`, to an interface that embeds it.
pub(crate) fn adds_terms(shape: &Shape) -> bool
    ensures { result ≡ adds_shape shape.now }
{
    match shape {
        Shape::Basic(b) => adds_basic(b),
        Shape::Interface(elems) => any_terms(elems),
        _ => true,
    }
}

// `error` is a list of methods; `comparable` and the types that are no interfaces are not.
fn adds_basic(b: &Basic) -> bool
    ensures { result ≡ adds_basic b.now }
{
    !matches!(b, Basic::Error)
}

fn any_terms(elems: &[ElemShape]) -> bool
    ensures { result ≡ list_any is_terms elems.now }
{
    elems.iter().any(|elem| is_terms(elem))
}

// Whether an element has a `~` or several terms.
fn is_terms(elem: &ElemShape) -> bool
    ensures { result ≡ is_terms elem.now }
{
    match elem {
        ElemShape::Union(terms) => !is_one_type(terms),
        ElemShape::Method(_, _, _, _) => false,
    }
}
