// Interface types (Go specification, "Interface types").
ghost use Rattle.std.specs.Prelude.{◌≡◌, ◌∷◌, [], ◌++◌, ℕ, IfOk, IfSome, List, OnOk, length, map};
ghost use Rattle.std.specs.List.{AllByRecursion};
ghost use Rattle.std.specs.Option.{option_map};
ghost use Rattle.go_tree.specs.declared.node_kind.NodeKind.TheVariants as kinds;
ghost use Rattle.go_tree.specs.Tree.{Tree, kind_of, list_of, parts_of, tree_of};
ghost use Rattle.go_term.specs.Shapes.{elem_tree, union_tree};
ghost use Rattle.go_term.specs.Types.{of_one, union_term};
ghost use Rattle.go_constructs.specs.Interface as spec;
ghost use Rattle.go_judge.specs.Judged.{judged};
ghost use Rattle.go_judge.specs.View.{outcome_as};
ghost use Rattle.go_judge.specs.Types.Own.{IsOwnElem, IsOwnOutcome, Keeps};
ghost use Rattle.go_expr.specs.Elements.{method_tree, some_list};

use crate::given::copy_of;
use crate::signature::{first_types, signature_of, types_behind};
use crate::type_literal::type_literal;
use crate::typed::{Typed, all_types};
use go_base::{Name, NoMemory};
use go_model::{Judge, Outcome};
use go_module::{ObjId, part_list};
use go_names::name_of;
use go_operands::operands_of;
use go_term::{ElemShape, Shape, Ty, UnionShape};
use go_tree::{Node, NodeKind};
use std::alloc::Global;

/// An interface type, by the outcomes of the types in it: C13 at each that is no type; L4 and L5 by its size. An error
/// is want of memory.
pub fn interface_type<J: Judge>(
    alloc: Global,
    judge: &mut J,
    node: &Node,
    outcomes: &[Outcome],
) -> Result<Outcome, NoMemory>
    requires { AllByRecursion (IsOwnOutcome (J.is_type judge.old)) outcomes.now }
    ensures outcome { IfOk result (λ outcome. outcome_as (J.tree judge.new) outcome
        ≡ judged (J.headers judge.old)
        (spec.interface_of (J.names judge.old).home (length outcomes.now)
        (list_of (parts_of (tree_of node.now))))
        (map (outcome_as (J.tree judge.old)) outcomes.now)) }
    ensures own { IfOk result (IsOwnOutcome (J.is_type judge.new)) }
    ensures keeps { Keeps (J.headers judge.old) (J.headers judge.new) (J.names judge.old) (J.names judge.new)
        (J.outcomes judge.old) (J.outcomes judge.new) (J.is_spent judge.old) (J.is_spent judge.new)
        (J.world judge.old) (J.world judge.new) (J.is_type judge.old) (J.is_type judge.new)
        (J.tree judge.old) (J.tree judge.new) }
{
    match all_types(alloc, judge, outcomes)? {
        Typed::Types(types) => {
            let elems = elems_of(alloc, judge, node, &types)?;
            type_literal(alloc, judge, Shape::Interface(elems))
        }
        Typed::Without(outcome) => Ok(outcome),
    }
}

// The elements of an interface, by the types in it in source order.
fn elems_of<J: Judge>(
    alloc: Global,
    judge: &J,
    node: &Node,
    types: &[Ty],
) -> Result<Vec<ElemShape>, NoMemory>
    requires { AllByRecursion (J.is_type judge.now) types.now }
    ensures elems { IfOk result (λ list. map (elem_tree (J.tree judge.now)) list.items
        ≡ spec.elems_in (J.names judge.now).home (list_of (parts_of (tree_of node.now)))
        (map (J.tree judge.now) types.now)) }
    ensures own { IfOk result (λ list. AllByRecursion (IsOwnElem (J.is_type judge.now)) list.items) }
{
    let home = judge.package_of(node.id());
    elems_at(alloc, judge, home, part_list(node), types)
}

fn elems_at<J: Judge>(
    alloc: Global,
    judge: &J,
    home: &Name,
    elems: &[Node],
    types: &[Ty],
) -> Result<Vec<ElemShape>, NoMemory>
    requires { AllByRecursion (J.is_type judge.now) types.now }
    ensures elems { IfOk result (λ list. map (elem_tree (J.tree judge.now)) list.items
        ≡ spec.elems_in home.now (map tree_of elems.now) (map (J.tree judge.now) types.now)) }
    ensures own { IfOk result (λ list. AllByRecursion (IsOwnElem (J.is_type judge.now)) list.items) }
{
    let mut list = Vec::new(alloc);
    let mut left = types;
    for elem in elems {
        let many = operands_of(alloc, elem)?.len();
        push_elem(alloc, judge, home, elem, first_types(left, many), &mut list)?;
        left = types_behind(left, many);
    }
    Ok(list)
}

// Pushes an element, by the types in it.
fn push_elem<J: Judge>(
    alloc: Global,
    judge: &J,
    home: &Name,
    elem: &Node,
    types: &[Ty],
    list: &mut Vec<ElemShape>,
) -> Result<(), NoMemory>
    requires types { AllByRecursion (J.is_type judge.now) types.now }
    requires list { AllByRecursion (IsOwnElem (J.is_type judge.now)) list.old.items }
    ensures pushed { OnOk result (map (elem_tree (J.tree judge.now)) list.new.items
        ≡ map (elem_tree (J.tree judge.now)) list.old.items
        ++ spec.elem_in home.now (tree_of elem.now) (map (J.tree judge.now) types.now)) }
    ensures own { AllByRecursion (IsOwnElem (J.is_type judge.now)) list.new.items }
{
    match elem_of(alloc, judge, home, elem, types)? {
        Some(elem) => push_one(judge, elem, list),
        None => Ok(()),
    }
}

fn push_one<J: Judge>(judge: &J, elem: ElemShape, list: &mut Vec<ElemShape>) -> Result<(), NoMemory>
    requires elem { IsOwnElem (J.is_type judge.now) elem }
    requires list { AllByRecursion (IsOwnElem (J.is_type judge.now)) list.old.items }
    ensures pushed { OnOk result (map (elem_tree (J.tree judge.now)) list.new.items
        ≡ map (elem_tree (J.tree judge.now)) list.old.items ++ elem_tree (J.tree judge.now) elem ∷ []) }
    ensures own { AllByRecursion (IsOwnElem (J.is_type judge.now)) list.new.items }
{
    list.push(elem)?;
    Ok(())
}

// An element: a method or a union.
fn elem_of<J: Judge>(
    alloc: Global,
    judge: &J,
    home: &Name,
    elem: &Node,
    types: &[Ty],
) -> Result<Option<ElemShape>, NoMemory>
    requires { AllByRecursion (J.is_type judge.now) types.now }
    ensures elem { IfOk result (λ shape. some_list (option_map (elem_tree (J.tree judge.now)) shape)
        ≡ spec.elem_in home.now (tree_of elem.now) (map (J.tree judge.now) types.now)) }
    ensures own { IfOk result (λ shape. IfSome shape (IsOwnElem (J.is_type judge.now))) }
{
    match elem.kind() {
        NodeKind::MethodElem => method_of(alloc, judge, home, elem, types),
        NodeKind::Union => union_of(alloc, judge, elem, types),
        _ => Ok(None),
    }
}

// A method, where the node has a name and a signature.
fn method_of<J: Judge>(
    alloc: Global,
    judge: &J,
    home: &Name,
    elem: &Node,
    types: &[Ty],
) -> Result<Option<ElemShape>, NoMemory>
    requires own { AllByRecursion (J.is_type judge.now) types.now }
    requires kind { kind_of (tree_of elem.now) ≡ kinds.MethodElem }
    ensures elem { IfOk result (λ shape. some_list (option_map (elem_tree (J.tree judge.now)) shape)
        ≡ spec.elem_in home.now (tree_of elem.now) (map (J.tree judge.now) types.now)) }
    ensures own { IfOk result (λ shape. IfSome shape (IsOwnElem (J.is_type judge.now))) }
{
    match elem.both_parts() {
        Some((name, signature)) => Ok(Some(method_by(alloc, judge, home, name, signature, types)?)),
        None => Ok(None),
    }
}

// The method of this name and this signature.
fn method_by<J: Judge>(
    alloc: Global,
    judge: &J,
    home: &Name,
    name: &Node,
    signature: &Node,
    types: &[Ty],
) -> Result<ElemShape, NoMemory>
    requires { AllByRecursion (J.is_type judge.now) types.now }
    ensures elem { IfOk result (λ shape. elem_tree (J.tree judge.now) shape
        ≡ method_tree home.now (tree_of name.now) (tree_of signature.now)
        (map (J.tree judge.now) types.now)) }
    ensures own { IfOk result (IsOwnElem (J.is_type judge.now)) }
{
    let text = name_of(alloc, name)?;
    let home = home.clone()?;
    let signature = signature_of(alloc, judge, signature, types)?;
    Ok(ElemShape::Method(ObjId(name.id().0), text, home, signature))
}

// A union.
fn union_of<J: Judge>(
    alloc: Global,
    judge: &J,
    elem: &Node,
    types: &[Ty],
) -> Result<Option<ElemShape>, NoMemory>
    requires own { AllByRecursion (J.is_type judge.now) types.now }
    requires kind { kind_of (tree_of elem.now) ≡ kinds.Union }
    ensures elem { IfOk result (λ shape. (home : List ℕ)
        → some_list (option_map (elem_tree (J.tree judge.now)) shape)
        ≡ spec.elem_in home (tree_of elem.now) (map (J.tree judge.now) types.now)) }
    ensures own { IfOk result (λ shape. IfSome shape (IsOwnElem (J.is_type judge.now))) }
{
    let terms = terms_of(alloc, judge, part_list(elem), types)?;
    Ok(Some(ElemShape::Union(terms)))
}

// The terms of a union.
fn terms_of<J: Judge>(
    alloc: Global,
    judge: &J,
    terms: &[Node],
    types: &[Ty],
) -> Result<Vec<UnionShape>, NoMemory>
    requires { AllByRecursion (J.is_type judge.now) types.now }
    ensures terms { IfOk result (λ list. map (union_tree (J.tree judge.now)) list.items
        ≡ spec.terms_in (map tree_of terms.now) (map (J.tree judge.now) types.now)) }
    ensures own { IfOk result (λ list. AllByRecursion (λ u. J.is_type judge.now u.ty) list.items) }
{
    let mut list = Vec::new(alloc);
    let mut left = types;
    for term in terms {
        left = push_term(judge, term, left, &mut list)?;
    }
    Ok(list)
}

// Pushes a term with the first of these types, and gives those that are left for the next.
fn push_term<'a, J: Judge>(
    judge: &J,
    term: &Node,
    types: &'a [Ty],
    list: &mut Vec<UnionShape>,
) -> Result<&'a [Ty], NoMemory>
    requires types { AllByRecursion (J.is_type judge.now) types.now }
    requires list { AllByRecursion (λ u. J.is_type judge.now u.ty) list.old.items }
    ensures pushed { IfOk result (λ left. (terms : List Tree)
        → map (union_tree (J.tree judge.now)) list.new.items ++ spec.terms_in terms (map (J.tree judge.now) left.now)
        ≡ map (union_tree (J.tree judge.now)) list.old.items
        ++ spec.terms_in (tree_of term.now ∷ terms) (map (J.tree judge.now) types.now)) }
    ensures left { IfOk result (λ left. AllByRecursion (J.is_type judge.now) left.now) }
    ensures own { AllByRecursion (λ u. J.is_type judge.now u.ty) list.new.items }
{
    match types {
        [ty, others @ ..] => {
            list.push(term_of(judge, term, ty)?)?;
            Ok(others)
        }
        [] => Ok(types),
    }
}

// A term with this type, with `~` or without.
fn term_of<J: Judge>(judge: &J, term: &Node, ty: &Ty) -> Result<UnionShape, NoMemory>
    requires { J.is_type judge.now ty.now }
    ensures term { IfOk result (λ shape. union_tree (J.tree judge.now) shape
        ≡ of_one (union_term (spec.is_tilde (kind_of (tree_of term.now)))) (J.tree judge.now ty.now)) }
    ensures own { IfOk result (λ shape. J.is_type judge.now shape.ty) }
{
    Ok(UnionShape {
        tilde: is_tilde(term),
        ty: copy_of(judge, ty)?,
    })
}

fn is_tilde(node: &Node) -> bool
    ensures { result ≡ spec.is_tilde (kind_of (tree_of node.now)) }
{
    matches!(node.kind(), NodeKind::TildeType)
}
