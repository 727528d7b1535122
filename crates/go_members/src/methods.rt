// The methods of an interface type, with their parameters and results (Go specification, "Interface types").
ghost use Rattle.std.specs.Prelude.{◌≡◌, ◌∷◌, ◌++◌, IfOk, List, OnOk, map};
ghost use Rattle.go_tree.specs.declared.node_kind.NodeKind.TheVariants as kinds;
ghost use Rattle.go_tree.specs.Tree.{Tree, kind_of, tree_of};
ghost use Rattle.go_term.specs.Types as types;
ghost use Rattle.go_term.specs.Types.{interface_type, made, of_list};
ghost use Rattle.go_term.specs.View.{elem_of, signature_of, type_of};
ghost use Rattle.go_module.specs.Modules.Module.{file_view};
ghost use Rattle.go_report.specs.Members.{each_by, elem_members, signature_members};
ghost use Rattle.go_report.specs.PackageLines.{member_def};
ghost use Rattle.go_report.specs.Report.{function, line_view};
ghost use Rattle.go_members.specs.Found.{interface_members, method_members};

use crate::line::push_line;
use crate::params::push_signature;
use go_base::NoMemory;
use go_module::SourceFile;
use go_report::{DefKind, Line};
use go_term::{ElemTerm, FuncTerm, Term};
use go_tree::{Node, NodeKind};
use std::alloc::Global;

/// Pushes the line of each method of an interface with these elements, and those of its parameters and results that
/// have names, by its type. An error is want of memory.
pub fn push_interface(
    alloc: Global,
    stub: bool,
    file: &SourceFile,
    elems: &[Node],
    ty: &Term,
    lines: &mut Vec<Line>,
) -> Result<(), NoMemory>
    ensures { OnOk result (map line_view lines.new.items ≡ map line_view lines.old.items
        ++ map (member_def stub (file_view file.now)) (interface_members (map tree_of elems.now) (type_of ty.now))) }
{
    match ty {
        Term::Interface(types) => push_by_types(alloc, stub, file, elems, types, lines),
        _ => Ok(()),
    }
}

// Pushes the lines of each of these elements, by these types of them all.
#[tactic(auto, using(crate::proofs::PartLemmas::listed))]
fn push_by_types(
    alloc: Global,
    stub: bool,
    file: &SourceFile,
    elems: &[Node],
    types: &[ElemTerm],
    lines: &mut Vec<Line>,
) -> Result<(), NoMemory>
    ensures { OnOk result (map line_view lines.new.items ≡ map line_view lines.old.items
        ++ map (member_def stub (file_view file.now))
        (interface_members (map tree_of elems.now) (of_list interface_type (map elem_of types.now)))) }
{
    push_elems(alloc, stub, file, elems, types, lines)
}

// Pushes the lines of each of these elements by the next of these.
fn push_elems(
    alloc: Global,
    stub: bool,
    file: &SourceFile,
    elems: &[Node],
    types: &[ElemTerm],
    lines: &mut Vec<Line>,
) -> Result<(), NoMemory>
    ensures { OnOk result (map line_view lines.new.items ≡ map line_view lines.old.items ++ map (member_def stub
        (file_view file.now)) (each_by elem_members (map tree_of elems.now) (map elem_of types.now))) }
{
    let mut left = types;
    for elem in elems {
        left = push_next(alloc, stub, file, elem, left, lines)?;
    }
    Ok(())
}

// Pushes the lines of an element by the first of these, and gives those that are left for the next.
fn push_next<'a>(
    alloc: Global,
    stub: bool,
    file: &SourceFile,
    elem: &Node,
    types: &'a [ElemTerm],
    lines: &mut Vec<Line>,
) -> Result<&'a [ElemTerm], NoMemory>
    ensures { IfOk result (λ left. (elems : List Tree) → map line_view lines.new.items
        ++ map (member_def stub (file_view file.now)) (each_by elem_members elems (map elem_of left.now))
        ≡ map line_view lines.old.items ++ map (member_def stub (file_view file.now))
        (each_by elem_members (tree_of elem.now ∷ elems) (map elem_of types.now))) }
{
    match types {
        [ty, others @ ..] => {
            push_elem(alloc, stub, file, elem, ty, lines)?;
            Ok(others)
        }
        [] => Ok(types),
    }
}

// Pushes the lines of an element: a union has none.
fn push_elem(
    alloc: Global,
    stub: bool,
    file: &SourceFile,
    elem: &Node,
    ty: &ElemTerm,
    lines: &mut Vec<Line>,
) -> Result<(), NoMemory>
    ensures { OnOk result (map line_view lines.new.items ≡ map line_view lines.old.items
        ++ map (member_def stub (file_view file.now)) (elem_members (tree_of elem.now) (elem_of ty.now))) }
{
    match elem.kind() {
        NodeKind::MethodElem => push_method_elem(alloc, stub, file, elem, ty, lines),
        _ => Ok(()),
    }
}

// Pushes the lines of a method, where the node has a name and a signature.
fn push_method_elem(
    alloc: Global,
    stub: bool,
    file: &SourceFile,
    elem: &Node,
    ty: &ElemTerm,
    lines: &mut Vec<Line>,
) -> Result<(), NoMemory>
    requires { kind_of (tree_of elem.now) ≡ kinds.MethodElem }
    ensures { OnOk result (map line_view lines.new.items ≡ map line_view lines.old.items
        ++ map (member_def stub (file_view file.now)) (elem_members (tree_of elem.now) (elem_of ty.now))) }
{
    match elem.both_parts() {
        Some((name, signature)) => push_by_elem(alloc, stub, file, name, signature, ty, lines),
        None => Ok(()),
    }
}

// Pushes the lines of a method with this name and this signature, where that is what the element is.
fn push_by_elem(
    alloc: Global,
    stub: bool,
    file: &SourceFile,
    name: &Node,
    signature: &Node,
    ty: &ElemTerm,
    lines: &mut Vec<Line>,
) -> Result<(), NoMemory>
    ensures { OnOk result (map line_view lines.new.items ≡ map line_view lines.old.items ++ map (member_def stub
        (file_view file.now)) (method_members (tree_of name.now) (tree_of signature.now) (elem_of ty.now))) }
{
    match ty {
        ElemTerm::Method(_, _, _, f) => push_method(alloc, stub, file, name, signature, f, lines),
        ElemTerm::Union(_) => Ok(()),
    }
}

// Pushes the lines of a method with these types in its signature.
fn push_method(
    alloc: Global,
    stub: bool,
    file: &SourceFile,
    name: &Node,
    signature: &Node,
    f: &FuncTerm,
    lines: &mut Vec<Line>,
) -> Result<(), NoMemory>
    ensures { OnOk result (map line_view lines.new.items ≡ map line_view lines.old.items
        ++ map (member_def stub (file_view file.now)) ((
          tree_of name.now,
          function (made (types.function (signature_of f.now).variadic) (signature_of f.now).parts),
        )
        ∷ signature_members (tree_of signature.now) (signature_of f.now).parts)) }
{
    let kind = DefKind::Func(function_of(alloc, f)?);
    push_line(alloc, stub, file, name, kind, lines)?;
    push_signature(alloc, stub, file, signature, f, lines)
}

// The type of functions with these parameters and results.
fn function_of(alloc: Global, f: &FuncTerm) -> Result<Term, NoMemory>
    ensures { IfOk result (λ t. type_of t
        ≡ made (types.function (signature_of f.now).variadic) (signature_of f.now).parts) }
{
    Ok(Term::Func(copy_of(alloc, f)?))
}

// These parameters and results once more.
fn copy_of(alloc: Global, f: &FuncTerm) -> Result<FuncTerm, NoMemory>
    ensures { IfOk result (λ copy. signature_of copy ≡ signature_of f.now) }
{
    Ok(FuncTerm {
        params: copies(alloc, &f.params)?,
        variadic: f.variadic,
        results: copies(alloc, &f.results)?,
    })
}

// These types once more.
fn copies(alloc: Global, terms: &[Term]) -> Result<Vec<Term>, NoMemory>
    ensures { IfOk result (λ copies. map type_of copies.items ≡ map type_of terms.now) }
{
    let mut list = Vec::new(alloc);
    for term in terms {
        list.push(term.clone()?)?;
    }
    Ok(list)
}
