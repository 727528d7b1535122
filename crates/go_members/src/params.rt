// The parameters and results that have names (Go specification, "Function types").
ghost use Rattle.std.specs.Prelude.{◌≡◌, ◌∷◌, ◌++◌, [], if◌then◌else◌, IfOk, List, OnOk, map};
ghost use Rattle.std.specs.List.{flat_map, list_any};
ghost use Rattle.go_tree.specs.Tree.{Tree, kind_of, tree_of};
ghost use Rattle.go_term.specs.Types.{of_one, signature_parts, slice};
ghost use Rattle.go_term.specs.View.{signature_of, type_of};
ghost use Rattle.go_module.specs.Modules.Module.{file_view};
ghost use Rattle.go_module.specs.Names.Inner as inner;
ghost use Rattle.go_report.specs.Members.{each_by, list_members, param_member, signature_members};
ghost use Rattle.go_report.specs.PackageLines.{member_def};
ghost use Rattle.go_report.specs.Report.{line_view};
ghost use Rattle.go_members.specs.Found.{function_members, variable_members};

use crate::line::push_line;
use go_base::NoMemory;
use go_module::{SourceFile, all_but_first, first_part, part_list};
use go_names::has_named;
use go_report::{DefKind, Line};
use go_term::{FuncTerm, Term};
use go_tree::{Node, NodeKind};
use std::alloc::Global;

/// Pushes the line of each parameter and result of a function with these parts that has a name, by its type. An error
/// is want of memory.
pub fn push_function(
    alloc: Global,
    stub: bool,
    file: &SourceFile,
    parts: &[Node],
    ty: &Term,
    lines: &mut Vec<Line>,
) -> Result<(), NoMemory>
    ensures { OnOk result (map line_view lines.new.items ≡ map line_view lines.old.items
        ++ map (member_def stub (file_view file.now)) (function_members (map tree_of parts.now) (type_of ty.now))) }
{
    match parts {
        [signature, ..] => push_signature_of(alloc, stub, file, signature, ty, lines),
        [] => Ok(()),
    }
}

// Pushes those of a function with this signature.
fn push_signature_of(
    alloc: Global,
    stub: bool,
    file: &SourceFile,
    signature: &Node,
    ty: &Term,
    lines: &mut Vec<Line>,
) -> Result<(), NoMemory>
    ensures { OnOk result (map line_view lines.new.items ≡ map line_view lines.old.items
        ++ map (member_def stub (file_view file.now))
        (function_members (tree_of signature.now ∷ []) (type_of ty.now))) }
{
    match ty {
        Term::Func(f) => push_signature(alloc, stub, file, signature, f, lines),
        _ => Ok(()),
    }
}

/// Pushes the line of each parameter and result in a signature that has a name, by the types of these. An error is
/// want of memory.
pub fn push_signature(
    alloc: Global,
    stub: bool,
    file: &SourceFile,
    signature: &Node,
    f: &FuncTerm,
    lines: &mut Vec<Line>,
) -> Result<(), NoMemory>
    ensures { OnOk result (map line_view lines.new.items ≡ map line_view lines.old.items
        ++ map (member_def stub (file_view file.now))
        (signature_members (tree_of signature.now) (signature_of f.now).parts)) }
{
    push_by_types(alloc, stub, file, signature, &f.params, &f.results, lines)
}

// Pushes those in a signature, by these types of its parameters and of its results.
#[tactic(auto, using(crate::proofs::PartLemmas::listed))]
fn push_by_types(
    alloc: Global,
    stub: bool,
    file: &SourceFile,
    signature: &Node,
    params: &[Term],
    results: &[Term],
    lines: &mut Vec<Line>,
) -> Result<(), NoMemory>
    ensures { OnOk result (map line_view lines.new.items ≡ map line_view lines.old.items
        ++ map (member_def stub (file_view file.now)) (signature_members (tree_of signature.now)
        (signature_parts (map type_of params.now) (map type_of results.now)))) }
{
    push_list(alloc, stub, file, first_part(signature), params, lines)?;
    push_lists(alloc, stub, file, all_but_first(signature), results, lines)
}

// Pushes those of each of these lists of results.
fn push_lists(
    alloc: Global,
    stub: bool,
    file: &SourceFile,
    lists: &[Node],
    types: &[Term],
    lines: &mut Vec<Line>,
) -> Result<(), NoMemory>
    ensures { OnOk result (map line_view lines.new.items ≡ map line_view lines.old.items ++ map (member_def stub
        (file_view file.now)) (flat_map (list_members (map type_of types.now)) (map tree_of lists.now))) }
{
    for list in lists {
        push_list(alloc, stub, file, list, types, lines)?;
    }
    Ok(())
}

// Pushes those of a list of parameters or results, which a result that is a type is not.
fn push_list(
    alloc: Global,
    stub: bool,
    file: &SourceFile,
    list: &Node,
    types: &[Term],
    lines: &mut Vec<Line>,
) -> Result<(), NoMemory>
    ensures { OnOk result (map line_view lines.new.items ≡ map line_view lines.old.items
        ++ map (member_def stub (file_view file.now)) (list_members (map type_of types.now) (tree_of list.now))) }
{
    match list.kind() {
        NodeKind::Params => push_if_named(alloc, stub, file, part_list(list), types, lines),
        _ => Ok(()),
    }
}

// Pushes those of a list in which one has a name, and then all have.
#[tactic(auto, using(go_names::proofs::MemberLemmas::any_named))]
fn push_if_named(
    alloc: Global,
    stub: bool,
    file: &SourceFile,
    params: &[Node],
    types: &[Term],
    lines: &mut Vec<Line>,
) -> Result<(), NoMemory>
    ensures { OnOk result (map line_view lines.new.items ≡ map line_view lines.old.items
        ++ map (member_def stub (file_view file.now))
        (if list_any (λ p. inner.is_named_param (kind_of p)) (map tree_of params.now)
        then each_by param_member (map tree_of params.now) (map type_of types.now) else [])) }
{
    if has_named(params) {
        push_params(alloc, stub, file, params, types, lines)
    } else {
        Ok(())
    }
}

// Pushes the line of each of these parameters by the next of these types.
fn push_params(
    alloc: Global,
    stub: bool,
    file: &SourceFile,
    params: &[Node],
    types: &[Term],
    lines: &mut Vec<Line>,
) -> Result<(), NoMemory>
    ensures { OnOk result (map line_view lines.new.items ≡ map line_view lines.old.items ++ map (member_def stub
        (file_view file.now)) (each_by param_member (map tree_of params.now) (map type_of types.now))) }
{
    let mut left = types;
    for param in params {
        left = push_next(alloc, stub, file, param, left, lines)?;
    }
    Ok(())
}

// Pushes the line of a parameter by the first of these types, and gives those that are left for the next.
fn push_next<'a>(
    alloc: Global,
    stub: bool,
    file: &SourceFile,
    param: &Node,
    types: &'a [Term],
    lines: &mut Vec<Line>,
) -> Result<&'a [Term], NoMemory>
    ensures { IfOk result (λ left. (params : List Tree) → map line_view lines.new.items
        ++ map (member_def stub (file_view file.now)) (each_by param_member params (map type_of left.now))
        ≡ map line_view lines.old.items ++ map (member_def stub (file_view file.now))
        (each_by param_member (tree_of param.now ∷ params) (map type_of types.now))) }
{
    match types {
        [ty, others @ ..] => {
            push_param(alloc, stub, file, param, ty, lines)?;
            Ok(others)
        }
        [] => Ok(types),
    }
}

// Pushes the line of a parameter with this type: "the type of p within f is equivalent to type []T", where p is a
// final parameter `p ...T`.
fn push_param(
    alloc: Global,
    stub: bool,
    file: &SourceFile,
    param: &Node,
    ty: &Term,
    lines: &mut Vec<Line>,
) -> Result<(), NoMemory>
    ensures { OnOk result (map line_view lines.new.items ≡ map line_view lines.old.items
        ++ map (member_def stub (file_view file.now)) (param_member (tree_of param.now) (type_of ty.now))) }
{
    match param.kind() {
        NodeKind::Param => push_first(alloc, stub, file, part_list(param), ty.clone()?, lines),
        NodeKind::VariadicParam => {
            push_first(
                alloc,
                stub,
                file,
                part_list(param),
                slice_of(alloc, ty)?,
                lines,
            )
        }
        NodeKind::UnnamedParam => push_first(
            alloc,
            stub,
            file,
            part_list(param),
            ty.clone()?,
            lines,
        ),
        _ => Ok(()),
    }
}

// The type of slices with elements of this type.
fn slice_of(alloc: Global, ty: &Term) -> Result<Term, NoMemory>
    ensures { IfOk result (λ t. type_of t ≡ of_one slice (type_of ty.now)) }
{
    Ok(Term::Slice(Box::new(alloc, ty.clone()?)?))
}

// Pushes the line of a variable of this type whose name is the first of these parts.
fn push_first(
    alloc: Global,
    stub: bool,
    file: &SourceFile,
    parts: &[Node],
    ty: Term,
    lines: &mut Vec<Line>,
) -> Result<(), NoMemory>
    ensures { OnOk result (map line_view lines.new.items ≡ map line_view lines.old.items
        ++ map (member_def stub (file_view file.now)) (variable_members (map tree_of parts.now) (type_of ty))) }
{
    match parts {
        [name, ..] => push_line(alloc, stub, file, name, DefKind::Var(ty), lines),
        [] => Ok(()),
    }
}
