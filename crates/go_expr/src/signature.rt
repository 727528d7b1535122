// Signatures (Go specification, "Function types"), by the types that stand in them.
ghost use Rattle.std.specs.Prelude.{◌≡◌, ◌&&◌, ◌∷◌, [], ◌++◌, if◌then◌else◌, IfOk, List, drop, map, take};
ghost use Rattle.std.specs.List.{AllByRecursion, list_any};
ghost use Rattle.go_tree.specs.Tree.{Tree, kind_of, tree_of};
ghost use Rattle.go_module.specs.Names.Inner as inner;
ghost use Rattle.go_term.specs.Shapes.{func_parts};
ghost use Rattle.go_constructs.specs.Signatures as spec;
ghost use Rattle.go_judge.specs.Types.Own.{AreOwnFunc};

use crate::given::push_copy;
use go_base::NoMemory;
use go_model::Judge;
use go_module::{all_but_first, first_part, part_list};
use go_names::{has_named, is_unnamed_param};
use go_operands::operands_of;
use go_term::{FuncShape, Ty};
use go_tree::{Node, NodeKind};
use std::alloc::Global;

/// The parameters and results of a signature, by the types in it in source order, and whether it is variadic. An error
/// is want of memory.
pub fn signature_of<J: Judge>(
    alloc: Global,
    judge: &J,
    signature: &Node,
    types: &[Ty],
) -> Result<FuncShape, NoMemory>
    requires { AllByRecursion (J.is_type judge.now) types.now }
    ensures parts { IfOk result (λ f. func_parts (J.tree judge.now) f
        ≡ spec.types_in (tree_of signature.now) (map (J.tree judge.now) types.now)) }
    ensures variadic { IfOk result (λ f. f.variadic ≡ spec.is_variadic (tree_of signature.now)) }
    ensures own { IfOk result (AreOwnFunc (J.is_type judge.now)) }
{
    let params = first_part(signature);
    let many = operands_of(alloc, params)?.len();
    let params = part_list(params);
    Ok(FuncShape {
        params: list_types(alloc, judge, params, first_types(types, many))?,
        variadic: has_dots(params),
        results: result_types(
            alloc,
            judge,
            all_but_first(signature),
            types_behind(types, many),
        )?,
    })
}

/// So many types, the first.
pub fn first_types(types: &[Ty], many: usize) -> &[Ty]
    ensures { result.now ≡ take many types.now }
{
    if many < types.len() {
        &types[..many]
    } else {
        types
    }
}

/// The types behind so many, the first.
pub fn types_behind(types: &[Ty], many: usize) -> &[Ty]
    ensures { result.now ≡ drop many types.now }
{
    if many < types.len() {
        &types[many..]
    } else {
        &[]
    }
}

// Whether a parameter has dots.
fn has_dots(params: &[Node]) -> bool
    ensures { result ≡ list_any (λ p. spec.is_dotted (kind_of (tree_of p))) params.now }
{
    params.iter().any(|param| is_dotted(param))
}

fn is_dotted(node: &Node) -> bool
    ensures { result ≡ spec.is_dotted (kind_of (tree_of node.now)) }
{
    matches!(
        node.kind(),
        NodeKind::VariadicParam | NodeKind::UnnamedVariadic
    )
}

// The types of results.
fn result_types<J: Judge>(
    alloc: Global,
    judge: &J,
    results: &[Node],
    types: &[Ty],
) -> Result<Vec<Ty>, NoMemory>
    requires { AllByRecursion (J.is_type judge.now) types.now }
    ensures types { IfOk result (λ list. map (J.tree judge.now) list.items
        ≡ spec.result_types (map tree_of results.now) (map (J.tree judge.now) types.now)) }
    ensures own { IfOk result (λ list. AllByRecursion (J.is_type judge.now) list.items) }
{
    match results {
        [node] => one_result(alloc, judge, node, types),
        _ => copies(alloc, judge, types),
    }
}

// The types of results that are one node: a list, or a type.
fn one_result<J: Judge>(
    alloc: Global,
    judge: &J,
    node: &Node,
    types: &[Ty],
) -> Result<Vec<Ty>, NoMemory>
    requires { AllByRecursion (J.is_type judge.now) types.now }
    ensures types { IfOk result (λ list. map (J.tree judge.now) list.items
        ≡ spec.result_types (tree_of node.now ∷ []) (map (J.tree judge.now) types.now)) }
    ensures own { IfOk result (λ list. AllByRecursion (J.is_type judge.now) list.items) }
{
    if node.is(NodeKind::Params) {
        list_types(alloc, judge, part_list(node), types)
    } else {
        copies(alloc, judge, types)
    }
}

// The types once more.
fn copies<J: Judge>(alloc: Global, judge: &J, types: &[Ty]) -> Result<Vec<Ty>, NoMemory>
    requires { AllByRecursion (J.is_type judge.now) types.now }
    ensures types { IfOk result (λ list. map (J.tree judge.now) list.items
        ≡ map (J.tree judge.now) types.now) }
    ensures own { IfOk result (λ list. AllByRecursion (J.is_type judge.now) list.items) }
{
    let mut list = Vec::new(alloc);
    for ty in types {
        push_copy(judge, &mut list, ty)?;
    }
    Ok(list)
}

// The types of parameters or results in a list.
fn list_types<J: Judge>(
    alloc: Global,
    judge: &J,
    params: &[Node],
    types: &[Ty],
) -> Result<Vec<Ty>, NoMemory>
    requires { AllByRecursion (J.is_type judge.now) types.now }
    ensures types { IfOk result (λ list. map (J.tree judge.now) list.items
        ≡ spec.list_types (map tree_of params.now) (map (J.tree judge.now) types.now)) }
    ensures own { IfOk result (λ list. AllByRecursion (J.is_type judge.now) list.items) }
{
    let named = has_named(params);
    param_types(alloc, judge, named, params, types)
}

// The types of parameters, where some have names or none has.
fn param_types<J: Judge>(
    alloc: Global,
    judge: &J,
    named: bool,
    params: &[Node],
    types: &[Ty],
) -> Result<Vec<Ty>, NoMemory>
    requires { AllByRecursion (J.is_type judge.now) types.now }
    ensures types { IfOk result (λ list. map (J.tree judge.now) list.items
        ≡ spec.param_types named (map tree_of params.now) (map (J.tree judge.now) types.now)) }
    ensures own { IfOk result (λ list. AllByRecursion (J.is_type judge.now) list.items) }
{
    let mut list = Vec::new(alloc);
    let mut left = types;
    for param in params {
        left = push_param(judge, named, param, left, &mut list)?;
    }
    Ok(list)
}

// Pushes the type of a parameter, the first of these, and gives those that are left for the next.
fn push_param<'a, J: Judge>(
    judge: &J,
    named: bool,
    param: &Node,
    types: &'a [Ty],
    list: &mut Vec<Ty>,
) -> Result<&'a [Ty], NoMemory>
    requires types { AllByRecursion (J.is_type judge.now) types.now }
    requires list { AllByRecursion (J.is_type judge.now) list.old.items }
    ensures pushed { IfOk result (λ left. (params : List Tree)
        → map (J.tree judge.now) list.new.items ++ spec.param_types named params (map (J.tree judge.now) left.now)
        ≡ map (J.tree judge.now) list.old.items
        ++ spec.param_types named (tree_of param.now ∷ params) (map (J.tree judge.now) types.now)) }
    ensures left { IfOk result (λ left. AllByRecursion (J.is_type judge.now) left.now) }
    ensures own { AllByRecursion (J.is_type judge.now) list.new.items }
{
    match types {
        [ty, others @ ..] => {
            push_copy(judge, list, ty)?;
            Ok(left_for_next(named, param, types, others))
        }
        [] => Ok(types),
    }
}

// The types that are left for the next parameter: one that has a name alone has the type of the next.
fn left_for_next<'a>(named: bool, param: &Node, types: &'a [Ty], others: &'a [Ty]) -> &'a [Ty]
    ensures { result.now ≡ (if named && inner.is_unnamed_param (kind_of (tree_of param.now))
        then types.now else others.now) }
{
    if named && is_unnamed_param(param) {
        types
    } else {
        others
    }
}
