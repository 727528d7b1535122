// Rules on the form of lists of parameters (Go specification, "Function types", "Function
// declarations", "Method declarations").
ghost use Rattle.std.specs.Prelude.{◌≡◌, ◌++◌, ◌&&◌, ◌||◌, OnOk, map, reverse};
ghost use Rattle.std.specs.Option.{option_to_list};
ghost use Rattle.std.specs.List.{flat_map, list_any};
ghost use Rattle.go_tree.specs.Tree.{tree_of, parts_of};
ghost use Rattle.go_module.specs.NodeParts as parts;
ghost use Rattle.go_form.specs.Families.Parameters as rules;

use crate::nodes::{is_name, place_if, push_if, push_place};
use go_base::NoMemory;
use go_module::{all_but_first, part_list};
use go_tree::{Node, NodeKind};

// Whether it is `x T` or `x ...T`.
fn has_name(param: &Node) -> bool
    ensures { result ≡ rules.has_name (tree_of param.now) }
{
    match param.kind() {
        NodeKind::Param | NodeKind::VariadicParam => true,
        _ => false,
    }
}

// Whether it is `x ...T` or `...T`.
fn has_dots(param: &Node) -> bool
    ensures { result ≡ rules.has_dots (tree_of param.now) }
{
    match param.kind() {
        NodeKind::VariadicParam | NodeKind::UnnamedVariadic => true,
        _ => false,
    }
}

// Whether it is one identifier: a name without its type, or a type.
fn is_one_identifier(param: &Node) -> bool
    ensures { result ≡ rules.is_one_identifier (tree_of param.now) }
{
    match param.kind() {
        NodeKind::UnnamedParam => match param.only_part() {
            Some(part) => is_name(part),
            None => false,
        },
        _ => false,
    }
}

// Whether it is a type that cannot be read as a name.
fn is_type_alone(param: &Node) -> bool
    ensures { result ≡ rules.is_type_alone (tree_of param.now) }
{
    !(has_name(param) || is_one_identifier(param))
}

// Whether some parameter has a name.
#[tactic(auto, using(go_module::proofs::PartLemmas::list_lemmas))]
fn are_named(params: &[Node]) -> bool
    ensures { result ≡ rules.are_named (map tree_of params.now) }
{
    let mut named = false;
    for param in params {
        named = named || has_name(param);
    }
    named
}

// Whether some parameter is a type that cannot be read as a name.
#[tactic(auto, using(go_module::proofs::PartLemmas::list_lemmas))]
fn some_is_type_alone(params: &[Node]) -> bool
    ensures { result ≡ list_any rules.is_type_alone (map tree_of params.now) }
{
    let mut alone = false;
    for param in params {
        alone = alone || is_type_alone(param);
    }
    alone
}

fn ends_in_identifier(params: &[Node]) -> bool
    ensures { result ≡ rules.ends_in_identifier (map tree_of params.now) }
{
    match params {
        [.., last] => is_one_identifier(last),
        [] => false,
    }
}

// Whether some parameters have names and some have not.
fn are_mixed(params: &[Node]) -> bool
    ensures { result ≡ rules.are_mixed (map tree_of params.now) }
{
    are_named(params) && (some_is_type_alone(params) || ends_in_identifier(params))
}

/// A list in which some parameters have names and some have not.
#[tactic(auto, using(go_module::proofs::PartLemmas::list_lemmas))]
pub fn mixed_parameters(node: &Node) -> Option<usize>
    ensures { option_to_list result ≡ rules.mixed_parameters_at (tree_of node.now) }
{
    match node.kind() {
        NodeKind::Params => place_if(node, are_mixed(part_list(node))),
        _ => None,
    }
}

// Whether the first of some parameters has `...`, where `next` says it of the one behind it.
fn is_variadic(named: bool, param: &Node, next: bool) -> bool
    ensures { result ≡ (rules.has_dots (tree_of param.now)
        || (named && (rules.is_one_identifier (tree_of param.now) && next))) }
{
    has_dots(param) || (named && (is_one_identifier(param) && next))
}

// Pushes the parameters that have `...`, without the last where that one may have it.
fn push_variadics(last_may: bool, params: &[Node], found: &mut Vec<usize>) -> Result<(), NoMemory>
    ensures { OnOk result (found.new.items ≡ found.old.items
        ++ rules.variadics last_may (rules.are_named (map tree_of params.now)) (map tree_of params.now)) }
{
    let first = found.len();
    push_variadics_reversed(last_may, are_named(params), params, found)?;
    found[first..].reverse();
    Ok(())
}

// Pushes them from the last to the first: so each is looked at once.
fn push_variadics_reversed(
    last_may: bool,
    named: bool,
    params: &[Node],
    found: &mut Vec<usize>,
) -> Result<(), NoMemory>
    ensures { OnOk result (found.new.items ≡ found.old.items
        ++ reverse (rules.variadics last_may named (map tree_of params.now))) }
{
    let mut variadic = false;
    let mut may = last_may;
    for place in (0..params.len()).rev() {
        let param = &params[place];
        variadic = is_variadic(named, param, variadic);
        push_if(param, variadic && !may, found)?;
        may = false;
    }
    Ok(())
}

/// Pushes each parameter of a signature that has `...` and is not the last, and each result that has.
pub fn misplaced_variadics(node: &Node, found: &mut Vec<usize>) -> Result<(), NoMemory>
    ensures { OnOk result (found.new.items
        ≡ found.old.items ++ rules.misplaced_variadics_at (tree_of node.now)) }
{
    match node.kind() {
        NodeKind::Signature => push_signature(node, found),
        _ => Ok(()),
    }
}

fn push_signature(signature: &Node, found: &mut Vec<usize>) -> Result<(), NoMemory>
    ensures { OnOk result (found.new.items
        ≡ (found.old.items ++ rules.variadic_parameters (parts_of (tree_of signature.now)))
        ++ flat_map rules.variadic_results (parts.all_but_first (parts_of (tree_of signature.now)))) }
{
    push_parameters(signature, found)?;
    push_results(all_but_first(signature), found)
}

// Pushes the parameters, the first part of a signature.
fn push_parameters(signature: &Node, found: &mut Vec<usize>) -> Result<(), NoMemory>
    ensures { OnOk result (found.new.items
        ≡ found.old.items ++ rules.variadic_parameters (parts_of (tree_of signature.now))) }
{
    match signature.parts().first() {
        Some(params) => push_variadics(true, part_list(params), found),
        None => Ok(()),
    }
}

fn push_results(results: &[Node], found: &mut Vec<usize>) -> Result<(), NoMemory>
    ensures { OnOk result (found.new.items
        ≡ found.old.items ++ flat_map rules.variadic_results (map tree_of results.now)) }
{
    for result in results {
        push_result(result, found)?;
    }
    Ok(())
}

fn push_result(node: &Node, found: &mut Vec<usize>) -> Result<(), NoMemory>
    ensures { OnOk result (found.new.items
        ≡ found.old.items ++ rules.variadic_results (tree_of node.now)) }
{
    match node.kind() {
        NodeKind::Params => push_variadics(false, part_list(node), found),
        _ => Ok(()),
    }
}

/// The receiver's list of a method that has not exactly one parameter, or one with `...`.
pub fn bad_receiver_list(node: &Node) -> Option<usize>
    ensures { option_to_list result ≡ rules.bad_receiver_list_at (tree_of node.now) }
{
    match node.kind() {
        NodeKind::MethodDecl => receiver_list(node.parts().first()?),
        _ => None,
    }
}

fn receiver_list(params: &Node) -> Option<usize>
    ensures { option_to_list result ≡ rules.receiver_list (tree_of params.now) }
{
    place_if(params, !is_receiver(part_list(params)))
}

fn is_receiver(params: &[Node]) -> bool
    ensures { result ≡ rules.is_receiver (map tree_of params.now) }
{
    match params {
        [receiver] => !has_dots(receiver),
        _ => false,
    }
}

/// Pushes the type parameters of a method.
pub fn generic_method(node: &Node, found: &mut Vec<usize>) -> Result<(), NoMemory>
    ensures { OnOk result (found.new.items
        ≡ found.old.items ++ rules.generic_method_at (tree_of node.now)) }
{
    match node.kind() {
        NodeKind::MethodDecl => push_type_params(part_list(node), found),
        _ => Ok(()),
    }
}

fn push_type_params(parts: &[Node], found: &mut Vec<usize>) -> Result<(), NoMemory>
    ensures { OnOk result (found.new.items
        ≡ found.old.items ++ flat_map rules.type_params (map tree_of parts.now)) }
{
    for part in parts {
        push_place(type_params(part), found)?;
    }
    Ok(())
}

fn type_params(part: &Node) -> Option<usize>
    ensures { option_to_list result ≡ rules.type_params (tree_of part.now) }
{
    match part.kind() {
        NodeKind::TypeParams => Some(part.start()),
        _ => None,
    }
}
