// Forms that are not built yet.
ghost use Rattle.std.specs.Prelude.{◌≡◌, ℕ, ◌++◌, ◌∷◌, ◌<◌, ◌≤◌, [], OnOk, IfSome, IfNone, map};
ghost use Rattle.std.specs.Option.{option_to_list};
ghost use Rattle.go_tree.specs.Tree.{tree_of, trees_of, start_of, parts_of, no_trees, more_trees, node_count, node_count_of_all};
ghost use Rattle.go_form.specs.declared.parts.Parts.TheVariants as has;
ghost use Rattle.go_form.specs.declared.role.Role.TheVariants as role;
ghost use Rattle.go_form.specs.Unbuilt.{are_none, is_tag, unbuilt_as, unbuilt_behind_name, unbuilt_each, unbuilt_in, unbuilt_parts};

use crate::built_forms::parts_as;
use crate::nodes::push_place;
use crate::parts::Parts;
use crate::role::Role;
use go_base::NoMemory;
use go_module::three_parts;
use go_tree::{Node, NodeKind};

/// Pushes each form of the file that is not built.
pub fn unbuilt(node: &Node, found: &mut Vec<usize>) -> Result<(), NoMemory>
    ensures { OnOk result (found.new.items ≡ found.old.items ++ unbuilt_in (tree_of node.now)) }
{
    unbuilt_as(Role::SourceFile, node, found)
}

// Pushes each form of the tree that is not built, where it stands for that.
#[cycle(unbuilt)]
fn unbuilt_as(role: Role, node: &Node, found: &mut Vec<usize>) -> Result<(), NoMemory>
    ensures { OnOk result (found.new.items ≡ found.old.items ++ unbuilt_as role (tree_of node.now)) }
{
    unbuilt_parts(parts_as(role, node), node, found)
}

// Pushes each such form in the parts of the node, or the node where these are others.
#[cycle(unbuilt)]
fn unbuilt_parts(parts: Parts, node: &Node, found: &mut Vec<usize>) -> Result<(), NoMemory>
    ensures { OnOk result (found.new.items ≡ found.old.items
        ++ unbuilt_parts parts (start_of (tree_of node.now)) (parts_of (tree_of node.now))) }
{
    match parts {
        Parts::NotBuilt => push_place(Some(node.start()), found),
        Parts::AnyParts => Ok(()),
        Parts::NoParts => push_place(without_parts(node), found),
        Parts::One(role) => one(role, node, found),
        Parts::Two(first, second) => two(first, second, node, found),
        Parts::Three(first, second, third) => three(first, second, third, node, found),
        Parts::Each(role) => each(role, node.parts(), found),
        Parts::OneAndEach(first, role) => one_and_each(first, role, node, found),
        Parts::NamesAndType => names_and_type(node, found),
        Parts::TypeArguments => push_place(Some(arguments_start(node)), found),
    }
}

// The node's place, where it has parts.
#[tactic(auto, using(crate::proofs::UnbuiltLemmas::none_lemmas))]
fn without_parts(node: &Node) -> Option<usize>
    ensures { option_to_list result ≡ unbuilt_parts has.NoParts (start_of (tree_of node.now)) (parts_of (tree_of node.now)) }
{
    if has_no_parts(node) {
        None
    } else {
        Some(node.start())
    }
}

// Where type arguments begin.
fn arguments_start(node: &Node) -> usize
    ensures { result ∷ [] ≡ unbuilt_parts has.TypeArguments (start_of (tree_of node.now)) (parts_of (tree_of node.now)) }
{
    match node.parts() {
        [operand, ..] => operand.end(),
        [] => node.start(),
    }
}

#[cycle(unbuilt)]
#[tactic(auto, using(crate::proofs::UnbuiltLemmas::one_lemmas))]
fn one(role: Role, node: &Node, found: &mut Vec<usize>) -> Result<(), NoMemory>
    ensures { OnOk result (found.new.items ≡ found.old.items
        ++ unbuilt_parts (has.One role) (start_of (tree_of node.now)) (parts_of (tree_of node.now))) }
{
    match node.only_part() {
        Some(part) => unbuilt_as(role, part, found),
        None => push_place(Some(node.start()), found),
    }
}

#[cycle(unbuilt)]
#[tactic(auto, using(crate::proofs::UnbuiltLemmas::two_lemmas))]
fn two(first: Role, second: Role, node: &Node, found: &mut Vec<usize>) -> Result<(), NoMemory>
    ensures { OnOk result (found.new.items ≡ found.old.items
        ++ unbuilt_parts (has.Two first second) (start_of (tree_of node.now)) (parts_of (tree_of node.now))) }
{
    match node.both_parts() {
        Some((x, y)) => {
            unbuilt_as(first, x, found)?;
            unbuilt_as(second, y, found)
        }
        None => push_place(Some(node.start()), found),
    }
}

#[cycle(unbuilt)]
#[tactic(auto, using(crate::proofs::UnbuiltLemmas::three_lemmas))]
fn three(
    first: Role,
    second: Role,
    third: Role,
    node: &Node,
    found: &mut Vec<usize>,
) -> Result<(), NoMemory>
    ensures { OnOk result (found.new.items ≡ found.old.items
        ++ unbuilt_parts (has.Three first second third) (start_of (tree_of node.now)) (parts_of (tree_of node.now))) }
{
    match three_parts(node) {
        Some((x, y, z)) => {
            unbuilt_as(first, x, found)?;
            unbuilt_as(second, y, found)?;
            unbuilt_as(third, z, found)
        }
        None => push_place(Some(node.start()), found),
    }
}

#[cycle(unbuilt)]
fn each(role: Role, nodes: &[Node], found: &mut Vec<usize>) -> Result<(), NoMemory>
    ensures { OnOk result (found.new.items
        ≡ found.old.items ++ unbuilt_each role (trees_of (map tree_of nodes.now))) }
{
    for node in nodes {
        unbuilt_as(role, node, found)?;
    }
    Ok(())
}

#[cycle(unbuilt)]
#[tactic(auto, using(crate::proofs::UnbuiltLemmas::one_and_each_lemmas))]
fn one_and_each(
    first: Role,
    role: Role,
    node: &Node,
    found: &mut Vec<usize>,
) -> Result<(), NoMemory>
    ensures { OnOk result (found.new.items ≡ found.old.items
        ++ unbuilt_parts (has.OneAndEach first role) (start_of (tree_of node.now)) (parts_of (tree_of node.now))) }
{
    match first_and_rest(node) {
        Some((part, rest)) => {
            unbuilt_as(first, part, found)?;
            each(role, rest, found)
        }
        None => push_place(Some(node.start()), found),
    }
}

// The first part of a node and those behind it, where it has parts.
#[tactic(auto, using(crate::proofs::UnbuiltLemmas::rest_lemmas))]
fn first_and_rest(node: &Node) -> Option<(&Node, &[Node])>
    ensures some { IfSome result (λ p. parts_of (tree_of node.now)
        ≡ more_trees (tree_of p.0.now) (trees_of (map tree_of p.1.now))) }
    ensures none { IfNone result (parts_of (tree_of node.now) ≡ no_trees) }
{
    match node.parts() {
        [first, rest @ ..] => Some((first, rest)),
        [] => None,
    }
}

#[cycle(unbuilt)]
#[tactic(auto, using(crate::proofs::UnbuiltLemmas::names_lemmas))]
fn names_and_type(node: &Node, found: &mut Vec<usize>) -> Result<(), NoMemory>
    ensures { OnOk result (found.new.items ≡ found.old.items
        ++ unbuilt_parts has.NamesAndType (start_of (tree_of node.now)) (parts_of (tree_of node.now))) }
{
    match first_and_rest(node) {
        Some((name, rest)) => {
            unbuilt_as(Role::Identifier, name, found)?;
            behind_name(node.start(), rest, found)
        }
        None => push_place(Some(node.start()), found),
    }
}

// The parts of a field that begins there, behind its first name.
#[cycle(unbuilt)]
fn behind_name(start: usize, parts: &[Node], found: &mut Vec<usize>) -> Result<(), NoMemory>
    ensures { OnOk result (found.new.items
        ≡ found.old.items ++ unbuilt_behind_name start (trees_of (map tree_of parts.now))) }
{
    match names_before_type(parts) {
        Some((names, field_type)) => {
            each(Role::Identifier, names, found)?;
            unbuilt_as(Role::AnyType, field_type, found)
        }
        None => push_place(Some(start), found),
    }
}

// The type of a field and the names before it, behind its first name.
#[tactic(auto, using(crate::proofs::FieldLemmas::field_lemmas))]
fn names_before_type(parts: &[Node]) -> Option<(&[Node], &Node)>
    ensures some { IfSome result (λ p. (start : ℕ) → unbuilt_behind_name start (trees_of (map tree_of parts.now))
        ≡ unbuilt_each role.Identifier (trees_of (map tree_of p.0.now)) ++ unbuilt_as role.AnyType (tree_of p.1.now)) }
    ensures names { IfSome result (λ p. node_count_of_all (trees_of (map tree_of p.0.now))
        ≤ node_count_of_all (trees_of (map tree_of parts.now))) }
    ensures type_within { IfSome result (λ p. node_count (tree_of p.1.now)
        ≤ node_count_of_all (trees_of (map tree_of parts.now))) }
    ensures none { IfNone result (parts.now ≡ []) }
{
    let (last, before) = parts.split_last()?;
    if !is_tag(last) {
        return Some((before, last));
    }
    match before.split_last() {
        Some((field_type, names)) => Some((names, field_type)),
        None => Some((before, last)),
    }
}

// Whether it is a string literal, as a tag is.
fn is_tag(part: &Node) -> bool
    ensures { result ≡ is_tag (tree_of part.now) }
{
    match part.kind() {
        NodeKind::StringLit => has_no_parts(part),
        _ => false,
    }
}

#[tactic(auto, using(crate::proofs::UnbuiltLemmas::none_lemmas))]
fn has_no_parts(node: &Node) -> bool
    ensures { result ≡ are_none (parts_of (tree_of node.now)) }
{
    match first_and_rest(node) {
        Some(_) => false,
        None => true,
    }
}
