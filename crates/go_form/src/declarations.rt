// Rules on the form of declarations (Go specification, "Constant declarations", "Alias declarations",
// "Type definitions", "Array types", "Composite literals", "Floating-point literals", "Imaginary
// literals").
ghost use Rattle.std.specs.Prelude.{◌≡◌, ◌++◌, OnOk, map};
ghost use Rattle.std.specs.Option.{option_to_list};
ghost use Rattle.std.specs.List.{flat_map};
ghost use Rattle.go_tree.specs.Tree.{tree_of};
ghost use Rattle.go_form.specs.Families.Declarations as rules;

use crate::nodes::push_place;
use go_base::NoMemory;
use go_module::{all_but_first, part_list};
use go_tree::{Node, NodeKind};

/// The spec of a constant declaration, the first of a group, that has its names alone.
pub fn missing_values(node: &Node) -> Option<usize>
    ensures { option_to_list result ≡ rules.missing_values_at (tree_of node.now) }
{
    match node.kind() {
        NodeKind::ConstDecl | NodeKind::ConstGroup => names_alone(node.parts().first()?),
        _ => None,
    }
}

fn names_alone(spec: &Node) -> Option<usize>
    ensures { option_to_list result ≡ rules.names_alone (tree_of spec.now) }
{
    match spec.only_part() {
        Some(_) => Some(spec.start()),
        None => None,
    }
}

/// A floating-point or imaginary literal.
pub fn float_literal(node: &Node) -> Option<usize>
    ensures { option_to_list result ≡ rules.float_literal_at (tree_of node.now) }
{
    match node.kind() {
        NodeKind::FloatLit => Some(node.start()),
        _ => None,
    }
}

/// An alias with type parameters.
pub fn generic_alias(node: &Node) -> Option<usize>
    ensures { option_to_list result ≡ rules.generic_alias_at (tree_of node.now) }
{
    match node.kind() {
        NodeKind::GenericAliasSpec => Some(node.start()),
        _ => None,
    }
}

/// Pushes each part `[...]T` that is not the type of a literal.
pub fn open_array_types(node: &Node, found: &mut Vec<usize>) -> Result<(), NoMemory>
    ensures { OnOk result (found.new.items
        ≡ found.old.items ++ rules.open_array_types_at (tree_of node.now)) }
{
    push_open_arrays(parts_but_literal_type(node), found)
}

#[tactic(auto, using(go_module::proofs::PartLemmas::list_lemmas))]
fn parts_but_literal_type(node: &Node) -> &[Node]
    ensures { map tree_of result.now ≡ rules.parts_but_literal_type (tree_of node.now) }
{
    match node.kind() {
        NodeKind::CompositeLit => all_but_first(node),
        _ => part_list(node),
    }
}

fn push_open_arrays(parts: &[Node], found: &mut Vec<usize>) -> Result<(), NoMemory>
    ensures { OnOk result (found.new.items
        ≡ found.old.items ++ flat_map rules.open_array_place (map tree_of parts.now)) }
{
    for part in parts {
        push_place(open_array_place(part), found)?;
    }
    Ok(())
}

fn open_array_place(part: &Node) -> Option<usize>
    ensures { option_to_list result ≡ rules.open_array_place (tree_of part.now) }
{
    match part.kind() {
        NodeKind::EllipsisArrayType => Some(part.start()),
        _ => None,
    }
}

/// Pushes each type with type parameters that a node other than a file declares.
pub fn local_generic_types(node: &Node, found: &mut Vec<usize>) -> Result<(), NoMemory>
    ensures { OnOk result (found.new.items
        ≡ found.old.items ++ rules.local_generic_types_at (tree_of node.now)) }
{
    for part in local_parts(node) {
        push_generic_specs(part, found)?;
    }
    Ok(())
}

#[tactic(auto, using(go_module::proofs::PartLemmas::list_lemmas))]
fn local_parts(node: &Node) -> &[Node]
    ensures { map tree_of result.now ≡ rules.local_parts (tree_of node.now) }
{
    match node.kind() {
        NodeKind::File => &[],
        _ => part_list(node),
    }
}

fn push_generic_specs(declaration: &Node, found: &mut Vec<usize>) -> Result<(), NoMemory>
    ensures { OnOk result (found.new.items
        ≡ found.old.items ++ flat_map rules.generic_spec (rules.type_specs (tree_of declaration.now))) }
{
    for spec in type_specs(declaration) {
        push_place(generic_spec(spec), found)?;
    }
    Ok(())
}

#[tactic(auto, using(go_module::proofs::PartLemmas::list_lemmas))]
fn type_specs(declaration: &Node) -> &[Node]
    ensures { map tree_of result.now ≡ rules.type_specs (tree_of declaration.now) }
{
    match declaration.kind() {
        NodeKind::TypeDecl | NodeKind::TypeGroup => part_list(declaration),
        _ => &[],
    }
}

fn generic_spec(spec: &Node) -> Option<usize>
    ensures { option_to_list result ≡ rules.generic_spec (tree_of spec.now) }
{
    match spec.kind() {
        NodeKind::GenericTypeSpec | NodeKind::GenericAliasSpec => Some(spec.start()),
        _ => None,
    }
}
