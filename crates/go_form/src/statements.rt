// Short variable declarations, assignments, for, go and defer of a form that the grammar reads and the
// specification does not allow (Go specification, "Statements").
ghost use Rattle.std.specs.Prelude.{◌≡◌, ◌++◌, OnOk, map, option_to_list};
ghost use Rattle.go_tree.specs.Tree.{tree_of, trees_of, kind_of};
ghost use Rattle.go_form.specs.Families.Nodes.{places_where};
ghost use Rattle.go_form.specs.Families.StatementParts.{is_short_declaration};
ghost use Rattle.go_form.specs.Families.Statements as rules;

use crate::nodes::{is_name, place_if, push_if, push_place};
use crate::statement_parts::{declares_guard, is_short_declaration, left_sides};
use go_base::NoMemory;
use go_tree::{Node, NodeKind};

/// Pushes each left side of a `:=` that is no identifier, and the second left side of a guard.
pub fn bad_defined_names(node: &Node, found: &mut Vec<usize>) -> Result<(), NoMemory>
    ensures { OnOk result (found.new.items
        ≡ found.old.items ++ rules.bad_defined_names_at (tree_of node.now)) }
{
    match node.kind() {
        NodeKind::DefineStmt => push_no_names(left_sides(node), found),
        NodeKind::RangeDefine => push_no_names(left_sides(node), found),
        NodeKind::SwitchStmt => push_second_guard_names(node.parts(), found),
        _ => Ok(()),
    }
}

// Pushes each node that is no identifier.
fn push_no_names(nodes: &[Node], found: &mut Vec<usize>) -> Result<(), NoMemory>
    ensures { OnOk result (found.new.items
        ≡ found.old.items ++ places_where rules.is_no_name (trees_of (map tree_of nodes.now))) }
{
    for node in nodes {
        push_if(node, !is_name(node), found)?;
    }
    Ok(())
}

fn push_second_guard_names(nodes: &[Node], found: &mut Vec<usize>) -> Result<(), NoMemory>
    ensures { OnOk result (found.new.items
        ≡ found.old.items ++ rules.second_guard_names_at (trees_of (map tree_of nodes.now))) }
{
    for node in nodes {
        push_place(second_guard_name(node), found)?;
    }
    Ok(())
}

// The second left side of a guard, where it is an identifier.
fn second_guard_name(node: &Node) -> Option<usize>
    ensures { option_to_list result ≡ rules.second_guard_name_at (tree_of node.now) }
{
    match node.kind() {
        NodeKind::DefineStmt => second_name_if(declares_guard(node), left_sides(node)),
        _ => None,
    }
}

fn second_name_if(of_guard: bool, sides: &[Node]) -> Option<usize>
    ensures { option_to_list result
        ≡ rules.second_name_if of_guard (trees_of (map tree_of sides.now)) }
{
    if of_guard { second_name(sides) } else { None }
}

// The second of the nodes, where it is an identifier.
#[tactic(auto, using(crate::proofs::StatementLemmas::no_second_name))]
fn second_name(sides: &[Node]) -> Option<usize>
    ensures { option_to_list result ≡ rules.second_name_at (trees_of (map tree_of sides.now)) }
{
    match sides {
        [_, second, ..] => place_if(second, is_name(second)),
        _ => None,
    }
}

/// The operand of go or defer, where it is no call.
pub fn missing_call(node: &Node) -> Option<usize>
    ensures { option_to_list result ≡ rules.missing_call_at (tree_of node.now) }
{
    match node.kind() {
        NodeKind::GoStmt => no_call(node.only_part()?),
        NodeKind::DeferStmt => no_call(node.only_part()?),
        _ => None,
    }
}

// The node, where it is no call.
fn no_call(node: &Node) -> Option<usize>
    ensures { option_to_list result ≡ rules.no_call_at (tree_of node.now) }
{
    match node.kind() {
        NodeKind::CallExpr | NodeKind::SpreadCallExpr => None,
        _ => Some(node.start()),
    }
}

/// Pushes the post statement of a for, where it is a `:=`.
pub fn defining_post_statement(node: &Node, found: &mut Vec<usize>) -> Result<(), NoMemory>
    ensures { OnOk result (found.new.items
        ≡ found.old.items ++ rules.defining_post_statement_at (tree_of node.now)) }
{
    match node.kind() {
        NodeKind::ForStmt => push_short_declarations(node.parts(), found),
        _ => Ok(()),
    }
}

// Pushes each node that is a `:=`.
fn push_short_declarations(nodes: &[Node], found: &mut Vec<usize>) -> Result<(), NoMemory>
    ensures { OnOk result (found.new.items
        ≡ found.old.items
        ++ places_where (λ part. is_short_declaration (kind_of part)) (trees_of (map tree_of nodes.now))) }
{
    for node in nodes {
        push_if(node, is_short_declaration(node.kind()), found)?;
    }
    Ok(())
}

/// The third left side of a range, where it has one.
pub fn third_range_variable(node: &Node) -> Option<usize>
    ensures { option_to_list result ≡ rules.third_range_variable_at (tree_of node.now) }
{
    match node.kind() {
        NodeKind::RangeAssign => third(left_sides(node)),
        NodeKind::RangeDefine => third(left_sides(node)),
        _ => None,
    }
}

#[tactic(auto, using(crate::proofs::StatementLemmas::no_third))]
fn third(nodes: &[Node]) -> Option<usize>
    ensures { option_to_list result ≡ rules.third_at (trees_of (map tree_of nodes.now)) }
{
    match nodes {
        [_, _, third, ..] => Some(third.start()),
        _ => None,
    }
}

/// The operator assignment, where it has several expressions on a side.
pub fn several_operands(node: &Node) -> Option<usize>
    ensures { option_to_list result ≡ rules.several_operands_at (tree_of node.now) }
{
    place_if(node, has_several_operands(node))
}

// Whether the node is an operator assignment with several expressions on a side.
fn has_several_operands(node: &Node) -> bool
    ensures { result ≡ rules.has_several_operands (tree_of node.now) }
{
    is_assignment_operation(node.kind()) && some_has_several(node.parts())
}

// Whether a node of that kind is `x op= y`.
fn is_assignment_operation(kind: NodeKind) -> bool
    ensures { result ≡ rules.is_assignment_operation kind }
{
    match kind {
        NodeKind::AddAssignStmt
        | NodeKind::SubAssignStmt
        | NodeKind::MulAssignStmt
        | NodeKind::QuoAssignStmt
        | NodeKind::RemAssignStmt
        | NodeKind::AndAssignStmt
        | NodeKind::OrAssignStmt
        | NodeKind::XorAssignStmt
        | NodeKind::ShlAssignStmt
        | NodeKind::ShrAssignStmt
        | NodeKind::AndNotAssignStmt => true,
        _ => false,
    }
}

// Whether one of the nodes has several parts.
fn some_has_several(nodes: &[Node]) -> bool
    ensures { result ≡ rules.some_has_several (trees_of (map tree_of nodes.now)) }
{
    for node in nodes {
        if are_several(node.parts()) {
            return true;
        }
    }
    false
}

#[tactic(auto, using(crate::proofs::StatementLemmas::more_than_one))]
fn are_several(nodes: &[Node]) -> bool
    ensures { result ≡ rules.are_several (trees_of (map tree_of nodes.now)) }
{
    match nodes {
        [_, _, ..] => true,
        _ => false,
    }
}
