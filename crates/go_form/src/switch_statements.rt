// Headers and clauses of switch and select of a form that the grammar reads and the specification does
// not allow (Go specification, "Switch statements", "Select statements").
ghost use Rattle.std.specs.Prelude.{◌≡◌, ◌++◌, OnOk, length, map, option_to_list};
ghost use Rattle.go_tree.specs.Tree.{tree_of, trees_of, parts_of};
ghost use Rattle.go_form.specs.Families.Nodes.{places_where};
ghost use Rattle.go_form.specs.Families.SwitchStatements as rules;

use crate::nodes::{place_if, push_if};
use crate::statement_parts::is_guard;
use go_base::NoMemory;
use go_tree::{Node, NodeKind};

/// Pushes the last part of a switch header, where it is neither an expression nor a guard.
pub fn bad_switch_header(node: &Node, found: &mut Vec<usize>) -> Result<(), NoMemory>
    ensures { OnOk result (found.new.items
        ≡ found.old.items ++ rules.bad_switch_header_at (tree_of node.now)) }
{
    match node.kind() {
        NodeKind::SwitchStmt => push_no_switch_parts(node.parts(), found),
        _ => Ok(()),
    }
}

// Pushes each node that has no place in a switch.
fn push_no_switch_parts(nodes: &[Node], found: &mut Vec<usize>) -> Result<(), NoMemory>
    ensures { OnOk result (found.new.items
        ≡ found.old.items
        ++ places_where rules.is_no_switch_part (trees_of (map tree_of nodes.now))) }
{
    for node in nodes {
        push_if(node, !is_switch_part(node), found)?;
    }
    Ok(())
}

fn is_switch_part(node: &Node) -> bool
    ensures { result ≡ rules.is_switch_part (tree_of node.now) }
{
    match node.kind() {
        NodeKind::Init | NodeKind::ExprStmt | NodeKind::CaseClause => true,
        _ => is_guard(node),
    }
}

/// Pushes each default of a switch or select that has several.
pub fn repeated_defaults(node: &Node, found: &mut Vec<usize>) -> Result<(), NoMemory>
    ensures { OnOk result (found.new.items
        ≡ found.old.items ++ rules.repeated_defaults_at (tree_of node.now)) }
{
    match node.kind() {
        NodeKind::SwitchStmt => push_several_defaults(node.parts(), found),
        NodeKind::SelectStmt => push_several_defaults(node.parts(), found),
        _ => Ok(()),
    }
}

// Pushes each default clause, where there are several.
fn push_several_defaults(nodes: &[Node], found: &mut Vec<usize>) -> Result<(), NoMemory>
    ensures { OnOk result (found.new.items
        ≡ found.old.items ++ rules.several
        (places_where rules.is_default_clause (trees_of (map tree_of nodes.now)))) }
{
    if defaults(nodes) > 1 {
        push_defaults(nodes, found)?;
    }
    Ok(())
}

// How many default clauses there are.
fn defaults(nodes: &[Node]) -> usize
    ensures { result
        ≡ length (places_where rules.is_default_clause (trees_of (map tree_of nodes.now))) }
{
    let mut count = 0;
    for node in nodes {
        if is_default_clause(node) {
            count += 1;
        }
    }
    count
}

// Pushes each default clause.
fn push_defaults(nodes: &[Node], found: &mut Vec<usize>) -> Result<(), NoMemory>
    ensures { OnOk result (found.new.items
        ≡ found.old.items
        ++ places_where rules.is_default_clause (trees_of (map tree_of nodes.now))) }
{
    for node in nodes {
        push_if(node, is_default_clause(node), found)?;
    }
    Ok(())
}

fn is_default_clause(node: &Node) -> bool
    ensures { result ≡ rules.is_default_clause (tree_of node.now) }
{
    match node.parts() {
        [case, ..] => is_default(case),
        [] => false,
    }
}

fn is_default(node: &Node) -> bool
    ensures { result ≡ rules.is_default (tree_of node.now) }
{
    match node.kind() {
        NodeKind::Default => true,
        _ => false,
    }
}

/// The select clause that begins with neither a send nor a receive nor the word `default`.
pub fn bad_communication(node: &Node) -> Option<usize>
    ensures { option_to_list result ≡ rules.bad_communication_at (tree_of node.now) }
{
    match node.kind() {
        NodeKind::CommClause => match node.parts() {
            [case, ..] => place_if(node, !is_communication(case)),
            [] => None,
        },
        _ => None,
    }
}

// Whether what a select clause begins with is a send, a receive or the word `default`.
fn is_communication(case: &Node) -> bool
    ensures { result ≡ rules.is_communication (tree_of case.now) }
{
    match case.kind() {
        NodeKind::Default | NodeKind::SendStmt => true,
        NodeKind::ExprStmt => has_one_receive(case),
        NodeKind::AssignStmt | NodeKind::DefineStmt => takes_receive(case),
        _ => false,
    }
}

// Whether the statement gives one receive to at most two left sides.
fn takes_receive(statement: &Node) -> bool
    ensures { result ≡ rules.takes_receive (parts_of (tree_of statement.now)) }
{
    match statement.both_parts() {
        Some((left, right)) => are_two_at_most(left.parts()) && has_one_receive(right),
        None => false,
    }
}

#[tactic(auto, using(crate::proofs::StatementLemmas::at_most_two))]
fn are_two_at_most(nodes: &[Node]) -> bool
    ensures { result ≡ rules.are_two_at_most (trees_of (map tree_of nodes.now)) }
{
    match nodes {
        [_, _, _, ..] => false,
        _ => true,
    }
}

// Whether the node has one part, a receive.
fn has_one_receive(node: &Node) -> bool
    ensures { result ≡ rules.is_one_receive (parts_of (tree_of node.now)) }
{
    match node.only_part() {
        Some(part) => is_receive(part),
        None => false,
    }
}

// Whether the node is a receive, in any number of parentheses.
fn is_receive(node: &Node) -> bool
    ensures { result ≡ rules.is_receive (tree_of node.now) }
{
    match node.kind() {
        NodeKind::ParenExpr => match node.only_part() {
            Some(inner) => is_receive(inner),
            None => false,
        },
        NodeKind::ArrowExpr => match node.only_part() {
            Some(operand) => !is_channel_type(operand),
            None => false,
        },
        _ => false,
    }
}

fn is_channel_type(node: &Node) -> bool
    ensures { result ≡ rules.is_channel_type (tree_of node.now) }
{
    match node.kind() {
        NodeKind::ChanType => true,
        _ => false,
    }
}
