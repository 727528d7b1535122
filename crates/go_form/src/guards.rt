// Where an `x.(type)` stands other than in the guard of a switch (Go specification, "Type switches").
ghost use Rattle.std.specs.Prelude.{◌≡◌, ◌++◌, ◌&&◌, true, OnOk, map};
ghost use Rattle.go_tree.specs.Tree.{tree_of, trees_of};
ghost use Rattle.go_form.specs.Families.Nodes.{places_where};
ghost use Rattle.go_form.specs.Families.StatementParts.{is_guard, is_guard_expr};
ghost use Rattle.go_form.specs.Families.Guards as rules;

use crate::nodes::push_if;
use crate::statement_parts::{is_guard, is_guard_expr, is_short_declaration};
use go_base::NoMemory;
use go_tree::{Node, NodeKind};

/// Pushes each `x.(type)` that stands, as the node tells, in no guard of a switch.
pub fn misplaced_guards(node: &Node, found: &mut Vec<usize>) -> Result<(), NoMemory>
    ensures { OnOk result (found.new.items
        ≡ found.old.items ++ rules.misplaced_guards_at (tree_of node.now)) }
{
    push_of_parts(node.kind(), node.parts(), found)
}

fn push_of_parts(outer: NodeKind, nodes: &[Node], found: &mut Vec<usize>) -> Result<(), NoMemory>
    ensures { OnOk result (found.new.items
        ≡ found.old.items ++ rules.guards_of_parts outer (trees_of (map tree_of nodes.now))) }
{
    for part in nodes {
        push_of_part(outer, part, found)?;
    }
    Ok(())
}

// Pushes what a part shows, by the kind of the node that has it.
fn push_of_part(outer: NodeKind, part: &Node, found: &mut Vec<usize>) -> Result<(), NoMemory>
    ensures { OnOk result (found.new.items
        ≡ found.old.items ++ rules.guards_of_part outer (tree_of part.now)) }
{
    match part.kind() {
        NodeKind::TypeGuardExpr => push_if(part, !is_statement_or_list(outer), found),
        NodeKind::ExprStmt => push_unless(is_switch(outer), part.parts(), found),
        NodeKind::ExprList => push_unless(is_short_declaration(outer), part.parts(), found),
        NodeKind::DefineStmt => push_of_declaration(is_guard_of(outer, part), part.parts(), found),
        _ => Ok(()),
    }
}

// Whether a part of a node of that kind is the guard of a switch.
fn is_guard_of(outer: NodeKind, part: &Node) -> bool
    ensures { result ≡ (rules.is_switch outer && is_guard (tree_of part.now)) }
{
    is_switch(outer) && is_guard(part)
}

// Pushes each `x.(type)` in the lists of a short variable declaration, but for the right list of a guard.
fn push_of_declaration(
    of_guard: bool,
    lists: &[Node],
    found: &mut Vec<usize>,
) -> Result<(), NoMemory>
    ensures { OnOk result (found.new.items
        ≡ found.old.items ++ rules.guards_of_lists_but of_guard (trees_of (map tree_of lists.now))) }
{
    if of_guard {
        push_of_first(lists, found)
    } else {
        push_of_lists(lists, found)
    }
}

fn push_of_first(lists: &[Node], found: &mut Vec<usize>) -> Result<(), NoMemory>
    ensures { OnOk result (found.new.items
        ≡ found.old.items ++ rules.guards_of_lists_but true (trees_of (map tree_of lists.now))) }
{
    match lists {
        [left, ..] => push_of_list(left, found),
        [] => Ok(()),
    }
}

fn push_of_lists(lists: &[Node], found: &mut Vec<usize>) -> Result<(), NoMemory>
    ensures { OnOk result (found.new.items
        ≡ found.old.items ++ rules.guards_of_lists (trees_of (map tree_of lists.now))) }
{
    for list in lists {
        push_of_list(list, found)?;
    }
    Ok(())
}

fn push_of_list(list: &Node, found: &mut Vec<usize>) -> Result<(), NoMemory>
    ensures { OnOk result (found.new.items
        ≡ found.old.items ++ rules.guards_of_list (tree_of list.now)) }
{
    match list.kind() {
        NodeKind::ExprList => push_guards(list.parts(), found),
        _ => Ok(()),
    }
}

// Pushes each `x.(type)` among the nodes, unless these are not asked here.
fn push_unless(exempt: bool, nodes: &[Node], found: &mut Vec<usize>) -> Result<(), NoMemory>
    ensures { OnOk result (found.new.items
        ≡ found.old.items ++ rules.guards_unless exempt (trees_of (map tree_of nodes.now))) }
{
    if exempt {
        Ok(())
    } else {
        push_guards(nodes, found)
    }
}

// Pushes each `x.(type)` among the nodes.
fn push_guards(nodes: &[Node], found: &mut Vec<usize>) -> Result<(), NoMemory>
    ensures { OnOk result (found.new.items
        ≡ found.old.items ++ places_where is_guard_expr (trees_of (map tree_of nodes.now))) }
{
    for node in nodes {
        push_if(node, is_guard_expr(node), found)?;
    }
    Ok(())
}

fn is_switch(kind: NodeKind) -> bool
    ensures { result ≡ rules.is_switch kind }
{
    match kind {
        NodeKind::SwitchStmt => true,
        _ => false,
    }
}

fn is_statement_or_list(kind: NodeKind) -> bool
    ensures { result ≡ rules.is_statement_or_list kind }
{
    match kind {
        NodeKind::ExprStmt | NodeKind::ExprList => true,
        _ => false,
    }
}
