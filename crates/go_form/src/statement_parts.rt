// Parts of statements (Go specification, "Assignment statements", "Short variable declarations",
// "Type switches"): left sides, short variable declarations and guards.
ghost use Rattle.std.specs.Prelude.{◌≡◌, map};
ghost use Rattle.go_tree.specs.Tree.{tree_of, trees_of, parts_of};
ghost use Rattle.go_form.specs.Families.StatementParts as parts;

use go_tree::{Node, NodeKind};

/// The left sides of an assignment, a short variable declaration or a range.
pub fn left_sides(node: &Node) -> &[Node]
    ensures { trees_of (map tree_of result.now) ≡ parts.left_sides (parts_of (tree_of node.now)) }
{
    match node.parts() {
        [left, ..] => left.parts(),
        [] => &[],
    }
}

/// Whether nodes of that kind are short variable declarations.
pub fn is_short_declaration(kind: NodeKind) -> bool
    ensures { result ≡ parts.is_short_declaration kind }
{
    match kind {
        NodeKind::DefineStmt => true,
        _ => false,
    }
}

/// Whether the node is `x.(type)`.
pub fn is_guard_expr(node: &Node) -> bool
    ensures { result ≡ parts.is_guard_expr (tree_of node.now) }
{
    match node.kind() {
        NodeKind::TypeGuardExpr => true,
        _ => false,
    }
}

// Whether the node's one part is `x.(type)`.
fn has_one_guard_expr(node: &Node) -> bool
    ensures { result ≡ parts.is_one_guard_expr (parts_of (tree_of node.now)) }
{
    match node.only_part() {
        Some(part) => is_guard_expr(part),
        None => false,
    }
}

/// Whether the right list of a short variable declaration is one `x.(type)`.
pub fn declares_guard(node: &Node) -> bool
    ensures { result ≡ parts.declares_guard (parts_of (tree_of node.now)) }
{
    match node.both_parts() {
        Some((_, right)) => has_one_guard_expr(right),
        None => false,
    }
}

/// Whether the statement is a guard.
pub fn is_guard(node: &Node) -> bool
    ensures { result ≡ parts.is_guard (tree_of node.now) }
{
    match node.kind() {
        NodeKind::ExprStmt => has_one_guard_expr(node),
        NodeKind::DefineStmt => declares_guard(node),
        _ => false,
    }
}
