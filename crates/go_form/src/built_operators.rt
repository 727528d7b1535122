// Which operators are built (Go specification, "Operators").
ghost use Rattle.std.specs.Prelude.{◌≡◌};
ghost use Rattle.go_tree.specs.Tree.{tree_of, kind_of, parts_of};
ghost use Rattle.go_form.specs.BuiltOperators as rules;

use crate::built_types::literal_parts;
use crate::parts::Parts;
use crate::role::Role;
use go_tree::{Node, NodeKind};

// Whether it is an operator between two operands.
fn is_binary(kind: NodeKind) -> bool
    ensures { result ≡ rules.is_binary kind }
{
    match kind {
        NodeKind::LogicalOrExpr | NodeKind::LogicalAndExpr => true,
        NodeKind::EqualExpr | NodeKind::NotEqualExpr => true,
        NodeKind::LessExpr | NodeKind::LessEqualExpr => true,
        NodeKind::GreaterExpr | NodeKind::GreaterEqualExpr => true,
        NodeKind::AddExpr | NodeKind::SubExpr | NodeKind::OrExpr | NodeKind::XorExpr => true,
        NodeKind::MulExpr | NodeKind::QuoExpr | NodeKind::RemExpr => true,
        NodeKind::ShlExpr | NodeKind::ShrExpr => true,
        NodeKind::AndExpr | NodeKind::AndNotExpr => true,
        _ => false,
    }
}

// Whether it is an operator before one operand, which is neither `*`, `&` nor `<-`.
fn is_unary(kind: NodeKind) -> bool
    ensures { result ≡ rules.is_unary kind }
{
    match kind {
        NodeKind::PlusExpr | NodeKind::MinusExpr => true,
        NodeKind::NotExpr | NodeKind::ComplementExpr => true,
        _ => false,
    }
}

/// Which parts an operator has, or a type literal that is written where an expression stands.
pub fn operator_parts(node: &Node) -> Parts
    ensures { result ≡ rules.operator_parts (kind_of (tree_of node.now)) (parts_of (tree_of node.now)) }
{
    if is_binary(node.kind()) {
        return Parts::Two(Role::Expression, Role::Expression);
    }
    if is_unary(node.kind()) {
        return Parts::One(Role::Expression);
    }
    literal_parts(node)
}
