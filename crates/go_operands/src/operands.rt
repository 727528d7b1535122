// The operands of a node (Go specification, "Expressions", "Types").
ghost use Rattle.std.specs.Prelude.{◌≡◌, ◌∷◌, [], ◌++◌, IfOk, OnOk, map};
ghost use Rattle.go_tree.specs.Tree.{tree_of};
ghost use Rattle.go_names.specs.Views.{trees_at};
ghost use Rattle.go_operands.specs.Operands as spec;

use go_base::NoMemory;
use go_module::part_list;
use go_names::inner_parts;
use go_tree::{Node, NodeKind};
use std::alloc::Global;

/// The expressions and types that stand directly in a node, in source order. An error is want of memory.
pub fn operands_of<'a>(alloc: Global, node: &'a Node) -> Result<Vec<&'a Node>, NoMemory>
    ensures { IfOk result (λ list. trees_at list.items ≡ spec.operands_of (tree_of node.now)) }
{
    let mut list = Vec::new(alloc);
    push_operands(alloc, node, &mut list)?;
    Ok(list)
}

// Pushes what the inner parts of a node hand up to it.
#[cycle(operands)]
fn push_operands<'a>(
    alloc: Global,
    node: &'a Node,
    list: &mut Vec<&'a Node>,
) -> Result<(), NoMemory>
    ensures { OnOk result (trees_at list.new.items
        ≡ trees_at list.old.items ++ spec.operands_of (tree_of node.now)) }
{
    let inner = inner_parts(alloc, node)?;
    for part in &inner {
        push_handed(alloc, node.kind(), part, list)?;
    }
    Ok(())
}

// Pushes what a part hands up to a node of this kind.
#[cycle(operands)]
fn push_handed<'a>(
    alloc: Global,
    kind: NodeKind,
    part: &'a Node,
    list: &mut Vec<&'a Node>,
) -> Result<(), NoMemory>
    ensures { OnOk result (trees_at list.new.items
        ≡ trees_at list.old.items ++ spec.operands_from kind (tree_of part.now)) }
{
    if passes(kind, part.kind()) {
        push_held(alloc, part, list)
    } else {
        push_one(part, list)
    }
}

// Pushes what a node holds that is no operand.
#[cycle(operands)]
fn push_held<'a>(alloc: Global, node: &'a Node, list: &mut Vec<&'a Node>) -> Result<(), NoMemory>
    ensures { OnOk result (trees_at list.new.items
        ≡ trees_at list.old.items ++ spec.held_of (tree_of node.now)) }
{
    match node.kind() {
        NodeKind::ArrowExpr | NodeKind::ChanType => push_all(part_list(node), list),
        _ => push_operands(alloc, node, list),
    }
}

fn push_one<'a>(node: &'a Node, list: &mut Vec<&'a Node>) -> Result<(), NoMemory>
    ensures { OnOk result (trees_at list.new.items ≡ trees_at list.old.items ++ tree_of node.now ∷ []) }
{
    list.push(node)?;
    Ok(())
}

fn push_all<'a>(nodes: &'a [Node], list: &mut Vec<&'a Node>) -> Result<(), NoMemory>
    ensures { OnOk result (trees_at list.new.items ≡ trees_at list.old.items ++ map tree_of nodes.now) }
{
    for node in nodes {
        list.push(node)?;
    }
    Ok(())
}

// Whether a part of the second kind, in a node of the first, is no operand and hands up what it holds.
fn passes(kind: NodeKind, part: NodeKind) -> bool
    ensures { result ≡ spec.passes kind part }
{
    match kind {
        NodeKind::StructType => !matches!(part, NodeKind::EmbeddedPointer),
        NodeKind::FuncType => true,
        NodeKind::Signature => matches!(part, NodeKind::Params),
        NodeKind::Params => true,
        NodeKind::InterfaceType => true,
        NodeKind::MethodElem => true,
        NodeKind::Union => matches!(part, NodeKind::TildeType),
        NodeKind::ChanType => matches!(part, NodeKind::ArrowExpr),
        NodeKind::ArrowExpr => matches!(part, NodeKind::ChanType),
        _ => false,
    }
}

/// The nodes of an expression or a type that can have records, a node before its operands. An error is want of
/// memory.
pub fn expressions_in<'a>(alloc: Global, node: &'a Node) -> Result<Vec<&'a Node>, NoMemory>
    ensures { IfOk result (λ list. trees_at list.items ≡ spec.expressions_in (tree_of node.now)) }
{
    let mut list = Vec::new(alloc);
    push_expressions(alloc, node, &mut list)?;
    Ok(list)
}

// Pushes a node, and all that stands in its operands.
fn push_expressions<'a>(
    alloc: Global,
    node: &'a Node,
    list: &mut Vec<&'a Node>,
) -> Result<(), NoMemory>
    ensures { OnOk result (trees_at list.new.items
        ≡ trees_at list.old.items ++ spec.expressions_in (tree_of node.now)) }
{
    list.push(node)?;
    let operands = operands_of(alloc, node)?;
    for operand in &operands {
        push_expressions(alloc, operand, list)?;
    }
    Ok(())
}
