// The components of types (Go specification, "Types").
ghost use Rattle.std.specs.Prelude.{◌≡◌, ◌++◌, IfOk, OnOk, drop};
ghost use Rattle.go_tree.specs.Tree.{kind_of, tree_of};
ghost use Rattle.go_names.specs.Views.{trees_at};
ghost use Rattle.go_operands.specs.Operands.{operands_of};
ghost use Rattle.go_model.specs.Obligations.Obliged as obliged;
ghost use Rattle.go_obligations.specs.Owed.{types_of_elem};

use go_base::NoMemory;
use go_module::part_list;
use go_operands::operands_of;
use go_tree::{Node, NodeKind};
use std::alloc::Global;

/// The operands of a node that are components of a type, or types of parameters and results: the length of an array is
/// none, nor is a type that an interface embeds. An error is want of memory.
pub(crate) fn components_of<'a>(alloc: Global, node: &'a Node) -> Result<Vec<&'a Node>, NoMemory>
    ensures { IfOk result (λ list. trees_at list.items ≡ obliged.components_of (tree_of node.now)) }
{
    match node.kind() {
        NodeKind::ArrayType => behind_first(alloc, node),
        NodeKind::InterfaceType => types_of_methods(alloc, node),
        NodeKind::MapType => operands_of(alloc, node),
        NodeKind::SliceType | NodeKind::StarExpr => operands_of(alloc, node),
        NodeKind::ChanType | NodeKind::ArrowExpr => operands_of(alloc, node),
        NodeKind::StructType | NodeKind::EmbeddedPointer => operands_of(alloc, node),
        NodeKind::FuncType => operands_of(alloc, node),
        _ => Ok(Vec::new(alloc)),
    }
}

// The operands of a node behind the first.
fn behind_first<'a>(alloc: Global, node: &'a Node) -> Result<Vec<&'a Node>, NoMemory>
    ensures { IfOk result (λ list. trees_at list.items ≡ drop 1 (operands_of (tree_of node.now))) }
{
    let mut operands = operands_of(alloc, node)?;
    if !operands.is_empty() {
        operands.remove(0);
    }
    Ok(operands)
}

// The types of the parameters and results of an interface's methods.
fn types_of_methods<'a>(alloc: Global, node: &'a Node) -> Result<Vec<&'a Node>, NoMemory>
    ensures { IfOk result (λ list. trees_at list.items ≡ obliged.types_of_methods (tree_of node.now)) }
{
    let mut list = Vec::new(alloc);
    for elem in part_list(node) {
        push_types(alloc, elem, &mut list)?;
    }
    Ok(list)
}

// Pushes those of an element, if it is a method.
fn push_types<'a>(alloc: Global, elem: &'a Node, list: &mut Vec<&'a Node>) -> Result<(), NoMemory>
    ensures { OnOk result (trees_at list.new.items
        ≡ trees_at list.old.items ++ types_of_elem (kind_of (tree_of elem.now)) (tree_of elem.now)) }
{
    match elem.kind() {
        NodeKind::MethodElem => push_operands(alloc, elem, list),
        _ => Ok(()),
    }
}

fn push_operands<'a>(
    alloc: Global,
    elem: &'a Node,
    list: &mut Vec<&'a Node>,
) -> Result<(), NoMemory>
    ensures { OnOk result (trees_at list.new.items
        ≡ trees_at list.old.items ++ operands_of (tree_of elem.now)) }
{
    let mut types = operands_of(alloc, elem)?;
    list.append(&mut types)?;
    Ok(())
}
