// The nodes of expressions and types (Go specification, "Expressions", "Types").
ghost use Rattle.std.specs.Prelude.{◌≡◌, ◌++◌, IfOk, OnOk};
ghost use Rattle.go_tree.specs.Tree.{tree_of};
ghost use Rattle.go_module.specs.Names.Occurrences.{nodes_in};
ghost use Rattle.go_names.specs.Views.{trees_at};

use crate::inner::inner_parts;
use go_base::NoMemory;
use go_tree::Node;
use std::alloc::Global;

/// The nodes of an expression or a type, a node before its parts. An error is want of memory.
pub fn nodes_in<'a>(alloc: Global, node: &'a Node) -> Result<Vec<&'a Node>, NoMemory>
    ensures { IfOk result (λ list. trees_at list.items ≡ nodes_in (tree_of node.now)) }
{
    let mut list = Vec::new(alloc);
    push_nodes(alloc, node, &mut list)?;
    Ok(list)
}

// Pushes the nodes of an expression or a type.
fn push_nodes<'a>(alloc: Global, node: &'a Node, list: &mut Vec<&'a Node>) -> Result<(), NoMemory>
    ensures { OnOk result (trees_at list.new.items ≡ trees_at list.old.items ++ nodes_in (tree_of node.now)) }
{
    list.push(node)?;
    let inner = inner_parts(alloc, node)?;
    for part in &inner {
        push_nodes(alloc, part, list)?;
    }
    Ok(())
}
