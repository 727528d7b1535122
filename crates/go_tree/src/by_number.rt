// A node by its number.
ghost use Rattle.std.specs.Prelude.{◌≡◌, map, option_map};
ghost use Rattle.go_tree.specs.Tree.{tree_of, trees_of};
ghost use Rattle.go_tree.specs.Find.{found_in, found_among};

use crate::node::{File, Node, NodeId};

/// The node of the file with that number; None exactly where it has no such node.
pub fn find(file: &File, id: NodeId) -> Option<&Node>
    ensures { option_map (λ n. tree_of n.now) result ≡ found_in id.0 (tree_of file.now.root) }
{
    find_below(&file.root, id)
}

#[cycle(find_below)]
fn find_below(node: &Node, id: NodeId) -> Option<&Node>
    ensures { option_map (λ n. tree_of n.now) result ≡ found_in id.0 (tree_of node.now) }
{
    if node.id() == id {
        return Some(node);
    }
    find_among(node.parts(), id)
}

#[cycle(find_below)]
fn find_among(nodes: &[Node], id: NodeId) -> Option<&Node>
    ensures { option_map (λ n. tree_of n.now) result ≡ found_among id.0 (trees_of (map tree_of nodes.now)) }
{
    for node in nodes {
        if let Some(found) = find_below(node, id) {
            return Some(found);
        }
    }
    None
}
