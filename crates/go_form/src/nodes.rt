// Tests and places of nodes.
ghost use Rattle.std.specs.Prelude.{◌≡◌, ◌++◌, OnOk, option_to_list};
ghost use Rattle.go_tree.specs.Tree.{tree_of};
ghost use Rattle.go_tree.specs.Grammar.Trees.TypeTrees.{is_name};
ghost use Rattle.go_form.specs.Families.Nodes as nodes;

use go_base::NoMemory;
use go_tree::{Node, NodeKind};

/// Whether the node is an identifier.
pub fn is_name(node: &Node) -> bool
    ensures { result ≡ is_name (tree_of node.now) }
{
    match node.kind() {
        NodeKind::Name => true,
        _ => false,
    }
}

/// The node's place, where it breaks a rule.
pub fn place_if(node: &Node, broken: bool) -> Option<usize>
    ensures { option_to_list result ≡ nodes.place_if broken (tree_of node.now) }
{
    if broken { Some(node.start()) } else { None }
}

/// Pushes the node's place, where it breaks a rule.
pub fn push_if(node: &Node, broken: bool, found: &mut Vec<usize>) -> Result<(), NoMemory>
    ensures { OnOk result (found.new.items
        ≡ found.old.items ++ nodes.place_if broken (tree_of node.now)) }
{
    push_place(place_if(node, broken), found)
}

/// Pushes a place, if any.
pub fn push_place(place: Option<usize>, found: &mut Vec<usize>) -> Result<(), NoMemory>
    ensures { OnOk result (found.new.items ≡ found.old.items ++ option_to_list place) }
{
    if let Some(place) = place {
        found.push(place)?;
    }
    Ok(())
}
