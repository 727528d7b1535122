// The first and the last part of a node.
ghost use Rattle.std.specs.Prelude.{◌≡◌};
ghost use Rattle.go_tree.specs.Tree.{tree_of};
ghost use Rattle.go_module.specs.NodeParts as spec;

use go_tree::Node;

/// The first part of a node, or the node itself where it has none.
#[tactic(auto, using(crate::proofs::PartLemmas::part_lemmas))]
pub fn first_part(node: &Node) -> &Node
    ensures { tree_of result.now ≡ spec.first_part (tree_of node.now) }
{
    match node.parts() {
        [first, ..] => first,
        [] => node,
    }
}

/// The last part of a node, or the node itself where it has none.
#[tactic(auto, using(crate::proofs::PartLemmas::part_lemmas))]
pub fn last_part(node: &Node) -> &Node
    ensures { tree_of result.now ≡ spec.last_part (tree_of node.now) }
{
    match node.parts() {
        [.., last] => last,
        [] => node,
    }
}
