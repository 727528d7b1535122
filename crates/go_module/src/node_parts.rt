// The parts of a node as a list.
ghost use Rattle.std.specs.Prelude.{◌≡◌, IfSome, IsSome, map};
ghost use Rattle.go_tree.specs.Tree.{Tree, tree_of, parts_of, list_of, more_trees, no_trees};
ghost use Rattle.go_module.specs.NodeParts as parts;

use go_tree::Node;

/// The parts of a node, in source order.
#[tactic(auto, using(crate::proofs::PartLemmas::list_lemmas))]
pub fn part_list(node: &Node) -> &[Node]
    ensures { map tree_of result.now ≡ list_of (parts_of (tree_of node.now)) }
{
    node.parts()
}

/// The parts of a node behind the first.
#[tactic(auto, using(crate::proofs::PartLemmas::list_lemmas))]
pub fn all_but_first(node: &Node) -> &[Node]
    ensures { map tree_of result.now ≡ parts.all_but_first (parts_of (tree_of node.now)) }
{
    match node.parts() {
        [_, parts @ ..] => parts,
        [] => &[],
    }
}

/// The three parts of a node, where it has three.
#[tactic(auto, using(crate::proofs::PartLemmas::list_lemmas))]
pub fn three_parts(node: &Node) -> Option<(&Node, &Node, &Node)>
    ensures some { IfSome result (λ p. parts_of (tree_of node.now) ≡ more_trees (tree_of p.0.now)
        (more_trees (tree_of p.1.now) (more_trees (tree_of p.2.now) no_trees))) }
    ensures none { (a b c : Tree) → parts_of (tree_of node.now)
        ≡ more_trees a (more_trees b (more_trees c no_trees)) → IsSome result }
{
    match node.parts() {
        [a, b, c] => Some((a, b, c)),
        _ => None,
    }
}
