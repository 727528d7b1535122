// How many nodes the copies of omitted lists will have, told before any is made (Go specification,
// "Constant declarations").
ghost use Rattle.std.specs.Prelude.{◌≡◌, ◌≤◌, ◌↔◌, ◌++◌, ◌∷◌, [], ℕ, List, IsTrue, map};
ghost use Rattle.go_tree.specs.Tree.{Tree, Trees, branch, no_trees, tree_of, trees_of, node_count_of_all};
ghost use Rattle.go_text.specs.Copies.{with_copies, all_with_copies, specs_with_copies, completed, list_behind};
ghost use Rattle.go_text.specs.CopyCount.{most_copied_nodes, copied_nodes, is_copy};
ghost use Rattle.go_parse_s.specs.Counted.{capped, AreCounts, AreCountsOfAll};

use crate::copies::is_group;
use go_tree::{Node, NodeKind};

/// The greatest number of nodes that the copies of a file have together.
pub const MOST_COPIED_NODES: usize = 8_388_608;

/// Whether the copies of all lists that are omitted below the node have at most so many nodes together.
pub fn copies_fit(node: &Node) -> bool
    ensures { IsTrue result ↔ (copied_nodes (with_copies (tree_of node.now)) ≤ most_copied_nodes) }
{
    count(node).copied <= MOST_COPIED_NODES
}

// Numbers of nodes, with the copies that will be made; the greatest usize stands for more.
#[derive(Clone, Copy, Debug, PartialEq, Eq)]
struct Counts {
    nodes: usize,
    // behind the first part: of a constant spec, its list
    list: usize,
    // in copies
    copied: usize,
}

const NO_NODES: Counts = Counts {
    nodes: 0,
    list: 0,
    copied: 0,
};

// A node with its copies.
#[cycle(count)]
fn count(node: &Node) -> Counts
    ensures { AreCounts result (with_copies (tree_of node.now)) }
{
    let parts = if is_group(node.kind()) {
        count_specs(node.parts())
    } else {
        count_all(node.parts())
    };
    node_above(node.kind(), parts)
}

#[cycle(count)]
fn count_all(parts: &[Node]) -> Counts
    ensures { AreCountsOfAll result (all_with_copies (trees_of (map tree_of parts.now))) }
{
    let mut all = NO_NODES;
    for part in parts {
        all = and_one(all, count(part));
    }
    all
}

// The specs of a group.
#[cycle(count)]
fn count_specs(specs: &[Node]) -> Counts
    ensures { AreCountsOfAll result (specs_with_copies no_trees (trees_of (map tree_of specs.now))) }
{
    let mut all = NO_NODES;
    let mut list = 0;
    for spec in specs {
        let own = count(spec);
        all = and_one(all, complete(own, list));
        list = list_of(own, list);
    }
    all
}

// One tree more.
fn and_one(all: Counts, one: Counts) -> Counts
    ensures { (ts : List Tree) (t : Tree) → AreCountsOfAll all (trees_of ts) → AreCounts one t → AreCountsOfAll result (trees_of (ts ++ t ∷ [])) }
{
    Counts {
        nodes: all.nodes.saturating_add(one.nodes),
        list: if all.nodes == 0 {
            0
        } else {
            all.list.saturating_add(one.nodes)
        },
        copied: all.copied.saturating_add(one.copied),
    }
}

// The node with those parts.
fn node_above(kind: NodeKind, parts: Counts) -> Counts
    ensures { (id from to : ℕ) (text : List ℕ) (ts : Trees) → AreCountsOfAll parts ts → AreCounts result (branch id from to kind text ts) }
{
    let nodes = parts.nodes.saturating_add(1);
    Counts {
        nodes,
        list: parts.list,
        copied: if is_copy(kind) { nodes } else { parts.copied },
    }
}

// The spec with a copy of the list before, where it has its names alone.
fn complete(spec: Counts, list: usize) -> Counts
    ensures { (t : Tree) (before : Trees) → AreCounts spec t → list ≡ capped (node_count_of_all before) → AreCounts result (completed before t) }
{
    if spec.nodes == 1 || spec.list > 0 || list == 0 {
        return spec;
    }
    let copy = list.saturating_add(1);
    Counts {
        nodes: spec.nodes.saturating_add(copy),
        list: copy,
        copied: spec.copied.saturating_add(copy),
    }
}

// The list of the spec, or the list before where it has none.
fn list_of(spec: Counts, list: usize) -> usize
    ensures { (t : Tree) (before : Trees) → AreCounts spec t → list ≡ capped (node_count_of_all before) → result ≡ capped (node_count_of_all (list_behind before t)) }
{
    if spec.list > 0 { spec.list } else { list }
}

fn is_copy(kind: NodeKind) -> bool
    ensures { result ≡ is_copy kind }
{
    match kind {
        NodeKind::ConstCopy => true,
        _ => false,
    }
}
