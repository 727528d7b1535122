// The lists that constant specs omit (Go specification, "Constant declarations").
ghost use Rattle.std.specs.Prelude.{◌≡◌, ◌++◌, IfOk, OnOk, map, option_map};
ghost use Rattle.go_tree.specs.Tree.{tree_of, trees_of, list_of, no_trees};
ghost use Rattle.go_text.specs.Copies.{with_copies, all_with_copies, specs_with_copies, completed, list_behind, copy_if_any, copy_of, last_end, is_group};

use go_base::{Bytes, NoMemory};
use go_tree::{Node, NodeId, NodeKind};
use std::alloc::Global;

/// Gives each constant spec below the node that omits its list a copy of the list before it.
#[cycle(copies)]
pub fn add_copies(alloc: Global, node: &mut Node) -> Result<(), NoMemory>
    ensures { OnOk result (tree_of node.new ≡ with_copies (tree_of node.old)) }
{
    if is_group(node.kind) {
        add_to_specs(alloc, &mut node.parts)
    } else {
        add_to_all(alloc, &mut node.parts)
    }
}

/// Whether specs may omit their lists in a node of that kind.
pub fn is_group(kind: NodeKind) -> bool
    ensures { result ≡ is_group kind }
{
    match kind {
        NodeKind::ConstGroup => true,
        _ => false,
    }
}

#[cycle(copies)]
fn add_to_all(alloc: Global, parts: &mut [Node]) -> Result<(), NoMemory>
    ensures { OnOk result (trees_of (map tree_of parts.new) ≡ all_with_copies (trees_of (map tree_of parts.old))) }
{
    for part in parts.iter_mut() {
        add_copies(alloc, part)?;
    }
    Ok(())
}

// The specs of a group.
#[cycle(copies)]
fn add_to_specs(alloc: Global, specs: &mut [Node]) -> Result<(), NoMemory>
    ensures { OnOk result (trees_of (map tree_of specs.new) ≡ specs_with_copies no_trees (trees_of (map tree_of specs.old))) }
{
    let mut list = Vec::new(alloc);
    for spec in specs.iter_mut() {
        add_copies(alloc, spec)?;
        complete(alloc, spec, &mut list)?;
    }
    Ok(())
}

// The spec gets a copy of the list before where it omits its own; else its own is the next one's.
fn complete(alloc: Global, spec: &mut Node, list: &mut Vec<Node>) -> Result<(), NoMemory>
    ensures spec { OnOk result (tree_of spec.new ≡ completed (trees_of (map tree_of list.old.items)) (tree_of spec.old)) }
    ensures list { OnOk result (trees_of (map tree_of list.new.items) ≡ list_behind (trees_of (map tree_of list.old.items)) (tree_of spec.old)) }
{
    match spec.parts.as_slice() {
        [] => Ok(()),
        [_] => {
            push_copy(alloc, &mut spec.parts, list)?;
            Ok(())
        }
        [_, own @ ..] => {
            *list = all_again(alloc, own)?;
            Ok(())
        }
    }
}

// A copy of the list, where there is one, becomes the second part.
fn push_copy(alloc: Global, parts: &mut Vec<Node>, list: &[Node]) -> Result<(), NoMemory>
    ensures { OnOk result (map tree_of parts.new.items ≡ map tree_of parts.old.items ++ list_of (copy_if_any (trees_of (map tree_of list.now)))) }
{
    match list {
        [] => Ok(()),
        [first, others @ ..] => {
            parts.push(copy_of(alloc, first, others)?)?;
            Ok(())
        }
    }
}

// The node of a copied list.
fn copy_of(alloc: Global, first: &Node, others: &[Node]) -> Result<Node, NoMemory>
    ensures { IfOk result (λ copy. tree_of copy ≡ copy_of (tree_of first.now) (trees_of (map tree_of others.now))) }
{
    let mut parts = vec![in alloc; again(alloc, first)?]?;
    for other in others {
        parts.push(again(alloc, other)?)?;
    }
    Ok(Node {
        id: NodeId(0),
        start: first.start(),
        end: last_end(first, others),
        kind: NodeKind::ConstCopy,
        text: Bytes::new(Vec::new(alloc)),
        parts,
    })
}

fn last_end(first: &Node, others: &[Node]) -> usize
    ensures { result ≡ last_end (tree_of first.now) (trees_of (map tree_of others.now)) }
{
    let mut end = first.end();
    for other in others {
        end = other.end();
    }
    end
}

// The same tree once more.
#[cycle(again)]
fn again(alloc: Global, node: &Node) -> Result<Node, NoMemory>
    ensures { IfOk result (λ copy. tree_of copy ≡ tree_of node.now) }
{
    Ok(Node {
        id: node.id,
        start: node.start,
        end: node.end,
        kind: node.kind,
        text: Bytes::new(node.text().to_vec(alloc)?),
        parts: all_again(alloc, node.parts())?,
    })
}

#[cycle(again)]
fn all_again(alloc: Global, nodes: &[Node]) -> Result<Vec<Node>, NoMemory>
    ensures { IfOk result (λ copies. map tree_of copies.items ≡ map tree_of nodes.now) }
{
    let mut copies = Vec::new(alloc);
    for node in nodes {
        copies.push(again(alloc, node)?)?;
    }
    Ok(copies)
}
