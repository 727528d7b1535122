// All that a file breaks by its form (Go specification, "Source file organization").
ghost use Rattle.std.specs.Prelude.{◌≡◌, ℕ, ◌++◌, [], ◌∷◌, false, IsTrue, OnOk, IfOk, map};
ghost use Rattle.std.specs.List.{flat_map};
ghost use Rattle.go_tree.specs.Lexical.Scan.{Gap};
ghost use Rattle.go_tree.specs.Tree.{tree_of, trees_of, start_of, parts_of};
ghost use Rattle.go_module.specs.Broken.{told};
ghost use Rattle.go_module.specs.Rules.{unbuilt_form};
ghost use Rattle.go_form.specs.AtNode.{broken_at_node};
ghost use Rattle.go_form.specs.Unbuilt.{unbuilt_in};
ghost use Rattle.go_form.specs.BuildConstraints.{GetsBuildConstraints};
ghost use Rattle.go_text.specs.CopyCount.{is_copy};
ghost use Rattle.go_form.specs.Whole.{written, written_among, broken_in_tree, broken_forms, AreBrokenForms};

use crate::at_node::broken_at_node;
use crate::build_constraints::build_constraints;
use crate::rules::BUILD_CONSTRAINT;
use crate::tell::tell_all;
use crate::unbuilt::unbuilt;
use go_base::{Broken, NoMemory};
use go_module::{UNBUILT_FORM, ordered};
use go_tree::{Node, NodeKind};
use std::alloc::Global;

/// The list of all that the file with that number breaks by its form, from its bytes and the root of its
/// tree. White space and whole comments lead up to the tree.
pub fn broken_forms(
    alloc: Global,
    file: usize,
    bytes: &[u8],
    root: &Node,
) -> Result<Vec<Broken>, NoMemory>
    requires { Gap false bytes.now 0 (start_of (tree_of root.now)) }
    ensures { IfOk result (λ list. AreBrokenForms file bytes.now (tree_of root.now) list.items) }
{
    let mut constraints = Vec::new(alloc);
    build_constraints(bytes, root.start(), &mut constraints)?;
    let mut found = Vec::new(alloc);
    tell_all(file, BUILD_CONSTRAINT, &constraints, &mut found)?;
    broken_in_tree(alloc, file, root, &mut found)?;
    Ok(ordered(found))
}

// Pushes what is broken in the tree.
fn broken_in_tree(
    alloc: Global,
    file: usize,
    root: &Node,
    found: &mut Vec<Broken>,
) -> Result<(), NoMemory>
    ensures { OnOk result (found.new.items ≡ found.old.items ++ broken_in_tree file (tree_of root.now)) }
{
    unbuilt_forms(alloc, file, root, found)?;
    broken_in(alloc, file, root, found)
}

fn unbuilt_forms(
    alloc: Global,
    file: usize,
    root: &Node,
    found: &mut Vec<Broken>,
) -> Result<(), NoMemory>
    ensures { OnOk result (found.new.items
        ≡ found.old.items ++ told file unbuilt_form (unbuilt_in (tree_of root.now))) }
{
    let mut places = Vec::new(alloc);
    unbuilt(root, &mut places)?;
    tell_all(file, UNBUILT_FORM, &places, found)
}

// Pushes what is broken at each node that is written, from this one on.
#[cycle(written)]
fn broken_in(
    alloc: Global,
    file: usize,
    node: &Node,
    found: &mut Vec<Broken>,
) -> Result<(), NoMemory>
    ensures { OnOk result (found.new.items
        ≡ found.old.items ++ flat_map (broken_at_node file) (written (tree_of node.now))) }
{
    if is_copy(node.kind()) || is_bare_name(node) {
        return Ok(());
    }
    broken_from(alloc, file, node, found)
}

// Whether a node of that kind is the copy of a list that a constant spec omits.
fn is_copy(kind: NodeKind) -> bool
    ensures { result ≡ is_copy kind }
{
    match kind {
        NodeKind::ConstCopy => true,
        _ => false,
    }
}

// Whether it is a name, as most nodes are: nothing is broken there.
fn is_bare_name(node: &Node) -> bool
    ensures { IsTrue result → (file : ℕ) → flat_map (broken_at_node file) (written (tree_of node.now)) ≡ [] }
{
    node.is(NodeKind::Name) && node.parts().is_empty()
}

#[cycle(written)]
fn broken_from(
    alloc: Global,
    file: usize,
    node: &Node,
    found: &mut Vec<Broken>,
) -> Result<(), NoMemory>
    ensures { OnOk result (found.new.items ≡ found.old.items ++ flat_map (broken_at_node file)
        (tree_of node.now ∷ written_among (parts_of (tree_of node.now)))) }
{
    broken_at_node(alloc, file, node, found)?;
    broken_among(alloc, file, node.parts(), found)
}

#[cycle(written)]
fn broken_among(
    alloc: Global,
    file: usize,
    nodes: &[Node],
    found: &mut Vec<Broken>,
) -> Result<(), NoMemory>
    ensures { OnOk result (found.new.items ≡ found.old.items
        ++ flat_map (broken_at_node file) (written_among (trees_of (map tree_of nodes.now)))) }
{
    for node in nodes {
        broken_in(alloc, file, node, found)?;
    }
    Ok(())
}
