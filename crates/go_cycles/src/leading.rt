// To which names the right side of a type declaration leads (Go specification, "Type declarations", "Interface types").
ghost use Rattle.std.specs.Prelude.{◌≡◌, ◌++◌, IfOk, OnOk, filter, map};
ghost use Rattle.go_tree.specs.Tree.{kind_of, tree_of, trees_of};
ghost use Rattle.go_module.specs.Names.Inner.{is_name_kind};
ghost use Rattle.go_names.specs.Views.{declaration_view, declarations_view};
ghost use Rattle.go_cycles.specs.Leading as spec;

use go_base::NoMemory;
use go_module::ObjKind;
use go_names::Declaration;
use go_tree::{Node, NodeId, NodeKind};
use std::alloc::Global;

/// How a right side leads to a name.
#[derive(Clone, Copy, Debug, PartialEq, Eq)]
pub enum Way {
    /// it is the name
    Naming,
    /// it is the name, or an interface literal that embeds it
    Embedding,
}

/// The type definitions and the aliases among these. An error is want of memory.
pub fn types_in<'a>(
    alloc: Global,
    declarations: &[Declaration<'a>],
) -> Result<Vec<Declaration<'a>>, NoMemory>
    ensures { IfOk result (λ types.
        declarations_view types.items ≡ filter spec.is_type (declarations_view declarations.now)) }
{
    let mut types = Vec::new(alloc);
    for declaration in declarations {
        if is_type(declaration) {
            types.push(*declaration)?;
        }
    }
    Ok(types)
}

fn is_type(declaration: &Declaration) -> bool
    ensures { result ≡ spec.is_type (declaration_view declaration.now) }
{
    matches!(declaration.kind, ObjKind::Defined | ObjKind::Alias)
}

/// The names to which the right side of a declaration leads, each by its node. An error is want of memory.
pub fn names_of(alloc: Global, way: Way, declaration: &Declaration) -> Result<Vec<NodeId>, NoMemory>
    ensures { IfOk result (λ names. names.items ≡ spec.names_of way (declaration_view declaration.now)) }
{
    let mut names = Vec::new(alloc);
    push_names_in_each(way, declaration.types, &mut names)?;
    Ok(names)
}

// Pushes the names to which a type leads.
#[cycle(push_names_in)]
fn push_names_in(way: Way, node: &Node, names: &mut Vec<NodeId>) -> Result<(), NoMemory>
    ensures { OnOk result (names.new.items ≡ names.old.items ++ spec.names_in way (tree_of node.now)) }
{
    if is_name(node) {
        names.push(node.id())?;
    } else if holds(way, node.kind()) {
        push_names_in_each(way, node.parts(), names)?;
    }
    Ok(())
}

// Pushes those of each of these types.
#[cycle(push_names_in)]
fn push_names_in_each(way: Way, nodes: &[Node], names: &mut Vec<NodeId>) -> Result<(), NoMemory>
    ensures { OnOk result (names.new.items
        ≡ names.old.items ++ spec.names_in_each way (trees_of (map tree_of nodes.now))) }
{
    for node in nodes {
        push_names_in(way, node, names)?;
    }
    Ok(())
}

fn is_name(node: &Node) -> bool
    ensures { result ≡ is_name_kind (kind_of (tree_of node.now)) }
{
    matches!(node.kind(), NodeKind::Name)
}

// Whether a node of this kind stands for the types in it.
fn holds(way: Way, kind: NodeKind) -> bool
    ensures { result ≡ spec.holds way kind }
{
    match way {
        Way::Naming => matches!(kind, NodeKind::ParenExpr),
        Way::Embedding => matches!(
            kind,
            NodeKind::ParenExpr | NodeKind::InterfaceType | NodeKind::Union | NodeKind::TildeType
        ),
    }
}
