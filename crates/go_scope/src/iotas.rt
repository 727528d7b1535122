// The numbers of the identifiers `iota` (Go specification, "Iota").
ghost use Rattle.std.specs.Prelude.{◌≡◌, [], IfOk, None, OnOk, map};
ghost use Rattle.std.specs.List.{flat_map};
ghost use Rattle.indexmap.specs.IndexMap.{insert_all};
ghost use Rattle.go_tree.specs.Tree.{id_of, kind_of, text_of, tree_of, trees_of};
ghost use Rattle.go_module.specs.Modules.Module.{file_view};
ghost use Rattle.go_module.specs.Names.Iotas as spec;
ghost use Rattle.go_module.specs.Scopes.{same_node};

use go_base::NoMemory;
use go_module::SourceFile;
use go_tree::{Node, NodeId, NodeKind};
use indexmap::IndexMap;
use std::alloc::Global;

/// Each identifier `iota` in constant specs of these files, with its number. An error is want of memory.
pub fn iotas_of(alloc: Global, files: &[SourceFile]) -> Result<IndexMap<NodeId, usize>, NoMemory>
    ensures { IfOk result (λ iotas. iotas.entries ≡ insert_all same_node []
        (flat_map (λ f. spec.iotas_in None f.tree) (map file_view files.now))) }
{
    let mut iotas = IndexMap::new(alloc);
    for file in files {
        add_iotas(None, &file.tree.root, &mut iotas)?;
    }
    Ok(iotas)
}

// Adds those in a node, with the number of the spec around it.
#[cycle(add_iotas)]
fn add_iotas(
    around: Option<usize>,
    node: &Node,
    iotas: &mut IndexMap<NodeId, usize>,
) -> Result<(), NoMemory>
    ensures { OnOk result (iotas.new.entries
        ≡ insert_all same_node iotas.old.entries (spec.iotas_in around (tree_of node.now))) }
{
    add_own(around, node, iotas)?;
    add_in_parts(has_specs(node.kind()), around, node.parts(), iotas)
}

// Adds the node itself, where it is an identifier `iota`.
fn add_own(
    around: Option<usize>,
    node: &Node,
    iotas: &mut IndexMap<NodeId, usize>,
) -> Result<(), NoMemory>
    ensures { OnOk result (iotas.new.entries ≡ insert_all same_node iotas.old.entries
        (spec.iota_at around (id_of (tree_of node.now)) (kind_of (tree_of node.now)) (text_of (tree_of node.now)))) }
{
    if is_iota(node) {
        add_numbered(around, node.id(), iotas)
    } else {
        Ok(())
    }
}

// Adds an identifier with its number, where a constant spec stands around it.
fn add_numbered(
    around: Option<usize>,
    id: NodeId,
    iotas: &mut IndexMap<NodeId, usize>,
) -> Result<(), NoMemory>
    ensures { OnOk result (iotas.new.entries
        ≡ insert_all same_node iotas.old.entries (spec.numbered id.0 around)) }
{
    match around {
        Some(n) => {
            iotas.insert(id, n)?;
            Ok(())
        }
        None => Ok(()),
    }
}

// Adds those in parts of a node, which are constant specs or not.
#[cycle(add_iotas)]
fn add_in_parts(
    specs: bool,
    around: Option<usize>,
    parts: &[Node],
    iotas: &mut IndexMap<NodeId, usize>,
) -> Result<(), NoMemory>
    ensures { OnOk result (iotas.new.entries ≡ insert_all same_node iotas.old.entries
        (spec.iotas_in_parts specs around 0 (trees_of (map tree_of parts.now)))) }
{
    for (n, part) in parts.iter().enumerate() {
        add_iotas(if specs { Some(n) } else { around }, part, iotas)?;
    }
    Ok(())
}

// Whether it is the identifier `iota`.
fn is_iota(node: &Node) -> bool
    ensures { result ≡ spec.is_iota (kind_of (tree_of node.now)) (text_of (tree_of node.now)) }
{
    match node.kind() {
        NodeKind::Name => node.text() == b"iota".as_slice(),
        _ => false,
    }
}

// Whether the parts of a node of this kind are constant specs.
fn has_specs(kind: NodeKind) -> bool
    ensures { result ≡ spec.has_specs kind }
{
    match kind {
        NodeKind::ConstDecl | NodeKind::ConstGroup => true,
        _ => false,
    }
}
