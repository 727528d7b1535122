// Which nodes are written as types are.
ghost use Rattle.std.specs.Prelude.{◌≡◌, map, reverse};
ghost use Rattle.go_tree.specs.Tree.{tree_of, trees_of};
ghost use Rattle.go_tree.specs.Grammar.Trees.TypeTrees.{is_name, is_type_name, is_type, all_types};
ghost use Rattle.go_tree.specs.Grammar.Trees.Reading.{ends_in_type, newest_is_type};
ghost use Rattle.go_parse_x.specs.Tables.Opened.{frames, tree_without, all_unnumbered};
ghost use Rattle.go_parse_x.specs.Tables.TypeParts.{shape_of, has_shape, first_is_name, is_instance, is_channel, first_is_channel};

use crate::opened::OpenNode;
use go_tree::{Node, NodeKind};

/// What the parts of a node have to be for it to be a type.
#[derive(Clone, Copy)]
pub enum TypeShape {
    /// whatever they are
    Always,
    /// the first is a name: `p.T`
    Qualified,
    /// a type name and its arguments: `T[A]`
    Instance,
    /// all are types: `*T`, `(T)`
    OfTypes,
    /// the first is a channel of types: `<-chan T`
    Receives,
    /// no parts make it a type
    Never,
}

/// Whether the newest part of the innermost open node is written as a type is.
pub fn ends_in_type(opened: &[OpenNode]) -> bool
    ensures { result ≡ ends_in_type (frames opened.now) }
{
    match opened.last() {
        None => false,
        Some(inner) => last_is_type(&inner.parts),
    }
}

/// Whether the last of the nodes is written as a type is.
fn last_is_type(nodes: &[Node]) -> bool
    ensures { result ≡ newest_is_type (reverse (map tree_without nodes.now)) }
{
    match nodes.last() {
        None => false,
        Some(newest) => is_type(newest),
    }
}

/// What its parts have to be for a node of that kind to be a type.
fn shape_of(kind: NodeKind) -> TypeShape
    ensures { result ≡ shape_of kind }
{
    match kind {
        NodeKind::SelectorExpr => TypeShape::Qualified,
        NodeKind::IndexExpr => TypeShape::Instance,
        NodeKind::ParenExpr | NodeKind::StarExpr => TypeShape::OfTypes,
        NodeKind::ArrowExpr => TypeShape::Receives,
        NodeKind::Name
        | NodeKind::ArrayType
        | NodeKind::EllipsisArrayType
        | NodeKind::SliceType
        | NodeKind::MapType
        | NodeKind::ChanType
        | NodeKind::FuncType
        | NodeKind::StructType
        | NodeKind::InterfaceType => TypeShape::Always,
        _ => TypeShape::Never,
    }
}

/// Whether the node is a name.
#[tactic(auto, using(crate::proofs::TypeTreeLemmas::name_from_kind))]
fn is_name(node: &Node) -> bool
    ensures { result ≡ is_name (tree_without node.now) }
{
    node.is(NodeKind::Name)
}

/// Whether the first of the nodes is a name.
fn first_is_name(nodes: &[Node]) -> bool
    ensures { result ≡ first_is_name (all_unnumbered (trees_of (map tree_of nodes.now))) }
{
    match nodes.split_first() {
        None => false,
        Some((first, _)) => is_name(first),
    }
}

/// Whether the node is written as `T` and `p.T` are.
#[tactic(auto, using(crate::proofs::TypeTreeLemmas::type_name_by_kind))]
fn is_type_name(node: &Node) -> bool
    ensures { result ≡ is_type_name (tree_without node.now) }
{
    match node.kind() {
        NodeKind::Name => true,
        NodeKind::SelectorExpr => first_is_name(node.parts()),
        _ => false,
    }
}

/// Whether the node is written as a type is.
#[cycle(is_type)]
#[tactic(auto, using(crate::proofs::TypeTreeLemmas::type_by_shape))]
pub fn is_type(node: &Node) -> bool
    ensures { result ≡ is_type (tree_without node.now) }
{
    match shape_of(node.kind()) {
        TypeShape::Always => true,
        TypeShape::Qualified => first_is_name(node.parts()),
        TypeShape::Instance => is_instance(node.parts()),
        TypeShape::OfTypes => all_types(node.parts()),
        TypeShape::Receives => first_is_channel(node.parts()),
        TypeShape::Never => false,
    }
}

/// Whether they are a type name and its arguments.
#[cycle(is_type)]
fn is_instance(nodes: &[Node]) -> bool
    ensures { result ≡ is_instance (all_unnumbered (trees_of (map tree_of nodes.now))) }
{
    match nodes.split_first() {
        None => false,
        Some((first, rest)) => is_type_name(first) && all_types(rest),
    }
}

/// Whether the first of the nodes is a channel of types.
#[cycle(is_type)]
fn first_is_channel(nodes: &[Node]) -> bool
    ensures { result ≡ first_is_channel (all_unnumbered (trees_of (map tree_of nodes.now))) }
{
    match nodes.split_first() {
        None => false,
        Some((first, _)) => is_channel(first),
    }
}

/// Whether the node is a channel of types.
#[cycle(is_type)]
#[tactic(auto, using(crate::proofs::TypeTreeLemmas::channel_by_kind))]
fn is_channel(node: &Node) -> bool
    ensures { result ≡ is_channel (tree_without node.now) }
{
    match node.kind() {
        NodeKind::ChanType => all_types(node.parts()),
        _ => false,
    }
}

/// Whether all the nodes are written as types are.
#[cycle(is_type)]
fn all_types(nodes: &[Node]) -> bool
    ensures { result ≡ all_types (all_unnumbered (trees_of (map tree_of nodes.now))) }
{
    for node in nodes {
        if !is_type(node) {
            return false;
        }
    }
    true
}
