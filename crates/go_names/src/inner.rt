// The parts of a node in which identifiers occur, and nodes stand that can have records (Go specification,
// "Expressions", "Types", "Statements").
ghost use Rattle.std.specs.Prelude.{◌≡◌, ◌++◌, not, IfOk, OnOk, filter, map};
ghost use Rattle.std.specs.List.{list_any};
ghost use Rattle.go_tree.specs.Tree.{tree_of, kind_of};
ghost use Rattle.go_module.specs.Names.Inner as spec;
ghost use Rattle.go_names.specs.Views.{trees_at};

use go_base::NoMemory;
use go_module::{Inner, part_list};
use go_tree::{Node, NodeKind};
use std::alloc::Global;

/// The parts of a node in which identifiers occur, and nodes stand that can have records, in source order. An error
/// is want of memory.
#[tactic(auto, using(crate::proofs::InnerLemmas::inner_lemmas))]
pub fn inner_parts<'a>(alloc: Global, node: &'a Node) -> Result<Vec<&'a Node>, NoMemory>
    ensures { IfOk result (λ parts. trees_at parts.items ≡ spec.inner_parts (tree_of node.now)) }
{
    let mut inner = Vec::new(alloc);
    push_inner(inner_of(node.kind()), part_list(node), &mut inner)?;
    Ok(inner)
}

fn inner_of(kind: NodeKind) -> Inner
    ensures { result ≡ spec.inner_of kind }
{
    match kind {
        NodeKind::SelectorExpr => Inner::First,
        NodeKind::Field => Inner::BehindNames,
        NodeKind::EmbeddedField => Inner::First,
        NodeKind::EmbeddedPointer => Inner::First,
        NodeKind::MethodElem => Inner::BehindFirst,
        NodeKind::Params => Inner::TypesAlone,
        NodeKind::Param => Inner::BehindFirst,
        NodeKind::VariadicParam => Inner::BehindFirst,
        NodeKind::TypeParam => Inner::Last,
        NodeKind::KeyValueExpr => Inner::BehindKey,
        NodeKind::LabeledStmt => Inner::BehindFirst,
        NodeKind::BreakStmt => Inner::Neither,
        NodeKind::ContinueStmt => Inner::Neither,
        NodeKind::GotoStmt => Inner::Neither,
        _ => Inner::All,
    }
}

// Pushes those that stand for these parts.
fn push_inner<'a>(
    which: Inner,
    parts: &'a [Node],
    inner: &mut Vec<&'a Node>,
) -> Result<(), NoMemory>
    ensures { OnOk result (trees_at inner.new.items
        ≡ trees_at inner.old.items ++ map tree_of (spec.inner_by tree_of which parts.now)) }
{
    match which {
        Inner::All => push_all(parts, inner),
        Inner::First => push_all(first_alone(parts), inner),
        Inner::Last => push_all(last_alone(parts), inner),
        Inner::BehindFirst => push_all(all_behind(parts), inner),
        Inner::BehindNames => push_all(behind_names(parts), inner),
        Inner::BehindKey => push_all(behind_key(parts), inner),
        Inner::TypesAlone => push_types(parts, inner),
        Inner::Neither => Ok(()),
    }
}

/// Pushes these nodes.
pub fn push_all<'a>(nodes: &'a [Node], list: &mut Vec<&'a Node>) -> Result<(), NoMemory>
    ensures { OnOk result (trees_at list.new.items ≡ trees_at list.old.items ++ map tree_of nodes.now) }
{
    for node in nodes {
        list.push(node)?;
    }
    Ok(())
}

#[tactic(auto, using(crate::proofs::InnerLemmas::alone_lemmas))]
fn first_alone(parts: &[Node]) -> &[Node]
    ensures { result.now ≡ spec.first_alone tree_of parts.now }
{
    match parts {
        [_, ..] => &parts[..1],
        [] => parts,
    }
}

#[tactic(auto, using(crate::proofs::InnerLemmas::alone_lemmas))]
fn last_alone(parts: &[Node]) -> &[Node]
    ensures { result.now ≡ spec.last_alone tree_of parts.now }
{
    match parts {
        [.., _] => &parts[parts.len() - 1..],
        [] => parts,
    }
}

#[tactic(auto, using(crate::proofs::InnerLemmas::alone_lemmas))]
fn all_behind(parts: &[Node]) -> &[Node]
    ensures { result.now ≡ spec.all_behind tree_of parts.now }
{
    match parts {
        [_, behind @ ..] => behind,
        [] => parts,
    }
}

#[tactic(auto, using(crate::proofs::InnerLemmas::alone_lemmas))]
fn behind_key(parts: &[Node]) -> &[Node]
    ensures { result.now ≡ spec.behind_key tree_of parts.now }
{
    match parts {
        [key, behind @ ..] if is_name(key) => behind,
        _ => parts,
    }
}

// The last part that is no tag.
fn behind_names(parts: &[Node]) -> &[Node]
    ensures { result.now ≡ spec.last_alone tree_of
        (filter (λ part. not (spec.is_tag_kind (kind_of (tree_of part)))) parts.now) }
{
    let mut last = &parts[..0];
    for i in 0..parts.len() {
        if !is_tag(&parts[i]) {
            last = &parts[i..i + 1];
        }
    }
    last
}

// Pushes the parts without the names of parameters that have the next type.
fn push_types<'a>(parts: &'a [Node], inner: &mut Vec<&'a Node>) -> Result<(), NoMemory>
    ensures { OnOk result (trees_at inner.new.items
        ≡ trees_at inner.old.items ++ map tree_of (spec.types_alone tree_of parts.now)) }
{
    if has_named(parts) {
        push_but_unnamed(parts, inner)
    } else {
        push_all(parts, inner)
    }
}

/// Whether some part is a parameter with a name and a type.
pub fn has_named(parts: &[Node]) -> bool
    ensures { result ≡ list_any (λ part. spec.is_named_param (kind_of (tree_of part))) parts.now }
{
    parts.iter().any(|part| is_named_param(part))
}

fn push_but_unnamed<'a>(parts: &'a [Node], inner: &mut Vec<&'a Node>) -> Result<(), NoMemory>
    ensures { OnOk result (trees_at inner.new.items ≡ trees_at inner.old.items ++ map tree_of
        (filter (λ part. not (spec.is_unnamed_param (kind_of (tree_of part)))) parts.now)) }
{
    for part in parts {
        if !is_unnamed_param(part) {
            inner.push(part)?;
        }
    }
    Ok(())
}

fn is_name(node: &Node) -> bool
    ensures { result ≡ spec.is_name_kind (kind_of (tree_of node.now)) }
{
    matches!(node.kind(), NodeKind::Name)
}

/// Whether a node is the tag of a field.
pub fn is_tag(node: &Node) -> bool
    ensures { result ≡ spec.is_tag_kind (kind_of (tree_of node.now)) }
{
    matches!(node.kind(), NodeKind::StringLit)
}

/// Whether a node is a parameter with a name and a type.
pub fn is_named_param(node: &Node) -> bool
    ensures { result ≡ spec.is_named_param (kind_of (tree_of node.now)) }
{
    matches!(node.kind(), NodeKind::Param | NodeKind::VariadicParam)
}

/// Whether a node is a parameter that is written as one type, or as one identifier.
pub fn is_unnamed_param(node: &Node) -> bool
    ensures { result ≡ spec.is_unnamed_param (kind_of (tree_of node.now)) }
{
    matches!(node.kind(), NodeKind::UnnamedParam)
}
