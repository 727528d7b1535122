// What is demanded of the types in a node (Go specification, "Struct types", "Interface types", "General interfaces").
ghost use Rattle.std.specs.Prelude.{◌≡◌, ◌++◌, IfOk, IfSome, OnOk, map};
ghost use Rattle.std.specs.Option.{option_map};
ghost use Rattle.go_tree.specs.Tree.{kind_of, tree_of};
ghost use Rattle.go_names.specs.Views.{trees_at};
ghost use Rattle.go_judge.specs.Records as parts;
ghost use Rattle.go_judge.specs.Records.{rec_as};
ghost use Rattle.go_judge.specs.Types.Own.{IsOwnRec};
ghost use Rattle.go_obligations.specs.Owed.{AreOwnObligations, owed_at, owed_by_field, owed_by_fields, owed_by_literal, owed_by_node, owed_by_types, owed_view, written_by};
ghost use Rattle.go_obligations.specs.Read.{outcome_read};

use crate::components::components_of;
use crate::obligation::{Demand, Obligation};
use go_base::NoMemory;
use go_model::{ExprWalk, Mode, Outcome, Rec};
use go_module::part_list;
use go_names::Spec;
use go_operands::operands_of;
use go_term::Ty;
use go_tree::{Node, NodeKind};
use std::alloc::Global;

/// Pushes what is demanded of the types in a node of a spec: at a struct type of those of its embedded fields, told
/// at the fields; at an interface type of itself; and of its components. An error is want of memory.
pub(crate) fn push_node<W: ExprWalk>(
    alloc: Global,
    walks: &W,
    spec: &Spec,
    node: &Node,
    owed: &mut Vec<Obligation>,
) -> Result<(), NoMemory>
    requires { AreOwnObligations (W.is_type walks.now) owed.old.items }
    ensures own { OnOk result (AreOwnObligations (W.is_type walks.now) owed.new.items) }
    ensures owed { OnOk result (owed_view (W.tree walks.now) owed.new.items
        ≡ owed_view (W.tree walks.now) owed.old.items
        ++ owed_by_node (outcome_read (W.outcomes walks.now)) spec.now.file spec.now.told_at (tree_of node.now)) }
{
    push_literal(alloc, walks, spec, node, owed)?;
    let components = components_of(alloc, node)?;
    push_components(walks, spec, &components, owed)
}

// Pushes what is demanded of a struct type and of an interface type themselves.
fn push_literal<W: ExprWalk>(
    alloc: Global,
    walks: &W,
    spec: &Spec,
    node: &Node,
    owed: &mut Vec<Obligation>,
) -> Result<(), NoMemory>
    requires { AreOwnObligations (W.is_type walks.now) owed.old.items }
    ensures own { OnOk result (AreOwnObligations (W.is_type walks.now) owed.new.items) }
    ensures owed { OnOk result (owed_view (W.tree walks.now) owed.new.items
        ≡ owed_view (W.tree walks.now) owed.old.items
        ++ owed_by_literal (outcome_read (W.outcomes walks.now)) spec.now.file spec.now.told_at
        (kind_of (tree_of node.now)) (tree_of node.now)) }
{
    match node.kind() {
        NodeKind::StructType => {
            let types = operands_of(alloc, node)?;
            push_fields(walks, spec, part_list(node), &types, owed)
        }
        NodeKind::InterfaceType => push_at(walks, spec, Demand::OneTypeEach, node, node, owed),
        _ => Ok(()),
    }
}

// Pushes what is demanded of the types of these fields of a struct type.
fn push_fields<W: ExprWalk>(
    walks: &W,
    spec: &Spec,
    fields: &[Node],
    types: &[&Node],
    owed: &mut Vec<Obligation>,
) -> Result<(), NoMemory>
    requires { AreOwnObligations (W.is_type walks.now) owed.old.items }
    ensures own { OnOk result (AreOwnObligations (W.is_type walks.now) owed.new.items) }
    ensures owed { OnOk result (owed_view (W.tree walks.now) owed.new.items
        ≡ owed_view (W.tree walks.now) owed.old.items
        ++ owed_by_fields (outcome_read (W.outcomes walks.now)) spec.now.file spec.now.told_at
        (map tree_of fields.now) (trees_at types.now)) }
{
    for place in 0..fields.len().min(types.len()) {
        push_field(walks, spec, &fields[place], types[place], owed)?;
    }
    Ok(())
}

// Pushes what is demanded of the type of a field: that it may be embedded, where the field is.
fn push_field<W: ExprWalk>(
    walks: &W,
    spec: &Spec,
    field: &Node,
    node: &Node,
    owed: &mut Vec<Obligation>,
) -> Result<(), NoMemory>
    requires { AreOwnObligations (W.is_type walks.now) owed.old.items }
    ensures own { OnOk result (AreOwnObligations (W.is_type walks.now) owed.new.items) }
    ensures owed { OnOk result (owed_view (W.tree walks.now) owed.new.items
        ≡ owed_view (W.tree walks.now) owed.old.items
        ++ owed_by_field (outcome_read (W.outcomes walks.now)) spec.now.file spec.now.told_at
        (tree_of field.now) (tree_of node.now)) }
{
    let kind = field.kind();
    match kind {
        NodeKind::EmbeddedField => push_at(
            walks,
            spec,
            Demand::Embeddable(kind),
            field,
            node,
            owed,
        ),
        NodeKind::EmbeddedPointer => push_at(
            walks,
            spec,
            Demand::Embeddable(kind),
            field,
            node,
            owed,
        ),
        _ => Ok(()),
    }
}

// Pushes that these components are no constraints.
fn push_components<W: ExprWalk>(
    walks: &W,
    spec: &Spec,
    nodes: &[&Node],
    owed: &mut Vec<Obligation>,
) -> Result<(), NoMemory>
    requires { AreOwnObligations (W.is_type walks.now) owed.old.items }
    ensures own { OnOk result (AreOwnObligations (W.is_type walks.now) owed.new.items) }
    ensures owed { OnOk result (owed_view (W.tree walks.now) owed.new.items
        ≡ owed_view (W.tree walks.now) owed.old.items
        ++ owed_by_types (outcome_read (W.outcomes walks.now)) spec.now.file spec.now.told_at (trees_at nodes.now)) }
{
    for node in nodes {
        push_at(walks, spec, Demand::NoConstraint, node, node, owed)?;
    }
    Ok(())
}

/// Pushes a demand on the type for which a node stands, if it stands for one, told at another node of the spec, or
/// where what is broken in a copy is told. An error is want of memory.
pub(crate) fn push_at<W: ExprWalk>(
    walks: &W,
    spec: &Spec,
    demand: Demand,
    at: &Node,
    node: &Node,
    owed: &mut Vec<Obligation>,
) -> Result<(), NoMemory>
    requires { AreOwnObligations (W.is_type walks.now) owed.old.items }
    ensures own { OnOk result (AreOwnObligations (W.is_type walks.now) owed.new.items) }
    ensures owed { OnOk result (owed_view (W.tree walks.now) owed.new.items
        ≡ owed_view (W.tree walks.now) owed.old.items
        ++ owed_at (outcome_read (W.outcomes walks.now)) spec.now.file spec.now.told_at
        demand (tree_of at.now) (tree_of node.now)) }
{
    if let Some(ty) = written_type(walks, node)? {
        let offset = spec.told_at.unwrap_or(at.start());
        owed.push(Obligation {
            file: spec.file,
            offset,
            demand,
            ty,
        })?;
    }
    Ok(())
}

// The type for which a node stands, if it stands for one.
fn written_type<W: ExprWalk>(walks: &W, node: &Node) -> Result<Option<Ty>, NoMemory>
    ensures own { IfOk result (λ ty. IfSome ty (W.is_type walks.now)) }
    ensures written { IfOk result (λ ty. option_map (W.tree walks.now) ty
        ≡ written_by (outcome_read (W.outcomes walks.now)) (tree_of node.now)) }
{
    match walks.outcome(node.id()) {
        Some(Outcome::Found(rec)) => type_in(walks, rec),
        Some(Outcome::Broken(_, _)) => Ok(None),
        Some(Outcome::Waits(_)) => Ok(None),
        Some(Outcome::Nothing) => Ok(None),
        None => Ok(None),
    }
}

// The type that a record stands for, where it stands for one.
fn type_in<W: ExprWalk>(walks: &W, rec: &Rec) -> Result<Option<Ty>, NoMemory>
    requires { IsOwnRec (W.is_type walks.now) rec.now }
    ensures own { IfOk result (λ ty. IfSome ty (W.is_type walks.now)) }
    ensures written { IfOk result (λ ty. option_map (W.tree walks.now) ty
        ≡ parts.type_in (rec_as (W.tree walks.now) rec.now)) }
{
    match rec.mode {
        Mode::IsType => copied(walks, &rec.ty),
        _ => Ok(None),
    }
}

// A type, if there is one, once more.
fn copied<W: ExprWalk>(walks: &W, ty: &Option<Ty>) -> Result<Option<Ty>, NoMemory>
    requires { IfSome ty.now (W.is_type walks.now) }
    ensures own { IfOk result (λ copy. IfSome copy (W.is_type walks.now)) }
    ensures copied { IfOk result (λ copy.
        option_map (W.tree walks.now) copy ≡ option_map (W.tree walks.now) ty.now) }
{
    match ty {
        Some(ty) => Ok(Some(ty.clone()?)),
        None => Ok(None),
    }
}
