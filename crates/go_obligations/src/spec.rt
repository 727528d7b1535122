// What is demanded of the types in specs (Go specification, "Variable declarations", "Type declarations").
ghost use Rattle.std.specs.Prelude.{◌≡◌, ◌++◌, IfOk, OnOk, map};
ghost use Rattle.std.specs.List.{flat_map};
ghost use Rattle.go_tree.specs.Tree.{tree_of};
ghost use Rattle.go_names.specs.Views.{all_specs, spec_view, specs_view};
ghost use Rattle.go_operands.specs.Operands.{expressions_in};
ghost use Rattle.go_model.specs.Obligations.Obliged.{variable_types};
ghost use Rattle.go_obligations.specs.Owed.{AreOwnObligations, owed_by_node, owed_by_spec, owed_by_specs, owed_by_types, owed_view};
ghost use Rattle.go_obligations.specs.Read.{outcome_read};

use crate::node::{push_at, push_node};
use crate::obligation::{Demand, Obligation};
use go_base::NoMemory;
use go_model::ExprWalk;
use go_module::ObjKind;
use go_names::Spec;
use go_operands::expressions_in;
use go_tree::Node;
use std::alloc::Global;

/// What is demanded of the types in the specs of a package, which stand file by file: of those of variables and of
/// those in each node. An error is want of memory.
pub(crate) fn owed_by<W: ExprWalk>(
    alloc: Global,
    walks: &W,
    lists: &[Vec<Spec>],
) -> Result<Vec<Obligation>, NoMemory>
    ensures own { IfOk result (λ owed. AreOwnObligations (W.is_type walks.now) owed.items) }
    ensures owed { IfOk result (λ owed. owed_view (W.tree walks.now) owed.items
        ≡ owed_by_specs (outcome_read (W.outcomes walks.now))
        (all_specs (map (λ list. specs_view list.items) lists.now))) }
{
    let mut owed = Vec::new(alloc);
    for specs in lists {
        push_specs(alloc, walks, specs, &mut owed)?;
    }
    Ok(owed)
}

// Pushes what is demanded of the types in these specs.
fn push_specs<W: ExprWalk>(
    alloc: Global,
    walks: &W,
    specs: &[Spec],
    owed: &mut Vec<Obligation>,
) -> Result<(), NoMemory>
    requires { AreOwnObligations (W.is_type walks.now) owed.old.items }
    ensures own { OnOk result (AreOwnObligations (W.is_type walks.now) owed.new.items) }
    ensures owed { OnOk result (owed_view (W.tree walks.now) owed.new.items
        ≡ owed_view (W.tree walks.now) owed.old.items
        ++ owed_by_specs (outcome_read (W.outcomes walks.now)) (specs_view specs.now)) }
{
    for spec in specs {
        push_spec(alloc, walks, spec, owed)?;
    }
    Ok(())
}

// Pushes what is demanded of the types in a spec.
fn push_spec<W: ExprWalk>(
    alloc: Global,
    walks: &W,
    spec: &Spec,
    owed: &mut Vec<Obligation>,
) -> Result<(), NoMemory>
    requires { AreOwnObligations (W.is_type walks.now) owed.old.items }
    ensures own { OnOk result (AreOwnObligations (W.is_type walks.now) owed.new.items) }
    ensures owed { OnOk result (owed_view (W.tree walks.now) owed.new.items
        ≡ owed_view (W.tree walks.now) owed.old.items
        ++ owed_by_spec (outcome_read (W.outcomes walks.now)) (spec_view spec.now)) }
{
    push_variables(walks, spec, owed)?;
    push_parts(alloc, walks, spec, spec.types, owed)?;
    push_parts(alloc, walks, spec, spec.values, owed)
}

// Pushes that the type of variables is no constraint.
fn push_variables<W: ExprWalk>(
    walks: &W,
    spec: &Spec,
    owed: &mut Vec<Obligation>,
) -> Result<(), NoMemory>
    requires { AreOwnObligations (W.is_type walks.now) owed.old.items }
    ensures own { OnOk result (AreOwnObligations (W.is_type walks.now) owed.new.items) }
    ensures owed { OnOk result (owed_view (W.tree walks.now) owed.new.items
        ≡ owed_view (W.tree walks.now) owed.old.items
        ++ owed_by_types (outcome_read (W.outcomes walks.now)) spec.now.file spec.now.told_at
        (variable_types spec.now.kind (map tree_of spec.now.types.now))) }
{
    match spec.kind {
        ObjKind::Var => push_types(walks, spec, spec.types, owed),
        _ => Ok(()),
    }
}

// Pushes that these types are no constraints.
fn push_types<W: ExprWalk>(
    walks: &W,
    spec: &Spec,
    types: &[Node],
    owed: &mut Vec<Obligation>,
) -> Result<(), NoMemory>
    requires { AreOwnObligations (W.is_type walks.now) owed.old.items }
    ensures own { OnOk result (AreOwnObligations (W.is_type walks.now) owed.new.items) }
    ensures owed { OnOk result (owed_view (W.tree walks.now) owed.new.items
        ≡ owed_view (W.tree walks.now) owed.old.items
        ++ owed_by_types (outcome_read (W.outcomes walks.now)) spec.now.file spec.now.told_at (map tree_of types.now)) }
{
    for node in types {
        push_at(walks, spec, Demand::NoConstraint, node, node, owed)?;
    }
    Ok(())
}

// Pushes what is demanded of the types in these parts of a spec.
fn push_parts<W: ExprWalk>(
    alloc: Global,
    walks: &W,
    spec: &Spec,
    nodes: &[Node],
    owed: &mut Vec<Obligation>,
) -> Result<(), NoMemory>
    requires { AreOwnObligations (W.is_type walks.now) owed.old.items }
    ensures own { OnOk result (AreOwnObligations (W.is_type walks.now) owed.new.items) }
    ensures owed { OnOk result (owed_view (W.tree walks.now) owed.new.items
        ≡ owed_view (W.tree walks.now) owed.old.items
        ++ flat_map (owed_by_node (outcome_read (W.outcomes walks.now)) spec.now.file spec.now.told_at)
        (flat_map expressions_in (map tree_of nodes.now))) }
{
    for node in nodes {
        push_part(alloc, walks, spec, node, owed)?;
    }
    Ok(())
}

// Pushes what is demanded of the types in a part of a spec.
fn push_part<W: ExprWalk>(
    alloc: Global,
    walks: &W,
    spec: &Spec,
    node: &Node,
    owed: &mut Vec<Obligation>,
) -> Result<(), NoMemory>
    requires { AreOwnObligations (W.is_type walks.now) owed.old.items }
    ensures own { OnOk result (AreOwnObligations (W.is_type walks.now) owed.new.items) }
    ensures owed { OnOk result (owed_view (W.tree walks.now) owed.new.items
        ≡ owed_view (W.tree walks.now) owed.old.items
        ++ flat_map (owed_by_node (outcome_read (W.outcomes walks.now)) spec.now.file spec.now.told_at)
        (expressions_in (tree_of node.now))) }
{
    let nodes = expressions_in(alloc, node)?;
    for inner in &nodes {
        push_node(alloc, walks, spec, inner, owed)?;
    }
    Ok(())
}
