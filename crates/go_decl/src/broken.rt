// What a spec breaks, by the outcomes of its nodes (Go specification, "Constants", "Constant expressions", "Constant
// declarations", "Qualified identifiers").
ghost use Rattle.std.specs.Prelude.{◌≡◌, ◌++◌, IfOk, OnOk, map, not, slice_get, unwrap_or};
ghost use Rattle.std.specs.List.{flat_map, list_all};
ghost use Rattle.std.specs.Option.{option_map};
ghost use Rattle.go_tree.specs.Tree.{list_of, parts_of, tree_of};
ghost use Rattle.go_module.specs.Broken.{broken_at};
ghost use Rattle.go_model.specs.Outcomes.Readings.{broken_spots, spot_start, start_among};
ghost use Rattle.go_names.specs.Views.{declaration_view, spec_view, trees_at};
ghost use Rattle.go_expr.specs.Read.{outcome_read};
ghost use Rattle.go_operands.specs.Operands.{operands_of};
ghost use Rattle.go_judge.specs.Kinds.{no_type, no_value};
ghost use Rattle.go_judge.specs.Operands.{is_constant, is_type};
ghost use Rattle.go_values.specs.Rules.{are_unequal_by, broken_by, broken_spec_by, has_record, others_by, others_by_kind, unequal_by};
ghost use Rattle.go_decl.specs.Parts.{broken_under, unequal_for};

use crate::rules::UNEQUAL_SIDES;
use go_base::{Broken, NoMemory, Rule};
use go_model::{ExprWalk, Mode, NO_TYPE, NO_VALUE, Outcome, Spot};
use go_module::{Built, ObjKind, add_if, broken_at};
use go_names::{Declaration, Spec};
use go_operands::{expressions_in, operands_of};
use go_tree::Node;
use std::alloc::Global;

/// Pushes what a spec breaks: R37 where it is of constants and its numbers of names and of expressions differ, R1 at an
/// expression of it that is no constant, C13 at the type of a variable, and behind the name of a type or an alias, at what
/// is no type, and what its nodes break. An error is want of memory.
pub fn push_spec<W: ExprWalk>(
    alloc: Global,
    walks: &W,
    spec: &Spec,
    found: &mut Vec<Broken>,
) -> Result<(), NoMemory>
    ensures { OnOk result (found.new.items ≡ found.old.items
        ++ broken_spec_by (outcome_read (W.outcomes walks.now)) (spec_view spec.now)) }
{
    push_unequal(walks, spec, found)?;
    push_others(walks, spec, spec.types, spec.values, found)?;
    push_nodes(alloc, walks, spec, spec.types, found)?;
    push_nodes(alloc, walks, spec, spec.values, found)
}

/// Pushes what a declaration of a spec breaks: R37 at a spec of constants, where its header rests on the whole list, R1 and
/// C13 at its expressions and its type, and what the nodes of these break. An error is want of memory.
pub fn push_part<W: ExprWalk>(
    alloc: Global,
    walks: &W,
    spec: &Spec,
    declaration: &Declaration,
    found: &mut Vec<Broken>,
) -> Result<(), NoMemory>
    ensures { OnOk result (found.new.items ≡ found.old.items
        ++ broken_under (outcome_read (W.outcomes walks.now)) (spec_view spec.now) (declaration_view declaration.now)) }
{
    push_unequal_for(walks, declaration.built, spec, found)?;
    push_others(walks, spec, declaration.types, declaration.values, found)?;
    push_nodes(alloc, walks, spec, declaration.types, found)?;
    push_nodes(alloc, walks, spec, declaration.values, found)
}

// Pushes R37 at a spec whose whole list belongs to each of its names.
fn push_unequal_for<W: ExprWalk>(
    walks: &W,
    built: Built,
    spec: &Spec,
    found: &mut Vec<Broken>,
) -> Result<(), NoMemory>
    ensures { OnOk result (found.new.items
        ≡ found.old.items ++ unequal_for (outcome_read (W.outcomes walks.now)) built (spec_view spec.now)) }
{
    match built {
        Built::WholeList => push_unequal(walks, spec, found),
        Built::Pair => Ok(()),
        Built::Itself => Ok(()),
    }
}

// Pushes R37 at a spec of constants whose numbers of names and of expressions differ.
fn push_unequal<W: ExprWalk>(
    walks: &W,
    spec: &Spec,
    found: &mut Vec<Broken>,
) -> Result<(), NoMemory>
    ensures { OnOk result (found.new.items
        ≡ found.old.items ++ unequal_by (outcome_read (W.outcomes walks.now)) (spec_view spec.now)) }
{
    match spec.kind {
        ObjKind::Const => {
            let unequal = are_unequal(walks, spec.names, spec.values);
            let start = spec.node.start();
            add_if(found, unequal, broken_at(spec.file, start, UNEQUAL_SIDES))
        }
        _ => Ok(()),
    }
}

// Whether the numbers of names and of expressions differ, and all expressions are constants.
fn are_unequal<W: ExprWalk>(walks: &W, names: &[Node], values: &[Node]) -> bool
    ensures { result ≡ are_unequal_by (outcome_read (W.outcomes walks.now)) (map tree_of names.now)
        (map tree_of values.now) }
{
    names.len() != values.len() && are_constants(walks, values)
}

// Whether all of these expressions are constants.
fn are_constants<W: ExprWalk>(walks: &W, values: &[Node]) -> bool
    ensures { result ≡ list_all (has_record (outcome_read (W.outcomes walks.now)) is_constant)
        (map tree_of values.now) }
{
    for value in values {
        if !is_constant(walks, value) {
            return false;
        }
    }
    true
}

fn is_constant<W: ExprWalk>(walks: &W, value: &Node) -> bool
    ensures { result ≡ has_record (outcome_read (W.outcomes walks.now)) is_constant (tree_of value.now) }
{
    match walks.outcome(value.id()) {
        Some(Outcome::Found(rec)) => matches!(rec.mode, Mode::Const),
        Some(Outcome::Broken(_, _)) => false,
        Some(Outcome::Waits(_)) => false,
        Some(Outcome::Nothing) => false,
        None => false,
    }
}

// Pushes R1 at each of these expressions that is no constant, where the spec is of constants, else C13 at each of these
// types that is none.
fn push_others<W: ExprWalk>(
    walks: &W,
    spec: &Spec,
    types: &[Node],
    values: &[Node],
    found: &mut Vec<Broken>,
) -> Result<(), NoMemory>
    ensures { OnOk result (found.new.items ≡ found.old.items
        ++ others_by_kind (outcome_read (W.outcomes walks.now)) spec.now.kind (spec_view spec.now)
        (map tree_of types.now) (map tree_of values.now)) }
{
    match spec.kind {
        ObjKind::Const => push_no_constants(walks, spec, values, found),
        _ => push_no_types(walks, spec, types, found),
    }
}

// Pushes R1 at each of these expressions of a spec that is no constant.
fn push_no_constants<W: ExprWalk>(
    walks: &W,
    spec: &Spec,
    values: &[Node],
    found: &mut Vec<Broken>,
) -> Result<(), NoMemory>
    ensures { OnOk result (found.new.items ≡ found.old.items
        ++ others_by (outcome_read (W.outcomes walks.now)) no_value is_constant (spec_view spec.now)
        (map tree_of values.now)) }
{
    for value in values {
        let offset = spec.told_at.unwrap_or(value.start());
        let other = is_no_constant(walks, value);
        add_if(found, other, broken_at(spec.file, offset, NO_VALUE))?;
    }
    Ok(())
}

// Pushes C13 at each of these nodes behind the names of a spec that is no type.
fn push_no_types<W: ExprWalk>(
    walks: &W,
    spec: &Spec,
    types: &[Node],
    found: &mut Vec<Broken>,
) -> Result<(), NoMemory>
    ensures { OnOk result (found.new.items ≡ found.old.items
        ++ others_by (outcome_read (W.outcomes walks.now)) no_type is_type (spec_view spec.now)
        (map tree_of types.now)) }
{
    for node in types {
        let offset = spec.told_at.unwrap_or(node.start());
        let other = is_no_type(walks, node);
        add_if(found, other, broken_at(spec.file, offset, NO_TYPE))?;
    }
    Ok(())
}

// Whether a node has the record of something other than a constant, and of something other than a type.
fn is_no_constant<W: ExprWalk>(walks: &W, node: &Node) -> bool
    ensures { result ≡ has_record (outcome_read (W.outcomes walks.now)) (λ r. not (is_constant r))
        (tree_of node.now) }
{
    match walks.outcome(node.id()) {
        Some(Outcome::Found(rec)) => !matches!(rec.mode, Mode::Const),
        Some(Outcome::Broken(_, _)) => false,
        Some(Outcome::Waits(_)) => false,
        Some(Outcome::Nothing) => false,
        None => false,
    }
}

fn is_no_type<W: ExprWalk>(walks: &W, node: &Node) -> bool
    ensures { result ≡ has_record (outcome_read (W.outcomes walks.now)) (λ r. not (is_type r)) (tree_of node.now) }
{
    match walks.outcome(node.id()) {
        Some(Outcome::Found(rec)) => !(matches!(rec.mode, Mode::IsType) && rec.ty.is_some()),
        Some(Outcome::Broken(_, _)) => false,
        Some(Outcome::Waits(_)) => false,
        Some(Outcome::Nothing) => false,
        None => false,
    }
}

// Pushes what the nodes of these parts of a spec break.
fn push_nodes<W: ExprWalk>(
    alloc: Global,
    walks: &W,
    spec: &Spec,
    nodes: &[Node],
    found: &mut Vec<Broken>,
) -> Result<(), NoMemory>
    ensures { OnOk result (found.new.items ≡ found.old.items ++ flat_map
        (broken_by (outcome_read (W.outcomes walks.now)) spec.now.file spec.now.told_at) (map tree_of nodes.now)) }
{
    for node in nodes {
        push_node(alloc, walks, spec, node, found)?;
    }
    Ok(())
}

// Pushes what the nodes of this part of a spec break.
fn push_node<W: ExprWalk>(
    alloc: Global,
    walks: &W,
    spec: &Spec,
    node: &Node,
    found: &mut Vec<Broken>,
) -> Result<(), NoMemory>
    ensures { OnOk result (found.new.items ≡ found.old.items
        ++ broken_by (outcome_read (W.outcomes walks.now)) spec.now.file spec.now.told_at (tree_of node.now)) }
{
    let nodes = expressions_in(alloc, node)?;
    for inner in &nodes {
        push_one(alloc, walks, spec.file, spec.told_at, inner, found)?;
    }
    Ok(())
}

// Pushes the rule that a node breaks, if it does.
fn push_one<W: ExprWalk>(
    alloc: Global,
    walks: &W,
    file: usize,
    told_at: Option<usize>,
    node: &Node,
    found: &mut Vec<Broken>,
) -> Result<(), NoMemory>
    ensures { OnOk result (found.new.items ≡ found.old.items ++ broken_spots file told_at (tree_of node.now)
        (outcome_read (W.outcomes walks.now) (tree_of node.now))) }
{
    match walks.outcome(node.id()) {
        Some(Outcome::Broken(rule, spots)) => push_spots(
            alloc, file, told_at, node, *rule, spots, found,
        ),
        Some(Outcome::Found(_)) => Ok(()),
        Some(Outcome::Waits(_)) => Ok(()),
        Some(Outcome::Nothing) => Ok(()),
        None => Ok(()),
    }
}

// Pushes a rule at each of these spots of a node.
fn push_spots(
    alloc: Global,
    file: usize,
    told_at: Option<usize>,
    node: &Node,
    rule: Rule,
    spots: &[Spot],
    found: &mut Vec<Broken>,
) -> Result<(), NoMemory>
    ensures { OnOk result (found.new.items ≡ found.old.items
        ++ map (λ spot. broken_at file (unwrap_or told_at (spot_start (tree_of node.now) spot)) rule) spots.now) }
{
    let operands = operands_of(alloc, node)?;
    for spot in spots {
        let start = spot_start(node, &operands, *spot);
        found.push(broken_at(file, told_at.unwrap_or(start), rule))?;
    }
    Ok(())
}

// The offset of a spot of a node that has these operands.
fn spot_start(node: &Node, operands: &[&Node], spot: Spot) -> usize
    requires { trees_at operands.now ≡ operands_of (tree_of node.now) }
    ensures { result ≡ spot_start (tree_of node.now) spot }
{
    match spot {
        Spot::Whole => node.start(),
        Spot::Name => part_start(node, 1),
        Spot::Part(place) => operand_start(node, operands, place),
    }
}

// Where one of these operands of a node starts; where there is no such operand, where the node does.
fn operand_start(node: &Node, operands: &[&Node], place: usize) -> usize
    ensures { result ≡ start_among (trees_at operands.now) (tree_of node.now) place }
{
    match operands.get(place) {
        Some(operand) => operand.start(),
        None => node.start(),
    }
}

// Where a part of a node starts; where there is no such part, where the node does.
fn part_start(node: &Node, place: usize) -> usize
    ensures { result ≡ start_among (list_of (parts_of (tree_of node.now))) (tree_of node.now) place }
{
    match part_at(node.parts(), place) {
        Some(part) => part.start(),
        None => node.start(),
    }
}

fn part_at(parts: &[Node], place: usize) -> Option<&Node>
    ensures { option_map (λ part. part.now) result ≡ slice_get parts.now place }
{
    parts.get(place)
}
