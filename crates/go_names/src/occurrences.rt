// The identifiers that occur in specs (Go specification, "Operands", "Qualified identifiers").
ghost use Rattle.std.specs.Prelude.{◌≡◌, ◌∷◌, [], ◌++◌, ℕ, IfOk, OnOk, map};
ghost use Rattle.std.specs.List.{flat_map};
ghost use Rattle.go_tree.specs.Tree.{tree_of, id_of, start_of, text_of};
ghost use Rattle.go_module.specs.Names.Inner as inner;
ghost use Rattle.go_module.specs.Names.Occurrences as rule;
ghost use Rattle.go_names.specs.Views.{spec_view, specs_view};

use crate::inner::inner_parts;
use crate::spec::Spec;
use go_base::NoMemory;
use go_module::{Occurrence, Selected, text_name};
use go_tree::{Node, NodeKind};
use std::alloc::Global;

/// The identifiers that occur behind the names of these specs, in source order. An error is want of memory.
pub fn names_in_specs(alloc: Global, specs: &[Spec]) -> Result<Vec<Occurrence>, NoMemory>
    ensures { IfOk result (λ found.
        found.items ≡ flat_map rule.names_in_parts (specs_view specs.now)) }
{
    let mut found = Vec::new(alloc);
    for spec in specs {
        add_spec(alloc, spec, &mut found)?;
    }
    Ok(found)
}

// Adds those of a spec.
fn add_spec(alloc: Global, spec: &Spec, found: &mut Vec<Occurrence>) -> Result<(), NoMemory>
    ensures { OnOk result (found.new.items
        ≡ found.old.items ++ rule.names_in_parts (spec_view spec.now)) }
{
    add_each(alloc, spec.file, spec.told_at, spec.types, found)?;
    add_each(alloc, spec.file, spec.told_at, spec.values, found)
}

// Adds those of these nodes, in the file at that place, told at that offset or where they are.
fn add_each(
    alloc: Global,
    file: usize,
    told_at: Option<usize>,
    nodes: &[Node],
    found: &mut Vec<Occurrence>,
) -> Result<(), NoMemory>
    ensures { OnOk result (found.new.items ≡ found.old.items
        ++ flat_map (rule.names_in file told_at) (map tree_of nodes.now)) }
{
    for node in nodes {
        add_names(alloc, file, told_at, node, found)?;
    }
    Ok(())
}

// Adds those of an expression or a type.
#[cycle(names)]
fn add_names(
    alloc: Global,
    file: usize,
    told_at: Option<usize>,
    node: &Node,
    found: &mut Vec<Occurrence>,
) -> Result<(), NoMemory>
    ensures { OnOk result (found.new.items
        ≡ found.old.items ++ rule.names_in file told_at (tree_of node.now)) }
{
    match node.kind() {
        NodeKind::Name => add_name(alloc, file, told_at, node, found),
        NodeKind::SelectorExpr => match node.both_parts() {
            Some((operand, name)) => add_operand(alloc, file, told_at, operand, name, found),
            None => add_inner(alloc, file, told_at, node, found),
        },
        _ => add_inner(alloc, file, told_at, node, found),
    }
}

// Adds those of an operand before a `.`, with the name behind it.
#[cycle(names)]
fn add_operand(
    alloc: Global,
    file: usize,
    told_at: Option<usize>,
    operand: &Node,
    name: &Node,
    found: &mut Vec<Occurrence>,
) -> Result<(), NoMemory>
    ensures { OnOk result (found.new.items ≡ found.old.items ++ rule.with_selected file told_at
        (tree_of operand.now) (tree_of name.now) (rule.names_in file told_at (tree_of operand.now))) }
{
    if operand.is(NodeKind::Name) {
        add_qualified(alloc, file, told_at, operand, name, found)
    } else {
        add_names(alloc, file, told_at, operand, found)
    }
}

// Adds those of the parts of a node.
#[cycle(names)]
fn add_inner(
    alloc: Global,
    file: usize,
    told_at: Option<usize>,
    node: &Node,
    found: &mut Vec<Occurrence>,
) -> Result<(), NoMemory>
    ensures { OnOk result (found.new.items ≡ found.old.items
        ++ flat_map (rule.names_in file told_at) (inner.inner_parts (tree_of node.now))) }
{
    let parts = inner_parts(alloc, node)?;
    for part in &parts {
        add_names(alloc, file, told_at, part, found)?;
    }
    Ok(())
}

// Adds an identifier.
fn add_name(
    alloc: Global,
    file: usize,
    told_at: Option<usize>,
    node: &Node,
    found: &mut Vec<Occurrence>,
) -> Result<(), NoMemory>
    ensures { OnOk result (found.new.items ≡ found.old.items ++ rule.occurrence file told_at
        (id_of (tree_of node.now)) (start_of (tree_of node.now)) (text_of (tree_of node.now)) ∷ []) }
{
    found.push(occurrence(alloc, file, told_at, node)?)?;
    Ok(())
}

// Adds an identifier before a `.`, with the name behind it.
fn add_qualified(
    alloc: Global,
    file: usize,
    told_at: Option<usize>,
    operand: &Node,
    name: &Node,
    found: &mut Vec<Occurrence>,
) -> Result<(), NoMemory>
    ensures { OnOk result (found.new.items ≡ found.old.items ++ rule.selecting file told_at
        (tree_of name.now) (rule.occurrence file told_at (id_of (tree_of operand.now))
        (start_of (tree_of operand.now)) (text_of (tree_of operand.now))) ∷ []) }
{
    let mut made = occurrence(alloc, file, told_at, operand)?;
    made.selected = Some(selected(alloc, told_at, name)?);
    found.push(made)?;
    Ok(())
}

fn occurrence(
    alloc: Global,
    file: usize,
    told_at: Option<usize>,
    node: &Node,
) -> Result<Occurrence, NoMemory>
    ensures { IfOk result (λ made. made ≡ rule.occurrence file told_at
        (id_of (tree_of node.now)) (start_of (tree_of node.now)) (text_of (tree_of node.now))) }
{
    Ok(Occurrence {
        id: node.id(),
        file,
        at: told_at.unwrap_or(node.start()),
        name: text_name(alloc, node.text())?,
        selected: None,
    })
}

fn selected(alloc: Global, told_at: Option<usize>, node: &Node) -> Result<Selected, NoMemory>
    ensures { IfOk result (λ made. (file : ℕ) → made ≡ rule.selected_name file told_at (tree_of node.now)) }
{
    Ok(Selected {
        id: node.id(),
        at: told_at.unwrap_or(node.start()),
        name: text_name(alloc, node.text())?,
    })
}
