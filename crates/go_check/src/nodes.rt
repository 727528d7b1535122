// The nodes of a file that can have records, and their records (Go specification, "Expressions", "Types").
ghost use Rattle.std.specs.Prelude.{◌≡◌, ◌++◌, IfOk, OnOk, map};
ghost use Rattle.std.specs.List.{flat_map};
ghost use Rattle.std.specs.Option.{option_map};
ghost use Rattle.go_tree.specs.Tree.{tree_of};
ghost use Rattle.go_operands.specs.Operands.{expressions_in, expressions_in_parts};
ghost use Rattle.go_judge.specs.Records.{rec_view};
ghost use Rattle.go_report.specs.PackageLines as rule;
ghost use Rattle.go_model.specs.Outcomes.Readings.{record_by};
ghost use Rattle.go_names.specs.Views.{spec_view, specs_view, trees_at};
ghost use Rattle.go_expr.specs.Read.{outcome_read};
ghost use Rattle.go_expr.specs.Walker.{outcomes_view};

use crate::uses::written;
use go_base::NoMemory;
use go_expr::Walker;
use go_model::Rec;
use go_names::Spec;
use go_operands::expressions_in;
use go_tree::Node;
use std::alloc::Global;

/// The nodes of these specs that can have records, but those of copies, a node before those in it. An error is want of
/// memory.
pub fn written_nodes<'a>(alloc: Global, specs: &[Spec<'a>]) -> Result<Vec<&'a Node>, NoMemory>
    ensures { IfOk result (λ nodes. trees_at nodes.items
        ≡ flat_map expressions_in_parts (rule.written (specs_view specs.now))) }
{
    let mut list = Vec::new(alloc);
    for spec in &written(alloc, specs)? {
        push_spec(alloc, spec, &mut list)?;
    }
    Ok(list)
}

// Pushes those of a spec.
fn push_spec<'a>(alloc: Global, spec: &Spec<'a>, list: &mut Vec<&'a Node>) -> Result<(), NoMemory>
    ensures { OnOk result (trees_at list.new.items
        ≡ trees_at list.old.items ++ expressions_in_parts (spec_view spec.now)) }
{
    push_nodes(alloc, spec.types, list)?;
    push_nodes(alloc, spec.values, list)
}

// Pushes those in these nodes.
fn push_nodes<'a>(
    alloc: Global,
    nodes: &'a [Node],
    list: &mut Vec<&'a Node>,
) -> Result<(), NoMemory>
    ensures { OnOk result (trees_at list.new.items
        ≡ trees_at list.old.items ++ flat_map expressions_in (map tree_of nodes.now)) }
{
    for node in nodes {
        let mut found = expressions_in(alloc, node)?;
        list.append(&mut found)?;
    }
    Ok(())
}

/// The record of a node that has one.
pub fn record_of<'a>(walker: &'a Walker, node: &Node) -> Option<&'a Rec>
    ensures { option_map (λ rec. rec_view rec.now) result
        ≡ record_by (outcome_read (outcomes_view walker.now)) (tree_of node.now) }
{
    walker.found(node.id())
}
