// The lines of the names that type literals declare (Go specification, "Struct types", "Interface types", "Function
// types").
ghost use Rattle.std.specs.Prelude.{◌≡◌, ◌++◌, OnOk, map, option_and_then};
ghost use Rattle.std.specs.List.{flat_map};
ghost use Rattle.std.specs.Option.{option_map};
ghost use Rattle.go_term.specs.View.{type_of};
ghost use Rattle.go_tree.specs.Tree.{tree_of};
ghost use Rattle.go_module.specs.Modules.Module.{file_view};
ghost use Rattle.go_report.specs.PackageLines.{member_defs_by};
ghost use Rattle.go_report.specs.Report.{line_view};
ghost use Rattle.go_model.specs.Outcomes.Readings.{record_by};
ghost use Rattle.go_names.specs.Views.{trees_at};
ghost use Rattle.go_expr.specs.Read.{outcome_read};
ghost use Rattle.go_expr.specs.Walker.{outcomes_view};
ghost use Rattle.go_check.specs.Lines.Found.{own_file_view};

use crate::nodes::record_of;
use crate::own_file::OwnFile;
use go_base::NoMemory;
use go_expr::Walker;
use go_members::push_members;
use go_report::Line;
use go_term::Term;
use go_tree::Node;
use std::alloc::Global;

/// Pushes the lines of the names that these nodes declare, where they are type literals that have records. An error is
/// want of memory.
pub fn push_member_defs(
    alloc: Global,
    file: &OwnFile,
    walker: &Walker,
    nodes: &[&Node],
    lines: &mut Vec<Line>,
) -> Result<(), NoMemory>
    ensures { OnOk result (map line_view lines.new.items ≡ map line_view lines.old.items ++ flat_map
        (member_defs_by (outcome_read (outcomes_view walker.now)) file.now.stub (file_view file.now.file.now))
        (trees_at nodes.now)) }
{
    for node in nodes {
        push_at(alloc, file, walker, node, lines)?;
    }
    Ok(())
}

// Pushes those of a node.
fn push_at(
    alloc: Global,
    file: &OwnFile,
    walker: &Walker,
    node: &Node,
    lines: &mut Vec<Line>,
) -> Result<(), NoMemory>
    ensures { OnOk result (map line_view lines.new.items ≡ map line_view lines.old.items
        ++ member_defs_by (outcome_read (outcomes_view walker.now)) file.now.stub (file_view file.now.file.now)
        (tree_of node.now)) }
{
    match type_at(walker, node) {
        Some(ty) => push_members(alloc, file.stub, file.file, node, ty, lines),
        None => Ok(()),
    }
}

// The type of a node's record.
fn type_at<'a>(walker: &'a Walker, node: &Node) -> Option<&'a Term>
    ensures { option_map (λ ty. type_of ty.now) result
        ≡ option_and_then (λ r. r.type) (record_by (outcome_read (outcomes_view walker.now)) (tree_of node.now)) }
{
    match record_of(walker, node) {
        Some(found) => found.ty.as_ref(),
        None => None,
    }
}
