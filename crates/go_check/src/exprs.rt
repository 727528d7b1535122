// The lines of expressions and types: of each node that has a record, where it ends, and that (Go specification,
// "Expressions", "Types").
ghost use Rattle.std.specs.Prelude.{◌≡◌, ◌∷◌, ◌++◌, [], IfOk, OnOk, Some, map};
ghost use Rattle.std.specs.List.{flat_map};
ghost use Rattle.go_tree.specs.declared.node_kind.NodeKind.TheVariants as kinds;
ghost use Rattle.go_tree.specs.Tree.{kind_of, start_of, tree_of};
ghost use Rattle.go_module.specs.Modules.Module.{file_view};
ghost use Rattle.go_judge.specs.HeadersView.{headers_view};
ghost use Rattle.go_judge.specs.Records.{rec_view};
ghost use Rattle.go_report.specs.Finals.Nodes as ends;
ghost use Rattle.go_report.specs.PackageLines as rule;
ghost use Rattle.go_report.specs.PackageLines.{expr_by};
ghost use Rattle.go_report.specs.Report.{line_view};
ghost use Rattle.go_names.specs.Views.{trees_at};
ghost use Rattle.go_expr.specs.Read.{outcome_read};
ghost use Rattle.go_expr.specs.Walker.{outcomes_view};
ghost use Rattle.go_check.specs.Lines.Finals.{final_in};
ghost use Rattle.go_check.specs.Lines.Found.{expr_lines, own_file_view};
ghost use Rattle.go_check.specs.Packages.Book.{standing_of};

use crate::finals::{Finals, finals_of, in_the_end};
use crate::module_judge::ModuleJudge;
use crate::nodes::{record_of, written_nodes};
use crate::own_file::OwnFile;
use go_base::NoMemory;
use go_expr::Walker;
use go_model::Rec;
use go_report::{Line, What};
use go_tree::{Node, NodeKind};
use std::alloc::Global;

/// The line of each expression and each type in a file, with its final type where it has one. The judge stays as it is,
/// also on an error, which is want of memory.
pub fn found_exprs(
    alloc: Global,
    judge: &mut ModuleJudge,
    file: &OwnFile,
    walker: &Walker,
) -> Result<Vec<Line>, NoMemory>
    ensures lines { IfOk result (λ lines. map line_view lines.items
        ≡ expr_lines (headers_view judge.old.headers) (outcome_read (outcomes_view walker.now)) (own_file_view file.now)) }
    ensures headers { headers_view judge.new.headers ≡ headers_view judge.old.headers }
    ensures standing { standing_of judge.new ≡ standing_of judge.old }
{
    let finals = finals_of(alloc, judge, &file.specs, walker)?;
    let nodes = written_nodes(alloc, &file.specs)?;
    lines_at(alloc, file, walker, &finals, &nodes)
}

// The line of each of these nodes that has a record.
fn lines_at(
    alloc: Global,
    file: &OwnFile,
    walker: &Walker,
    finals: &Finals,
    nodes: &[&Node],
) -> Result<Vec<Line>, NoMemory>
    ensures { IfOk result (λ lines. map line_view lines.items ≡ flat_map
        (expr_by (outcome_read (outcomes_view walker.now)) (final_in finals.now) file.now.stub
        (file_view file.now.file.now)) (trees_at nodes.now)) }
{
    let mut lines = Vec::new(alloc);
    push_each(file, walker, finals, nodes, &mut lines)?;
    Ok(lines)
}

// Pushes the line of each of these nodes that has a record.
fn push_each(
    file: &OwnFile,
    walker: &Walker,
    finals: &Finals,
    list: &[&Node],
    lines: &mut Vec<Line>,
) -> Result<(), NoMemory>
    ensures { OnOk result (map line_view lines.new.items ≡ map line_view lines.old.items ++ flat_map
        (expr_by (outcome_read (outcomes_view walker.now)) (final_in finals.now) file.now.stub
        (file_view file.now.file.now)) (trees_at list.now)) }
{
    for node in list {
        push_one(file, walker, finals, node, lines)?;
    }
    Ok(())
}

fn push_one(
    file: &OwnFile,
    walker: &Walker,
    finals: &Finals,
    node: &Node,
    lines: &mut Vec<Line>,
) -> Result<(), NoMemory>
    ensures { OnOk result (map line_view lines.new.items ≡ map line_view lines.old.items
        ++ expr_by (outcome_read (outcomes_view walker.now)) (final_in finals.now) file.now.stub
        (file_view file.now.file.now) (tree_of node.now)) }
{
    if let Some(found) = record_of(walker, node) {
        lines.push(line_at(file, finals, node, found)?)?;
    }
    Ok(())
}

// The line of an expression whose record is this in the walker.
fn line_at(file: &OwnFile, finals: &Finals, node: &Node, found: &Rec) -> Result<Line, NoMemory>
    ensures { IfOk result (λ line. line_view line ∷ [] ≡ rule.record_line file.now.stub
        (file_view file.now.file.now) (start_of (tree_of node.now)) (rule.expr_end (tree_of node.now))
        (Some (ends.in_the_end (final_in finals.now) (tree_of node.now) (rec_view found.now)))) }
{
    expr_line(file, node, in_the_end(finals, node, found)?)
}

// The line of an expression with that record.
fn expr_line(file: &OwnFile, node: &Node, found: Rec) -> Result<Line, NoMemory>
    ensures { IfOk result (λ line. line_view line ∷ [] ≡ rule.record_line file.now.stub
        (file_view file.now.file.now) (start_of (tree_of node.now)) (rule.expr_end (tree_of node.now))
        (Some (rec_view found))) }
{
    let end = file.file.line_col(expr_end(node));
    let Rec {
        mode,
        ty,
        value,
        ..
    } = found;
    Ok(Line {
        at: file.file.at(file.stub, node.start())?,
        what: What::Expr(end, mode, ty, value),
    })
}

// Where an expression or a type ends: the type of an embedded field before its tag.
fn expr_end(node: &Node) -> usize
    ensures { result ≡ rule.expr_end (tree_of node.now) }
{
    match node.kind() {
        NodeKind::EmbeddedPointer => type_end(node),
        _ => node.end(),
    }
}

// Where the first part of a node ends, or the node where it has none.
fn type_end(node: &Node) -> usize
    requires { kind_of (tree_of node.now) ≡ kinds.EmbeddedPointer }
    ensures { result ≡ rule.expr_end (tree_of node.now) }
{
    match node.parts() {
        [ty, ..] => ty.end(),
        [] => node.end(),
    }
}
