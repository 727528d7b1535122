// What a type literal declares.
ghost use Rattle.std.specs.Prelude.{◌≡◌, ◌++◌, OnOk, map};
ghost use Rattle.go_tree.specs.Tree.{tree_of};
ghost use Rattle.go_term.specs.View.{type_of};
ghost use Rattle.go_module.specs.Modules.Module.{file_view};
ghost use Rattle.go_report.specs.Members.{members_of};
ghost use Rattle.go_report.specs.PackageLines.{member_def};
ghost use Rattle.go_report.specs.Report.{line_view};

use crate::fields::push_struct;
use crate::methods::push_interface;
use crate::params::push_function;
use go_base::NoMemory;
use go_module::{SourceFile, part_list};
use go_report::Line;
use go_term::Term;
use go_tree::{Node, NodeKind};
use std::alloc::Global;

/// Pushes the line of each name that a type literal declares, by the type for which the literal stands: its fields,
/// its methods, and its parameters and results that have names. The file is below the root of stubs or not. A node
/// that is none, and a type of another form, declare none. An error is want of memory (Go specification, "Struct
/// types", "Interface types", "Function types").
pub fn push_members(
    alloc: Global,
    stub: bool,
    file: &SourceFile,
    node: &Node,
    ty: &Term,
    lines: &mut Vec<Line>,
) -> Result<(), NoMemory>
    ensures { OnOk result (map line_view lines.new.items ≡ map line_view lines.old.items
        ++ map (member_def stub (file_view file.now)) (members_of (tree_of node.now) (type_of ty.now))) }
{
    match node.kind() {
        NodeKind::StructType => push_struct(alloc, stub, file, part_list(node), ty, lines),
        NodeKind::InterfaceType => push_interface(alloc, stub, file, part_list(node), ty, lines),
        NodeKind::FuncType => push_function(alloc, stub, file, part_list(node), ty, lines),
        _ => Ok(()),
    }
}
