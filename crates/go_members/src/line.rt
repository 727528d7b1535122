// The line of a declared name.
ghost use Rattle.std.specs.Prelude.{◌≡◌, ◌∷◌, ◌++◌, [], IfOk, OnOk, map};
ghost use Rattle.go_tree.specs.Tree.{tree_of};
ghost use Rattle.go_module.specs.Modules.Module.{file_view};
ghost use Rattle.go_report.specs.PackageLines.{member_def};
ghost use Rattle.go_report.specs.Report.{defined_view, line_view};

use go_base::NoMemory;
use go_module::{SourceFile, text_name};
use go_report::{DefKind, Line, What};
use go_tree::Node;
use std::alloc::Global;

/// Pushes the line of a name that is declared as that, in a file below the root of stubs or not. An error is want of
/// memory.
pub fn push_line(
    alloc: Global,
    stub: bool,
    file: &SourceFile,
    name: &Node,
    kind: DefKind,
    lines: &mut Vec<Line>,
) -> Result<(), NoMemory>
    ensures { OnOk result (map line_view lines.new.items ≡ map line_view lines.old.items
        ++ member_def stub (file_view file.now) (tree_of name.now, defined_view kind) ∷ []) }
{
    lines.push(line_of(alloc, stub, file, name, kind)?)?;
    Ok(())
}

fn line_of(
    alloc: Global,
    stub: bool,
    file: &SourceFile,
    name: &Node,
    kind: DefKind,
) -> Result<Line, NoMemory>
    ensures { IfOk result (λ line. line_view line
        ≡ member_def stub (file_view file.now) (tree_of name.now, defined_view kind)) }
{
    Ok(Line {
        at: file.at(stub, name.start())?,
        what: What::Def(text_name(alloc, name.text())?, kind),
    })
}
