// The fields of a struct type (Go specification, "Struct types").
ghost use Rattle.std.specs.Prelude.{◌≡◌, ◌∷◌, ◌++◌, IfOk, List, OnOk, map};
ghost use Rattle.go_tree.specs.Tree.{Tree, tree_of};
ghost use Rattle.go_term.specs.Types.{of_list, struct_type};
ghost use Rattle.go_term.specs.View.{field_of, type_of};
ghost use Rattle.go_module.specs.Modules.Module.{file_view};
ghost use Rattle.go_names.specs.Views.{trees_at};
ghost use Rattle.go_report.specs.Members.{each_by, field_member};
ghost use Rattle.go_report.specs.PackageLines.{member_def};
ghost use Rattle.go_report.specs.Report.{line_view};
ghost use Rattle.go_members.specs.Found.{struct_members};

use crate::line::push_line;
use go_base::NoMemory;
use go_module::SourceFile;
use go_names::names_of_fields;
use go_report::{DefKind, Line};
use go_term::{FieldTerm, Term};
use go_tree::Node;
use std::alloc::Global;

/// Pushes the line of each field of a struct with these fields, by its type. An error is want of memory.
pub fn push_struct(
    alloc: Global,
    stub: bool,
    file: &SourceFile,
    fields: &[Node],
    ty: &Term,
    lines: &mut Vec<Line>,
) -> Result<(), NoMemory>
    ensures { OnOk result (map line_view lines.new.items ≡ map line_view lines.old.items
        ++ map (member_def stub (file_view file.now)) (struct_members (map tree_of fields.now) (type_of ty.now))) }
{
    match ty {
        Term::Struct(types) => push_by_types(alloc, stub, file, fields, types, lines),
        _ => Ok(()),
    }
}

// Pushes the line of each of these fields, by these types of them all.
fn push_by_types(
    alloc: Global,
    stub: bool,
    file: &SourceFile,
    fields: &[Node],
    types: &[FieldTerm],
    lines: &mut Vec<Line>,
) -> Result<(), NoMemory>
    ensures { OnOk result (map line_view lines.new.items ≡ map line_view lines.old.items
        ++ map (member_def stub (file_view file.now))
        (struct_members (map tree_of fields.now) (of_list struct_type (map field_of types.now)))) }
{
    let names = names_of_fields(alloc, fields)?;
    push_fields(alloc, stub, file, &names, types, lines)
}

// Pushes the line of each of these names by the next of these types.
fn push_fields(
    alloc: Global,
    stub: bool,
    file: &SourceFile,
    names: &[&Node],
    types: &[FieldTerm],
    lines: &mut Vec<Line>,
) -> Result<(), NoMemory>
    ensures { OnOk result (map line_view lines.new.items ≡ map line_view lines.old.items
        ++ map (member_def stub (file_view file.now))
        (each_by field_member (trees_at names.now) (map field_of types.now))) }
{
    let mut left = types;
    for name in names {
        left = push_next(alloc, stub, file, name, left, lines)?;
    }
    Ok(())
}

// Pushes the line of a name by the first of these types, and gives those that are left for the next.
fn push_next<'a>(
    alloc: Global,
    stub: bool,
    file: &SourceFile,
    name: &Node,
    types: &'a [FieldTerm],
    lines: &mut Vec<Line>,
) -> Result<&'a [FieldTerm], NoMemory>
    ensures { IfOk result (λ left. (names : List Tree) → map line_view lines.new.items
        ++ map (member_def stub (file_view file.now)) (each_by field_member names (map field_of left.now))
        ≡ map line_view lines.old.items
        ++ map (member_def stub (file_view file.now))
        (each_by field_member (tree_of name.now ∷ names) (map field_of types.now))) }
{
    match types {
        [ty, others @ ..] => {
            push_field(alloc, stub, file, name, ty, lines)?;
            Ok(others)
        }
        [] => Ok(types),
    }
}

fn push_field(
    alloc: Global,
    stub: bool,
    file: &SourceFile,
    name: &Node,
    ty: &FieldTerm,
    lines: &mut Vec<Line>,
) -> Result<(), NoMemory>
    ensures { OnOk result (map line_view lines.new.items ≡ map line_view lines.old.items
        ++ map (member_def stub (file_view file.now)) (field_member (tree_of name.now) (field_of ty.now))) }
{
    let kind = DefKind::Field(ty.ty.clone()?);
    push_line(alloc, stub, file, name, kind, lines)
}
