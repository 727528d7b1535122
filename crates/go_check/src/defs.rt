// The lines of declared names: of imports, of declarations, and of members of types (Go specification, "Declarations and
// scope", "Import declarations").
ghost use Rattle.std.specs.Prelude.{◌≡◌, ◌++◌, IfOk, OnOk, map, option_and_then};
ghost use Rattle.std.specs.List.{flat_map, zip};
ghost use Rattle.std.specs.Option.{option_map};
ghost use Rattle.go_tree.specs.Tree.{tree_of, start_of, parts_of};
ghost use Rattle.go_term.specs.Types.{made, named, no_parts};
ghost use Rattle.go_term.specs.View.{type_of};
ghost use Rattle.go_module.specs.Modules.Module.{file_view};
ghost use Rattle.go_module.specs.Names.Declarations.{name_text};
ghost use Rattle.go_module.specs.Names.Imports as imports;
ghost use Rattle.go_judge.specs.Records.{header_view};
ghost use Rattle.go_report.specs.PackageLines as spec;
ghost use Rattle.go_report.specs.Report.{defined, defined_view, definition, line_view};
ghost use Rattle.go_names.specs.Views.{declaration_view, declarations_view, trees_at};
ghost use Rattle.go_check.specs.Lines.Found.{def_lines, import_lines, own_file_view};
ghost use Rattle.go_expr.specs.Read.{outcome_read};
ghost use Rattle.go_expr.specs.Walker.{outcomes_view};
ghost use Rattle.go_report.specs.PackageLines.{def_by};
ghost use Rattle.go_check.specs.View.{outline_view};

use crate::member_defs::push_member_defs;
use crate::nodes::written_nodes;
use crate::outline::Outline;
use crate::own_file::OwnFile;
use crate::rulebook::Rulebook;
use go_base::NoMemory;
use go_decl::header_by;
use go_model::Header;
use go_module::{ObjId, text_name};
use go_names::{Declaration, declarations_in};
use go_report::{DefKind, Line, What};
use go_term::Term;
use go_tree::{Node, NodeKind};
use std::alloc::Global;

/// The line of each name that a file declares. An error is want of memory.
pub fn found_defs(
    alloc: Global,
    outline: &Outline,
    file: &OwnFile,
    book: &Rulebook,
) -> Result<Vec<Line>, NoMemory>
    ensures { IfOk result (λ lines. map line_view lines.items ≡ def_lines (outline_view outline.now)
        (outcome_read (outcomes_view book.now.walker)) (own_file_view file.now)) }
{
    let mut lines = Vec::new(alloc);
    push_imports(
        alloc,
        outline,
        file,
        &file.imports,
        file.packages,
        &mut lines,
    )?;
    let declarations = declarations_in(alloc, &file.specs)?;
    push_declarations(alloc, file, book, &declarations, &mut lines)?;
    let nodes = written_nodes(alloc, &file.specs)?;
    push_member_defs(alloc, file, &book.walker, &nodes, &mut lines)?;
    Ok(lines)
}

// Pushes the line of each import with a name that is written.
fn push_imports(
    alloc: Global,
    outline: &Outline,
    file: &OwnFile,
    specs: &[&Node],
    packages: &[usize],
    lines: &mut Vec<Line>,
) -> Result<(), NoMemory>
    ensures { OnOk result (map line_view lines.new.items ≡ map line_view lines.old.items
        ++ import_lines (outline_view outline.now) (own_file_view file.now) (zip (trees_at specs.now) packages.now)) }
{
    for i in 0..specs.len().min(packages.len()) {
        push_import(alloc, outline, file, specs[i], packages[i], lines)?;
    }
    Ok(())
}

// Pushes the line of an import, if a name is written.
fn push_import(
    alloc: Global,
    outline: &Outline,
    file: &OwnFile,
    import: &Node,
    imported: usize,
    lines: &mut Vec<Line>,
) -> Result<(), NoMemory>
    ensures { OnOk result (map line_view lines.new.items ≡ map line_view lines.old.items
        ++ spec.import_defs_in (outline_view outline.now) file.now.stub (file_view file.now.file.now) imported
        (parts_of (tree_of import.now))) }
{
    match import.both_parts() {
        Some((name, _)) => push_named(alloc, outline, file, imported, name, lines),
        None => Ok(()),
    }
}

// Pushes the line of an import with that before its string, unless it is a `.`.
fn push_named(
    alloc: Global,
    outline: &Outline,
    file: &OwnFile,
    imported: usize,
    name: &Node,
    lines: &mut Vec<Line>,
) -> Result<(), NoMemory>
    ensures { OnOk result (map line_view lines.new.items ≡ map line_view lines.old.items ++ spec.import_def
        (outline_view outline.now) file.now.stub (file_view file.now.file.now) imported (tree_of name.now)) }
{
    if !is_dot(name) {
        let kind = DefKind::Package(outline.path_at(alloc, imported)?);
        lines.push(def_line(alloc, file, name, kind)?)?;
    }
    Ok(())
}

fn is_dot(name: &Node) -> bool
    ensures { result ≡ imports.is_dot (tree_of name.now) }
{
    name.is(NodeKind::DotImport)
}

// Pushes the lines of declarations.
fn push_declarations(
    alloc: Global,
    file: &OwnFile,
    book: &Rulebook,
    declarations: &[Declaration],
    lines: &mut Vec<Line>,
) -> Result<(), NoMemory>
    ensures { OnOk result (map line_view lines.new.items ≡ map line_view lines.old.items ++ flat_map
        (def_by (outcome_read (outcomes_view book.now.walker)) file.now.stub (file_view file.now.file.now))
        (declarations_view declarations.now)) }
{
    for declaration in declarations {
        push_declaration(alloc, file, book, declaration, lines)?;
    }
    Ok(())
}

// Pushes the line of a declaration, where it has a header.
fn push_declaration(
    alloc: Global,
    file: &OwnFile,
    book: &Rulebook,
    declaration: &Declaration,
    lines: &mut Vec<Line>,
) -> Result<(), NoMemory>
    ensures { OnOk result (map line_view lines.new.items ≡ map line_view lines.old.items
        ++ def_by (outcome_read (outcomes_view book.now.walker)) file.now.stub (file_view file.now.file.now)
        (declaration_view declaration.now)) }
{
    let number = declaration.number();
    if let Some(kind) = told_as(alloc, number, header_by(alloc, book, declaration)?) {
        lines.push(def_line(alloc, file, declaration.name, kind)?)?;
    }
    Ok(())
}

// What the declaration of this object is told as, by its header; a function is not built yet, and is not told.
fn told_as(alloc: Global, d: ObjId, header: Option<Header>) -> Option<DefKind>
    ensures { option_map defined_view result ≡ option_and_then (spec.told_as d) (option_map header_view header) }
{
    match header {
        Some(Header::Const(ty, value)) => Some(DefKind::Const(ty, value)),
        Some(Header::Var(ty)) => Some(DefKind::Var(ty)),
        Some(Header::Func(_, _)) => None,
        Some(Header::Defined(_, right, _)) => Some(definition_of(alloc, d, right)),
        Some(Header::Alias(ty)) => Some(DefKind::Alias(ty)),
        None => None,
    }
}

// The type that this declaration defines, with the type behind its name.
fn definition_of(alloc: Global, d: ObjId, right: Term) -> DefKind
    ensures { defined_view result ≡ definition (made (named d) no_parts) (type_of right) }
{
    DefKind::Defined(Term::Named(d, Vec::new(alloc)), right)
}

// The line of a name that is declared as that.
fn def_line(alloc: Global, file: &OwnFile, name: &Node, kind: DefKind) -> Result<Line, NoMemory>
    ensures { IfOk result (λ line. line_view line ≡ spec.line_at file.now.stub (file_view file.now.file.now)
        (start_of (tree_of name.now)) (defined (name_text (tree_of name.now)) (defined_view kind))) }
{
    Ok(Line {
        at: file.file.at(file.stub, name.start())?,
        what: What::Def(text_name(alloc, name.text())?, kind),
    })
}
