// The lines of uses: of each identifier that denotes an object, its name and where the object is declared
// (Go specification, "Declarations and scope").
ghost use Rattle.std.specs.Prelude.{◌≡◌, ◌++◌, IfOk, OnOk, map, is_none, filter};
ghost use Rattle.std.specs.List.{flat_map};
ghost use Rattle.go_module.specs.Modules.Module.{file_view};
ghost use Rattle.go_module.specs.Names.Occurrences.{names_in_parts};
ghost use Rattle.go_report.specs.Outline as outlines;
ghost use Rattle.go_report.specs.PackageLines as rule;
ghost use Rattle.go_report.specs.Report.{line_view, used};
ghost use Rattle.go_names.specs.Views.{specs_view};
ghost use Rattle.go_check.specs.Lines.Found.{own_file_view, use_lines};
ghost use Rattle.go_check.specs.Packages.Book.{denotes_by};
ghost use Rattle.go_check.specs.View.{outline_view};

use crate::outline::Outline;
use crate::own_file::OwnFile;
use crate::rulebook::Rulebook;
use go_base::{Name, NoMemory};
use go_model::Forms;
use go_module::{ObjId, Occurrence, Selected};
use go_names::{Spec, names_in_specs};
use go_report::{Line, What};
use go_tree::NodeId;
use std::alloc::Global;

/// The line of each use in a file. An error is want of memory.
pub fn found_uses(
    alloc: Global,
    outline: &Outline,
    file: &OwnFile,
    book: &Rulebook,
) -> Result<Vec<Line>, NoMemory>
    ensures { IfOk result (λ lines. map line_view lines.items
        ≡ use_lines (outline_view outline.now) (denotes_by book.now.judge) (own_file_view file.now)) }
{
    let written = written(alloc, &file.specs)?;
    let found = names_in_specs(alloc, &written)?;
    let mut lines = Vec::new(alloc);
    push_occurrences(alloc, outline, file, book, &found, &mut lines)?;
    Ok(lines)
}

/// The specs that are written, and no copies. An error is want of memory.
pub fn written<'a>(alloc: Global, specs: &[Spec<'a>]) -> Result<Vec<Spec<'a>>, NoMemory>
    ensures { IfOk result (λ list. specs_view list.items ≡ rule.written (specs_view specs.now)) }
{
    let mut list = Vec::new(alloc);
    for spec in specs {
        if spec.told_at.is_none() {
            list.push(*spec)?;
        }
    }
    Ok(list)
}

// Pushes the lines of the uses that occur.
fn push_occurrences(
    alloc: Global,
    outline: &Outline,
    file: &OwnFile,
    book: &Rulebook,
    found: &[Occurrence],
    lines: &mut Vec<Line>,
) -> Result<(), NoMemory>
    ensures { OnOk result (map line_view lines.new.items ≡ map line_view lines.old.items
        ++ flat_map (rule.occurrence_uses (outline_view outline.now)
        file.now.stub (file_view file.now.file.now) (denotes_by book.now.judge)) found.now) }
{
    for occurrence in found {
        push_occurrence(alloc, outline, file, book, occurrence, lines)?;
    }
    Ok(())
}

// Pushes the line of an identifier, and that of the name behind its `.`.
fn push_occurrence(
    alloc: Global,
    outline: &Outline,
    file: &OwnFile,
    book: &Rulebook,
    occurrence: &Occurrence,
    lines: &mut Vec<Line>,
) -> Result<(), NoMemory>
    ensures { OnOk result (map line_view lines.new.items ≡ map line_view lines.old.items
        ++ rule.occurrence_uses (outline_view outline.now)
        file.now.stub (file_view file.now.file.now) (denotes_by book.now.judge) occurrence.now) }
{
    let Occurrence { id, at, name, .. } = occurrence;
    push_use(alloc, outline, file, book, *id, *at, name, lines)?;
    push_selected(alloc, outline, file, book, &occurrence.selected, lines)
}

fn push_selected(
    alloc: Global,
    outline: &Outline,
    file: &OwnFile,
    book: &Rulebook,
    selected: &Option<Selected>,
    lines: &mut Vec<Line>,
) -> Result<(), NoMemory>
    ensures { OnOk result (map line_view lines.new.items ≡ map line_view lines.old.items
        ++ rule.selected_use (outline_view outline.now)
        file.now.stub (file_view file.now.file.now) (denotes_by book.now.judge) selected.now) }
{
    match selected {
        Some(name) => push_use(
            alloc, outline, file, book, name.id, name.at, &name.name, lines,
        ),
        None => Ok(()),
    }
}

// Pushes the line of an identifier, where it denotes an object.
fn push_use(
    alloc: Global,
    outline: &Outline,
    file: &OwnFile,
    book: &Rulebook,
    id: NodeId,
    from: usize,
    name: &Name,
    lines: &mut Vec<Line>,
) -> Result<(), NoMemory>
    ensures { OnOk result (map line_view lines.new.items ≡ map line_view lines.old.items
        ++ rule.use_at (outline_view outline.now)
        file.now.stub (file_view file.now.file.now) (denotes_by book.now.judge) id from name.now) }
{
    if let Some(d) = book.resolve(id) {
        lines.push(use_line(alloc, outline, file, d, from, name)?)?;
    }
    Ok(())
}

// The line of a name that denotes this object.
fn use_line(
    alloc: Global,
    outline: &Outline,
    file: &OwnFile,
    d: ObjId,
    from: usize,
    name: &Name,
) -> Result<Line, NoMemory>
    ensures { IfOk result (λ line. line_view line ≡ rule.line_at file.now.stub (file_view file.now.file.now) from
        (used name.now (outlines.declared_at (outline_view outline.now) d))) }
{
    Ok(Line {
        at: file.file.at(file.stub, from)?,
        what: What::Used(name.clone()?, outline.declared_at(alloc, d)?),
    })
}
