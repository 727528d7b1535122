// The lines of an accepted package.
ghost use Rattle.std.specs.Prelude.{◌≡◌, ◌++◌, ℕ, IfOk, OnOk, map};
ghost use Rattle.go_module.specs.Modules.Module.{PackageData};
ghost use Rattle.go_report.specs.LineOrder.{AreInOrder};
ghost use Rattle.go_report.specs.PackageLines as spec;
ghost use Rattle.go_report.specs.Report.{line_view};
ghost use Rattle.go_check.specs.Lines.Found.{def_lines, expr_lines, own_file_view, own_files_in, own_files_view, use_lines};
ghost use Rattle.go_check.specs.Lines.Ordered.{AddsInOrder};
ghost use Rattle.go_judge.specs.Naming.{Naming};
ghost use Rattle.go_judge.specs.Headers.{Headers};
ghost use Rattle.go_judge.specs.HeadersView.{headers_view};
ghost use Rattle.go_model.specs.Outcomes.Walked.{AreWalked, nodes_of};
ghost use Rattle.go_expr.specs.Read.{outcome_read};
ghost use Rattle.go_expr.specs.Walker.{outcomes_view};
ghost use Rattle.go_check.specs.Packages.Book.{denotes_by, standing_of};
ghost use Rattle.go_check.specs.View.{outline_view};

use crate::defs::found_defs;
use crate::exprs::found_exprs;
use crate::line_order::put_in_order;
use crate::module_judge::ModuleJudge;
use crate::outline::Outline;
use crate::own_file::OwnFile;
use crate::rulebook::Rulebook;
use crate::uses::found_uses;
use go_base::NoMemory;
use go_expr::Walker;
use go_report::Line;
use std::alloc::Global;

/// The lines of a package with these files, by the outcomes of its nodes and over the headers that are known: one for each
/// declared name, then one for each use, then one for each expression, each kind in order. The headers and what else the
/// rulebook stands on stay as they are, also on an error, which is want of memory.
pub fn lines_of(
    alloc: Global,
    outline: &Outline,
    files: &[OwnFile],
    book: &mut Rulebook,
) -> Result<Vec<Line>, NoMemory>
    ensures lines { IfOk result (λ lines. (naming : Naming) (headers : Headers) (k : ℕ) (p : PackageData)
        → own_files_view files.now ≡ own_files_in p → headers_view book.old.judge.headers ≡ headers
        → AreWalked naming headers (nodes_of p) (outcomes_view book.old.walker)
        → spec.AreLines (outline_view outline.now) k p (denotes_by book.old.judge) naming headers
        (map line_view lines.items)) }
    ensures headers { headers_view book.new.judge.headers ≡ headers_view book.old.judge.headers }
    ensures standing { standing_of book.new.judge ≡ standing_of book.old.judge }
{
    let defs = all_defs(alloc, outline, files, book)?;
    let uses = all_uses(alloc, outline, files, book)?;
    let exprs = all_exprs(alloc, files, &mut book.judge, &book.walker)?;
    joined(alloc, defs, uses, exprs)
}

// The lines of three kinds, one kind after another. Their room is taken at once.
fn joined(
    alloc: Global,
    defs: Vec<Line>,
    uses: Vec<Line>,
    exprs: Vec<Line>,
) -> Result<Vec<Line>, NoMemory>
    ensures { IfOk result (λ lines. lines.items ≡ defs.items ++ (uses.items ++ exprs.items)) }
{
    let count = defs
        .len()
        .saturating_add(uses.len())
        .saturating_add(exprs.len());
    let mut lines = Vec::with_capacity(alloc, count)?;
    add_all(&mut lines, defs)?;
    add_all(&mut lines, uses)?;
    add_all(&mut lines, exprs)?;
    Ok(lines)
}

// Moves all of these lines to the end of a list.
fn add_all(lines: &mut Vec<Line>, more: Vec<Line>) -> Result<(), NoMemory>
    ensures { OnOk result (lines.new.items ≡ lines.old.items ++ more.items) }
{
    let mut more = more;
    lines.append(&mut more)?;
    Ok(())
}

// The lines of declared names, file after file.
fn all_defs(
    alloc: Global,
    outline: &Outline,
    files: &[OwnFile],
    book: &Rulebook,
) -> Result<Vec<Line>, NoMemory>
    ensures { IfOk result (λ lines. AreInOrder (map (def_lines (outline_view outline.now)
        (outcome_read (outcomes_view book.now.walker))) (own_files_view files.now)) (map line_view lines.items)) }
{
    let mut lines = Vec::new(alloc);
    for file in files {
        add_in_order(found_defs(alloc, outline, file, book)?, &mut lines)?;
    }
    Ok(lines)
}

// The lines of uses, file after file.
fn all_uses(
    alloc: Global,
    outline: &Outline,
    files: &[OwnFile],
    book: &Rulebook,
) -> Result<Vec<Line>, NoMemory>
    ensures { IfOk result (λ lines. AreInOrder (map (use_lines (outline_view outline.now) (denotes_by book.now.judge))
        (own_files_view files.now)) (map line_view lines.items)) }
{
    let mut lines = Vec::new(alloc);
    for file in files {
        add_in_order(found_uses(alloc, outline, file, book)?, &mut lines)?;
    }
    Ok(lines)
}

// The lines of expressions, file after file.
fn all_exprs(
    alloc: Global,
    files: &[OwnFile],
    judge: &mut ModuleJudge,
    walker: &Walker,
) -> Result<Vec<Line>, NoMemory>
    ensures lines { IfOk result (λ lines. AreInOrder (map (expr_lines (headers_view judge.old.headers)
        (outcome_read (outcomes_view walker.now))) (own_files_view files.now)) (map line_view lines.items)) }
    ensures headers { headers_view judge.new.headers ≡ headers_view judge.old.headers }
    ensures standing { standing_of judge.new ≡ standing_of judge.old }
{
    let mut lines = Vec::new(alloc);
    for file in files {
        add_exprs(alloc, judge, file, walker, &mut lines)?;
    }
    Ok(lines)
}

// Adds those of a file.
fn add_exprs(
    alloc: Global,
    judge: &mut ModuleJudge,
    file: &OwnFile,
    walker: &Walker,
    lines: &mut Vec<Line>,
) -> Result<(), NoMemory>
    ensures lines { OnOk result (AddsInOrder (expr_lines (headers_view judge.old.headers)
        (outcome_read (outcomes_view walker.now)) (own_file_view file.now))
        (map line_view lines.old.items) (map line_view lines.new.items)) }
    ensures headers { headers_view judge.new.headers ≡ headers_view judge.old.headers }
    ensures standing { standing_of judge.new ≡ standing_of judge.old }
{
    add_in_order(found_exprs(alloc, judge, file, walker)?, lines)
}

// Adds the lines that were found in a file, in their order, behind those of the files before.
fn add_in_order(found: Vec<Line>, lines: &mut Vec<Line>) -> Result<(), NoMemory>
    ensures { OnOk result (AddsInOrder (map line_view found.items)
        (map line_view lines.old.items) (map line_view lines.new.items)) }
{
    let mut found = found;
    put_in_order(&mut found)?;
    add_all(lines, found)
}
