// Runs of rows, themes and folders.
ghost use Rattle.std.specs.Prelude.{◌≡◌, ◌+◌, ◌-◌, ◌^◌, ◌<◌, IfOk, OnOk, length, min, vec_len};

use crate::answers::{Outcome, plan_outcome};
use crate::plan::plan_of;
use crate::print::{put_difference, put_unread};
use crate::row::{Row, RowFault, Unread};
use crate::tally::Tally;
use crate::theme::{rows_of, unread_theme};
use go_base::{Name, Tree, TreeFault, Word};
use std::alloc::{AllocError, Global};
use std::io::{self, ErrorKind};

/// The most bytes of a theme.
const MOST_THEME: usize = 67_108_864;

/// Runs the themes below a root of a tree, in the order of their paths, and prints each row that differs. A root
/// without files counts as a row that cannot be read.
pub fn run_themes<R: Print + AllocGlobal, T: Tree>(
    rt: &R,
    tree: &mut T,
    root: &Word,
) -> io::Result<Tally> {
    let alloc = rt.alloc();
    let mut tally = Tally::new();
    let mut names = tree.list(alloc, root).map_err(error_of)?;
    names.sort()?;
    if names.is_empty() {
        println!(rt; "the folder has no file")?;
        tally.count(true);
    }
    for name in &names {
        let bytes = tree.read(alloc, root, name, MOST_THEME).map_err(error_of)?;
        let rows = theme_rows(alloc, bytes.as_slice())?;
        run_rows(rt, name, &rows, &mut tally)?;
    }
    Ok(tally)
}

fn error_of(fault: TreeFault) -> io::Error {
    match fault {
        TreeFault::NoMemory => io::Error::from(ErrorKind::OutOfMemory),
        TreeFault::Failed => io::Error::from(ErrorKind::Other),
    }
}

// The rows of a file.
fn theme_rows(alloc: Global, bytes: &[u8]) -> Result<Vec<Row>, AllocError>
    ensures { IfOk result (λ rows. 0 < vec_len rows) }
{
    if bytes.len() >= MOST_THEME {
        return unread_theme(alloc, "the file is too long");
    }
    match str::from_utf8(bytes) {
        Ok(text) => rows_of(alloc, text),
        Err(_) => unread_theme(alloc, "the file is not UTF-8"),
    }
}

// Runs the rows of a theme, and counts each.
fn run_rows<R: Print + AllocGlobal>(
    rt: &R,
    theme: &Name,
    rows: &[Row],
    tally: &mut Tally,
) -> io::Result<()>
    ensures { OnOk result (tally.new.rows ≡ min (tally.old.rows + length rows.now) (2 ^ 64 - 1)) }
{
    for row in rows {
        let differs = run_row(rt, theme, row)?;
        tally.count(differs);
    }
    Ok(())
}

// Runs a row, and prints how it differs; whether it does. A row of which nothing is compared differs.
fn run_row<R: Print + AllocGlobal>(rt: &R, theme: &Name, row: &Row) -> io::Result<bool> {
    match outcome_of(rt.alloc(), row) {
        Ok(Outcome::Same(compared)) => {
            if compared > 0 {
                return Ok(false);
            }
            let line = row.line;
            let why = "nothing was compared";
            put_unread(rt, theme, row, Unread { line, why })?;
            Ok(true)
        }
        Ok(Outcome::Different(difference)) => {
            put_difference(rt, theme, row, &difference)?;
            Ok(true)
        }
        Err(RowFault::Unread(unread)) => {
            put_unread(rt, theme, row, unread)?;
            Ok(true)
        }
        Err(RowFault::NoMemory) => Err(io::Error::from(ErrorKind::OutOfMemory)),
    }
}

// What a row comes to.
fn outcome_of(alloc: Global, row: &Row) -> Result<Outcome, RowFault> {
    let plan = plan_of(alloc, row)?;
    plan_outcome(alloc, row.line, &plan)
}
