// The order of lines: by their places, of two nodes that start at one place the longer one first.
ghost use Rattle.std.specs.Prelude.{◌≡◌, OnOk, map};
ghost use Rattle.go_report.specs.LineOrder as spec;
ghost use Rattle.go_report.specs.Report.{line_view, what_view};

use go_base::{LineCol, NoMemory};
use go_report::{Line, What};
use std::cmp::Reverse;

/// Puts the lines of a kind that were found in a file in their order. An error is want of memory.
pub fn put_in_order(lines: &mut Vec<Line>) -> Result<(), NoMemory>
    ensures { OnOk result (spec.IsInOrder (map line_view lines.old.items) (map line_view lines.new.items)) }
{
    lines.sort_by_key(key)?;
    Ok(())
}

// What is compared: the line and the column of the start, and those of the end, the later first.
fn key(line: &Line) -> (usize, usize, Reverse<usize>, Reverse<usize>)
    ensures line { result.0 ≡ line.now.at.line }
    ensures col { result.1 ≡ line.now.at.col }
    ensures end_line { result.2.0 ≡ (spec.end_of (line_view line.now).what).line }
    ensures end_col { result.3.0 ≡ (spec.end_of (line_view line.now).what).col }
{
    let end = end_of(&line.what);
    (
        line.at.line,
        line.at.col,
        Reverse(end.line),
        Reverse(end.col),
    )
}

// Where the node of a line ends; of other lines one place for all.
fn end_of(what: &What) -> LineCol
    ensures { result ≡ spec.end_of (what_view what.now) }
{
    match what {
        What::Expr(end, _, _, _) => *end,
        What::Def(_, _) => LineCol { line: 0, col: 0 },
        What::Used(_, _) => LineCol { line: 0, col: 0 },
    }
}
