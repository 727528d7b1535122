//! `go_rows [FOLDER]`: runs the tables of rows in the files of a folder, that in which it runs where none is named, and
//! prints each row that differs and how many do.
#![tactic(auto)]

// Rows as they are written.
mod head;
mod marks;
mod numbers;
mod plan;
mod quoted;
mod row;
mod texts;
mod theme;

// What rows answer.
mod answer;
mod answers;
mod cases;
mod faults;
mod files;
mod fronts;
mod heights;
mod marked_lines;
mod pieces;
mod reports;
mod shapes;
mod tokens;
mod type_words;
mod types;

// What is run and printed.
mod print;
mod run;
mod tally;

use go_base::{FolderTree, Word};
use run::run_themes;
use std::process::ExitCode;
use std::{env, io};
use tally::Tally;

// The folder that the first word behind the program's own name is, or that in which it runs.
fn folder(rt: &HostRuntime) -> io::Result<Word> {
    match env::args(rt)?.nth(1) {
        Some(word) => Ok(Word::new(word)),
        None => Ok(Word::new(String::from_str(rt.alloc(), ".")?)),
    }
}

// Runs all themes, and prints the counts.
fn run_all(rt: &HostRuntime) -> io::Result<Tally> {
    let root = folder(rt)?;
    let mut tree = FolderTree::new(rt.clone()?);
    let tally = run_themes(rt, &mut tree, &root)?;
    let rows = tally.rows;
    let differ = tally.differ;
    println!(rt; "{rows} rows, {differ} differ")?;
    Ok(tally)
}

fn main(rt: HostRuntime) -> ExitCode {
    match run_all(&rt) {
        Ok(tally) => {
            if tally.is_clean() {
                ExitCode::SUCCESS
            } else {
                ExitCode::FAILURE
            }
        }
        Err(error) => {
            // Nothing is left to do where standard error is closed.
            let _ = rt.eprintln(error);
            ExitCode::FAILURE
        }
    }
}
