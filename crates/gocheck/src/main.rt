//! `gocheck ROOT [--stubs ROOT2]`: checks the Go module below ROOT, over the stub packages below ROOT2, and
//! prints its report.
#![tactic(auto)]

#[cfg(test)]
mod folder_tests;
#[cfg(test)]
mod stream_tests;

ghost use Rattle.std.specs.Prelude.{◌≡◌};

use go_base::{FolderTree, Status, StdSink, Steps, Word};
use go_command::gocheck;
use std::alloc::Global;
use std::io::ErrorKind;
use std::marker::Brand;
use std::process::ExitCode;
use std::rt::Files;
use std::sync::ledger::{Blank, Ledger};
use std::{env, io};

// A run over real folders and standard output, with a new ledger.
fn run_on_folders<L: Ledger, R: Files + AllocGlobal + Print + Drop + Clone>(
    rt: R,
    alloc: Global,
    words: &[Word],
    blank: Blank,
) -> Status
    requires name { blank.name ≡ L.name }
    requires parts { blank.parts ≡ L.parts }
    requires some { blank.parts ≡ 1 }
{
    let Ok(own) = rt.clone() else {
        return Status::NoMemory;
    };
    let mut tree = FolderTree::new(own);
    let mut out = StdSink::new(io::writer(&rt));
    let mut steps = Steps::<L>::new(blank);
    gocheck(alloc, words, &mut tree, &mut out, &mut steps)
}

// The words after the program's own name.
fn words_of(rt: &HostRuntime) -> io::Result<Vec<Word>> {
    let mut words = Vec::new(rt.alloc());
    for word in env::args(rt)?.skip(1) {
        words.push(Word::new(word))?;
    }
    Ok(words)
}

// A word that is not UTF-8 ends the run as words that name no root do.
fn status_without_words(error: io::Error) -> Status {
    if error.kind() == ErrorKind::OutOfMemory {
        Status::NoMemory
    } else {
        Status::Usage
    }
}

fn main(rt: HostRuntime) -> ExitCode {
    let alloc = rt.alloc();
    let status = match words_of(&rt) {
        Ok(words) => match rt.clone() {
            Ok(own) => run_on_folders::<Brand, HostRuntime>(own, alloc, &words, Blank::new(1)),
            Err(_) => Status::NoMemory,
        },
        Err(error) => status_without_words(error),
    };
    let message = status.message();
    if !message.is_empty() {
        // Nothing is left to do where standard error is closed.
        let _ = rt.eprintln(message);
    }
    ExitCode::from(status.code())
}
