// Reports of module rows.
ghost use Rattle.std.specs.Prelude.{◌≡◌};

use crate::head::Root;
use crate::plan::{RowFile, word_of};
use crate::row::RowFault;
use go_base::{
    Bytes, MemFile, Name, Sink, Status, Steps, SureSink, SureTree, Tree, Word, has_distinct_paths,
};
use go_command::gocheck;
use std::alloc::{AllocError, Global};
use std::marker::Brand;
use std::sync::ledger::{Blank, Ledger};

/// What a run of the checker with these words on these files answers: a line for its status, then what it writes.
/// The row begins at that line.
pub fn report(
    alloc: Global,
    line: usize,
    words: &[Word],
    files: &[RowFile],
) -> Result<Vec<u8>, RowFault> {
    let files = mem_files(alloc, files)?;
    if !has_distinct_paths(&files) {
        return Err(RowFault::unread(line, "two files have one path"));
    }
    let mut tree = SureTree::new(files);
    let mut out = SureSink::new(alloc);
    let status = run(alloc, words, &mut tree, &mut out);
    Ok(status_and_text(alloc, status.code(), out.taken())?)
}

/// A line for a status, and a report.
pub fn status_and_text(alloc: Global, code: u8, text: &[u8]) -> Result<Vec<u8>, AllocError> {
    let mut all = format!(in alloc; "status {code}\n")?.into_bytes();
    all.extend_from_slice(text)?;
    Ok(all)
}

// The files in memory.
fn mem_files(alloc: Global, files: &[RowFile]) -> Result<Vec<MemFile>, AllocError> {
    let mut list = Vec::new(alloc);
    for file in files {
        let root = match file.root {
            Root::Module => "r",
            Root::Stubs => "s",
        };
        list.push(MemFile {
            root: word_of(alloc, root)?,
            path: Name::new(file.path.clone()?),
            bytes: Bytes::new(file.text.bytes.clone()?),
        })?;
    }
    Ok(list)
}

// A run with a new ledger.
fn run<T: Tree, S: Sink>(alloc: Global, words: &[Word], tree: &mut T, out: &mut S) -> Status {
    counted_run::<Brand, T, S>(alloc, Blank::new(1), words, tree, out)
}

fn counted_run<L: Ledger, T: Tree, S: Sink>(
    alloc: Global,
    blank: Blank,
    words: &[Word],
    tree: &mut T,
    out: &mut S,
) -> Status
    requires name { blank.name ≡ L.name }
    requires parts { blank.parts ≡ L.parts }
    requires some { blank.parts ≡ 1 }
{
    let mut steps = Steps::<L>::new(blank);
    gocheck(alloc, words, tree, out, &mut steps)
}
