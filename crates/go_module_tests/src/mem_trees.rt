// Files of trees in memory, for tests.
ghost use Rattle.std.specs.Prelude.{IfOk};
ghost use Rattle.go_base.specs.Tree.{HasDistinctPaths};

use go_base::{Bytes, MemFile, Name, Word, has_distinct_paths};
use std::alloc::Global;
use std::test::Fail;

/// A file: its path, which begins with `+` below the root of stubs, and its text.
pub type File = (&'static str, &'static str);

/// The file go.mod of the module `m`.
pub const GO_MOD: File = ("go.mod", "module m\n\ngo 1.21\n");

/// A root.
pub fn word(alloc: Global, text: &str) -> Result<Word, Fail> {
    Ok(Word::new(String::from_str(alloc, text)?))
}

fn mem_file(alloc: Global, file: &File) -> Result<MemFile, Fail> {
    let (path, text) = *file;
    let root = if path.starts_with('+') { "s" } else { "r" };
    let path = path.trim_start_matches('+');
    Ok(MemFile {
        root: word(alloc, root)?,
        path: Name::new(String::from_str(alloc, path)?),
        bytes: Bytes::new(text.as_bytes().to_vec(alloc)?),
    })
}

/// These files, below the roots `r` and `s`.
pub fn mem_files(alloc: Global, files: &[File]) -> Result<Vec<MemFile>, Fail>
    ensures { IfOk result (λ list. HasDistinctPaths list.items) }
{
    let mut list = Vec::new(alloc);
    for file in files {
        list.push(mem_file(alloc, file)?)?;
    }
    distinct(list)
}

/// These files, where no two of them have one path.
pub fn distinct(list: Vec<MemFile>) -> Result<Vec<MemFile>, Fail>
    ensures { IfOk result (λ files. HasDistinctPaths files.items) }
{
    if has_distinct_paths(&list) {
        Ok(list)
    } else {
        Err(Fail::from("two files of one path"))
    }
}
