// The files of a tree in memory.
ghost use Rattle.std.specs.Prelude.{◌≡◌, ◌↔◌, Any, IfOk, IsTrue, find, take};
ghost use Rattle.std.specs.Option.{option_copied};
ghost use Rattle.go_base.specs.Tree.{HasDistinctPaths, IsSamePlace, bytes_of, is_file, paths_of};

use crate::bytes::Bytes;
use crate::name::Name;
use crate::no_memory::NoMemory;
use crate::tree::MemFile;
use crate::word::Word;
use std::alloc::Global;

// Files of which the paths of each root are distinct.
#[derive(Drop)]
pub(crate) struct Files {
    list: Vec<MemFile>,
    ghost distinct: { HasDistinctPaths list.items },
}

impl Files {
    pub(crate) fn new(list: Vec<MemFile>) -> Self
        requires { HasDistinctPaths list.items }
        ensures { result.list.items ≡ list.items }
    {
        Files { list }
    }

    // The paths of the files below the root.
    pub(crate) fn paths(&self, alloc: Global, root: &Word) -> Result<Vec<Name>, NoMemory>
        ensures { IfOk result (λ names. names.items ≡ paths_of self.now.list.items root.now) }
    {
        let mut names = Vec::new(alloc);
        for file in &self.list {
            if file.root == *root {
                names.push(file.path.clone()?)?;
            }
        }
        Ok(names)
    }

    fn file_at(&self, root: &Word, path: &Name) -> Option<&MemFile>
        ensures { option_copied result ≡ find (is_file root.now path.now) self.now.list.items }
    {
        self.list
            .iter()
            .find(|file| file.root == *root && file.path == *path)
    }

    // The first `most` bytes of a file, or none where there is no such file.
    pub(crate) fn front(
        &self,
        alloc: Global,
        root: &Word,
        path: &Name,
        most: usize,
    ) -> Result<Bytes, NoMemory>
        ensures { IfOk result
            (λ bytes. bytes ≡ take most (bytes_of self.now.list.items root.now path.now)) }
    {
        match self.file_at(root, path) {
            Some(file) => file.bytes.front(alloc, most),
            None => Ok(Bytes::new(Vec::new(alloc))),
        }
    }
}

/// Whether the paths of each root are distinct, which the trees in memory ask.
pub fn has_distinct_paths(files: &[MemFile]) -> bool
    ensures { IsTrue result ↔ HasDistinctPaths files.now }
{
    for (i, file) in files.iter().enumerate() {
        if is_among(&files[..i], file) {
            return false;
        }
    }
    true
}

fn is_among(files: &[MemFile], file: &MemFile) -> bool
    ensures { IsTrue result ↔ Any (λ other. IsSamePlace other file.now) files.now }
{
    files.iter().any(|other| is_same_place(other, file))
}

fn is_same_place(a: &MemFile, b: &MemFile) -> bool
    ensures { IsTrue result ↔ IsSamePlace a.now b.now }
{
    a.root == b.root && a.path == b.path
}
