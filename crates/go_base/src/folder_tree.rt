// Real folders, as a tree. They tell no content: what they hold is the outside's.
ghost use Rattle.std.specs.Prelude.{◌≡◌, ◌≢◌, ◌≤◌, None, IfOk};
ghost use Rattle.go_base.specs.Counters.{Rose};

use crate::bytes::Bytes;
use crate::folder_list::files_below;
use crate::folder_paths::{is_file_at, is_folder_at};
use crate::name::Name;
use crate::tree::{Tree, TreeFault};
use crate::word::Word;
use std::alloc::Global;
use std::fs;
use std::io::{self, ErrorKind, Read};
use std::rt::Files;

/// Real folders: a root is a folder's path, and the files are those below it. Links are followed
/// nowhere below a root: they are neither files nor folders.
///
/// A root or a file that is not there is no failure. Any other error is one, and so are a name that
/// is not UTF-8, a root that is no folder, something else than a file that is read, and a list that
/// meets more than 1,000,000 entries.
#[derive(Drop)]
pub struct FolderTree<R: Files + AllocGlobal + Clone + Drop> {
    rt: R,
    faults: u64,
}

impl<R: Files + AllocGlobal + Clone + Drop> FolderTree<R> {
    /// The folders that the runtime reaches; no call has failed yet.
    pub fn new(rt: R) -> Self
        ensures { result.faults ≡ 0 }
    {
        FolderTree { rt, faults: 0 }
    }

    // Counts a failure; want of memory is none.
    fn fault_of(&mut self, error: io::Error) -> TreeFault
        ensures cause { result ≡ TreeFault.Failed → Rose self.old.faults self.new.faults }
        ensures stays { result ≢ TreeFault.Failed → self.new.faults ≡ self.old.faults }
        ensures rising { self.old.faults ≤ self.new.faults }
    {
        if error.kind() == ErrorKind::OutOfMemory {
            return TreeFault::NoMemory;
        }
        self.faults = self.faults.saturating_add(1);
        TreeFault::Failed
    }
}

impl<R: Files + AllocGlobal + Clone + Drop> Tree for FolderTree<R> {
    ghost files = { λ _. None };

    ghost faults = { λ tree. tree.faults };

    fn list(&mut self, alloc: Global, root: &Word) -> Result<Vec<Name>, TreeFault> {
        match files_below(&self.rt, alloc, root.as_str()) {
            Ok(names) => Ok(names),
            Err(error) => Err(self.fault_of(error)),
        }
    }

    fn read(
        &mut self,
        alloc: Global,
        root: &Word,
        path: &Name,
        most: usize,
    ) -> Result<Bytes, TreeFault> {
        match front_of(&self.rt, alloc, root.as_str(), path.as_str(), most) {
            Ok(bytes) => Ok(Bytes::new(bytes)),
            Err(error) => Err(self.fault_of(error)),
        }
    }

    ghost distinct = { λ _. tt };
}

// The first bytes of a file below a root; none where it is not there.
fn front_of<R: Files>(
    rt: &R,
    alloc: Global,
    root: &str,
    path: &str,
    most: usize,
) -> io::Result<Vec<u8>> {
    let mut at = String::from_str(alloc, root)?;
    for part in path.split('/') {
        if !is_folder_at(rt, at.as_str())? {
            return Ok(Vec::new(alloc));
        }
        at.push('/')?;
        at.push_str(part)?;
    }
    if is_file_at(rt, at.as_str())? {
        front_of_file(rt, alloc, at.as_str(), most)
    } else {
        Ok(Vec::new(alloc))
    }
}

// The first bytes of a file; a read that gives no byte is its end.
fn front_of_file<R: Files>(rt: &R, alloc: Global, path: &str, most: usize) -> io::Result<Vec<u8>> {
    let mut file = fs::open(rt, path)?;
    let mut bytes = Vec::new(alloc);
    let mut buffer = [0u8; 65536];
    for _ in 0..u64::MAX {
        let room = most.saturating_sub(bytes.len()).min(65536);
        if room == 0 {
            break;
        }
        let count = file.read(&mut buffer[..room])?;
        if count == 0 {
            break;
        }
        bytes.extend_from_slice(&buffer[..count])?;
    }
    Ok(bytes)
}
