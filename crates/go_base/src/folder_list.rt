// All files below a real folder.
use crate::folder_paths::{is_folder_at, kind_at};
use crate::name::Name;
use std::alloc::{AllocError, Global};
use std::fs;
use std::io::{self, ErrorKind};
use std::rt::Files;

/// The most entries of folders that a list goes through.
const MOST_ENTRIES: usize = 1_000_000;

/// The paths of all files below the root, in any order. Links are passed over, and so is what is
/// neither a file nor a folder.
pub fn files_below<R: Files + AllocGlobal + Clone + Drop>(
    rt: &R,
    alloc: Global,
    root: &str,
) -> io::Result<Vec<Name>> {
    let mut list = FolderList::new(alloc);
    if !is_folder_at(rt, root)? {
        return Ok(list.names);
    }
    list.folders.push(String::new(alloc))?;
    for _ in 0..=MOST_ENTRIES {
        match list.folders.pop() {
            None => return Ok(list.names),
            Some(folder) => list.go_through(rt, alloc, root, folder.as_str())?,
        }
    }
    Err(too_many())
}

// What was found so far: files, folders that are still to be gone through, and how many entries may
// still be met. Paths are relative to the root.
#[derive(Drop)]
struct FolderList {
    names: Vec<Name>,
    folders: Vec<String>,
    room: usize,
}

impl FolderList {
    fn new(alloc: Global) -> Self {
        FolderList {
            names: Vec::new(alloc),
            folders: Vec::new(alloc),
            room: MOST_ENTRIES,
        }
    }

    // Notes what stands in a folder. A folder that is not there any more is passed over.
    fn go_through<R: Files + AllocGlobal + Clone + Drop>(
        &mut self,
        rt: &R,
        alloc: Global,
        root: &str,
        folder: &str,
    ) -> io::Result<()> {
        let at = joined(alloc, root, folder)?;
        let entries = match fs::read_dir(rt, at.as_str()) {
            Ok(entries) => entries,
            Err(error) => return pass_over_missing(error),
        };
        for entry in entries {
            let entry = entry?;
            let path = joined(alloc, folder, entry.file_name())?;
            self.note(rt, alloc, root, path)?;
        }
        Ok(())
    }

    // Notes one entry.
    fn note<R: Files>(
        &mut self,
        rt: &R,
        alloc: Global,
        root: &str,
        path: String,
    ) -> io::Result<()> {
        if self.room == 0 {
            return Err(too_many());
        }
        self.room -= 1;
        let at = joined(alloc, root, path.as_str())?;
        if let Some(kind) = kind_at(rt, at.as_str())? {
            if kind.is_dir() {
                self.folders.push(path)?;
            } else if kind.is_file() {
                self.names.push(Name::new(path))?;
            }
        }
        Ok(())
    }
}

// One path behind another; an empty one adds nothing.
fn joined(alloc: Global, front: &str, back: &str) -> Result<String, AllocError> {
    if front.is_empty() {
        String::from_str(alloc, back)
    } else if back.is_empty() {
        String::from_str(alloc, front)
    } else {
        format!(in alloc; "{front}/{back}")
    }
}

fn pass_over_missing(error: io::Error) -> io::Result<()> {
    if error.kind() == ErrorKind::NotFound {
        Ok(())
    } else {
        Err(error)
    }
}

fn too_many() -> io::Error {
    io::Error::from(ErrorKind::FileTooLarge)
}
