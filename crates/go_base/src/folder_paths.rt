// What stands at a path of the real folders.
use std::fs::{self, FileType};
use std::io::{self, ErrorKind};
use std::rt::Files;

/// What stands at a path, without following a link there; None where nothing does.
pub fn kind_at<R: Files>(rt: &R, path: &str) -> io::Result<Option<FileType>> {
    match fs::symlink_metadata(rt, path) {
        Ok(metadata) => Ok(Some(metadata.file_type())),
        Err(error) => {
            if error.kind() == ErrorKind::NotFound {
                Ok(None)
            } else {
                Err(error)
            }
        }
    }
}

/// Whether a folder stands at the path; false where nothing does, or a link.
pub fn is_folder_at<R: Files>(rt: &R, path: &str) -> io::Result<bool> {
    match kind_at(rt, path)? {
        None => Ok(false),
        Some(kind) => {
            if kind.is_dir() {
                Ok(true)
            } else if kind.is_symlink() {
                Ok(false)
            } else {
                Err(io::Error::from(ErrorKind::NotADirectory))
            }
        }
    }
}

/// Whether a file stands at the path; false where nothing does, or a link.
pub fn is_file_at<R: Files>(rt: &R, path: &str) -> io::Result<bool> {
    match kind_at(rt, path)? {
        None => Ok(false),
        Some(kind) => {
            if kind.is_file() {
                Ok(true)
            } else if kind.is_symlink() {
                Ok(false)
            } else {
                Err(io::Error::from(ErrorKind::IsADirectory))
            }
        }
    }
}
