// Rows of a theme, as they are written.
use go_base::NoMemory;
use std::alloc::{AllocError, AllocFailed};

/// A section: the line of its head in the theme, from 1, the head and the text.
#[derive(Debug, Drop)]
pub struct Section {
    pub line: usize,
    pub head: String,
    pub text: String,
}

/// Why a row cannot be read, and the line of its theme, from 1, where that shows.
#[derive(Clone, Copy, Debug)]
pub struct Unread {
    pub line: usize,
    pub why: &'static str,
}

/// A row: the line where it begins, from 1, its name and its sections.
#[derive(Debug, Drop)]
pub struct Row {
    pub line: usize,
    pub name: String,
    pub sections: Vec<Section>,
    /// What is wrong with its lines, if anything.
    pub unread: Option<Unread>,
}

impl Row {
    /// Notes what is wrong, unless something was before.
    pub fn note(&mut self, line: usize, why: &'static str) {
        if self.unread.is_none() {
            self.unread = Some(Unread { line, why });
        }
    }
}

/// Why a row has no answer.
#[derive(Clone, Copy, Debug)]
pub enum RowFault {
    /// The row cannot be read.
    Unread(Unread),
    /// Memory was refused.
    NoMemory,
}

impl RowFault {
    /// A row that cannot be read.
    pub fn unread(line: usize, why: &'static str) -> RowFault {
        RowFault::Unread(Unread { line, why })
    }
}

impl From<AllocError> for RowFault {
    fn from(_: AllocError) -> Self {
        RowFault::NoMemory
    }
}

impl<T: Drop> From<AllocFailed<T>> for RowFault {
    fn from(_: AllocFailed<T>) -> Self {
        RowFault::NoMemory
    }
}

impl From<NoMemory> for RowFault {
    fn from(_: NoMemory) -> Self {
        RowFault::NoMemory
    }
}
