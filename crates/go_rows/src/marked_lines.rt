// The lines that stand for marks in what is wanted.
use crate::head::Root;
use crate::marks::{Mark, Marked};
use crate::plan::RowFile;
use crate::row::RowFault;
use go_base::LineStarts;
use std::alloc::{AllocError, Global};

const MARKS: &[u8] = b"marks";

const MARKS_OF: &[u8] = b"marks ";

/// Whether a line stands for marks.
pub fn has_marks_line(text: &[u8]) -> bool {
    text.split(|byte| *byte == b'\n')
        .any(|line| line == MARKS || line.starts_with(MARKS_OF))
}

/// What is wanted of a text: each line `marks` gives way to a line for each mark, its word and its offset less
/// `base`. The section stands at that line.
pub fn with_offsets(
    alloc: Global,
    line: usize,
    text: &[u8],
    marks: &[Mark],
    base: usize,
) -> Result<Vec<u8>, RowFault> {
    let mut all = Vec::new(alloc);
    for part in text.split_inclusive(|byte| *byte == b'\n') {
        let written = part.strip_suffix(b"\n").unwrap_or(part);
        if written.starts_with(MARKS_OF) {
            return Err(RowFault::unread(line, "the marks of a file stand for no places here"));
        }
        if written == MARKS {
            put_offsets(alloc, &mut all, line, marks, base)?;
        } else {
            all.extend_from_slice(part)?;
        }
    }
    Ok(all)
}

// A line for each mark.
fn put_offsets(
    alloc: Global,
    all: &mut Vec<u8>,
    line: usize,
    marks: &[Mark],
    base: usize,
) -> Result<(), RowFault> {
    if marks.is_empty() {
        return Err(RowFault::unread(line, "the text has no marks"));
    }
    for mark in marks {
        let Some(offset) = mark.offset.checked_sub(base) else {
            return Err(RowFault::unread(
                line,
                "a mark stands before the place that offsets count from",
            ));
        };
        all.extend_from_slice(&mark.word)?;
        all.extend_from_slice(format!(in alloc; " {offset}\n")?.as_bytes())?;
    }
    Ok(())
}

/// What is wanted of a module: each line `marks` gives way to a line of the report for each mark of the files,
/// each line `marks PATH` to those of that file. The section stands at that line.
pub fn with_places(
    alloc: Global,
    line: usize,
    text: &[u8],
    files: &[RowFile],
) -> Result<Vec<u8>, RowFault> {
    let mut all = Vec::new(alloc);
    for part in text.split_inclusive(|byte| *byte == b'\n') {
        let written = part.strip_suffix(b"\n").unwrap_or(part);
        let found = if written == MARKS {
            put_files(alloc, &mut all, files, None)?
        } else if let Some(path) = written.strip_prefix(MARKS_OF) {
            put_files(alloc, &mut all, files, Some(path))?
        } else {
            all.extend_from_slice(part)?;
            true
        };
        if !found {
            return Err(RowFault::unread(line, "the files have no such marks"));
        }
    }
    Ok(all)
}

// The lines of all files, or of that at a path; false where there is none.
fn put_files(
    alloc: Global,
    all: &mut Vec<u8>,
    files: &[RowFile],
    path: Option<&[u8]>,
) -> Result<bool, AllocError> {
    let mut found = false;
    for file in files {
        let written = written_path(alloc, file)?;
        let is_asked = match path {
            Some(path) => path == written.as_bytes(),
            None => true,
        };
        if is_asked && !file.text.marks.is_empty() {
            found = true;
            put_places(alloc, all, written.as_str(), &file.text)?;
        }
    }
    Ok(found)
}

// The path of a file as a report writes it.
fn written_path(alloc: Global, file: &RowFile) -> Result<String, AllocError> {
    let path = &file.path;
    match file.root {
        Root::Module => path.clone(),
        Root::Stubs => format!(in alloc; "stub:{path}"),
    }
}

// The lines of one file.
fn put_places(
    alloc: Global,
    all: &mut Vec<u8>,
    path: &str,
    text: &Marked,
) -> Result<(), AllocError> {
    let bytes = text.bytes.as_slice();
    let Ok(lines) = LineStarts::of(alloc, bytes) else {
        return Err(AllocError);
    };
    for mark in &text.marks {
        if mark.offset <= bytes.len() {
            let place = lines.place(bytes, mark.offset);
            let line = place.line;
            let col = place.col;
            let front = format!(in alloc; "broken\t{path}:{line}:{col}\t")?;
            all.extend_from_slice(front.as_bytes())?;
            all.extend_from_slice(&mark.word)?;
            all.push(b'\n')?;
        }
    }
    Ok(())
}

/// Whether each file with marks has a line that stands for them in the text.
pub fn covers_marks(alloc: Global, text: &[u8], files: &[RowFile]) -> Result<bool, AllocError> {
    for file in files {
        if !file.text.marks.is_empty() && !has_line_for(alloc, text, file)? {
            return Ok(false);
        }
    }
    Ok(true)
}

fn has_line_for(alloc: Global, text: &[u8], file: &RowFile) -> Result<bool, AllocError> {
    let path = written_path(alloc, file)?;
    for line in text.split(|byte| *byte == b'\n') {
        if line == MARKS || line.strip_prefix(MARKS_OF) == Some(path.as_bytes()) {
            return Ok(true);
        }
    }
    Ok(false)
}
