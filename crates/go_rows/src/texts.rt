// The texts that a section writes.
use crate::head::Form;
use crate::quoted::{MOST_BYTES, unquoted};
use crate::row::{RowFault, Section};
use std::alloc::{AllocError, Global};

/// The text of a section: its lines as they stand, or what its strings in quotes stand for.
pub fn whole_text(alloc: Global, section: &Section, form: Form) -> Result<Vec<u8>, RowFault> {
    if form.is_each {
        return Err(RowFault::unread(section.line, "each line of this section is no text"));
    }
    if form.is_quoted {
        return joined(alloc, section, form);
    }
    if form.drops_newline {
        return Ok(dropped(alloc, section.text.as_str())?);
    }
    Ok(section.text.as_bytes().to_vec(alloc)?)
}

/// The texts of a section that a scanner or a parser reads: its lines without the last newline, or each line.
pub fn texts_of(alloc: Global, section: &Section, form: Form) -> Result<Vec<Vec<u8>>, RowFault> {
    if form.drops_newline {
        return Err(RowFault::unread(section.line, "the text has no last newline"));
    }
    if form.is_each {
        return each_line(alloc, section, form);
    }
    let text = if form.is_quoted {
        joined(alloc, section, form)?
    } else {
        dropped(alloc, section.text.as_str())?
    };
    Ok(vec![in alloc; text]?)
}

// The lines without their newlines; None where there is none.
fn lines_of(section: &Section) -> Option<&str> {
    section.text.as_str().strip_suffix('\n')
}

// The text without its last newline.
fn dropped(alloc: Global, text: &str) -> Result<Vec<u8>, AllocError> {
    text.strip_suffix('\n')
        .unwrap_or(text)
        .as_bytes()
        .to_vec(alloc)
}

// What the strings in quotes stand for, one behind the other.
fn joined(alloc: Global, section: &Section, form: Form) -> Result<Vec<u8>, RowFault> {
    if form.drops_newline {
        return Err(RowFault::unread(section.line, "strings in quotes have no last newline"));
    }
    let mut text = Vec::new(alloc);
    if let Some(lines) = lines_of(section) {
        for line in lines.split('\n') {
            let part = line_of(alloc, section, form, line)?;
            if text.len().saturating_add(part.len()) > MOST_BYTES {
                return Err(RowFault::unread(section.line, "the text is too long"));
            }
            text.extend_from_slice(&part)?;
        }
    }
    Ok(text)
}

fn each_line(alloc: Global, section: &Section, form: Form) -> Result<Vec<Vec<u8>>, RowFault> {
    let mut texts = Vec::new(alloc);
    if let Some(lines) = lines_of(section) {
        for line in lines.split('\n') {
            texts.push(line_of(alloc, section, form, line)?)?;
        }
    }
    Ok(texts)
}

// A line as it stands, or what its string in quotes stands for.
fn line_of(alloc: Global, section: &Section, form: Form, line: &str) -> Result<Vec<u8>, RowFault> {
    if !form.is_quoted {
        return Ok(line.as_bytes().to_vec(alloc)?);
    }
    match unquoted(alloc, line)? {
        Some(bytes) => Ok(bytes),
        None => Err(RowFault::unread(section.line, "a line is no string in quotes")),
    }
}
