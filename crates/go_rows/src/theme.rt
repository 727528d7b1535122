// Themes: files of rows, cut into rows and sections.
ghost use Rattle.std.specs.Prelude.{◌<◌, IfOk, OnOk, vec_len};

use crate::row::{Row, Section};
use std::alloc::{AllocError, Global};
use std::collections::HashSet;

/// The rows of a theme, at least one: what is wrong with the theme as a whole stands in a row without a name,
/// which cannot be read.
pub fn rows_of(alloc: Global, text: &str) -> Result<Vec<Row>, AllocError>
    ensures { IfOk result (λ rows. 0 < vec_len rows) }
{
    let mut reader = Reader::new(alloc);
    match text.strip_suffix('\n') {
        None => reader.note_theme(1, "the last line has no end")?,
        Some(lines) => {
            for (i, line) in lines.split('\n').enumerate() {
                reader.read_line(i.saturating_add(1), line)?;
            }
        }
    }
    reader.into_rows()
}

/// The one row of a theme that cannot be read as a whole.
pub fn unread_theme(alloc: Global, why: &'static str) -> Result<Vec<Row>, AllocError>
    ensures { IfOk result (λ rows. 0 < vec_len rows) }
{
    let mut reader = Reader::new(alloc);
    reader.note_theme(1, why)?;
    reader.into_rows()
}

// The rows up to a line.
#[derive(Drop)]
struct Reader {
    alloc: Global,
    rows: Vec<Row>,
    names: HashSet<String>,
}

impl Reader {
    fn new(alloc: Global) -> Self {
        Reader {
            alloc,
            rows: Vec::new(alloc),
            names: HashSet::new(alloc),
        }
    }

    // Adds a row that cannot be read for what is wrong with the theme.
    fn note_theme(&mut self, line: usize, why: &'static str) -> Result<(), AllocError>
        ensures { OnOk result (0 < vec_len self.new.rows) }
    {
        let mut row = self.new_row(line, "")?;
        row.note(line, why);
        self.rows.push(row)?;
        Ok(())
    }

    fn new_row(&self, line: usize, name: &str) -> Result<Row, AllocError> {
        Ok(Row {
            line,
            name: String::from_str(self.alloc, name)?,
            sections: Vec::new(self.alloc),
            unread: None,
        })
    }

    fn read_line(&mut self, number: usize, line: &str) -> Result<(), AllocError> {
        if let Some(name) = line.strip_prefix("=== ") {
            self.close_row(number);
            self.open_row(number, name)
        } else if let Some(head) = line.strip_prefix("-- ") {
            self.open_section(number, head)
        } else {
            self.add_line(number, line)
        }
    }

    // Takes the empty line before the next row from the text of the last section.
    fn close_row(&mut self, number: usize) {
        let Some(row) = self.rows.last_mut() else {
            return;
        };
        if let Some(section) = row.sections.last_mut() {
            if section.text.as_str() == "\n" || section.text.as_str().ends_with("\n\n") {
                section.text.pop();
            } else {
                row.note(number, "no empty line stands before the next row");
            }
        }
    }

    fn open_row(&mut self, number: usize, name: &str) -> Result<(), AllocError> {
        let mut row = self.new_row(number, name)?;
        if name.is_empty() {
            row.note(number, "the row has no name");
        }
        if self.names.contains(name) {
            row.note(number, "a row before has the same name");
        }
        self.names.insert(String::from_str(self.alloc, name)?)?;
        self.rows.push(row)?;
        Ok(())
    }

    fn open_section(&mut self, number: usize, head: &str) -> Result<(), AllocError> {
        let section = Section {
            line: number,
            head: String::from_str(self.alloc, head.strip_suffix(" --").unwrap_or(""))?,
            text: String::new(self.alloc),
        };
        match self.rows.last_mut() {
            None => self.note_theme(number, "a section stands before the first row"),
            Some(row) => {
                if section.head.is_empty() {
                    row.note(number, "the head of a section has no word or no end");
                }
                row.sections.push(section)?;
                Ok(())
            }
        }
    }

    fn add_line(&mut self, number: usize, line: &str) -> Result<(), AllocError> {
        match self.rows.last_mut() {
            None => {
                if line.is_empty() || line.starts_with('#') {
                    return Ok(());
                }
                self.note_theme(number, "no row begins here, and the line is no comment")
            }
            Some(row) => match row.sections.last_mut() {
                None => {
                    row.note(number, "a line stands before the row's first section");
                    Ok(())
                }
                Some(section) => {
                    section.text.push_str(line)?;
                    section.text.push('\n')
                }
            },
        }
    }

    fn into_rows(mut self) -> Result<Vec<Row>, AllocError>
        ensures { IfOk result (λ rows. 0 < vec_len rows) }
    {
        if self.rows.is_empty() {
            self.note_theme(1, "the file has no row")?;
        }
        let Reader {
            alloc: _,
            rows,
            names: _,
        } = self;
        Ok(rows)
    }
}
