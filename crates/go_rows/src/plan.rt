// What a row is run on, and what is wanted of it.
ghost use Rattle.std.specs.Prelude.{◌≡◌, ◌<◌, IfOk, None, OnOk, vec_len};

use crate::head::{Asked, Given, Head, Root, read_head};
use crate::marks::{Marked, without_marks};
use crate::row::{Row, RowFault, Section};
use crate::texts::{texts_of, whole_text};
use go_base::Word;
use std::alloc::{AllocError, Global};

/// A file of a module row: its root, its path from there, and its text.
#[derive(Debug, Drop)]
pub struct RowFile {
    pub root: Root,
    pub path: String,
    pub text: Marked,
}

/// What is wanted: the line of the section in its theme, from 1, what is asked, and its text with its marks.
#[derive(Debug, Drop)]
pub struct Wanted {
    pub line: usize,
    pub asked: Asked,
    pub text: Vec<u8>,
}

/// What a row is run on.
#[derive(Debug, Drop)]
pub enum Subject {
    /// a module: its files and the words of the command
    Module(Vec<RowFile>, Vec<Word>),
    /// a text: the texts of each of its sections, one of each behind the other
    Texts(Given, Vec<Vec<Marked>>),
}

/// A row that is read.
#[derive(Debug, Drop)]
pub struct Plan {
    pub subject: Subject,
    pub wanted: Vec<Wanted>,
}

/// Reads the sections of a row, of which something is wanted.
pub fn plan_of(alloc: Global, row: &Row) -> Result<Plan, RowFault>
    ensures wanted { IfOk result (λ plan. 0 < vec_len plan.wanted) }
    ensures read { OnOk result (row.now.unread ≡ None) }
{
    if let Some(unread) = row.unread {
        return Err(RowFault::Unread(unread));
    }
    let mut draft = Draft::new(alloc);
    for section in &row.sections {
        draft.add(alloc, section)?;
    }
    draft.into_plan(alloc, row.line)
}

// What the sections up to one say.
#[derive(Drop)]
struct Draft {
    files: Vec<RowFile>,
    lacks_go_mod: bool,
    words: Option<Vec<Word>>,
    given: Option<Given>,
    texts: Vec<Vec<Marked>>,
    wanted: Vec<Wanted>,
}

impl Draft {
    fn new(alloc: Global) -> Self {
        Draft {
            files: Vec::new(alloc),
            lacks_go_mod: false,
            words: None,
            given: None,
            texts: Vec::new(alloc),
            wanted: Vec::new(alloc),
        }
    }

    fn add(&mut self, alloc: Global, section: &Section) -> Result<(), RowFault> {
        let (head, form) = read_head(alloc, section.line, section.head.as_str())?;
        if !self.wanted.is_empty() && !matches!(head, Head::Wanted(_)) {
            return Err(RowFault::unread(section.line, "what is wanted stands before"));
        }
        match head {
            Head::Wanted(asked) => {
                let text = whole_text(alloc, section, form)?;
                self.add_wanted(section.line, asked, text)
            }
            Head::Given(given) => {
                let texts = texts_of(alloc, section, form)?;
                self.add_texts(alloc, section.line, given, &texts)
            }
            Head::File(root, path) => {
                let text = whole_text(alloc, section, form)?;
                let text = without_marks(alloc, section.line, &text)?;
                self.files.push(RowFile { root, path, text })?;
                Ok(())
            }
            Head::NoGoMod => {
                self.lacks_go_mod = true;
                if section.text.is_empty() && section.head.as_str() == "no go.mod" {
                    Ok(())
                } else {
                    Err(RowFault::unread(section.line, "the section has a text"))
                }
            }
            Head::Words => {
                let text = whole_text(alloc, section, form)?;
                self.add_words(alloc, section.line, &text)
            }
        }
    }

    fn add_wanted(&mut self, line: usize, asked: Asked, text: Vec<u8>) -> Result<(), RowFault> {
        if self.wanted.iter().any(|wanted| wanted.asked == asked) {
            return Err(RowFault::unread(line, "the same is wanted before"));
        }
        if asked == Asked::Fronts && !text.is_empty() {
            return Err(RowFault::unread(line, "the section has a text"));
        }
        self.wanted.push(Wanted { line, asked, text })?;
        Ok(())
    }

    // Adds a section of texts; only those of the scanner may be several.
    fn add_texts(
        &mut self,
        alloc: Global,
        line: usize,
        given: Given,
        texts: &[Vec<u8>],
    ) -> Result<(), RowFault> {
        if self.given.is_some() && (given != Given::Text || self.given != Some(given)) {
            return Err(RowFault::unread(line, "another text stands before"));
        }
        if texts.is_empty() {
            return Err(RowFault::unread(line, "no text"));
        }
        let mut list = Vec::new(alloc);
        for text in texts {
            list.push(without_marks(alloc, line, text)?)?;
        }
        self.given = Some(given);
        self.texts.push(list)?;
        Ok(())
    }

    fn add_words(&mut self, alloc: Global, line: usize, text: &[u8]) -> Result<(), RowFault> {
        if self.words.is_some() {
            return Err(RowFault::unread(line, "words stand before"));
        }
        let mut words = Vec::new(alloc);
        let Ok(text) = str::from_utf8(text) else {
            return Err(RowFault::unread(line, "the words are not UTF-8"));
        };
        if let Some(lines) = text.strip_suffix('\n') {
            for word in lines.split('\n') {
                words.push(word_of(alloc, word)?)?;
            }
        }
        self.words = Some(words);
        Ok(())
    }

    // The plan of the row, which begins at that line.
    fn into_plan(self, alloc: Global, line: usize) -> Result<Plan, RowFault>
        ensures { IfOk result (λ plan. 0 < vec_len plan.wanted) }
    {
        let Draft {
            files,
            lacks_go_mod,
            words,
            given,
            texts,
            wanted,
        } = self;
        if wanted.is_empty() {
            return Err(RowFault::unread(line, "nothing is wanted of the row"));
        }
        let is_module = lacks_go_mod || words.is_some() || !files.is_empty();
        let subject = match given {
            Some(given) => text_subject(line, given, texts, is_module)?,
            None => {
                if !is_module {
                    return Err(RowFault::unread(line, "the row has neither a text nor files"));
                }
                module_subject(alloc, line, files, lacks_go_mod, words)?
            }
        };
        Ok(Plan { subject, wanted })
    }
}

// The subject of a row with a text.
fn text_subject(
    line: usize,
    given: Given,
    texts: Vec<Vec<Marked>>,
    is_module: bool,
) -> Result<Subject, RowFault> {
    if is_module {
        return Err(RowFault::unread(line, "the row has a text and files"));
    }
    Ok(Subject::Texts(given, texts))
}

// The subject of a row with files.
fn module_subject(
    alloc: Global,
    line: usize,
    files: Vec<RowFile>,
    lacks_go_mod: bool,
    words: Option<Vec<Word>>,
) -> Result<Subject, RowFault> {
    if lacks_go_mod && files.iter().any(is_go_mod) {
        return Err(RowFault::unread(line, "the row has a go.mod and has none"));
    }
    let words = words_or_roots(alloc, words, &files)?;
    let files = with_go_mod(alloc, files, lacks_go_mod)?;
    Ok(Subject::Module(files, words))
}

/// A word of the command.
pub fn word_of(alloc: Global, text: &str) -> Result<Word, AllocError> {
    Ok(Word::new(String::from_str(alloc, text)?))
}

// The words; where none are given, those that name the root, and that of the stubs where there are any.
fn words_or_roots(
    alloc: Global,
    words: Option<Vec<Word>>,
    files: &[RowFile],
) -> Result<Vec<Word>, AllocError> {
    match words {
        Some(words) => Ok(words),
        None => roots(alloc, files),
    }
}

fn roots(alloc: Global, files: &[RowFile]) -> Result<Vec<Word>, AllocError> {
    let mut words = vec![in alloc; word_of(alloc, "r")?]?;
    if files.iter().any(|file| file.root == Root::Stubs) {
        words.push(word_of(alloc, "--stubs")?)?;
        words.push(word_of(alloc, "s")?)?;
    }
    Ok(words)
}

// The files with a go.mod, unless they have one or lack it.
fn with_go_mod(
    alloc: Global,
    files: Vec<RowFile>,
    lacks_go_mod: bool,
) -> Result<Vec<RowFile>, RowFault> {
    let mut files = files;
    if !lacks_go_mod && !files.iter().any(is_go_mod) {
        files.push(RowFile {
            root: Root::Module,
            path: String::from_str(alloc, "go.mod")?,
            text: Marked {
                bytes: b"module m\n\ngo 1.21\n".to_vec(alloc)?,
                marks: Vec::new(alloc),
            },
        })?;
    }
    Ok(files)
}

fn is_go_mod(file: &RowFile) -> bool {
    file.root == Root::Module && file.path.as_str() == "go.mod"
}
