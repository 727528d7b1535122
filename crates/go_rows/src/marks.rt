// Marks, which stand for places in a text.
ghost use Rattle.std.specs.Prelude.{◌≡◌, ℕ, ◌+◌, ◌≤◌, IfOk, IfSome, IsNone, codes, length};
ghost use Rattle.bstr.specs.Find.{OccursAt};

use crate::row::RowFault;
use bstr::ByteSlice;
use std::alloc::{AllocError, Global};

/// A mark: one of its words, and how many bytes of the text stand before it.
#[derive(Debug, Drop)]
pub struct Mark {
    pub offset: usize,
    pub word: Vec<u8>,
}

/// A text without its marks, and its marks in their order.
#[derive(Debug, Drop)]
pub struct Marked {
    pub bytes: Vec<u8>,
    pub marks: Vec<Mark>,
}

const OPENS: &[u8] = b"/*!";

const CLOSES: &[u8] = b"*/";

/// Takes the marks out of a text, whose section stands at that line; a text in which none opens stays as it is.
pub fn without_marks(alloc: Global, line: usize, text: &[u8]) -> Result<Marked, RowFault>
    ensures { IfOk result (λ marked.
        ((k : ℕ) → OccursAt text.now (codes "/*!") k → ⊥) → marked.bytes.items ≡ text.now) }
{
    let mut marked = Marked {
        bytes: Vec::new(alloc),
        marks: Vec::new(alloc),
    };
    let mut rest = text;
    while let Some((before, opened)) = split_around(rest, OPENS) {
        marked.bytes.extend_from_slice(before)?;
        let Some((words, behind)) = split_around(opened, CLOSES) else {
            return Err(RowFault::unread(line, "a mark has no end"));
        };
        if !put_marks(alloc, &mut marked, words)? {
            return Err(RowFault::unread(line, "a mark has no words"));
        }
        rest = behind;
    }
    marked.bytes.extend_from_slice(rest)?;
    Ok(marked)
}

// Adds a mark for each of the words; false where they are none.
fn put_marks(alloc: Global, marked: &mut Marked, words: &[u8]) -> Result<bool, AllocError> {
    if words.contains(&b'\n') {
        return Ok(false);
    }
    for word in words.split(|byte| *byte == b' ') {
        if word.is_empty() {
            return Ok(false);
        }
        marked.marks.push(Mark {
            offset: marked.bytes.len(),
            word: word.to_vec(alloc)?,
        })?;
    }
    Ok(true)
}

// What stands before and behind the first place where a word stands.
fn split_around<'a>(text: &'a [u8], word: &[u8]) -> Option<(&'a [u8], &'a [u8])>
    ensures none { IsNone result → (k : ℕ) → OccursAt text.now word.now k → ⊥ }
    ensures some { IfSome result (λ parts. (k : ℕ) × OccursAt text.now word.now k) }
    ensures shorter { IfSome result (λ parts. length parts.1.now + length word.now ≤ length text.now) }
{
    match text.find(word) {
        None => None,
        Some(at) => Some((&text[..at], &text[at + word.len()..])),
    }
}
