// The texts that a row is run on.
use crate::marks::{Mark, Marked};
use std::alloc::{AllocError, Global};

/// A text, its marks, and how many of its bytes the first section gives.
#[derive(Debug, Drop)]
pub struct Case {
    pub text: Vec<u8>,
    pub marks: Vec<Mark>,
    pub front: usize,
}

/// How many texts there are with one of each section; None where there are none or too many.
pub fn count_of(sections: &[Vec<Marked>]) -> Option<usize> {
    let mut count = 1usize;
    for texts in sections {
        count = count.checked_mul(texts.len())?;
    }
    if count > MOST_CASES {
        None
    } else {
        Some(count)
    }
}

const MOST_CASES: usize = 1_000_000;

/// The text of that number, from 0, among those with one text of each section.
pub fn case_at(alloc: Global, sections: &[Vec<Marked>], number: usize) -> Result<Case, AllocError> {
    let mut case = Case {
        text: Vec::new(alloc),
        marks: Vec::new(alloc),
        front: 0,
    };
    let mut rest = number;
    for (i, texts) in sections.iter().enumerate() {
        let index = rest.checked_rem(texts.len()).unwrap_or(0);
        rest = rest.checked_div(texts.len()).unwrap_or(0);
        if let Some(text) = texts.get(index) {
            case.add(text)?;
        }
        if i == 0 {
            case.front = case.text.len();
        }
    }
    Ok(case)
}

impl Case {
    // Adds a text behind the others.
    fn add(&mut self, text: &Marked) -> Result<(), AllocError> {
        let before = self.text.len();
        for mark in &text.marks {
            self.marks.push(Mark {
                offset: before.saturating_add(mark.offset),
                word: mark.word.clone()?,
            })?;
        }
        self.text.extend_from_slice(&text.bytes)
    }
}
