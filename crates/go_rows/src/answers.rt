// Rows that are run: what each answers, beside what is wanted.
ghost use Rattle.std.specs.Prelude.{◌≡◌, ℕ, All, IfOk, length, vec_len};
ghost use Rattle.go_rows.specs.Answers.{IsAsWanted};

use crate::answer::{Answer, are_as_wanted};
use crate::cases::{Case, case_at, count_of};
use crate::files::file_answer;
use crate::fronts::fronts;
use crate::head::{Asked, Given};
use crate::heights::height_answer;
use crate::marked_lines::{covers_marks, has_marks_line, with_offsets, with_places};
use crate::marks::Marked;
use crate::pieces::piece_answer;
use crate::plan::{Plan, RowFile, Subject, Wanted};
use crate::quoted::{quoted, unquoted};
use crate::reports::{report, status_and_text};
use crate::row::RowFault;
use crate::tokens::{scan_fault, token_lines, value_line};
use crate::types::types_answer;
use go_base::Word;
use std::alloc::Global;

/// Answers of which one at least is not as wanted, and the text that was read; none of a module.
#[derive(Debug, Drop)]
pub struct Difference {
    pub text: Vec<u8>,
    pub answers: Vec<Answer>,
}

/// What a row comes to.
#[derive(Debug, Drop)]
pub enum Outcome {
    /// all answers are as wanted, and how many they are
    Same(usize),
    /// one is not
    Different(Difference),
}

/// What a row comes to that begins at that line.
pub fn plan_outcome(alloc: Global, line: usize, plan: &Plan) -> Result<Outcome, RowFault> {
    match &plan.subject {
        Subject::Module(files, words) => {
            let answers = module_answers(alloc, line, files, words, &plan.wanted)?;
            Ok(outcome_in(Vec::new(alloc), answers))
        }
        Subject::Texts(given, sections) => {
            texts_outcome(alloc, line, *given, sections, &plan.wanted)
        }
    }
}

// What the answers of a text come to.
fn outcome_in(text: Vec<u8>, answers: Vec<Answer>) -> Outcome
    ensures same { (n : ℕ) → result ≡ Outcome.Same n →
        (n ≡ vec_len answers) × All IsAsWanted answers.items }
    ensures different { All IsAsWanted answers.items → result ≡ Outcome.Same (vec_len answers) }
{
    if are_as_wanted(&answers) {
        Outcome::Same(answers.len())
    } else {
        Outcome::Different(Difference { text, answers })
    }
}

// What is wanted of a module and answered, for each section that wants something.
fn module_answers(
    alloc: Global,
    line: usize,
    files: &[RowFile],
    words: &[Word],
    wanted: &[Wanted],
) -> Result<Vec<Answer>, RowFault>
    ensures { IfOk result (λ answers. vec_len answers ≡ length wanted.now) }
{
    let mut answers = Vec::new(alloc);
    for one in wanted {
        let Asked::Report(code) = one.asked else {
            return Err(RowFault::unread(one.line, "a module has a report alone"));
        };
        if !covers_marks(alloc, &one.text, files)? {
            return Err(RowFault::unread(one.line, "no line stands for the marks of a file"));
        }
        let text = with_places(alloc, one.line, &one.text, files)?;
        answers.push(Answer {
            line: one.line,
            wanted: status_and_text(alloc, code, &text)?,
            found: report(alloc, line, words, files)?,
        })?;
    }
    Ok(answers)
}

// What the texts of a row come to.
fn texts_outcome(
    alloc: Global,
    line: usize,
    given: Given,
    sections: &[Vec<Marked>],
    wanted: &[Wanted],
) -> Result<Outcome, RowFault> {
    let Some(count) = count_of(sections) else {
        return Err(RowFault::unread(line, "the row has no text or too many"));
    };
    let has_marks_lines = wanted.iter().any(stands_for_marks);
    let mut compared = 0usize;
    for number in 0..count {
        let case = case_at(alloc, sections, number)?;
        if !case.marks.is_empty() && !has_marks_lines {
            return Err(RowFault::unread(line, "no line stands for the marks of the text"));
        }
        let answers = case_answers(alloc, given, &case, wanted)?;
        match outcome_in(case.text, answers) {
            Outcome::Same(more) => compared = compared.saturating_add(more),
            Outcome::Different(difference) => return Ok(Outcome::Different(difference)),
        }
    }
    Ok(Outcome::Same(compared))
}

fn stands_for_marks(wanted: &Wanted) -> bool {
    wanted.asked == Asked::Fronts || has_marks_line(&wanted.text)
}

// What is wanted of a text and answered, for each section that wants something.
fn case_answers(
    alloc: Global,
    given: Given,
    case: &Case,
    wanted: &[Wanted],
) -> Result<Vec<Answer>, RowFault>
    ensures { IfOk result (λ answers. vec_len answers ≡ length wanted.now) }
{
    let mut answers = Vec::new(alloc);
    for one in wanted {
        answers.push(answer_of(alloc, given, case, one)?)?;
    }
    Ok(answers)
}

// What is wanted of a text, and what is answered.
fn answer_of(
    alloc: Global,
    given: Given,
    case: &Case,
    wanted: &Wanted,
) -> Result<Answer, RowFault> {
    let (text, found) = match (given, wanted.asked) {
        (_, Asked::Fronts) => fronts(alloc, wanted.line, given, case)?,
        (Given::Text, _) => scanned(alloc, case, wanted)?,
        _ => read(alloc, given, case, wanted)?,
    };
    Ok(Answer {
        line: wanted.line,
        wanted: text,
        found,
    })
}

// What is wanted of a parser or of the rulebook, and what it answers.
fn read(
    alloc: Global,
    given: Given,
    case: &Case,
    wanted: &Wanted,
) -> Result<(Vec<u8>, Vec<u8>), RowFault> {
    let line = wanted.line;
    let text = with_offsets(alloc, line, &wanted.text, &case.marks, 0)?;
    let found = match (given, wanted.asked) {
        (Given::Piece(reading), Asked::Height) => {
            Some(height_answer(alloc, line, reading, &case.text, &text)?)
        }
        (Given::Piece(reading), asked) => piece_answer(alloc, reading, &case.text, asked)?,
        (Given::Types, asked) => types_answer(alloc, line, &case.text, asked, &text)?,
        (_, asked) => file_answer(alloc, given, &case.text, asked)?,
    };
    Ok((text, known(wanted, found)?))
}

// The answer, where there is one.
fn known(wanted: &Wanted, found: Option<Vec<u8>>) -> Result<Vec<u8>, RowFault> {
    match found {
        Some(found) => Ok(found),
        None => Err(RowFault::unread(wanted.line, "such a row does not answer this")),
    }
}

// What is wanted of the scanner, and what it answers.
fn scanned(alloc: Global, case: &Case, wanted: &Wanted) -> Result<(Vec<u8>, Vec<u8>), RowFault> {
    let from = match wanted.asked {
        Asked::TokensBehind | Asked::FaultBehind => case.front,
        _ => 0,
    };
    let found = match wanted.asked {
        Asked::Tokens | Asked::TokensBehind => token_lines(alloc, &case.text, from)?,
        Asked::Fault | Asked::FaultBehind => scan_fault(alloc, &case.text, from)?,
        Asked::Value => return Ok((wanted_value(alloc, wanted)?, value_line(alloc, case)?)),
        _ => return Err(RowFault::unread(wanted.line, "the scanner does not answer this")),
    };
    let text = with_offsets(alloc, wanted.line, &wanted.text, &case.marks, from)?;
    Ok((text, found))
}

// The value that is wanted; a string as the scanner's are written.
fn wanted_value(alloc: Global, wanted: &Wanted) -> Result<Vec<u8>, RowFault> {
    let text = match str::from_utf8(&wanted.text) {
        Ok(text) => text,
        Err(_) => return Err(RowFault::unread(wanted.line, "the value is not UTF-8")),
    };
    if !text.starts_with('"') {
        return Ok(wanted.text.clone()?);
    }
    match unquoted(alloc, text.strip_suffix('\n').unwrap_or(text))? {
        Some(bytes) => {
            let mut line = quoted(alloc, &bytes)?;
            line.push(b'\n')?;
            Ok(line)
        }
        None => Err(RowFault::unread(wanted.line, "the value is no string in quotes")),
    }
}
