// What is wanted beside what is answered.
ghost use Rattle.std.specs.Prelude.{◌↔◌, All, IsTrue};
ghost use Rattle.go_rows.specs.Answers.{IsAsWanted};

/// What is wanted, in the section at that line of its theme, from 1, and what was answered.
#[derive(Debug, Drop)]
pub struct Answer {
    pub line: usize,
    pub wanted: Vec<u8>,
    pub found: Vec<u8>,
}

/// Whether the bytes that were answered are those that are wanted.
pub fn is_as_wanted(answer: &Answer) -> bool
    ensures { IsTrue result ↔ IsAsWanted answer.now }
{
    answer.found == answer.wanted
}

/// Whether all are as wanted.
pub fn are_as_wanted(answers: &[Answer]) -> bool
    ensures { IsTrue result ↔ All IsAsWanted answers.now }
{
    answers.iter().all(is_as_wanted)
}
