// How rows that differ are printed.
use crate::answer::{Answer, is_as_wanted};
use crate::answers::Difference;
use crate::quoted::quoted;
use crate::row::{Row, Unread};
use go_base::Name;
use std::io;

/// The most bytes of a text that are printed.
const MOST_SHOWN: usize = 20_000;

/// Prints why a row cannot be read, and where.
pub fn put_unread<R: Print + AllocGlobal>(
    rt: &R,
    theme: &Name,
    row: &Row,
    unread: Unread,
) -> io::Result<()> {
    let theme = theme.as_str();
    let line = unread.line;
    let name = row.name.as_str();
    let why = unread.why;
    println!(rt; "{theme}:{line}: {name}: cannot be read: {why}")
}

/// Prints what was wanted of a row, and what was answered.
pub fn put_difference<R: Print + AllocGlobal>(
    rt: &R,
    theme: &Name,
    row: &Row,
    difference: &Difference,
) -> io::Result<()> {
    for answer in &difference.answers {
        if !is_as_wanted(answer) {
            put_answer(rt, theme, row, &difference.text, answer)?;
        }
    }
    Ok(())
}

fn put_answer<R: Print + AllocGlobal>(
    rt: &R,
    theme: &Name,
    row: &Row,
    text: &[u8],
    answer: &Answer,
) -> io::Result<()> {
    let theme = theme.as_str();
    let line = answer.line;
    let name = row.name.as_str();
    println!(rt; "{theme}:{line}: {name}")?;
    if !text.is_empty() {
        let text = quoted(rt.alloc(), shown(text))?;
        put_bytes(rt, "read: ", &text)?;
        println!(rt; "")?;
    }
    put_bytes(rt, "wanted:\n", shown(&answer.wanted))?;
    put_bytes(rt, "found:\n", shown(&answer.found))
}

fn shown(bytes: &[u8]) -> &[u8] {
    bytes.get(..MOST_SHOWN).unwrap_or(bytes)
}

fn put_bytes<R: Print + AllocGlobal>(rt: &R, head: &str, bytes: &[u8]) -> io::Result<()> {
    let text = String::from_utf8_lossy(rt.alloc(), bytes)?;
    print!(rt; "{head}{text}")
}
