// Broken rules with their places written out.
ghost use Rattle.std.specs.Prelude.{◌≡◌, ◌≤◌, ◌++◌, IfOk, OnOk, length, map};
ghost use Rattle.std.specs.List.{prefix_len};
ghost use Rattle.go_base.specs.Lines.{AreLineStarts};
ghost use Rattle.go_module.specs.Places.{empty_text, placed_among, placed_in};
ghost use Rattle.go_load.specs.Packages.Placing.{is_in, text_at};

use go_base::{Broken, Bytes, LineStarts, Name, NoMemory};
use go_module::{At, Placed, Text};
use std::alloc::Global;

/// The broken rules of one file, each at its line and column of the text.
pub(crate) fn placed_list(
    alloc: Global,
    text: &Text,
    list: &[Broken],
) -> Result<Vec<Placed>, NoMemory>
    ensures { IfOk result (λ placed. placed.items ≡ map (placed_in text.now) list.now) }
{
    let mut placed = Vec::new(alloc);
    add_placed(alloc, text, list, &mut placed)?;
    Ok(placed)
}

/// Broken rules of many files, each in the text that has the number of its file. Each run of rules of
/// one file takes one walk over its text.
pub(crate) fn placed_among(
    alloc: Global,
    texts: &[Text],
    list: &[Broken],
) -> Result<Vec<Placed>, NoMemory>
    ensures { IfOk result (λ placed. placed.items ≡ map (placed_among texts.now) list.now) }
{
    let mut placed = Vec::new(alloc);
    let mut start = 0;
    while start < list.len() {
        let file = list[start].pos.file;
        let rest = &list[start..];
        let count = run_length(rest, file);
        add_run(alloc, texts, file, &rest[..count], &mut placed)?;
        start += count;
    }
    Ok(placed)
}

// How many at the front of the list are broken in that file.
fn run_length(list: &[Broken], file: usize) -> usize
    ensures len { result ≡ prefix_len (is_in file) list.now }
    ensures within { result ≤ length list.now }
{
    list.iter()
        .take_while(|broken| broken.pos.file == file)
        .count()
}

// Adds the broken rules of the text with that number.
fn add_run(
    alloc: Global,
    texts: &[Text],
    file: usize,
    run: &[Broken],
    placed: &mut Vec<Placed>,
) -> Result<(), NoMemory>
    ensures { OnOk result (placed.new.items
        ≡ placed.old.items ++ map (placed_in (text_at texts.now file)) run.now) }
{
    match texts.get(file) {
        Some(text) => add_placed(alloc, text, run, placed),
        None => add_placed(alloc, &empty_text(alloc), run, placed),
    }
}

// The text where there is none of a number.
fn empty_text(alloc: Global) -> Text
    ensures { result ≡ empty_text }
{
    let path = Name::new(String::new(alloc));
    Text::new(false, path, Bytes::new(Vec::new(alloc)))
}

// Adds the broken rules of one text. No table of its lines is made where there are none.
fn add_placed(
    alloc: Global,
    text: &Text,
    list: &[Broken],
    placed: &mut Vec<Placed>,
) -> Result<(), NoMemory>
    ensures { OnOk result (placed.new.items
        ≡ placed.old.items ++ map (placed_in text.now) list.now) }
{
    if let [] = list {
        return Ok(());
    }
    let lines = LineStarts::of(alloc, text.bytes())?;
    add_each(text, &lines, list, placed)
}

// Adds each of these, by the table of the text's lines.
fn add_each(
    text: &Text,
    lines: &LineStarts,
    list: &[Broken],
    placed: &mut Vec<Placed>,
) -> Result<(), NoMemory>
    requires { AreLineStarts text.now.bytes lines.now }
    ensures { OnOk result (placed.new.items
        ≡ placed.old.items ++ map (placed_in text.now) list.now) }
{
    for broken in list {
        placed.push(placed_by(text, lines, *broken)?)?;
    }
    Ok(())
}

// A broken rule at its line and column; a place past the end is the end.
fn placed_by(text: &Text, lines: &LineStarts, broken: Broken) -> Result<Placed, NoMemory>
    requires { AreLineStarts text.now.bytes lines.now }
    ensures { IfOk result (λ placed. placed ≡ placed_in text.now broken) }
{
    let place = lines.place(text.bytes(), broken.pos.offset);
    let at = At {
        stub: text.is_stub(),
        file: text.path().clone()?,
        line: place.line,
        col: place.col,
    };
    Ok(Placed {
        at,
        rule: broken.rule,
    })
}
