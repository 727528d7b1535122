// What the files of a module break by themselves, and their trees.
ghost use Rattle.std.specs.Prelude.{◌≡◌, ◌+◌, [], IfErr, IfOk, OnOk, length};
ghost use Rattle.go_tree.specs.Tree.{id_of, tree_of};
ghost use Rattle.go_load.specs.Loading.{TextsBreak};
ghost use Rattle.go_load.specs.Packages.Trees.{AddsText, AreParsed, AreWhole, IsTextsFault, next_number, trees_in};

use crate::load_fault::LoadFault;
use crate::places::placed_list;
use crate::source::{ReadSource, read_source};
use go_base::NoMemory;
use go_module::{FIRST_NUMBER, Placed, Text, breaks_none};
use go_tree::{File, NodeId};
use std::alloc::Global;

// The trees of the texts so far, the number of the next node, and what the texts break.
#[derive(Drop)]
struct Parsed {
    files: Vec<File>,
    next: usize,
    broken: Vec<Placed>,
}

/// The trees of the texts, where none breaks a rule by itself, each with its number from 0 on; else
/// Broken with all that the texts break, text after text. The numbers of nodes run on from text to text;
/// NoMemory comes also where they are used up.
pub fn parse_texts(alloc: Global, texts: &[Text]) -> Result<Vec<File>, LoadFault>
    ensures sound { IfOk result (λ _. TextsBreak texts.now []) }
    ensures files { IfOk result (λ files. AreWhole texts.now files.items (next_number 45 (trees_in files.items))) }
    ensures length { IfOk result (λ files. length texts.now ≡ length files.items) }
    ensures broken { IfErr result (λ fault. IsTextsFault texts.now fault) }
{
    let Parsed { files, broken, .. } = parse_each(alloc, texts)?;
    if breaks_none(&broken) {
        Ok(files)
    } else {
        Err(LoadFault::Broken(broken))
    }
}

// Reads text after text.
fn parse_each(alloc: Global, texts: &[Text]) -> Result<Parsed, NoMemory>
    ensures { IfOk result (λ parsed. AreParsed texts.now parsed.files.items parsed.next parsed.broken.items) }
{
    let mut parsed = Parsed {
        files: Vec::new(alloc),
        next: FIRST_NUMBER,
        broken: Vec::new(alloc),
    };
    for (number, text) in texts.iter().enumerate() {
        add_text(alloc, text, number, &mut parsed)?;
    }
    Ok(parsed)
}

// Reads one more text.
fn add_text(alloc: Global, text: &Text, number: usize, parsed: &mut Parsed) -> Result<(), NoMemory>
    ensures { OnOk result (AddsText text.now number parsed.old.files.items parsed.new.files.items
        parsed.old.next parsed.new.next parsed.old.broken.items parsed.new.broken.items) }
{
    let read = read_source(
        alloc,
        text.path().as_bytes(),
        text.bytes(),
        number,
        NodeId(parsed.next),
    )?;
    match read {
        ReadSource::Whole(file) => {
            parsed.next = number_behind(&file)?;
            parsed.files.push(file)?;
        }
        ReadSource::Broken(list) => {
            let mut placed = placed_list(alloc, text, &list)?;
            parsed.broken.append(&mut placed)?;
        }
    }
    Ok(())
}

// The first number behind those of a file's nodes, whose root has the last.
fn number_behind(file: &File) -> Result<usize, NoMemory>
    ensures { IfOk result (λ next. next ≡ id_of (tree_of file.now.root) + 1) }
{
    file.root.id().0.checked_add(1).ok_or(NoMemory)
}
