// Whole files (Go specification, "Source file organization").
ghost use Rattle.std.specs.Prelude.{◌≡◌, ◌≤◌, false, IfOk, IfErr};
ghost use Rattle.go_tree.specs.Lexical.Scan.{Gap};
ghost use Rattle.go_tree.specs.Tree.{tree_of, start_of};
ghost use Rattle.go_parse_x.specs.Tables.Opened.{tree_without};
ghost use Rattle.go_text.specs.Copies.{with_copies};
ghost use Rattle.go_text.specs.CopyCount.{copied_nodes, most_copied_nodes};
ghost use Rattle.go_text.specs.Faults.{IsFaultOf};
ghost use Rattle.go_text.specs.Files.{IsFileOf};
ghost use Rattle.go_text.specs.Numbers.{numbered};

use crate::copies::add_copies;
use crate::copy_count::copies_fit;
use crate::numbers::number_nodes;
use go_base::NoMemory;
use go_parse_x::{Cursor, Pending, parse_text};
use go_text::ParseFault;
use go_tree::{File, Node, NodeId};
use std::alloc::Global;

/// The greatest height that a token of a file may have.
pub const MOST_HEIGHT: usize = 1_000;

/// The tree of a file, whose nodes have the numbers from `first` on, in the order in which they end.
///
/// A constant spec that omits its list has a copy of the list before it, a `ConstCopy`, with numbers of
/// its own and the places of that list (Go specification, "Constant declarations"). Lists that nest in
/// lists that are omitted are copied with them, so a short text can ask for much memory: where all
/// copies would have more than `MOST_COPIED_NODES` nodes together, the answer is NoMemory, before any
/// is made.
///
/// White space and whole comments lead up to the tree's first byte.
///
/// The faults name the earliest token: Syntax the first up to which no file begins with the tokens,
/// High the first whose height passes `MOST_HEIGHT`; Lexical stands where no token starts behind those
/// before. Offsets are bytes, from 0.
pub fn parse_file(
    alloc: Global,
    bytes: &[u8],
    number: usize,
    first: NodeId,
) -> Result<File, ParseFault>
    ensures file { IfOk result (λ file. IsFileOf bytes.now first.0 (tree_of file.root)) }
    ensures start { IfOk result (λ file. Gap false bytes.now 0 (start_of (tree_of file.root))) }
    ensures bounded { IfOk result (λ file. copied_nodes (tree_of file.root) ≤ most_copied_nodes) }
    ensures number { IfOk result (λ file. file.number ≡ number) }
    ensures fault { IfErr result (λ fault. IsFaultOf bytes.now fault) }
{
    let mut cursor = Cursor::new(bytes, first);
    let mut pending = Pending::of_file(alloc, MOST_HEIGHT);
    match parse_text(alloc, &mut cursor, &mut pending) {
        Err(fault) => Err(fault),
        Ok(root) => match finished(alloc, root, first) {
            Err(_) => Err(ParseFault::NoMemory),
            Ok(root) => Ok(File { number, root }),
        },
    }
}

// The tree that was read, with the copies of omitted lists, its nodes numbered anew.
fn finished(alloc: Global, read: Node, first: NodeId) -> Result<Node, NoMemory>
    ensures tree { IfOk result (λ root. tree_of root ≡ numbered first.0 (with_copies (tree_without read))) }
    ensures bounded { IfOk result (λ root. copied_nodes (tree_of root) ≤ most_copied_nodes) }
{
    if !copies_fit(&read) {
        return Err(NoMemory);
    }
    let mut root = read;
    let mut next = first.0;
    add_copies(alloc, &mut root)?;
    number_nodes(&mut root, &mut next)?;
    Ok(root)
}
