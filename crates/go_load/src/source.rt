// What a Go file breaks by itself (Go specification, "Source file organization").
ghost use Rattle.std.specs.Prelude.{false, IfOk};
ghost use Rattle.go_tree.specs.Lexical.Scan.{Gap};
ghost use Rattle.go_tree.specs.Tree.{start_of, tree_of};
ghost use Rattle.go_load.specs.Sources.{AreBrokenWith};
ghost use Rattle.go_load.specs.Texts.ReadSources.{IsOneBroken, IsSource};

use crate::rules::{LARGE_FILE, SPECIAL_FILE_PATH};
use go_base::{Broken, NoMemory};
use go_form::{broken_by, broken_forms};
use go_mod::is_plain_path;
use go_module::{breaks_none, broken_at, ordered};
use go_parse_s::parse_file;
use go_tree::{File, Node, NodeId};
use std::alloc::Global;

/// The most bytes that a file may have.
pub const MOST_BYTES: usize = 16_777_216;

/// A Go file that was read: its tree, or the rules that it breaks by itself, at least one.
#[derive(Debug, Drop)]
pub enum ReadSource {
    Whole(File),
    Broken(Vec<Broken>),
}

/// What the file with that number, that path and these bytes breaks by itself; its tree where that is
/// nothing. The numbers of the tree's nodes run on from `first`.
pub fn read_source(
    alloc: Global,
    path: &[u8],
    bytes: &[u8],
    number: usize,
    first: NodeId,
) -> Result<ReadSource, NoMemory>
    ensures { IfOk result (λ read. IsSource path.now bytes.now number first.0 read) }
{
    if bytes.len() > MOST_BYTES {
        return one_broken(alloc, broken_at(number, 0, LARGE_FILE));
    }
    match parse_file(alloc, bytes, number, first) {
        Err(fault) => one_broken(alloc, broken_by(number, fault)?),
        Ok(file) => {
            let list = broken_with(alloc, path, bytes, number, &file.root)?;
            if breaks_none(&list) {
                Ok(ReadSource::Whole(file))
            } else {
                Ok(ReadSource::Broken(list))
            }
        }
    }
}

// One rule, which the file breaks alone.
fn one_broken(alloc: Global, broken: Broken) -> Result<ReadSource, NoMemory>
    ensures { IfOk result (λ read. IsOneBroken broken read) }
{
    Ok(ReadSource::Broken(vec![in alloc; broken]?))
}

// What a file with that tree breaks by its path and its form.
fn broken_with(
    alloc: Global,
    path: &[u8],
    bytes: &[u8],
    number: usize,
    root: &Node,
) -> Result<Vec<Broken>, NoMemory>
    requires { Gap false bytes.now 0 (start_of (tree_of root.now)) }
    ensures { IfOk result (λ list. AreBrokenWith number path.now bytes.now (tree_of root.now) list.items) }
{
    let mut list = broken_forms(alloc, number, bytes, root)?;
    if is_plain_path(path) {
        return Ok(list);
    }
    list.push(broken_at(number, 0, SPECIAL_FILE_PATH))?;
    Ok(ordered(list))
}
