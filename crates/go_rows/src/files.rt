// Whole files, and parts of files that are read as one with a frame around them.
use crate::faults::fault_line;
use crate::head::{Asked, Given};
use crate::row::RowFault;
use crate::shapes::{shapes, spans};
use go_parse_s::parse_file;
use go_parse_x::ParseFault;
use go_tree::{File, Node, NodeId};
use std::alloc::{AllocError, Global};

// What stands before and behind the text in its file.
fn frame(given: Given) -> (&'static str, &'static str) {
    match given {
        Given::Declarations => ("package p; ", ""),
        Given::Statements => ("package p; func f() { ", " }"),
        _ => ("", ""),
    }
}

// The text with its frame.
fn framed(alloc: Global, given: Given, text: &[u8]) -> Result<Vec<u8>, AllocError> {
    let (before, behind) = frame(given);
    let mut all = before.as_bytes().to_vec(alloc)?;
    all.extend_from_slice(text)?;
    all.extend_from_slice(behind.as_bytes())?;
    Ok(all)
}

/// Reads a file; its nodes have numbers from 7 on.
pub fn read_file(alloc: Global, text: &[u8]) -> Result<File, ParseFault> {
    parse_file(alloc, text, 3, NodeId(7))
}

/// What the parser of files says of a text; None for what it does not say. Offsets count from the text's start.
pub fn file_answer(
    alloc: Global,
    given: Given,
    text: &[u8],
    asked: Asked,
) -> Result<Option<Vec<u8>>, RowFault> {
    let before = frame(given).0.len();
    let is_answered = matches!(asked, Asked::Fault | Asked::Tree | Asked::Spans);
    if !is_answered {
        return Ok(None);
    }
    match read_file(alloc, &framed(alloc, given, text)?) {
        Err(fault) => Ok(Some(fault_line(alloc, fault, before)?)),
        Ok(file) => {
            let nodes = shown(given, &file.root);
            match asked {
                Asked::Tree => Ok(Some(shapes(alloc, nodes)?)),
                Asked::Spans => Ok(Some(spans(alloc, nodes, before)?)),
                _ => Ok(Some(b"none\n".to_vec(alloc)?)),
            }
        }
    }
}

// The nodes of the text in the tree of its file.
fn shown(given: Given, root: &Node) -> &[Node] {
    match given {
        Given::Declarations => match root.parts().split_first() {
            Some((_, declarations)) => declarations,
            None => &[],
        },
        Given::Statements => match root.parts().last() {
            Some(function) => match function.parts().last() {
                Some(block) => block.parts(),
                None => &[],
            },
            None => &[],
        },
        _ => root.parts(),
    }
}
