// Heads of sections: what a section is, and how its text is written.
use crate::numbers::number;
use crate::row::RowFault;
use go_parse_x::Reading;
use std::alloc::Global;

/// Which of the two roots a file lies below.
#[derive(Clone, Copy, Debug, PartialEq, Eq)]
pub enum Root {
    Module,
    Stubs,
}

/// What a text is read as.
#[derive(Clone, Copy, Debug, PartialEq, Eq)]
pub enum Given {
    /// tokens
    Text,
    /// a whole file
    File,
    /// what stands behind the package clause of a file
    Declarations,
    /// what stands in the block of a function
    Statements,
    /// a piece of a file
    Piece(Reading),
    /// types, and declarations beside them
    Types,
}

/// What is wanted of a row.
#[derive(Clone, Copy, Debug, PartialEq, Eq)]
pub enum Asked {
    /// the report, and the code of the status
    Report(u8),
    /// all tokens
    Tokens,
    /// the tokens behind the first text
    TokensBehind,
    /// why there are no tokens, or no tree
    Fault,
    /// the same, by its offset behind the first text
    FaultBehind,
    /// what the literal at the start stands for
    Value,
    /// the tree
    Tree,
    /// the numbers and the places of the nodes
    Spans,
    /// the token behind a piece
    Behind,
    /// which fronts of the text are whole
    Fronts,
    /// the height that a piece needs, and where the first token is so high
    Height,
    /// whether two types are identical
    Identical,
    /// the underlying type of a type
    Underlying,
}

/// What a section is.
#[derive(Debug, Drop)]
pub enum Head {
    /// a file at a path
    File(Root, String),
    /// that the module has no go.mod
    NoGoMod,
    /// the words of the command
    Words,
    /// a text
    Given(Given),
    /// what is wanted
    Wanted(Asked),
}

/// How the text of a section is written.
#[derive(Clone, Copy, Debug)]
pub struct Form {
    /// each line is a string in quotes
    pub is_quoted: bool,
    /// the last newline is left out
    pub drops_newline: bool,
    /// each line is a text of its own
    pub is_each: bool,
}

/// Reads a head, which stands at that line.
pub fn read_head(alloc: Global, line: usize, head: &str) -> Result<(Head, Form), RowFault> {
    let mut form = Form {
        is_quoted: false,
        drops_newline: false,
        is_each: false,
    };
    let mut status = None;
    let mut words = head.split(", ");
    let kind = words.next().unwrap_or("");
    for word in words {
        match word {
            "quoted" => form.is_quoted = true,
            "no newline" => form.drops_newline = true,
            "each" => form.is_each = true,
            _ => match word.strip_prefix("status ") {
                Some(code) if status.is_none() => status = Some(code_of(line, code)?),
                _ => return Err(RowFault::unread(line, "no such word in a head")),
            },
        }
    }
    Ok((kind_of(alloc, line, kind, status)?, form))
}

fn code_of(line: usize, code: &str) -> Result<u8, RowFault> {
    match number(code).and_then(|code| u8::try_from(code).ok()) {
        Some(code) => Ok(code),
        None => Err(RowFault::unread(line, "no code of a status")),
    }
}

// What a section of that kind is; a report has a status, and nothing else has one.
fn kind_of(alloc: Global, line: usize, kind: &str, status: Option<u8>) -> Result<Head, RowFault> {
    match status {
        Some(code) => {
            if kind == "report" {
                Ok(Head::Wanted(Asked::Report(code)))
            } else {
                Err(RowFault::unread(line, "only a report has a status"))
            }
        }
        None => {
            if let Some(given) = given_of(kind) {
                Ok(Head::Given(given))
            } else if let Some(asked) = asked_of(kind) {
                Ok(Head::Wanted(asked))
            } else {
                module_head(alloc, line, kind)
            }
        }
    }
}

fn given_of(kind: &str) -> Option<Given> {
    match kind {
        "text" => Some(Given::Text),
        "file" => Some(Given::File),
        "declarations" => Some(Given::Declarations),
        "statements" => Some(Given::Statements),
        "expression" => Some(Given::Piece(Reading::Plain)),
        "header" => Some(Given::Piece(Reading::Header)),
        "type" => Some(Given::Piece(Reading::TypeOnly)),
        "signature" => Some(Given::Piece(Reading::Signature)),
        "parameters" => Some(Given::Piece(Reading::Params)),
        "type parameters" => Some(Given::Piece(Reading::TypeParams)),
        "types" => Some(Given::Types),
        _ => None,
    }
}

fn asked_of(kind: &str) -> Option<Asked> {
    match kind {
        "tokens" => Some(Asked::Tokens),
        "tokens behind" => Some(Asked::TokensBehind),
        "fault" => Some(Asked::Fault),
        "fault behind" => Some(Asked::FaultBehind),
        "value" => Some(Asked::Value),
        "tree" => Some(Asked::Tree),
        "spans" => Some(Asked::Spans),
        "behind" => Some(Asked::Behind),
        "fronts" => Some(Asked::Fronts),
        "height" => Some(Asked::Height),
        "identical" => Some(Asked::Identical),
        "underlying" => Some(Asked::Underlying),
        _ => None,
    }
}

fn module_head(alloc: Global, line: usize, kind: &str) -> Result<Head, RowFault> {
    match kind {
        "no go.mod" => return Ok(Head::NoGoMod),
        "words" => return Ok(Head::Words),
        "report" => return Err(RowFault::unread(line, "the report has no status")),
        _ => {}
    }
    if let Some(path) = kind.strip_prefix("stubs: ") {
        return Ok(Head::File(Root::Stubs, String::from_str(alloc, path)?));
    }
    if kind.contains('.') {
        return Ok(Head::File(Root::Module, String::from_str(alloc, kind)?));
    }
    Err(RowFault::unread(line, "no such section"))
}
