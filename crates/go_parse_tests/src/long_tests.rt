// Files of the greatest size: they are read in time that is linear in their bytes, and nothing recurses on
// what is open.
use crate::file_tests::read;
use go_parse_s::ParseFault;
use std::alloc::Global;
use std::process::Abort;
use std::test::Fail;

const SIZE: usize = 16_777_216;

// The front, so many times the middle, and the rest are a file of that size, with this fault if any.
fn is_read(
    rt: &impl Abort,
    alloc: Global,
    (front, middle, times, rest): (&str, &str, usize, &str),
    want: Option<ParseFault>,
) -> Result<(), Fail> {
    let filling = middle.repeat(alloc, times)?;
    let text = format!(in alloc; "{front}{filling}{rest}")?;
    assert_eq!(rt; text.len(), SIZE, "{middle}");
    assert_eq!(rt; read(alloc, text.as_bytes()).err(), want, "{middle}");
    Ok(())
}

const BODY: &str = "package p; func f() { ";

#[test]
fn blocks_without_end(rt: HostRuntime) -> Result<(), Fail> {
    let text = (BODY, "{", 16_777_194, "");
    is_read(&rt, rt.alloc(), text, Some(ParseFault::High(1017)))
}

#[test]
fn function_literals_without_end(rt: HostRuntime) -> Result<(), Fail> {
    let text = (BODY, "func(){", 2_396_742, "");
    is_read(&rt, rt.alloc(), text, Some(ParseFault::High(1764)))
}

#[test]
fn parentheses_without_end(rt: HostRuntime) -> Result<(), Fail> {
    let text = (BODY, "(", 16_777_194, "");
    is_read(&rt, rt.alloc(), text, Some(ParseFault::High(1017)))
}

#[test]
fn blanks(rt: HostRuntime) -> Result<(), Fail> {
    let text = ("", " ", 16_777_216, "");
    is_read(&rt, rt.alloc(), text, Some(ParseFault::Syntax(16_777_216)))
}

#[test]
fn semicolons(rt: HostRuntime) -> Result<(), Fail> {
    let text = (BODY, ";", 16_777_193, "}");
    is_read(&rt, rt.alloc(), text, None)
}
