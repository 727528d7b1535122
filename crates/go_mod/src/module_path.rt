// The module directive of go.mod (Go modules reference, "module directive").
ghost use Rattle.std.specs.Prelude.{◌≡◌};
ghost use Rattle.std.specs.Option.{option_copied};
ghost use Rattle.std.specs.List.{list_all};
ghost use Rattle.go_mod.specs.ModulePath.{is_path_byte, is_element, is_path, is_between, unquoted, module_path};

use crate::module_lines::{argument, first_word, is_text};

/// The path of a good module line: `module`, blanks, and a path, bare or quoted; None where the line
/// is no such line.
pub(crate) fn module_path(line: &[u8]) -> Option<&[u8]>
    ensures { option_copied result ≡ module_path line.now }
{
    let path = unquoted(argument(line));
    if is_text(first_word(line), b"module") && is_path(path) {
        Some(path)
    } else {
        None
    }
}

// What stands between two double quotes or two backquotes, and else the text itself.
fn unquoted(text: &[u8]) -> &[u8]
    ensures { result.now ≡ unquoted text.now }
{
    if is_between(b'"', text) || is_between(b'`', text) {
        &text[1..text.len() - 1]
    } else {
        text
    }
}

fn is_between(quote: u8, text: &[u8]) -> bool
    ensures { result ≡ is_between quote text.now }
{
    text.len() >= 2 && text[0] == quote && text[text.len() - 1] == quote
}

fn is_path(text: &[u8]) -> bool
    ensures { result ≡ is_path text.now }
{
    text.split(|byte| *byte == b'/')
        .all(|element| is_element(element))
}

fn is_element(element: &[u8]) -> bool
    ensures { result ≡ is_element element.now }
{
    !element.is_empty() && has_path_bytes(element)
}

fn has_path_bytes(element: &[u8]) -> bool
    ensures { result ≡ list_all is_path_byte element.now }
{
    element.iter().all(|byte| is_path_byte(*byte))
}

fn is_path_byte(byte: u8) -> bool
    ensures { result ≡ is_path_byte byte }
{
    byte.is_ascii_alphanumeric() || matches!(byte, b'-' | b'.' | b'_' | b'~')
}
