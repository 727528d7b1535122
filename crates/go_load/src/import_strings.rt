// The paths that imports name (Go specification, "Import declarations", "String literals").
ghost use Rattle.std.specs.Prelude.{◌≡◌, ◌↔◌, IfOk, IsTrue, length, None, []};
ghost use Rattle.go_tree.specs.declared.token.Token.{Token as TokenOf};
ghost use Rattle.go_tree.specs.Lexical.Scan.{IsNext};
ghost use Rattle.go_module.specs.Modules.Heads.{IsImportPath, IsOneString};
ghost use Rattle.go_load.specs.Packages.Strings.{IsWholeText};

use go_base::{Bytes, NoMemory};
use go_num::TextFault;
use go_scan::{literal_text, next};
use go_tree::{Token, TokenKind};
use std::alloc::Global;

/// The path that a string literal names, whose text this is; it is empty where it would be longer than a
/// string constant may be, and of a text that is no string literal.
pub fn import_path_of(alloc: Global, text: &[u8]) -> Result<Bytes, NoMemory>
    ensures { IfOk result (λ path. IsImportPath text.now path) }
{
    match next(text, 0, None) {
        Ok(token) => path_of_token(alloc, text, token),
        Err(_) => Ok(empty(alloc)),
    }
}

// The path, where the text begins with this token.
fn path_of_token(alloc: Global, text: &[u8], token: Token) -> Result<Bytes, NoMemory>
    requires { IsNext text.now 0 None token }
    ensures { IfOk result (λ path. IsImportPath text.now path) }
{
    if is_whole_text(token, text.len()) {
        path_of_string(alloc, text, token)
    } else {
        Ok(empty(alloc))
    }
}

// The path, where the text is this string literal.
fn path_of_string(alloc: Global, text: &[u8], token: Token) -> Result<Bytes, NoMemory>
    requires { IsOneString text.now token }
    ensures { IfOk result (λ path. IsImportPath text.now path) }
{
    match literal_text(alloc, text, token) {
        Ok(path) => Ok(path),
        Err(TextFault::LongText) => Ok(empty(alloc)),
        Err(TextFault::NoMemory) => Err(NoMemory),
    }
}

// Whether a token is a string literal that has all bytes of a text of that length.
fn is_whole_text(token: Token, len: usize) -> bool
    ensures { IsTrue result ↔ IsWholeText token len }
{
    matches!(token.kind, TokenKind::Text) && token.start == 0 && token.end == len
}

// No bytes.
fn empty(alloc: Global) -> Bytes
    ensures { result ≡ [] }
{
    Bytes::new(Vec::new(alloc))
}
