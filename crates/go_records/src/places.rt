// The text of places.
ghost use Rattle.std.specs.Prelude.{◌≡◌, IfOk, string_bytes};
ghost use Rattle.go_report.specs.Text.Lines.{declared_text};
ghost use Rattle.go_report.specs.Text.Places.{end_text, place_text, root_text};

use go_base::LineCol;
use go_module::At;
use std::alloc::{AllocError, Global};

/// `file:line:col`, the file relative to its root.
pub fn place_text(alloc: Global, at: &At) -> Result<String, AllocError>
    ensures { IfOk result (λ text. string_bytes text ≡ place_text at.now) }
{
    let root = root_text(at.stub);
    let file = at.file.as_str();
    let line = at.line;
    let col = at.col;
    format!(in alloc; "{root}{file}:{line}:{col}")
}

// What stands before a path below the root of stubs.
fn root_text(stub: bool) -> &'static str
    ensures { result.now ≡ root_text stub }
{
    if stub { "stub:" } else { "" }
}

/// Where what a name denotes is declared.
pub fn declared_text(alloc: Global, declared: &Option<At>) -> Result<String, AllocError>
    ensures { IfOk result (λ text. string_bytes text ≡ declared_text declared.now) }
{
    match declared {
        None => String::from_str(alloc, "universe"),
        Some(at) => place_text(alloc, at),
    }
}

/// `line:col`, both from 1.
pub fn end_text(alloc: Global, end: LineCol) -> Result<String, AllocError>
    ensures { IfOk result (λ text. string_bytes text ≡ end_text end) }
{
    let line = end.line;
    let col = end.col;
    format!(in alloc; "{line}:{col}")
}
