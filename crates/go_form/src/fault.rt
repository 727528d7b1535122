// Files that have no tree (Go specification, "Source code representation", "Tokens", "Syntax" of each
// construct).
ghost use Rattle.std.specs.Prelude.{◌≡◌, Some, None, IfOk, IfErr};
ghost use Rattle.go_form.specs.Fault as faults;

use crate::rules::{GREAT_HEIGHT, UNEXPECTED_TOKEN};
use go_base::{Broken, NoMemory};
use go_module::broken_at;
use go_text::ParseFault;

/// The rule that a fault of the file breaks, and where; Err exactly where the fault is want of memory.
pub fn broken_by(file: usize, fault: ParseFault) -> Result<Broken, NoMemory>
    ensures rule { IfOk result (λ broken. faults.broken_by file fault ≡ Some broken) }
    ensures none { IfErr result (λ _. faults.broken_by file fault ≡ None) }
{
    match fault {
        ParseFault::Lexical(lex) => Ok(broken_at(file, lex.offset, lex.rule)),
        ParseFault::Syntax(offset) => Ok(broken_at(file, offset, UNEXPECTED_TOKEN)),
        ParseFault::High(offset) => Ok(broken_at(file, offset, GREAT_HEIGHT)),
        ParseFault::NoMemory => Err(NoMemory),
    }
}
