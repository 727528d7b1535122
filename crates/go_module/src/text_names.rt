// Bytes as names.
ghost use Rattle.std.specs.Prelude.{◌≡◌, IfOk};
ghost use Rattle.go_module.specs.Modules.Texts.{as_text};

use go_base::{Name, NoMemory};
use std::alloc::Global;

/// The name with these bytes if they are UTF-8, and else the empty name.
pub fn text_name(alloc: Global, bytes: &[u8]) -> Result<Name, NoMemory>
    ensures { IfOk result (λ name. name ≡ as_text bytes.now) }
{
    match std::str::from_utf8(bytes) {
        Ok(text) => Ok(Name::new(String::from_str(alloc, text)?)),
        Err(_) => Ok(Name::new(String::new(alloc))),
    }
}
