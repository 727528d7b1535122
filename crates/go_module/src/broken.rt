// Broken rules at their places.
ghost use Rattle.std.specs.Prelude.{◌≡◌, ◌++◌, OnOk};
ghost use Rattle.go_module.specs.Broken as spec;

use go_base::{Broken, NoMemory, Pos, Rule};

/// The rule, broken at an offset of the file with that number.
pub fn broken_at(file: usize, offset: usize, rule: Rule) -> Broken
    ensures { result ≡ spec.broken_at file offset rule }
{
    Broken {
        pos: Pos { file, offset },
        rule,
    }
}

/// Adds what is broken, if it is.
pub fn add_if(found: &mut Vec<Broken>, holds: bool, broken: Broken) -> Result<(), NoMemory>
    ensures { OnOk result (found.new.items ≡ found.old.items ++ spec.told_if holds broken) }
{
    if holds {
        found.push(broken)?;
    }
    Ok(())
}
