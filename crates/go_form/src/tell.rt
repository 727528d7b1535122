// Broken rules, from the places where they are broken.
ghost use Rattle.std.specs.Prelude.{◌≡◌, ◌++◌, OnOk, option_to_list};
ghost use Rattle.go_module.specs.Broken.{told};

use go_base::{Broken, NoMemory, Rule};
use go_module::broken_at;

/// Pushes the rule, where it is broken at a place of the file.
pub fn tell(
    file: usize,
    rule: Rule,
    place: Option<usize>,
    found: &mut Vec<Broken>,
) -> Result<(), NoMemory>
    ensures { OnOk result (found.new.items ≡ found.old.items ++ told file rule (option_to_list place)) }
{
    if let Some(place) = place {
        found.push(broken_at(file, place, rule))?;
    }
    Ok(())
}

/// Pushes the rule, broken at each of the places of the file.
pub fn tell_all(
    file: usize,
    rule: Rule,
    places: &[usize],
    found: &mut Vec<Broken>,
) -> Result<(), NoMemory>
    ensures { OnOk result (found.new.items ≡ found.old.items ++ told file rule places.now) }
{
    for place in places {
        found.push(broken_at(file, *place, rule))?;
    }
    Ok(())
}
