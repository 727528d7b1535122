// The order of broken rules: by their places, at one place by their families and in a family by
// their numbers, each once.
ghost use Rattle.std.specs.Prelude.{◌≡◌};
ghost use Rattle.go_module.specs.Order.{family_rank, rank, IsListOf};

use go_base::{Broken, Family, Rule};

/// The list of broken rules that a report gives of those that were found in any order.
pub fn ordered(found: Vec<Broken>) -> Vec<Broken>
    ensures { IsListOf found.items result.items }
{
    let mut list = found;
    list.sort_unstable_by_key(key);
    list.dedup();
    list
}

// What is compared: file, offset, family and number.
fn key(broken: &Broken) -> (usize, usize, u8, u16)
    ensures file { result.0 ≡ broken.now.pos.file }
    ensures offset { result.1 ≡ broken.now.pos.offset }
    ensures family { result.2 ≡ rank broken.now.rule }
    ensures number { result.3 ≡ broken.now.rule.number }
{
    let Broken { pos, rule } = *broken;
    (pos.file, pos.offset, rank(rule), rule.number)
}

// The place of a rule's family in the table, and 0 for U0, which stands before all.
fn rank(rule: Rule) -> u8
    ensures { result ≡ rank rule }
{
    match rule {
        Rule {
            family: Family::U,
            number: 0,
        } => 0,
        Rule { family, .. } => family_rank(family),
    }
}

fn family_rank(family: Family) -> u8
    ensures { result ≡ family_rank family }
{
    match family {
        Family::M => 1,
        Family::S => 2,
        Family::P => 3,
        Family::C => 4,
        Family::I => 5,
        Family::R => 6,
        Family::N => 7,
        Family::U => 8,
        Family::L => 9,
    }
}
