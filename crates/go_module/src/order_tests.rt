// The order of broken rules.
use crate::order::ordered;
use crate::rules::UNBUILT_FORM;
use go_base::{Broken, Family, Pos, Rule};
use std::alloc::{AllocError, Global};
use std::process::Abort;

fn rule(family: Family, number: u16) -> Rule {
    Rule { family, number }
}

fn at(offset: usize, rule: Rule) -> Broken {
    Broken {
        pos: Pos { file: 0, offset },
        rule,
    }
}

fn sorted(alloc: Global) -> Result<Vec<Broken>, AllocError> {
    let found = vec![in alloc;
        at(7, rule(Family::U, 2)),
        at(7, rule(Family::S, 11)),
        at(9, rule(Family::S, 4)),
        at(7, UNBUILT_FORM),
        at(7, rule(Family::S, 4)),
        at(7, rule(Family::S, 11)),
        at(7, rule(Family::P, 7)),
        at(0, rule(Family::U, 2)),
    ]?;
    Ok(ordered(found))
}

#[test]
fn places_come_first_and_repeats_go(rt: HostRuntime) {
    let wanted = [
        at(0, rule(Family::U, 2)),
        at(7, UNBUILT_FORM),
        at(7, rule(Family::S, 4)),
        at(7, rule(Family::S, 11)),
        at(7, rule(Family::P, 7)),
        at(7, rule(Family::U, 2)),
        at(9, rule(Family::S, 4)),
    ];
    let list = sorted(rt.alloc()).expect(&rt, "memory");
    assert_eq!(rt; list.as_slice(), &wanted[..]);
}
