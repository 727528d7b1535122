// The rules on occurrences of identifiers: P7, P12, P13, P14, U8 (Go specification, "Declarations and
// scope", "Blank identifier", "Qualified identifiers").
ghost use Rattle.std.specs.Prelude.{◌≡◌, ◌++◌, OnOk};
ghost use Rattle.std.specs.List.{flat_map};
ghost use Rattle.go_module.specs.Names.Rules.OccurrenceRules as rule;
ghost use Rattle.go_scope.specs.Known.{known_by};
ghost use Rattle.go_scope.specs.Resolved as spec;

use crate::known::{Before, exported};
use crate::resolved::Resolved;
use crate::rules::{BLANK_VALUE, COMPLEX_NAME, MISPLACED_PACKAGE, MISSING_MEMBER, UNDECLARED_NAME};
use go_base::{Broken, NoMemory};
use go_module::{add_if, broken_at};
use go_names::is_blank_identifier;

/// Adds what these occurrences break, one after another.
pub fn add_broken_occurrences(
    before: &Before,
    resolved: &[Resolved],
    found: &mut Vec<Broken>,
) -> Result<(), NoMemory>
    ensures { OnOk result (found.new.items
        ≡ found.old.items ++ flat_map (spec.broken_by (known_by before.now)) resolved.now) }
{
    for r in resolved {
        add_broken_occurrence(before, r, found)?;
    }
    Ok(())
}

// Adds what an occurrence breaks, in the order of the table.
fn add_broken_occurrence(
    before: &Before,
    r: &Resolved,
    found: &mut Vec<Broken>,
) -> Result<(), NoMemory>
    ensures { OnOk result (found.new.items ≡ found.old.items ++ spec.broken_by (known_by before.now) r.now) }
{
    add_undeclared(r, found)?;
    add_blank(r, found)?;
    add_misplaced(r, found)?;
    add_missing(before, r, found)?;
    add_complex(r, found)
}

// P7
fn add_undeclared(r: &Resolved, found: &mut Vec<Broken>) -> Result<(), NoMemory>
    ensures { OnOk result (found.new.items ≡ found.old.items ++ spec.undeclared_by r.now) }
{
    let undeclared = !is_blank_identifier(&r.occurrence.name) && !r.held;
    let at = broken_at(r.occurrence.file, r.occurrence.at, UNDECLARED_NAME);
    add_if(found, undeclared, at)
}

// P12
fn add_blank(r: &Resolved, found: &mut Vec<Broken>) -> Result<(), NoMemory>
    ensures { OnOk result (found.new.items ≡ found.old.items ++ rule.blank_at r.now.occurrence) }
{
    let at = broken_at(r.occurrence.file, r.occurrence.at, BLANK_VALUE);
    add_if(found, is_blank_identifier(&r.occurrence.name), at)
}

/// The package that an occurrence denotes, by its place in the module.
pub fn package_of(r: &Resolved) -> Option<usize>
    ensures { result ≡ spec.package_by r.now }
{
    match r.denoted {
        Some(denoted) => denoted.denotes,
        None => None,
    }
}

// P13
fn add_misplaced(r: &Resolved, found: &mut Vec<Broken>) -> Result<(), NoMemory>
    ensures { OnOk result (found.new.items ≡ found.old.items ++ spec.misplaced_by r.now) }
{
    let misplaced = r.occurrence.selected.is_none() && package_of(r).is_some();
    let at = broken_at(r.occurrence.file, r.occurrence.at, MISPLACED_PACKAGE);
    add_if(found, misplaced, at)
}

// P14
fn add_missing(before: &Before, r: &Resolved, found: &mut Vec<Broken>) -> Result<(), NoMemory>
    ensures { OnOk result (found.new.items ≡ found.old.items ++ spec.missing_by (known_by before.now) r.now) }
{
    let Some(package) = package_of(r) else {
        return Ok(());
    };
    match &r.occurrence.selected {
        Some(selected) => {
            let missing = exported(before, package, &selected.name).is_none();
            let at = broken_at(r.occurrence.file, selected.at, MISSING_MEMBER);
            add_if(found, missing, at)
        }
        None => Ok(()),
    }
}

// U8
fn add_complex(r: &Resolved, found: &mut Vec<Broken>) -> Result<(), NoMemory>
    ensures { OnOk result (found.new.items ≡ found.old.items ++ spec.complex_by r.now) }
{
    let complex = match r.denoted {
        Some(denoted) => denoted.complex,
        None => false,
    };
    let at = broken_at(r.occurrence.file, r.occurrence.at, COMPLEX_NAME);
    add_if(found, complex, at)
}
