// The rule on type definitions that contain themselves: C3 (Go specification, "Array types", "Struct types").
ghost use Rattle.std.specs.Prelude.{◌≡◌, ◌++◌, ◌<◌, IfOk, OnOk, Some, length, slice_get};
ghost use Rattle.go_module.specs.Modules.Module.{PackageData, module_view, package_view};
ghost use Rattle.go_names.specs.Views.{declaration_view, declarations_view};
ghost use Rattle.go_cycles.specs.Places.{marked_by, placed_by};
ghost use Rattle.go_judge.specs.Types.Own.{Keeps};
ghost use Rattle.go_values.specs.ByValue.{AreContained, contained_at};
ghost use Rattle.go_by_value.specs.Holding.{broken_in};

use crate::marks::contained_types;
use crate::rules::CONTAINED_TYPE;
use go_base::{Broken, NoMemory};
use go_cycles::{Places, is_marked_by, places_of};
use go_model::{Forms, Rules};
use go_module::{Module, Package, Scopes, add_if, broken_at, ordered, with_numbers};
use go_names::{Declaration, declarations_of, specs_of};
use std::alloc::Global;

/// The type definitions of a package that contain themselves by value, directly or indirectly, in the order of a
/// report, by the headers that the rules know: C3 at the name of each, told by the number of its file and the offset of
/// the name. It asks that the package is one of the module. A type whose header is not known contains nothing. An error
/// is want of memory; the rules stay as they were (Go specification, "Array types", "Struct types").
pub fn by_value<R: Rules>(
    alloc: Global,
    rules: &mut R,
    package: usize,
    module: &Module,
    _scopes: &[Scopes],
) -> Result<Vec<Broken>, NoMemory>
    requires within { «package» < length «module».now.packages.items }
    ensures list { IfOk result (λ list. (p : PackageData)
        → slice_get (module_view «module».now).packages «package» ≡ Some p
        → AreContained (R.headers rules.old) p list.items) }
    ensures keeps { Keeps (R.headers rules.old) (R.headers rules.new) (R.names rules.old) (R.names rules.new)
        (R.outcomes rules.old) (R.outcomes rules.new) (R.is_spent rules.old) (R.is_spent rules.new)
        (R.world rules.old) (R.world rules.new) (R.is_type rules.old) (R.is_type rules.new)
        (R.tree rules.old) (R.tree rules.new) }
{
    contained_in(alloc, rules, &module.packages[package])
}

// Those of this package.
fn contained_in<F: Forms>(
    alloc: Global,
    judge: &mut F,
    package: &Package,
) -> Result<Vec<Broken>, NoMemory>
    ensures list { IfOk result (λ list. AreContained (F.headers judge.old) (package_view «package».now) list.items) }
    ensures keeps { Keeps (F.headers judge.old) (F.headers judge.new) (F.names judge.old) (F.names judge.new)
        (F.outcomes judge.old) (F.outcomes judge.new) (F.is_spent judge.old) (F.is_spent judge.new)
        (F.world judge.old) (F.world judge.new) (F.is_type judge.old) (F.is_type judge.new)
        (F.tree judge.old) (F.tree judge.new) }
{
    let specs = specs_of(alloc, &package.files)?;
    let declarations = declarations_of(alloc, &specs)?;
    let places = places_of(alloc, &declarations)?;
    let marks = contained_types(alloc, judge, &places, &declarations)?;
    let found = broken_in(alloc, &places, &marks, &declarations)?;
    Ok(ordered(with_numbers(alloc, &package.files, &found)?))
}

// What these break, by which of them are marked.
fn broken_in(
    alloc: Global,
    places: &Places,
    marks: &[bool],
    declarations: &[Declaration],
) -> Result<Vec<Broken>, NoMemory>
    ensures { IfOk result (λ found. found.items
        ≡ broken_in (marked_by (placed_by places.now.entries) marks.now) (declarations_view declarations.now)) }
{
    let mut found = Vec::new(alloc);
    for declaration in declarations {
        let contained = is_marked_by(places, marks, declaration.number());
        push_broken(contained, declaration, &mut found)?;
    }
    Ok(found)
}

// Pushes what one breaks, told at its name.
fn push_broken(
    contained: bool,
    declaration: &Declaration,
    found: &mut Vec<Broken>,
) -> Result<(), NoMemory>
    ensures { OnOk result (found.new.items
        ≡ found.old.items ++ contained_at contained (declaration_view declaration.now)) }
{
    let (file, start) = (declaration.file, declaration.name.start());
    add_if(found, contained, broken_at(file, start, CONTAINED_TYPE))
}
