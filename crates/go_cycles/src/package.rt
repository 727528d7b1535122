// The rules on chains of type declarations: C4, C5 (Go specification, "Type declarations", "Interface types", "General
// interfaces").
ghost use Rattle.std.specs.Prelude.{◌≡◌, ◌++◌, IfOk, OnOk};
ghost use Rattle.go_module.specs.Modules.Module.{package_view};
ghost use Rattle.go_names.specs.Views.{declaration_view, declarations_view};
ghost use Rattle.go_cycles.specs.Places.{marked_by, placed_by};
ghost use Rattle.go_cycles.specs.Shapes.{AreShapes, broken_in, broken_shape, denoted_by};

use crate::leading::types_in;
use crate::marks::{embedded_types, is_marked_by, returning_types};
use crate::places::{Places, places_of};
use crate::rules::{CYCLIC_DEFINITION, CYCLIC_EMBEDDING};
use go_base::{Broken, NoMemory};
use go_module::{Package, Scopes, add_if, broken_at, ordered, with_numbers};
use go_names::{Declaration, declarations_of, specs_of};
use std::alloc::Global;

/// The type declarations of a package whose right sides lead back to themselves, in the order of a report, by what
/// these scopes say that identifiers denote: C4 at the name of each type definition or alias whose chain of right sides
/// never ends, and C5 at each other that is embedded in itself, directly or indirectly. Each is told by the number of
/// its file and the offset of the name. Of several declarations with one number the first is meant. An error is want of
/// memory (Go specification, "Type declarations", "Interface types", "General interfaces").
pub fn shapes(alloc: Global, scopes: &Scopes, package: &Package) -> Result<Vec<Broken>, NoMemory>
    ensures { IfOk result (λ list. AreShapes (denoted_by scopes.now) (package_view «package».now) list.items) }
{
    let specs = specs_of(alloc, &package.files)?;
    let declarations = declarations_of(alloc, &specs)?;
    let types = types_in(alloc, &declarations)?;
    let places = places_of(alloc, &types)?;
    let returns = returning_types(alloc, scopes, &places, &types)?;
    let embeds = embedded_types(alloc, scopes, &places, &types)?;
    let found = broken_in(alloc, &places, &returns, &embeds, &types)?;
    Ok(ordered(with_numbers(alloc, &package.files, &found)?))
}

// What these break, by which of them are marked.
fn broken_in(
    alloc: Global,
    places: &Places,
    returns: &[bool],
    embeds: &[bool],
    types: &[Declaration],
) -> Result<Vec<Broken>, NoMemory>
    ensures { IfOk result (λ found. found.items ≡ broken_in (marked_by (placed_by places.now.entries) returns.now)
        (marked_by (placed_by places.now.entries) embeds.now) (declarations_view types.now)) }
{
    let mut found = Vec::new(alloc);
    for declaration in types {
        let d = declaration.number();
        let never_ends = is_marked_by(places, returns, d);
        let is_embedded = is_marked_by(places, embeds, d);
        push_broken(never_ends, is_embedded, declaration, &mut found)?;
    }
    Ok(found)
}

// Pushes what one breaks, told at its name.
fn push_broken(
    returns: bool,
    embeds: bool,
    declaration: &Declaration,
    found: &mut Vec<Broken>,
) -> Result<(), NoMemory>
    ensures { OnOk result (found.new.items
        ≡ found.old.items ++ broken_shape returns embeds (declaration_view declaration.now)) }
{
    let (file, start) = (declaration.file, declaration.name.start());
    let definition = broken_at(file, start, CYCLIC_DEFINITION);
    let embedding = broken_at(file, start, CYCLIC_EMBEDDING);
    add_if(found, returns, definition)?;
    add_if(found, embeds && !returns, embedding)
}
