// The graph of the declarations to which right sides lead (Go specification, "Type declarations").
ghost use Rattle.std.specs.Prelude.{◌≡◌, ◌++◌, IfOk, OnOk};
ghost use Rattle.std.specs.List.{flat_map};
ghost use Rattle.go_names.specs.Views.{declaration_view, declarations_view};
ghost use Rattle.go_cycles.specs.Places.{graph_of, place_named, placed_by, places_led_to};
ghost use Rattle.go_cycles.specs.Shapes.{denoted_by};

use crate::leading::{Way, names_of};
use crate::places::Places;
use go_base::NoMemory;
use go_graph::Numbers;
use go_module::Scopes;
use go_names::Declaration;
use go_tree::NodeId;
use std::alloc::Global;

/// For each declaration the places of those to which its right side leads. An error is want of memory.
pub fn graph_of(
    alloc: Global,
    scopes: &Scopes,
    places: &Places,
    way: Way,
    declarations: &[Declaration],
) -> Result<Vec<Numbers>, NoMemory>
    ensures { IfOk result (λ graph. graph.items ≡ graph_of (denoted_by scopes.now)
        (placed_by places.now.entries) way (declarations_view declarations.now)) }
{
    let mut graph = Vec::new(alloc);
    for declaration in declarations {
        graph.push(places_led_to(alloc, scopes, places, way, declaration)?)?;
    }
    Ok(graph)
}

// The places of the declarations to which the right side of one leads.
fn places_led_to(
    alloc: Global,
    scopes: &Scopes,
    places: &Places,
    way: Way,
    declaration: &Declaration,
) -> Result<Numbers, NoMemory>
    ensures { IfOk result (λ list. list ≡ places_led_to (denoted_by scopes.now)
        (placed_by places.now.entries) way (declaration_view declaration.now)) }
{
    let names = names_of(alloc, way, declaration)?;
    places_named(alloc, scopes, places, &names)
}

// The places of the declarations that these names denote.
fn places_named(
    alloc: Global,
    scopes: &Scopes,
    places: &Places,
    names: &[NodeId],
) -> Result<Numbers, NoMemory>
    ensures { IfOk result (λ list. list ≡ flat_map
        (λ name. place_named (placed_by places.now.entries) (denoted_by scopes.now name)) names.now) }
{
    let mut list = Numbers::new(alloc);
    for name in names {
        push_place(scopes, places, *name, &mut list)?;
    }
    Ok(list)
}

// Pushes the place of the declaration that a name denotes, if any.
fn push_place(
    scopes: &Scopes,
    places: &Places,
    name: NodeId,
    list: &mut Numbers,
) -> Result<(), NoMemory>
    ensures { OnOk result (list.new ≡ list.old
        ++ place_named (placed_by places.now.entries) (denoted_by scopes.now name)) }
{
    if let Some(d) = scopes.resolve(name) {
        if let Some(place) = places.get(&d) {
            list.push(*place)?;
        }
    }
    Ok(())
}
