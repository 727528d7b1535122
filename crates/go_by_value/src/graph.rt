// The graph of the declarations whose values hold each other (Go specification, "Array types", "Struct types").
ghost use Rattle.std.specs.Prelude.{◌≡◌, ◌++◌, IfOk, IfSome, OnOk};
ghost use Rattle.std.specs.List.{flat_map};
ghost use Rattle.std.specs.Option.{option_map};
ghost use Rattle.go_names.specs.Views.{declarations_view};
ghost use Rattle.go_cycles.specs.Places.{placed_by};
ghost use Rattle.go_judge.specs.Records.{header_as};
ghost use Rattle.go_judge.specs.Types.Own.{IsOwnHeader, Keeps};
ghost use Rattle.go_by_value.specs.Holding.{graph_of, held_by, place_list, places_held};

use crate::held::push_held;
use go_base::NoMemory;
use go_cycles::Places;
use go_graph::Numbers;
use go_model::{Forms, Header};
use go_module::ObjId;
use go_names::Declaration;
use std::alloc::Global;

/// For each declaration the places of those that a value of the type that it defines holds, by the headers that are
/// known. An error is want of memory.
pub fn graph_of<F: Forms>(
    alloc: Global,
    judge: &mut F,
    places: &Places,
    declarations: &[Declaration],
) -> Result<Vec<Numbers>, NoMemory>
    ensures graph { IfOk result (λ graph. graph.items ≡ graph_of (placed_by places.now.entries)
        (F.headers judge.old) (declarations_view declarations.now)) }
    ensures keeps { Keeps (F.headers judge.old) (F.headers judge.new) (F.names judge.old) (F.names judge.new)
        (F.outcomes judge.old) (F.outcomes judge.new) (F.is_spent judge.old) (F.is_spent judge.new)
        (F.world judge.old) (F.world judge.new) (F.is_type judge.old) (F.is_type judge.new)
        (F.tree judge.old) (F.tree judge.new) }
{
    let mut graph = Vec::new(alloc);
    for declaration in declarations {
        graph.push(places_held(alloc, judge, places, declaration.number())?)?;
    }
    Ok(graph)
}

// The places of those that a value of the type that a declaration defines holds.
fn places_held<F: Forms>(
    alloc: Global,
    judge: &mut F,
    places: &Places,
    d: ObjId,
) -> Result<Numbers, NoMemory>
    ensures list { IfOk result (λ list. list
        ≡ places_held (placed_by places.now.entries) (F.headers judge.old) d) }
    ensures keeps { Keeps (F.headers judge.old) (F.headers judge.new) (F.names judge.old) (F.names judge.new)
        (F.outcomes judge.old) (F.outcomes judge.new) (F.is_spent judge.old) (F.is_spent judge.new)
        (F.world judge.old) (F.world judge.new) (F.is_type judge.old) (F.is_type judge.new)
        (F.tree judge.old) (F.tree judge.new) }
{
    let held = held_by(alloc, judge, d)?;
    places_of_all(alloc, places, &held)
}

// The defined types that a value of the type that a declaration defines holds.
fn held_by<F: Forms>(alloc: Global, judge: &mut F, d: ObjId) -> Result<Vec<ObjId>, NoMemory>
    ensures held { IfOk result (λ held. held.items ≡ held_by (F.headers judge.old d.0)) }
    ensures keeps { Keeps (F.headers judge.old) (F.headers judge.new) (F.names judge.old) (F.names judge.new)
        (F.outcomes judge.old) (F.outcomes judge.new) (F.is_spent judge.old) (F.is_spent judge.new)
        (F.world judge.old) (F.world judge.new) (F.is_type judge.old) (F.is_type judge.new)
        (F.tree judge.old) (F.tree judge.new) }
{
    let header = judge.ask(d)?;
    held_by_header(alloc, judge, &header)
}

// Those that it holds by its header, none where none is known.
fn held_by_header<F: Forms>(
    alloc: Global,
    judge: &mut F,
    header: &Option<Header>,
) -> Result<Vec<ObjId>, NoMemory>
    requires { IfSome header.now (IsOwnHeader (F.is_type judge.old)) }
    ensures held { IfOk result (λ held. held.items
        ≡ held_by (option_map (header_as (F.tree judge.old)) header.now)) }
    ensures keeps { Keeps (F.headers judge.old) (F.headers judge.new) (F.names judge.old) (F.names judge.new)
        (F.outcomes judge.old) (F.outcomes judge.new) (F.is_spent judge.old) (F.is_spent judge.new)
        (F.world judge.old) (F.world judge.new) (F.is_type judge.old) (F.is_type judge.new)
        (F.tree judge.old) (F.tree judge.new) }
{
    let mut held = Vec::new(alloc);
    if let Some(Header::Defined(_, right, _)) = header {
        push_held(alloc, judge, right, &mut held)?;
    }
    Ok(held)
}

// The places that these have.
fn places_of_all(alloc: Global, places: &Places, held: &[ObjId]) -> Result<Numbers, NoMemory>
    ensures { IfOk result (λ list. list ≡ flat_map (place_list (placed_by places.now.entries)) held.now) }
{
    let mut list = Numbers::new(alloc);
    for d in held {
        push_place(places, *d, &mut list)?;
    }
    Ok(list)
}

// Pushes the place that a declaration has, if any.
fn push_place(places: &Places, d: ObjId, list: &mut Numbers) -> Result<(), NoMemory>
    ensures { OnOk result (list.new ≡ list.old ++ place_list (placed_by places.now.entries) d) }
{
    match places.get(&d) {
        Some(place) => list.push(*place),
        None => Ok(()),
    }
}
