// Which declaration waits for the header of which (Go specification, "Declarations and scope").
ghost use Rattle.std.specs.Prelude.{◌≡◌, ◌++◌, ◌↔◌, ℕ, true, IfOk, OnOk, length, map};
ghost use Rattle.std.specs.List.{flat_map};
ghost use Rattle.go_names.specs.Views.{declaration_view, declarations_view};
ghost use Rattle.go_tree.specs.Tree.{tree_of};
ghost use Rattle.go_judge.specs.Naming.{Naming};
ghost use Rattle.go_model.specs.Outcomes.Readings.{awaited_in};
ghost use Rattle.go_judge.specs.Headers.{Headers};
ghost use Rattle.go_model.specs.Outcomes.Walked.{AreWalked};
ghost use Rattle.go_values.specs.Waiting.{Chain, awaited_among, awaited_under};
ghost use Rattle.go_decl.specs.Places.{ArePlaces, placed_by};
ghost use Rattle.go_decl.specs.Waits.{awaited_places, marked_by, place_list, waits_of};
ghost use Rattle.go_expr.specs.Read.{nodes_under, outcome_read};

use crate::places::Places;
use go_base::NoMemory;
use go_graph::{Numbers, cyclic_vertices, is_marked};
use go_model::{ExprWalk, Outcome};
use go_module::ObjId;
use go_names::Declaration;
use go_operands::expressions_in;
use go_tree::Node;
use std::alloc::Global;

/// For each declaration by its place, of several with one number the first, whether it waits for its own header, be it
/// through others, by the outcomes of its nodes over the headers that are known. An error is want of memory.
pub fn cyclic_declarations<W: ExprWalk>(
    alloc: Global,
    places: &Places,
    walks: &W,
    declarations: &[Declaration],
) -> Result<Vec<bool>, NoMemory>
    requires { ArePlaces (declarations_view declarations.now) places.now.entries }
    ensures length { IfOk result (λ cyclic. length cyclic.items ≡ length declarations.now) }
    ensures exact { IfOk result (λ cyclic. (naming : Naming) (headers : Headers) → AreWalked naming headers
        (flat_map nodes_under (declarations_view declarations.now)) (W.outcomes walks.now)
        → (d : ℕ) → (marked_by (placed_by places.now.entries) cyclic.items d ≡ true)
        ↔ Chain naming (declarations_view declarations.now) headers d d) }
{
    let waits = waits_of(alloc, places, walks, declarations)?;
    cyclic_vertices(alloc, &waits)
}

/// Whether a declaration is marked, by its number.
pub fn is_cyclic(places: &Places, cyclic: &[bool], d: ObjId) -> bool
    ensures { result ≡ marked_by (placed_by places.now.entries) cyclic.now d.0 }
{
    match places.get(&d) {
        Some(place) => is_marked(cyclic, *place),
        None => false,
    }
}

// For each declaration, the places of those for whose headers the nodes of its parts wait.
fn waits_of<W: ExprWalk>(
    alloc: Global,
    places: &Places,
    walks: &W,
    declarations: &[Declaration],
) -> Result<Vec<Numbers>, NoMemory>
    ensures { IfOk result (λ waits. waits.items ≡ waits_of (placed_by places.now.entries)
        (awaited_under (outcome_read (W.outcomes walks.now))) (declarations_view declarations.now)) }
{
    let mut waits = Vec::new(alloc);
    for declaration in declarations {
        waits.push(awaited_places(alloc, places, walks, declaration)?)?;
    }
    Ok(waits)
}

// The places of the declarations for whose headers the nodes of the parts of one wait.
fn awaited_places<W: ExprWalk>(
    alloc: Global,
    places: &Places,
    walks: &W,
    declaration: &Declaration,
) -> Result<Numbers, NoMemory>
    ensures { IfOk result (λ list. list ≡ awaited_places (placed_by places.now.entries)
        (awaited_under (outcome_read (W.outcomes walks.now))) (declaration_view declaration.now)) }
{
    let numbers = awaited_by(alloc, walks, declaration)?;
    places_in(alloc, places, numbers.as_slice())
}

// The places that these numbers of declarations have.
fn places_in(alloc: Global, places: &Places, numbers: &[usize]) -> Result<Numbers, NoMemory>
    ensures { IfOk result (λ list. list ≡ flat_map (place_list (placed_by places.now.entries)) numbers.now) }
{
    let mut list = Numbers::new(alloc);
    for number in numbers {
        push_place(places, ObjId(*number), &mut list)?;
    }
    Ok(list)
}

// Pushes the place that an object has, if any.
fn push_place(places: &Places, d: ObjId, list: &mut Numbers) -> Result<(), NoMemory>
    ensures { OnOk result (list.new ≡ list.old ++ place_list (placed_by places.now.entries) d.0) }
{
    match places.get(&d) {
        Some(place) => list.push(*place),
        None => Ok(()),
    }
}

// The numbers of the declarations for whose headers the nodes of the parts of one wait.
fn awaited_by<W: ExprWalk>(
    alloc: Global,
    walks: &W,
    declaration: &Declaration,
) -> Result<Numbers, NoMemory>
    ensures { IfOk result (λ numbers. numbers
        ≡ awaited_under (outcome_read (W.outcomes walks.now)) (declaration_view declaration.now)) }
{
    let mut numbers = Numbers::new(alloc);
    push_awaited(alloc, walks, declaration.types, &mut numbers)?;
    push_awaited(alloc, walks, declaration.values, &mut numbers)?;
    Ok(numbers)
}

// Pushes the numbers of the declarations for whose headers the nodes of these expressions wait.
fn push_awaited<W: ExprWalk>(
    alloc: Global,
    walks: &W,
    nodes: &[Node],
    numbers: &mut Numbers,
) -> Result<(), NoMemory>
    ensures { OnOk result (numbers.new ≡ numbers.old
        ++ flat_map (awaited_among (outcome_read (W.outcomes walks.now))) (map tree_of nodes.now)) }
{
    for node in nodes {
        push_awaited_in(alloc, walks, node, numbers)?;
    }
    Ok(())
}

// Pushes the numbers of the declarations for whose headers the nodes of this expression wait.
fn push_awaited_in<W: ExprWalk>(
    alloc: Global,
    walks: &W,
    node: &Node,
    numbers: &mut Numbers,
) -> Result<(), NoMemory>
    ensures { OnOk result (numbers.new ≡ numbers.old
        ++ awaited_among (outcome_read (W.outcomes walks.now)) (tree_of node.now)) }
{
    let nodes = expressions_in(alloc, node)?;
    for inner in &nodes {
        push_one(walks, inner, numbers)?;
    }
    Ok(())
}

fn push_one<W: ExprWalk>(walks: &W, node: &Node, numbers: &mut Numbers) -> Result<(), NoMemory>
    ensures { OnOk result (numbers.new
        ≡ numbers.old ++ awaited_in (outcome_read (W.outcomes walks.now) (tree_of node.now))) }
{
    match walks.outcome(node.id()) {
        Some(Outcome::Waits(d)) => numbers.push(d.0),
        Some(Outcome::Found(_)) => Ok(()),
        Some(Outcome::Broken(_, _)) => Ok(()),
        Some(Outcome::Nothing) => Ok(()),
        None => Ok(()),
    }
}
