// Which declarations lead on without an end, and which lead back to themselves (Go specification, "Type declarations",
// "Interface types").
ghost use Rattle.std.specs.Prelude.{◌≡◌, ◌↔◌, ℕ, IfOk, true};
ghost use Rattle.go_names.specs.Views.{declarations_view};
ghost use Rattle.go_cycles.specs.Places.{ArePlaces, marked_by, placed_by};
ghost use Rattle.go_cycles.specs.Shapes.{Embeds, Returns, denoted_by};

use crate::graph::graph_of;
use crate::leading::Way;
use crate::places::Places;
use crate::returning::returning;
use go_base::NoMemory;
use go_graph::{cyclic_vertices, is_marked};
use go_module::{ObjId, Scopes};
use go_names::Declaration;
use std::alloc::Global;

/// For each of these type definitions and aliases by its place, of several with one number the first, whether its chain
/// of right sides returns. An error is want of memory.
pub fn returning_types(
    alloc: Global,
    scopes: &Scopes,
    places: &Places,
    types: &[Declaration],
) -> Result<Vec<bool>, NoMemory>
    requires { ArePlaces (declarations_view types.now) places.now.entries }
    ensures { IfOk result (λ marks. (d : ℕ) → (marked_by (placed_by places.now.entries) marks.items d ≡ true)
        ↔ Returns (denoted_by scopes.now) (declarations_view types.now) d) }
{
    let graph = graph_of(alloc, scopes, places, Way::Naming, types)?;
    returning(alloc, &graph)
}

/// For each of them whether it embeds itself, directly or indirectly. An error is want of memory.
pub fn embedded_types(
    alloc: Global,
    scopes: &Scopes,
    places: &Places,
    types: &[Declaration],
) -> Result<Vec<bool>, NoMemory>
    requires { ArePlaces (declarations_view types.now) places.now.entries }
    ensures { IfOk result (λ marks. (d : ℕ) → (marked_by (placed_by places.now.entries) marks.items d ≡ true)
        ↔ Embeds (denoted_by scopes.now) (declarations_view types.now) d d) }
{
    let graph = graph_of(alloc, scopes, places, Way::Embedding, types)?;
    cyclic_vertices(alloc, &graph)
}

/// Whether a declaration is marked, by its number.
pub fn is_marked_by(places: &Places, marks: &[bool], d: ObjId) -> bool
    ensures { result ≡ marked_by (placed_by places.now.entries) marks.now d.0 }
{
    match places.get(&d) {
        Some(place) => is_marked(marks, *place),
        None => false,
    }
}
