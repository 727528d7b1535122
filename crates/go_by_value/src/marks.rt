// Which declarations define types that contain themselves (Go specification, "Array types", "Struct types").
ghost use Rattle.std.specs.Prelude.{◌≡◌, ◌↔◌, ℕ, IfOk, true};
ghost use Rattle.go_names.specs.Views.{declarations_view};
ghost use Rattle.go_cycles.specs.Places.{ArePlaces, marked_by, placed_by};
ghost use Rattle.go_judge.specs.Types.Own.{Keeps};
ghost use Rattle.go_values.specs.ByValue.{Contained};

use crate::graph::graph_of;
use go_base::NoMemory;
use go_cycles::Places;
use go_graph::cyclic_vertices;
use go_model::Forms;
use go_names::Declaration;
use std::alloc::Global;

/// For each declaration by its place, of several with one number the first, whether it defines a type that contains
/// itself, directly or indirectly, by the headers that are known. An error is want of memory.
pub fn contained_types<F: Forms>(
    alloc: Global,
    judge: &mut F,
    places: &Places,
    declarations: &[Declaration],
) -> Result<Vec<bool>, NoMemory>
    requires { ArePlaces (declarations_view declarations.now) places.now.entries }
    ensures exact { IfOk result (λ marks. (d : ℕ) → (marked_by (placed_by places.now.entries) marks.items d ≡ true)
        ↔ Contained (declarations_view declarations.now) (F.headers judge.old) d) }
    ensures keeps { Keeps (F.headers judge.old) (F.headers judge.new) (F.names judge.old) (F.names judge.new)
        (F.outcomes judge.old) (F.outcomes judge.new) (F.is_spent judge.old) (F.is_spent judge.new)
        (F.world judge.old) (F.world judge.new) (F.is_type judge.old) (F.is_type judge.new)
        (F.tree judge.old) (F.tree judge.new) }
{
    let graph = graph_of(alloc, judge, places, declarations)?;
    cyclic_vertices(alloc, &graph)
}
