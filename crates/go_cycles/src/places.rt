// The places of declarations by their numbers (Go specification, "Declarations and scope").
ghost use Rattle.std.specs.Prelude.{IfOk};
ghost use Rattle.go_names.specs.Views.{declarations_view};
ghost use Rattle.go_cycles.specs.Places.{ArePlaces};

use go_base::NoMemory;
use go_module::ObjId;
use go_names::Declaration;
use indexmap::IndexMap;
use std::alloc::Global;

/// The places of declarations by their numbers.
pub type Places = IndexMap<ObjId, usize>;

/// The place of each declaration by its number: of declarations with one number that of the first. An error is want of
/// memory.
pub fn places_of(alloc: Global, declarations: &[Declaration]) -> Result<Places, NoMemory>
    ensures { IfOk result (λ places. ArePlaces (declarations_view declarations.now) places.entries) }
{
    let mut places = IndexMap::new(alloc);
    for place in (0..declarations.len()).rev() {
        places.insert(declarations[place].number(), place)?;
    }
    Ok(places)
}
