// The objects that types are written by, found by their numbers.
ghost use Rattle.std.specs.Prelude.{◌≡◌, IfOk, find, slice_get};
ghost use Rattle.std.specs.Option.{option_copied};
ghost use Rattle.go_module.specs.Scopes.{same_object};
ghost use Rattle.go_records.specs.Names.{ArePlaces};

use go_base::ObjId;
use go_model::NumberHasher;
use go_report::NamedObject;
use indexmap::IndexMap;
use std::alloc::{AllocError, Global};
use std::marker::Model;

// The places of objects in their list, by their numbers.
type Places = IndexMap<ObjId, usize, NumberHasher>;

/// The objects that the types of a package's lines name, with a table of their places by their numbers, so that each
/// type takes a look-up and no walk.
#[derive(Drop)]
pub struct Names<'a> {
    objects: &'a [NamedObject],
    places: Places,
}

impl<'a> Model for Names<'a> {
    ghost use Rattle.std.specs.Prelude.{List};
    ghost use Rattle.go_report.specs.declared.lines.NamedObject.{NamedObject};
    ghost use Rattle.go_records.specs.Names.{ArePlaces};

    ghost Value = { List NamedObject };

    ghost view = { λ names. names.objects.now };

    ghost invariant = { λ names. ArePlaces names.objects.now names.places.entries };
}

impl<'a> Names<'a> {
    /// These objects. An error is want of memory.
    pub fn of(alloc: Global, objects: &'a [NamedObject]) -> Result<Names<'a>, AllocError>
        ensures { IfOk result (λ names. names ≡ objects.now) }
    {
        let places = places_of(alloc, objects)?;
        Ok(Names { objects, places })
    }

    /// The first object of this number; None where there is none.
    pub fn get(&self, object: ObjId) -> Option<&NamedObject>
        ensures { option_copied result ≡ find (λ n. same_object object n.object) self.now }
    {
        match self.places.get(&object) {
            Some(place) => object_at(self.objects, *place),
            None => None,
        }
    }
}

// The object at a place; None where there is none.
fn object_at(objects: &[NamedObject], place: usize) -> Option<&NamedObject>
    ensures { option_copied result ≡ slice_get objects.now place }
{
    objects.get(place)
}

// The place of the first of these objects of each number: from the last to the first, each takes the place of one
// behind it.
fn places_of(alloc: Global, objects: &[NamedObject]) -> Result<Places, AllocError>
    ensures { IfOk result (λ places. ArePlaces objects.now places.entries) }
{
    let mut places = IndexMap::with_hasher(alloc, NumberHasher::new());
    for place in (0..objects.len()).rev() {
        places.insert(objects[place].object, place)?;
    }
    Ok(places)
}
