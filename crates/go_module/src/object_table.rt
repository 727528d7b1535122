// Tables of objects by their numbers (Go specification, "Declarations and scope").
ghost use Rattle.std.specs.Prelude.{◌≡◌, IfOk, OnOk, map};
ghost use Rattle.indexmap.specs.IndexMap.{insert_all, insert_entry};
ghost use Rattle.go_module.specs.Names.PackageBlock.{object_id, region_entries};
ghost use Rattle.go_module.specs.Scopes.{same_object};

use crate::block::Region;
use crate::object::Object;
use go_base::{NoMemory, ObjId};
use indexmap::IndexMap;

/// Adds the object of each region by its number. An error is want of memory.
pub fn add_objects(
    objects: &mut IndexMap<ObjId, Object>,
    regions: &[Region],
) -> Result<(), NoMemory>
    ensures { OnOk result (objects.new.entries
        ≡ insert_all same_object objects.old.entries (region_entries regions.now)) }
{
    for region in regions {
        let copy = copy_object(&region.object)?;
        objects.insert(object_id(&copy), copy)?;
    }
    Ok(())
}

/// The number of an object: that of the node that declares it, or of the universe name.
pub fn object_id(object: &Object) -> ObjId
    ensures { result ≡ object_id object.now }
{
    ObjId(object.at.0)
}

/// The object once more. An error is want of memory.
pub fn copy_object(object: &Object) -> Result<Object, NoMemory>
    ensures { IfOk result (λ copy. copy ≡ object.now) }
{
    Ok(Object {
        name: object.name.clone()?,
        kind: object.kind,
        at: object.at,
        package: object.package,
        params: object.params,
    })
}
