// The tables of a package's scopes (Go specification, "Declarations and scope", "Qualified identifiers").
ghost use Rattle.std.specs.Prelude.{◌≡◌, IfOk, OnOk, Some, map};
ghost use Rattle.std.specs.List.{flat_map};
ghost use Rattle.indexmap.specs.IndexMap.{insert_all, insert_entry};
ghost use Rattle.go_module.specs.Names.PackageBlock as spec;
ghost use Rattle.go_module.specs.Scopes.{same_node, same_object};
ghost use Rattle.go_scope.specs.Known.{known_by};
ghost use Rattle.go_scope.specs.Resolved.{member_entry, member_pair, members_by, pairs_by};
ghost use Rattle.go_module.specs.Names.Tables.{member_of};

use crate::known::{Before, exported};
use crate::occurrence_rules::package_of;
use crate::resolved::Resolved;
use go_base::{Name, NoMemory};
use go_module::{ObjId, Object, Region, Selected, copy_object, object_id};
use go_tree::NodeId;
use indexmap::IndexMap;
use std::alloc::Global;

/// The names of a block, each with the object that it denotes. An error is want of memory.
pub fn names_of(alloc: Global, block: &[Region]) -> Result<IndexMap<Name, ObjId>, NoMemory>
    ensures { IfOk result (λ names. names.entries ≡ spec.names_of block.now) }
{
    let mut names = IndexMap::new(alloc);
    for region in block {
        names.insert(region.object.name.clone()?, object_id(&region.object))?;
    }
    Ok(names)
}

/// Adds what each of these occurrences denotes, and what the qualified identifiers do that they begin.
pub fn add_uses(
    before: &Before,
    resolved: &[Resolved],
    uses: &mut IndexMap<NodeId, ObjId>,
) -> Result<(), NoMemory>
    ensures { OnOk result (uses.new.entries ≡ insert_all same_node uses.old.entries
        (flat_map (pairs_by (known_by before.now)) resolved.now)) }
{
    for r in resolved {
        add_pairs(before, r, uses)?;
    }
    Ok(())
}

fn add_pairs(
    before: &Before,
    r: &Resolved,
    uses: &mut IndexMap<NodeId, ObjId>,
) -> Result<(), NoMemory>
    ensures { OnOk result (uses.new.entries
        ≡ insert_all same_node uses.old.entries (pairs_by (known_by before.now) r.now)) }
{
    if let Some(denoted) = r.denoted {
        uses.insert(r.occurrence.id, denoted.object)?;
    }
    if let Some(place) = package_of(r) {
        add_member_use(before, place, r, uses)?;
    }
    Ok(())
}

fn add_member_use(
    before: &Before,
    place: usize,
    r: &Resolved,
    uses: &mut IndexMap<NodeId, ObjId>,
) -> Result<(), NoMemory>
    ensures { OnOk result (uses.new.entries ≡ insert_all same_node uses.old.entries
        (map member_pair (member_of (known_by before.now) (Some place) r.now.occurrence.selected))) }
{
    if let Some(selected) = &r.occurrence.selected {
        if let Some(object) = exported(before, place, &selected.name) {
            uses.insert(selected.id, object_id(object))?;
        }
    }
    Ok(())
}

/// Adds the objects of the qualified identifiers that these occurrences begin.
pub fn add_members(
    before: &Before,
    resolved: &[Resolved],
    objects: &mut IndexMap<ObjId, Object>,
) -> Result<(), NoMemory>
    ensures { OnOk result (objects.new.entries ≡ insert_all same_object objects.old.entries
        (map member_entry (flat_map (members_by (known_by before.now)) resolved.now))) }
{
    for r in resolved {
        add_member_of(before, r, objects)?;
    }
    Ok(())
}

fn add_member_of(
    before: &Before,
    r: &Resolved,
    objects: &mut IndexMap<ObjId, Object>,
) -> Result<(), NoMemory>
    ensures { OnOk result (objects.new.entries ≡ insert_all same_object objects.old.entries
        (map member_entry (members_by (known_by before.now) r.now))) }
{
    match package_of(r) {
        Some(place) => add_member(before, place, r, objects),
        None => Ok(()),
    }
}

fn add_member(
    before: &Before,
    place: usize,
    r: &Resolved,
    objects: &mut IndexMap<ObjId, Object>,
) -> Result<(), NoMemory>
    ensures { OnOk result (objects.new.entries ≡ insert_all same_object objects.old.entries
        (map member_entry (member_of (known_by before.now) (Some place) r.now.occurrence.selected))) }
{
    match &r.occurrence.selected {
        Some(selected) => add_selected(before, place, selected, objects),
        None => Ok(()),
    }
}

fn add_selected(
    before: &Before,
    place: usize,
    selected: &Selected,
    objects: &mut IndexMap<ObjId, Object>,
) -> Result<(), NoMemory>
    ensures { OnOk result (objects.new.entries ≡ insert_all same_object objects.old.entries
        (map member_entry (member_of (known_by before.now) (Some place) (Some selected.now)))) }
{
    match exported(before, place, &selected.name) {
        Some(object) => add_object(object, objects),
        None => Ok(()),
    }
}

// Adds an object by its number.
fn add_object(object: &Object, objects: &mut IndexMap<ObjId, Object>) -> Result<(), NoMemory>
    ensures { OnOk result (objects.new.entries ≡ insert_entry same_object objects.old.entries
        (spec.object_id object.now) object.now) }
{
    let copy = copy_object(object)?;
    objects.insert(object_id(&copy), copy)?;
    Ok(())
}
