// The names that imports declare in the block of their file (Go specification, "Import declarations").
ghost use Rattle.std.specs.Prelude.{◌≡◌, ◌++◌, ◌∷◌, [], ℕ, List, IfOk, OnOk, map, filter};
ghost use Rattle.std.specs.List.{filter_map};
ghost use Rattle.std.specs.Map.{lookup};
ghost use Rattle.std.specs.Option.{option_map_or};
ghost use Rattle.go_tree.specs.Tree.{tree_of, parts_of};
ghost use Rattle.go_base.specs.declared.ids.ObjId.{ObjId};
ghost use Rattle.go_module.specs.Names.Exported as exported;
ghost use Rattle.go_module.specs.Names.Imports as rule;
ghost use Rattle.go_module.specs.Scopes.{same_object};
ghost use Rattle.go_scope.specs.Known.{known_by, importing};

use crate::known::{Before, clause_name};
use go_base::{Name, NoMemory};
use go_module::{Block, Import, ObjId, ObjKind, Object, Region, Scopes, copy_object};
use go_names::{is_blank_identifier, is_exported, name_of};
use go_tree::{Node, NodeKind};
use std::alloc::Global;

/// An import: its spec, the place of its file among the files of its package, and the places in the module
/// of the packages that import and are imported.
#[derive(Clone, Copy)]
pub struct ImportAt<'a> {
    pub spec: &'a Node,
    pub file: usize,
    pub importer: usize,
    pub imported: usize,
}

/// Adds the regions of the names that an import declares.
pub fn add_import_regions(
    alloc: Global,
    before: &Before,
    import: &ImportAt,
    regions: &mut Vec<Region>,
) -> Result<(), NoMemory>
    ensures { OnOk result (regions.new.items
        ≡ regions.old.items ++ rule.import_regions (known_by before.now) (importing import.now)) }
{
    if let Some(string) = import.spec.only_part() {
        let name = clause_name(alloc, before, import.imported)?;
        regions.push(import_region(import, name, string))?;
    } else if let Some((name, string)) = import.spec.both_parts() {
        add_named(alloc, before, import, name, string, regions)?;
    }
    Ok(())
}

// Adds the regions of an import before whose string something stands.
fn add_named(
    alloc: Global,
    before: &Before,
    import: &ImportAt,
    name: &Node,
    string: &Node,
    regions: &mut Vec<Region>,
) -> Result<(), NoMemory>
    ensures { OnOk result (regions.new.items ≡ regions.old.items
        ++ rule.named_regions (known_by before.now import.now.imported) (importing import.now)
        (tree_of name.now) (tree_of string.now)) }
{
    if is_dot(name) {
        return add_exports(before, import, string, regions);
    }
    let text = name_of(alloc, name)?;
    if !is_blank_identifier(&text) {
        regions.push(import_region(import, text, name))?;
    }
    Ok(())
}

fn is_dot(name: &Node) -> bool
    ensures { result ≡ rule.is_dot (tree_of name.now) }
{
    name.is(NodeKind::DotImport)
}

// Adds the exported names of the imported package.
fn add_exports(
    before: &Before,
    import: &ImportAt,
    string: &Node,
    regions: &mut Vec<Region>,
) -> Result<(), NoMemory>
    ensures { OnOk result (regions.new.items ≡ regions.old.items
        ++ map (rule.dot_region (importing import.now) (tree_of string.now))
        (known_by before.now import.now.imported).exports) }
{
    if let Some(found) = before.scopes.get(import.imported) {
        for (name, id) in found.names.iter() {
            add_export(found, import, string, name, *id, regions)?;
        }
    }
    Ok(())
}

// Adds the object of a name of the imported package, if the name is exported.
fn add_export(
    imported: &Scopes,
    import: &ImportAt,
    string: &Node,
    name: &Name,
    id: ObjId,
    regions: &mut Vec<Region>,
) -> Result<(), NoMemory>
    ensures { OnOk result (regions.new.items ≡ regions.old.items
        ++ map (rule.dot_region (importing import.now) (tree_of string.now))
        (filter_map (λ (entry : List ℕ × ObjId). lookup (same_object entry.1) imported.now.objects.entries)
        (filter (λ entry. exported.is_exported entry.0) ((name.now, id) ∷ [])))) }
{
    if is_exported(name) {
        add_object(imported, import, string, id, regions)?;
    }
    Ok(())
}

// Adds an object of the imported package.
fn add_object(
    imported: &Scopes,
    import: &ImportAt,
    string: &Node,
    id: ObjId,
    regions: &mut Vec<Region>,
) -> Result<(), NoMemory>
    ensures { OnOk result (regions.new.items ≡ regions.old.items
        ++ option_map_or (λ object. rule.dot_region (importing import.now) (tree_of string.now) object ∷ [])
        (lookup (same_object id) imported.now.objects.entries) []) }
{
    if let Some(object) = imported.objects.get(&id) {
        let copy = copy_object(object)?;
        regions.push(dot_region(import, string, copy))?;
    }
    Ok(())
}

fn import_region(import: &ImportAt, name: Name, node: &Node) -> Region
    ensures { result ≡ rule.import_region (importing import.now) name (tree_of node.now) }
{
    Region {
        block: Block::File(import.file),
        object: Object {
            name,
            kind: ObjKind::Package,
            at: node.id(),
            package: import.importer,
            params: 0,
        },
        file: import.file,
        at: node.start(),
        import: Some(import.spec.id()),
        denotes: Some(import.imported),
    }
}

fn dot_region(import: &ImportAt, string: &Node, object: Object) -> Region
    ensures { result ≡ rule.dot_region (importing import.now) (tree_of string.now) object }
{
    Region {
        block: Block::File(import.file),
        object,
        file: import.file,
        at: string.start(),
        import: Some(import.spec.id()),
        denotes: None,
    }
}

/// Adds the import, if it declares names.
pub fn add_import(
    alloc: Global,
    import: &ImportAt,
    imports: &mut Vec<Import>,
) -> Result<(), NoMemory>
    ensures { OnOk result (imports.new.items ≡ imports.old.items ++ rule.import_of (importing import.now)) }
{
    if !is_blank_import(alloc, import.spec)? {
        imports.push(Import {
            id: import.spec.id(),
            file: import.file,
            at: import.spec.start(),
        })?;
    }
    Ok(())
}

// `_ "q"`
fn is_blank_import(alloc: Global, spec: &Node) -> Result<bool, NoMemory>
    ensures { IfOk result (λ blank. blank ≡ rule.is_blank_import (parts_of (tree_of spec.now))) }
{
    match spec.both_parts() {
        Some((name, _)) => {
            if is_dot(name) {
                Ok(false)
            } else {
                Ok(is_blank_identifier(&name_of(alloc, name)?))
            }
        }
        None => Ok(false),
    }
}
