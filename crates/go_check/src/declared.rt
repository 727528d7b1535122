// Where the objects of a module are declared (Go specification, "Declarations and scope").
ghost use Rattle.std.specs.Prelude.{◌≡◌, ◌++◌, IfOk, OnOk, map};
ghost use Rattle.std.specs.List.{flat_map};
ghost use Rattle.indexmap.specs.IndexMap.{insert_all, insert_entry};
ghost use Rattle.go_tree.specs.Tree.{tree_of};
ghost use Rattle.go_module.specs.Modules.Module.{file_view, module_view};
ghost use Rattle.go_module.specs.NodeParts.{first_part};
ghost use Rattle.go_module.specs.Scopes.{same_object};
ghost use Rattle.go_report.specs.Outline as spec;
ghost use Rattle.go_names.specs.Views.{declaration_view, trees_at};
ghost use Rattle.go_check.specs.Lines.Found.{declared_in_file, own_file_view, own_files_view};

use crate::own_file::{OwnFile, own_files};
use go_base::NoMemory;
use go_model::NumberHasher;
use go_module::{Module, ObjId, first_part, text_name};
use go_names::{Declaration, declarations_in};
use go_report::DeclaredObject;
use go_tree::Node;
use indexmap::IndexMap;
use std::alloc::Global;

/// Declarations by the numbers of their objects.
pub type DeclaredObjects = IndexMap<ObjId, DeclaredObject, NumberHasher>;

/// Each declaration of a module, by the number of the object. An error is want of memory.
pub fn declared_objects(alloc: Global, module: &Module) -> Result<DeclaredObjects, NoMemory>
    ensures { IfOk result (λ table. table.entries
        ≡ (spec.outline_of (module_view «module».now)).declared) }
{
    let mut table = IndexMap::with_hasher(alloc, NumberHasher::new());
    for (place, own) in module.packages.iter().enumerate() {
        add_files(alloc, place, &own_files(alloc, own)?, &mut table)?;
    }
    table.shrink_to_fit();
    Ok(table)
}

// Adds the declarations of these files of the package at a place.
fn add_files(
    alloc: Global,
    place: usize,
    files: &[OwnFile],
    table: &mut DeclaredObjects,
) -> Result<(), NoMemory>
    ensures { OnOk result (table.new.entries ≡ insert_all same_object table.old.entries
        (flat_map (declared_in_file place) (own_files_view files.now))) }
{
    for file in files {
        add_file(alloc, place, file, table)?;
    }
    Ok(())
}

// Adds the declarations of a file: of its imports, then of its specs.
fn add_file(
    alloc: Global,
    place: usize,
    file: &OwnFile,
    table: &mut DeclaredObjects,
) -> Result<(), NoMemory>
    ensures { OnOk result (table.new.entries ≡ insert_all same_object table.old.entries
        (declared_in_file place (own_file_view file.now))) }
{
    add_imports(alloc, place, file, &file.imports, table)?;
    add_names(
        alloc,
        place,
        file,
        &declarations_in(alloc, &file.specs)?,
        table,
    )
}

// Adds what these import specs declare: by the name or, if it is omitted, by the string.
fn add_imports(
    alloc: Global,
    place: usize,
    file: &OwnFile,
    specs: &[&Node],
    table: &mut DeclaredObjects,
) -> Result<(), NoMemory>
    ensures { OnOk result (table.new.entries ≡ insert_all same_object table.old.entries
        (map (spec.declared_by place file.now.stub (file_view file.now.file.now))
        (map first_part (trees_at specs.now)))) }
{
    for spec in specs {
        add_node(alloc, place, file, first_part(spec), table)?;
    }
    Ok(())
}

// Adds these declarations.
fn add_names(
    alloc: Global,
    place: usize,
    file: &OwnFile,
    declarations: &[Declaration],
    table: &mut DeclaredObjects,
) -> Result<(), NoMemory>
    ensures { OnOk result (table.new.entries ≡ insert_all same_object table.old.entries
        (map (spec.declared_by place file.now.stub (file_view file.now.file.now))
        (map (λ d. (declaration_view d).name) declarations.now))) }
{
    for declaration in declarations {
        add_node(alloc, place, file, declaration.name, table)?;
    }
    Ok(())
}

// Adds the declaration by a node of a file.
fn add_node(
    alloc: Global,
    place: usize,
    file: &OwnFile,
    node: &Node,
    table: &mut DeclaredObjects,
) -> Result<(), NoMemory>
    ensures { OnOk result (table.new.entries ≡ insert_entry same_object table.old.entries
        (spec.declared_by place file.now.stub (file_view file.now.file.now) (tree_of node.now)).0
        (spec.declared_by place file.now.stub (file_view file.now.file.now) (tree_of node.now)).1) }
{
    let declared = DeclaredObject {
        name: text_name(alloc, node.text())?,
        home: place,
        at: file.file.at(file.stub, node.start())?,
    };
    table.insert(ObjId(node.id().0), declared)?;
    Ok(())
}
