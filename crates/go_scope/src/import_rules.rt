// The rules on imports: P6, P10 (Go specification, "Declarations and scope", "Import declarations").
ghost use Rattle.std.specs.Prelude.{◌≡◌, ◌++◌, ◌||◌, ◌&&◌, not, false, ℕ, Bool, IfOk, OnOk};
ghost use Rattle.std.specs.List.{flat_map, list_any};
ghost use Rattle.std.specs.Option.{option_map_or};
ghost use Rattle.indexmap.specs.IndexSet.{contains};
ghost use Rattle.go_tree.specs.declared.node.NodeId.{NodeId};
ghost use Rattle.go_module.specs.Broken as broken;
ghost use Rattle.go_module.specs.Names.Rules.ImportRules as rule;
ghost use Rattle.go_module.specs.Names.Regions.{has_name};
ghost use Rattle.go_module.specs.Scopes.{same_node};
ghost use Rattle.go_scope.specs.Marks.{is_import, marks_conflict, marks_repeat};
ghost use Rattle.go_scope.specs.Resolved as spec;

use crate::held::Declared;
use crate::resolved::Resolved;
use crate::rules::{CONFLICTING_IMPORT, UNUSED_IMPORT};
use go_base::{Broken, NoMemory};
use go_module::{Import, add_if, broken_at};
use go_tree::NodeId;
use indexmap::IndexSet;
use std::alloc::Global;

/// Adds the rule P6 at each import of a file that declares a name of the package block.
pub fn add_conflicting(
    alloc: Global,
    block: &Declared,
    file: &Declared,
    imports: &[Import],
    found: &mut Vec<Broken>,
) -> Result<(), NoMemory>
    ensures { OnOk result (found.new.items
        ≡ found.old.items ++ rule.conflicting block.now file.now imports.now) }
{
    let conflicts = conflicting_imports(alloc, block, file)?;
    for import in imports {
        add_conflict(&conflicts, import, found)?;
    }
    Ok(())
}

// Adds the rule P6 at an import that has the mark.
fn add_conflict(
    conflicts: &IndexSet<NodeId>,
    import: &Import,
    found: &mut Vec<Broken>,
) -> Result<(), NoMemory>
    ensures { OnOk result (found.new.items ≡ found.old.items
        ++ broken.told_if (contains same_node conflicts.now import.now.id)
        (broken.broken_at import.now.file import.now.at rule.conflicting_import)) }
{
    let at = broken_at(import.file, import.at, CONFLICTING_IMPORT);
    add_if(found, conflicts.contains(&import.id), at)
}

/// Adds the rule P10 at each import of a file that none of these occurrences uses, and of whose names none
/// is repeated.
pub fn add_unused(
    alloc: Global,
    file: &Declared,
    resolved: &[Resolved],
    imports: &[Import],
    found: &mut Vec<Broken>,
) -> Result<(), NoMemory>
    ensures { OnOk result (found.new.items
        ≡ found.old.items ++ flat_map (spec.unused_by file.now resolved.now) imports.now) }
{
    let repeats = repeated_imports(alloc, file)?;
    let uses = used_imports(alloc, resolved)?;
    for import in imports {
        add_unused_import(&repeats, &uses, import, found)?;
    }
    Ok(())
}

// Adds the rule P10 at an import that has neither mark.
fn add_unused_import(
    repeats: &IndexSet<NodeId>,
    uses: &IndexSet<NodeId>,
    import: &Import,
    found: &mut Vec<Broken>,
) -> Result<(), NoMemory>
    ensures { OnOk result (found.new.items ≡ found.old.items
        ++ broken.told_if (not (contains same_node repeats.now import.now.id)
        && not (contains same_node uses.now import.now.id))
        (broken.broken_at import.now.file import.now.at rule.unused_import)) }
{
    let unused = !repeats.contains(&import.id) && !uses.contains(&import.id);
    let at = broken_at(import.file, import.at, UNUSED_IMPORT);
    add_if(found, unused, at)
}

// The import specs that declare a name of the package block.
fn conflicting_imports(
    alloc: Global,
    block: &Declared,
    file: &Declared,
) -> Result<IndexSet<NodeId>, NoMemory>
    ensures { IfOk result (λ marks. (id : NodeId) →
        contains same_node marks id ≡ list_any (marks_conflict block.now id) file.now) }
{
    let mut marks = IndexSet::new(alloc);
    for region in file.regions() {
        add_mark(&mut marks, region.import, block.has(&region.object.name))?;
    }
    Ok(marks)
}

// The import specs that declare a repeated name.
fn repeated_imports(alloc: Global, file: &Declared) -> Result<IndexSet<NodeId>, NoMemory>
    ensures { IfOk result (λ marks. (id : NodeId) →
        contains same_node marks id ≡ list_any (marks_repeat file.now id) file.now) }
{
    let mut marks = IndexSet::new(alloc);
    for region in file.regions() {
        add_mark(
            &mut marks,
            region.import,
            file.is_repeated(&region.object.name),
        )?;
    }
    Ok(marks)
}

// The import specs that these occurrences use.
fn used_imports(alloc: Global, resolved: &[Resolved]) -> Result<IndexSet<NodeId>, NoMemory>
    ensures { IfOk result (λ marks. (id : NodeId) →
        contains same_node marks id ≡ list_any (spec.uses_by id) resolved.now) }
{
    let mut marks = IndexSet::new(alloc);
    for r in resolved {
        add_use(&mut marks, r)?;
    }
    Ok(marks)
}

// Adds the import spec that an occurrence uses.
#[tactic(auto, using(crate::proofs::MarkLemmas::mark_lemmas))]
fn add_use(marks: &mut IndexSet<NodeId>, r: &Resolved) -> Result<(), NoMemory>
    ensures { OnOk result ((id : NodeId) → contains same_node marks.new id
        ≡ (contains same_node marks.old id || spec.uses_by id r.now)) }
{
    match r.denoted {
        Some(denoted) => add_mark(marks, denoted.import, true),
        None => Ok(()),
    }
}

// Adds an import spec, if there is one and it has the mark.
fn add_mark(
    marks: &mut IndexSet<NodeId>,
    import: Option<NodeId>,
    holds: bool,
) -> Result<(), NoMemory>
    ensures { OnOk result ((id : NodeId) → contains same_node marks.new id
        ≡ (contains same_node marks.old id || (is_import id import && holds))) }
{
    if !holds {
        return Ok(());
    }
    if let Some(id) = import {
        marks.insert(id)?;
    }
    Ok(())
}
