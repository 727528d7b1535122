// What the files of a package denote by their names, and what they break (Go specification, "Declarations
// and scope").
ghost use Rattle.std.specs.Prelude.{◌≡◌, ◌++◌, IfOk, OnOk, length, map};
ghost use Rattle.go_module.specs.Modules.Module.{file_view};
ghost use Rattle.go_names.specs.Views.{specs_view};
ghost use Rattle.go_scope.specs.Blocks.{block_of};
ghost use Rattle.go_scope.specs.Checked.{broken_from, resolved_from, resolved_parts};
ghost use Rattle.go_scope.specs.Known.{known_by};
ghost use Rattle.go_scope.specs.Resolved.{broken_file_by, broken_imports_by};

use crate::block_rules::{add_missing_main, add_repeated, add_reserved};
use crate::file_block::FileBlock;
use crate::held::Declared;
use crate::import_rules::{add_conflicting, add_unused};
use crate::known::Before;
use crate::member_rules::add_broken_members;
use crate::occurrence_rules::add_broken_occurrences;
use crate::resolved::{Around, Resolved, resolve_all};
use go_base::{Broken, NoMemory};
use go_module::{Import, SourceFile};
use go_names::{Spec, names_in_specs};
use std::alloc::Global;

/// Adds what the files of a package break, by their places, and gives what their occurrences denote, a list
/// for each file. Each file has its block and its specs. An error is want of memory.
pub fn check_files(
    alloc: Global,
    before: &Before,
    is_main: bool,
    around: &Around,
    files: &[SourceFile],
    blocks: &[FileBlock],
    specs: &[Vec<Spec>],
    found: &mut Vec<Broken>,
) -> Result<Vec<Vec<Resolved>>, NoMemory>
    requires blocks { length blocks.now ≡ length files.now }
    requires specs { length specs.now ≡ length files.now }
    ensures resolved { IfOk result (λ lists. map (λ list. list.items) lists.items ≡ resolved_from around.now.universe
        around.now.block (map block_of blocks.now) (map (λ list. specs_view list.items) specs.now)) }
    ensures found { IfOk result (λ lists. found.new.items ≡ found.old.items
        ++ broken_from (known_by before.now) is_main around.now.universe around.now.block 0
        (map block_of blocks.now) (map file_view files.now) (map (λ list. specs_view list.items) specs.now)) }
{
    let mut lists = Vec::new(alloc);
    for i in 0..files.len() {
        let list = check_file(
            alloc, before, is_main, around, i, &files[i], &blocks[i], &specs[i], found,
        )?;
        lists.push(list)?;
    }
    Ok(lists)
}

// Adds what a file breaks, and gives what its occurrences denote.
fn check_file(
    alloc: Global,
    before: &Before,
    is_main: bool,
    around: &Around,
    place: usize,
    file: &SourceFile,
    block: &FileBlock,
    specs: &[Spec],
    found: &mut Vec<Broken>,
) -> Result<Vec<Resolved>, NoMemory>
    ensures resolved { IfOk result (λ list. list.items
        ≡ resolved_parts around.now.universe around.now.block (block_of block.now) (specs_view specs.now)) }
    ensures found { IfOk result (λ list. found.new.items ≡ found.old.items
        ++ broken_file_by (known_by before.now) is_main around.now.block (block_of block.now) place
        (file_view file.now) list.items (specs_view specs.now)) }
{
    let declared = Declared::of(alloc, &block.regions)?;
    let occurrences = names_in_specs(alloc, specs)?;
    let resolved = resolve_all(alloc, around, &declared, occurrences)?;
    add_missing_main(is_main, place, file, found)?;
    add_reserved(is_main, &block.regions, found)?;
    add_broken_imports(alloc, around, &declared, &resolved, &block.imports, found)?;
    add_broken_occurrences(before, &resolved, found)?;
    add_broken_members(alloc, specs, found)?;
    Ok(resolved)
}

// Adds what the imports of a file break.
fn add_broken_imports(
    alloc: Global,
    around: &Around,
    file: &Declared,
    resolved: &[Resolved],
    imports: &[Import],
    found: &mut Vec<Broken>,
) -> Result<(), NoMemory>
    ensures { OnOk result (found.new.items ≡ found.old.items
        ++ broken_imports_by around.now.block file.now imports.now resolved.now) }
{
    add_repeated(file, found)?;
    add_conflicting(alloc, &around.block, file, imports, found)?;
    add_unused(alloc, file, resolved, imports, found)
}
