// The blocks of the files of a package (Go specification, "Import declarations").
ghost use Rattle.std.specs.Prelude.{◌≡◌, ◌++◌, IfOk, OnOk, map, take, drop, length};
ghost use Rattle.std.specs.List.{flat_map};
ghost use Rattle.go_module.specs.Modules.Module.{file_view};
ghost use Rattle.go_module.specs.Names.Imports as rule;
ghost use Rattle.go_names.specs.Views.{trees_at};
ghost use Rattle.go_scope.specs.Blocks.{block_data, block_of};
ghost use Rattle.go_scope.specs.Known.{known_by};

use crate::imports::{ImportAt, add_import, add_import_regions};
use crate::known::Before;
use go_base::NoMemory;
use go_module::{Import, Region, SourceFile};
use go_names::import_specs;
use go_tree::Node;
use std::alloc::Global;

/// The block of a file: its regions, and its imports that declare names.
#[derive(Drop)]
pub struct FileBlock {
    pub regions: Vec<Region>,
    pub imports: Vec<Import>,
}

/// The block of each file of the package at a place of the module; `packages` are those that the imports
/// of the files name, file after file. An error is want of memory.
pub fn file_blocks(
    alloc: Global,
    before: &Before,
    importer: usize,
    files: &[SourceFile],
    packages: &[usize],
) -> Result<Vec<FileBlock>, NoMemory>
    ensures { IfOk result (λ blocks. map block_of blocks.items
        ≡ map (block_data (known_by before.now)) (rule.imports_from importer 0 (map file_view files.now) packages.now)) }
{
    let mut blocks = Vec::new(alloc);
    let mut rest = packages;
    for (i, file) in files.iter().enumerate() {
        let specs = import_specs(alloc, &file.tree.root)?;
        let named = front(rest, specs.len());
        blocks.push(file_block(alloc, before, importer, i, &specs, named)?)?;
        rest = behind(rest, specs.len());
    }
    Ok(blocks)
}

// The block of a file with these import specs, which name these packages.
fn file_block(
    alloc: Global,
    before: &Before,
    importer: usize,
    file: usize,
    specs: &[&Node],
    packages: &[usize],
) -> Result<FileBlock, NoMemory>
    ensures { IfOk result (λ block. block_of block ≡ block_data (known_by before.now)
        (rule.imports_in importer file (trees_at specs.now) packages.now)) }
{
    let mut regions = Vec::new(alloc);
    let mut imports = Vec::new(alloc);
    for i in 0..specs.len().min(packages.len()) {
        let import = ImportAt {
            spec: specs[i],
            file,
            importer,
            imported: packages[i],
        };
        add_import_regions(alloc, before, &import, &mut regions)?;
        add_import(alloc, &import, &mut imports)?;
    }
    Ok(FileBlock { regions, imports })
}

/// The first entries of a list, or all where it has fewer.
pub fn front(list: &[usize], count: usize) -> &[usize]
    ensures { result.now ≡ take count list.now }
{
    if count < list.len() {
        &list[..count]
    } else {
        list
    }
}

/// The entries of a list behind the first.
pub fn behind(list: &[usize], count: usize) -> &[usize]
    ensures { result.now ≡ drop count list.now }
{
    if count < list.len() {
        &list[count..]
    } else {
        &[]
    }
}
