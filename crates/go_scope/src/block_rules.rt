// The rules on what a block declares: P4, P8, P9 (Go specification, "Declarations and scope", "Package
// initialization", "Program execution").
ghost use Rattle.std.specs.Prelude.{◌≡◌, ◌++◌, OnOk};
ghost use Rattle.go_tree.specs.Tree.{tree_of};
ghost use Rattle.go_module.specs.Modules.Module.{file_view};
ghost use Rattle.go_module.specs.Names.Rules.BlockRules as rule;

use crate::held::Declared;
use crate::rules::{MISSING_MAIN, REPEATED_NAME, RESERVED_NAME};
use go_base::{Broken, Name, NoMemory};
use go_module::{Block, Region, SourceFile, add_if, broken_at, first_part};
use go_names::is_word;

/// Adds the rule P4 at each declaration of a name that the block declares several times.
pub fn add_repeated(block: &Declared, found: &mut Vec<Broken>) -> Result<(), NoMemory>
    ensures { OnOk result (found.new.items ≡ found.old.items ++ rule.repeated block.now) }
{
    for region in block.regions() {
        add_repeated_at(block, region, found)?;
    }
    Ok(())
}

fn add_repeated_at(
    block: &Declared,
    region: &Region,
    found: &mut Vec<Broken>,
) -> Result<(), NoMemory>
    ensures { OnOk result (found.new.items ≡ found.old.items ++ rule.repeated_at block.now region.now) }
{
    let repeated = block.is_repeated(&region.object.name);
    let at = broken_at(region.file, region.at, REPEATED_NAME);
    add_if(found, repeated, at)
}

/// Adds the rule P8 at each declaration that is kept for a function.
pub fn add_reserved(
    is_main: bool,
    block: &[Region],
    found: &mut Vec<Broken>,
) -> Result<(), NoMemory>
    ensures { OnOk result (found.new.items ≡ found.old.items ++ rule.reserved is_main block.now) }
{
    for region in block {
        add_if(
            found,
            is_reserved(is_main, region),
            broken_at(region.file, region.at, RESERVED_NAME),
        )?;
    }
    Ok(())
}

fn is_reserved(is_main: bool, region: &Region) -> bool
    ensures { result ≡ rule.is_reserved is_main region.now }
{
    is_word(&region.object.name, b"init")
        || is_main && is_package_block(region.block) && is_word(&region.object.name, b"main")
}

fn is_package_block(block: Block) -> bool
    ensures { result ≡ rule.is_package_block block }
{
    match block {
        Block::Package => true,
        Block::Universe => false,
        Block::File(_) => false,
    }
}

/// Whether this is the name of the package main.
pub fn is_main_name(name: &Name) -> bool
    ensures { result ≡ rule.is_main_name name.now }
{
    is_word(name, b"main")
}

/// Adds the rule P9 at the name in the package clause of a file of package main.
pub fn add_missing_main(
    is_main: bool,
    file: usize,
    source: &SourceFile,
    found: &mut Vec<Broken>,
) -> Result<(), NoMemory>
    ensures { OnOk result (found.new.items
        ≡ found.old.items ++ rule.missing_main_at is_main file (file_view source.now)) }
{
    let at = first_part(&source.tree.root).start();
    add_if(found, is_main, broken_at(file, at, MISSING_MAIN))
}
