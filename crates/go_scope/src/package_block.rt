// The block of a package (Go specification, "Declarations and scope", "Blocks").
ghost use Rattle.std.specs.Prelude.{◌≡◌, ◌∷◌, ◌++◌, [], IfOk, OnOk};
ghost use Rattle.go_tree.specs.Tree.{tree_of};
ghost use Rattle.go_module.specs.Names.Declarations.{name_text};
ghost use Rattle.go_module.specs.Names.PackageBlock as spec;
ghost use Rattle.go_names.specs.Views.{declaration_view, declarations_view};

use go_base::{Name, NoMemory};
use go_module::{Block, Object, Region};
use go_names::{Declaration, is_blank_identifier, name_of};
use std::alloc::Global;

/// The regions of the block of the package at a place of its module, which has these declarations. An error is want
/// of memory.
pub fn package_block(
    alloc: Global,
    place: usize,
    declarations: &[Declaration],
) -> Result<Vec<Region>, NoMemory>
    ensures { IfOk result (λ block.
        block.items ≡ spec.block_of place (declarations_view declarations.now)) }
{
    let mut block = Vec::new(alloc);
    for declaration in declarations {
        add_declared(alloc, place, declaration, &mut block)?;
    }
    Ok(block)
}

// Adds what a declaration declares, unless its name is the blank identifier.
fn add_declared(
    alloc: Global,
    place: usize,
    declaration: &Declaration,
    block: &mut Vec<Region>,
) -> Result<(), NoMemory>
    ensures { OnOk result (block.new.items
        ≡ block.old.items ++ spec.block_of place (declaration_view declaration.now ∷ [])) }
{
    let text = name_of(alloc, declaration.name)?;
    if !is_blank_identifier(&text) {
        block.push(declared_region(place, text, declaration))?;
    }
    Ok(())
}

fn declared_region(place: usize, text: Name, declaration: &Declaration) -> Region
    requires { text ≡ name_text (tree_of declaration.now.name.now) }
    ensures { result ≡ spec.declared_region place (declaration_view declaration.now) }
{
    Region {
        block: Block::Package,
        object: Object {
            name: text,
            kind: declaration.kind,
            at: declaration.name.id(),
            package: place,
            params: 0,
        },
        file: declaration.file,
        at: declaration.name.start(),
        import: None,
        denotes: None,
    }
}
