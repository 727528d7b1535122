// The import specs of a file (Go specification, "Import declarations").
ghost use Rattle.std.specs.Prelude.{◌≡◌, ◌++◌, IfOk, OnOk, map};
ghost use Rattle.go_tree.specs.Tree.{tree_of};
ghost use Rattle.go_module.specs.Modules.Heads as heads;
ghost use Rattle.go_names.specs.Views.{trees_at};

use crate::inner::push_all;
use go_base::NoMemory;
use go_module::part_list;
use go_tree::{Node, NodeKind};
use std::alloc::Global;

/// The import specs of a file, in source order. An error is want of memory.
pub fn import_specs<'a>(alloc: Global, root: &'a Node) -> Result<Vec<&'a Node>, NoMemory>
    ensures { IfOk result (λ specs. trees_at specs.items ≡ heads.import_specs (tree_of root.now)) }
{
    let mut specs = Vec::new(alloc);
    for declaration in part_list(root) {
        push_specs(declaration, &mut specs)?;
    }
    Ok(specs)
}

// Pushes the import specs of a declaration.
fn push_specs<'a>(declaration: &'a Node, specs: &mut Vec<&'a Node>) -> Result<(), NoMemory>
    ensures { OnOk result (trees_at specs.new.items
        ≡ trees_at specs.old.items ++ heads.specs_in (tree_of declaration.now)) }
{
    match declaration.kind() {
        NodeKind::ImportDecl => push_all(part_list(declaration), specs),
        NodeKind::ImportGroup => push_all(part_list(declaration), specs),
        _ => Ok(()),
    }
}
