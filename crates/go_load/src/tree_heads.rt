// The heads of files, from their trees (Go specification, "Package clause", "Import declarations").
ghost use Rattle.std.specs.Prelude.{◌≡◌, ◌∷◌, [], IfOk, OnOk, length, map};
ghost use Rattle.go_tree.specs.Tree.{tree_of};
ghost use Rattle.go_module.specs.Modules.Heads.{IsHeadOf, IsImportOf, AreImports, specs_in, import_specs};
ghost use Rattle.go_module.specs.Modules.Module.{AreHeads};
ghost use Rattle.go_load.specs.Packages.Trees.{AddsImports, trees_in};

use crate::heads::{Head, ImportSpec};
use crate::import_strings::import_path_of;
use go_base::{Bytes, NoMemory};
use go_module::{Text, first_part, last_part, part_list};
use go_tree::{File, Node, NodeKind};
use std::alloc::Global;

/// The head of each file, where the texts have these trees.
pub fn heads_of(alloc: Global, texts: &[Text], files: &[File]) -> Result<Vec<Head>, NoMemory>
    requires { length texts.now ≡ length files.now }
    ensures { IfOk result (λ heads. AreHeads texts.now (trees_in files.now) heads.items) }
{
    let mut heads = Vec::new(alloc);
    for i in 0..texts.len() {
        heads.push(head_of(alloc, &texts[i], &files[i].root)?)?;
    }
    Ok(heads)
}

// The head of a file with that tree.
fn head_of(alloc: Global, text: &Text, root: &Node) -> Result<Head, NoMemory>
    ensures { IfOk result (λ head. IsHeadOf text.now.stub text.now.path (tree_of root.now) head) }
{
    let path = text.path().clone()?;
    let imports = imports_in(alloc, root)?;
    let name = first_part(root);
    let bytes = Bytes::new(name.text().to_vec(alloc)?);
    Ok(Head::new(text.is_stub(), path, bytes, name.start(), imports))
}

// The imports of a file.
fn imports_in(alloc: Global, root: &Node) -> Result<Vec<ImportSpec>, NoMemory>
    ensures { IfOk result (λ imports. AreImports (import_specs (tree_of root.now)) imports.items) }
{
    let mut imports = Vec::new(alloc);
    for declaration in part_list(root) {
        add_declaration(alloc, declaration, &mut imports)?;
    }
    Ok(imports)
}

// Adds the imports of a declaration.
fn add_declaration(
    alloc: Global,
    declaration: &Node,
    imports: &mut Vec<ImportSpec>,
) -> Result<(), NoMemory>
    ensures { OnOk result (AddsImports (specs_in (tree_of declaration.now)) imports.old.items imports.new.items) }
{
    match declaration.kind() {
        NodeKind::ImportDecl => add_specs(alloc, part_list(declaration), imports),
        NodeKind::ImportGroup => add_specs(alloc, part_list(declaration), imports),
        _ => Ok(()),
    }
}

// Adds an import for each spec.
fn add_specs(alloc: Global, specs: &[Node], imports: &mut Vec<ImportSpec>) -> Result<(), NoMemory>
    ensures { OnOk result (AddsImports (map tree_of specs.now) imports.old.items imports.new.items) }
{
    for spec in specs {
        imports.push(import_of(alloc, spec)?)?;
    }
    Ok(())
}

// The import of a spec.
fn import_of(alloc: Global, spec: &Node) -> Result<ImportSpec, NoMemory>
    ensures { IfOk result (λ import. IsImportOf (tree_of spec.now) import) }
{
    let string = last_part(spec);
    let path = import_path_of(alloc, string.text())?;
    Ok(ImportSpec::new(path, string.start()))
}
