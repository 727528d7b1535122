// The files of a module, of their texts and trees.
ghost use Rattle.std.specs.Prelude.{◌≡◌, ◌++◌, IfOk, OnOk, length, map};
ghost use Rattle.go_module.specs.Modules.Module.{file_view, files_from};
ghost use Rattle.go_load.specs.Packages.SourceFiles.{file_if, file_with, joined};
ghost use Rattle.go_load.specs.Packages.Trees.{AreNumbered, trees_in};

use go_base::NoMemory;
use go_module::{SourceFile, Text};
use go_tree::File;
use std::alloc::Global;

/// The files that have these texts and trees.
pub fn source_files(
    alloc: Global,
    texts: Vec<Text>,
    trees: Vec<File>,
) -> Result<Vec<SourceFile>, NoMemory>
    requires same { length texts.items ≡ length trees.items }
    requires numbered { AreNumbered 0 trees.items }
    ensures { IfOk result (λ files. map file_view files.items ≡ files_from 0 texts.items (trees_in trees.items)) }
{
    let files = files_joined(alloc, texts, trees)?;
    Ok(files)
}

// The files, taken from the last to the first.
fn files_joined(
    alloc: Global,
    texts: Vec<Text>,
    trees: Vec<File>,
) -> Result<Vec<SourceFile>, NoMemory>
    requires { length texts.items ≡ length trees.items }
    ensures { IfOk result (λ files. map file_view files.items ≡ joined texts.items trees.items) }
{
    let mut texts = texts;
    let mut trees = trees;
    let mut files = Vec::new(alloc);
    while let Some(tree) = trees.pop() {
        push_file(alloc, texts.pop(), tree, &mut files)?;
    }
    files.reverse();
    Ok(files)
}

// Pushes the file with that text, if there is one, and that tree.
fn push_file(
    alloc: Global,
    text: Option<Text>,
    tree: File,
    files: &mut Vec<SourceFile>,
) -> Result<(), NoMemory>
    ensures { OnOk result (map file_view files.new.items ≡ map file_view files.old.items ++ file_if text tree) }
{
    if let Some(text) = text {
        files.push(source_file(alloc, text, tree)?)?;
    }
    Ok(())
}

// The file with that text and tree, and the table of its lines.
fn source_file(alloc: Global, text: Text, tree: File) -> Result<SourceFile, NoMemory>
    ensures { IfOk result (λ file. file_view file ≡ file_with text tree) }
{
    let (name, bytes) = text.into_parts();
    SourceFile::new(alloc, name, bytes, tree)
}
