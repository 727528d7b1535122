// What is read of a tree: go.mod, and the Go files of a module and of its stubs.
ghost use Rattle.std.specs.Prelude.{◌≡◌, IfErr, IfOk, IsErrOf};
ghost use Rattle.std.specs.Option.{option_copied};
ghost use Rattle.go_base.specs.Counters.{Rose};
ghost use Rattle.go_load.specs.Texts.Calls.{IsListed, IsNoRule, Leaves};
ghost use Rattle.go_load.specs.Texts.Reading.{ReadsBroken, ReadsModule};
ghost use Rattle.go_load.specs.Texts.ReadTexts.{Adds, AddsStubs, AreAllRead, AreBothRead, AreSomeStubFiles, IsTextRead};

use crate::calls::{list_files, read_file};
use crate::load_fault::LoadFault;
use crate::module_text::read_module_path;
use go_base::{Bytes, Name, Tree, Word};
use go_mod::go_files;
use go_module::Text;
use std::alloc::Global;

/// What is read of a module: its path, and its Go files and behind them those of the stubs, each in the
/// byte order of their paths.
#[derive(Debug, Drop)]
pub(crate) struct ReadModule {
    pub path: Bytes,
    pub texts: Vec<Text>,
}

/// Reads the module below `root`, and the stubs below `stubs` if there are any.
///
/// The calls on the tree: the list of `root`; go.mod, where it is listed; where it breaks a rule, no
/// more; else the list of `stubs`, the Go files of `root` in order, and those of `stubs`.
///
/// Err Broken has the rules that go.mod breaks; ReadFault comes only where a call on the tree failed.
pub(crate) fn read_module<T: Tree>(
    alloc: Global,
    tree: &mut T,
    root: &Word,
    stubs: Option<&Word>,
) -> Result<ReadModule, LoadFault>
    ensures read { IfOk result (λ read.
        ReadsModule (T.files tree.old) root.now (option_copied stubs.entry) read.path read.texts.items) }
    ensures broken { IfErr result (λ fault.
        ReadsBroken (T.files tree.old) root.now (option_copied stubs.entry) fault) }
    ensures cause { IsErrOf result LoadFault.ReadFault → Rose (T.faults tree.old) (T.faults tree.new) }
    ensures stays { (IsErrOf result LoadFault.ReadFault → ⊥) → T.faults tree.new ≡ T.faults tree.old }
    ensures files { T.files tree.new ≡ T.files tree.old }
{
    let names = list_files(alloc, tree, root)?;
    read_listed(alloc, tree, root, &names, stubs)
}

// The module, where these are the paths of all files below its root.
fn read_listed<T: Tree>(
    alloc: Global,
    tree: &mut T,
    root: &Word,
    names: &[Name],
    stubs: Option<&Word>,
) -> Result<ReadModule, LoadFault>
    requires { IsListed (T.files tree.old) root.now names.now }
    ensures read { IfOk result (λ read.
        ReadsModule (T.files tree.old) root.now (option_copied stubs.entry) read.path read.texts.items) }
    ensures broken { IfErr result (λ fault.
        ReadsBroken (T.files tree.old) root.now (option_copied stubs.entry) fault) }
    ensures leaves { Leaves (T.files tree.old) (T.files tree.new) (T.faults tree.old) (T.faults tree.new) result }
{
    let path = read_module_path(alloc, tree, root, names)?;
    let texts = read_texts(alloc, tree, root, names, stubs)?;
    Ok(ReadModule { path, texts })
}

// The Go files of both roots, where these are the paths of all files below the module's.
fn read_texts<T: Tree>(
    alloc: Global,
    tree: &mut T,
    root: &Word,
    names: &[Name],
    stubs: Option<&Word>,
) -> Result<Vec<Text>, LoadFault>
    ensures texts { IfOk result (λ texts.
        AreAllRead (T.files tree.old) root.now (option_copied stubs.entry) names.now texts.items) }
    ensures no_rule { IfErr result IsNoRule }
    ensures leaves { Leaves (T.files tree.old) (T.files tree.new) (T.faults tree.old) (T.faults tree.new) result }
{
    let own = go_files(alloc, names)?;
    let stub_files = list_stubs(alloc, tree, stubs)?;
    read_both(alloc, tree, root, &own, stubs, &stub_files)
}

// The paths of the Go files of the stubs.
fn list_stubs<T: Tree>(
    alloc: Global,
    tree: &mut T,
    stubs: Option<&Word>,
) -> Result<Vec<Name>, LoadFault>
    ensures files { IfOk result (λ paths.
        AreSomeStubFiles (T.files tree.old) (option_copied stubs.entry) paths.items) }
    ensures no_rule { IfErr result IsNoRule }
    ensures leaves { Leaves (T.files tree.old) (T.files tree.new) (T.faults tree.old) (T.faults tree.new) result }
{
    match stubs {
        Some(root) => {
            let names = list_files(alloc, tree, root)?;
            Ok(go_files(alloc, &names)?)
        }
        None => Ok(Vec::new(alloc)),
    }
}

// The files of both roots at these paths.
fn read_both<T: Tree>(
    alloc: Global,
    tree: &mut T,
    root: &Word,
    own: &[Name],
    stubs: Option<&Word>,
    stub_files: &[Name],
) -> Result<Vec<Text>, LoadFault>
    ensures texts { IfOk result (λ texts.
        AreBothRead (T.files tree.old) root.now (option_copied stubs.entry) own.now stub_files.now texts.items) }
    ensures no_rule { IfErr result IsNoRule }
    ensures leaves { Leaves (T.files tree.old) (T.files tree.new) (T.faults tree.old) (T.faults tree.new) result }
{
    let texts = read_files(alloc, tree, root, false, own, Vec::new(alloc))?;
    read_stubs(alloc, tree, stubs, stub_files, texts)
}

// Adds the files of the stubs at these paths.
fn read_stubs<T: Tree>(
    alloc: Global,
    tree: &mut T,
    stubs: Option<&Word>,
    files: &[Name],
    texts: Vec<Text>,
) -> Result<Vec<Text>, LoadFault>
    ensures texts { IfOk result (λ all.
        AddsStubs (T.files tree.old) (option_copied stubs.entry) files.now texts.items all.items) }
    ensures no_rule { IfErr result IsNoRule }
    ensures leaves { Leaves (T.files tree.old) (T.files tree.new) (T.faults tree.old) (T.faults tree.new) result }
{
    match stubs {
        Some(root) => read_files(alloc, tree, root, true, files, texts),
        None => Ok(texts),
    }
}

// Adds the files below a root at these paths.
fn read_files<T: Tree>(
    alloc: Global,
    tree: &mut T,
    root: &Word,
    stub: bool,
    files: &[Name],
    texts: Vec<Text>,
) -> Result<Vec<Text>, LoadFault>
    ensures texts { IfOk result (λ all.
        Adds (T.files tree.old) root.now stub files.now texts.items all.items) }
    ensures no_rule { IfErr result IsNoRule }
    ensures leaves { Leaves (T.files tree.old) (T.files tree.new) (T.faults tree.old) (T.faults tree.new) result }
{
    let mut texts = texts;
    for path in files {
        texts.push(read_text(alloc, tree, root, stub, path)?)?;
    }
    Ok(texts)
}

// The file below a root at that path.
fn read_text<T: Tree>(
    alloc: Global,
    tree: &mut T,
    root: &Word,
    stub: bool,
    path: &Name,
) -> Result<Text, LoadFault>
    ensures path { IfOk result (λ text. text.path ≡ path.now) }
    ensures read { IfOk result (λ text. IsTextRead (T.files tree.old) root.now stub text) }
    ensures no_rule { IfErr result IsNoRule }
    ensures leaves { Leaves (T.files tree.old) (T.files tree.new) (T.faults tree.old) (T.faults tree.new) result }
{
    let name = path.clone()?;
    let bytes = read_file(alloc, tree, root, path)?;
    Ok(Text::new(stub, name, bytes))
}
