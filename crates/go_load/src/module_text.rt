// Phase 1 of loading: the file go.mod of a root.
ghost use Rattle.std.specs.Prelude.{◌≡◌, None, Some, IfErr, IfOk, IsErrOf, nat_eq};
ghost use Rattle.std.specs.Cmp.Lexicographic.{pointwise};
ghost use Rattle.std.specs.List.{list_any};
ghost use Rattle.go_mod.specs.ModuleRules.{module_file_path};
ghost use Rattle.go_load.specs.Texts.Calls.{IsNoRule, Leaves};
ghost use Rattle.go_load.specs.Texts.ModuleTexts.{IsFaultOf, IsModuleFault, IsModulePath, IsModuleRead, IsPathIn, IsTold};

use crate::calls::read_file;
use crate::load_fault::LoadFault;
use crate::places::placed_list;
use go_base::{Broken, Bytes, Name, NoMemory, Tree, Word};
use go_mod::{MISSING_MODULE_FILE, ModuleFile, read_module_file};
use go_module::{Text, broken_at, ordered};
use std::alloc::Global;

/// The path that go.mod names, where these are the paths of all files below the root: it is read where
/// it is one of them. Err Broken has all rules that it breaks.
pub(crate) fn read_module_path<T: Tree>(
    alloc: Global,
    tree: &mut T,
    root: &Word,
    names: &[Name],
) -> Result<Bytes, LoadFault>
    ensures path { IfOk result (λ path. IsModulePath (T.files tree.old) root.now names.now path) }
    ensures broken { IfErr result (λ fault. IsModuleFault (T.files tree.old) root.now names.now fault) }
    ensures leaves { Leaves (T.files tree.old) (T.files tree.new) (T.faults tree.old) (T.faults tree.new) result }
{
    let read = read_module_text(alloc, tree, root, names)?;
    path_in(alloc, read)
}

// The bytes of go.mod, where it is one of the files.
fn read_module_text<T: Tree>(
    alloc: Global,
    tree: &mut T,
    root: &Word,
    names: &[Name],
) -> Result<Option<Bytes>, LoadFault>
    ensures read { IfOk result (λ read. IsModuleRead (T.files tree.old) root.now names.now read) }
    ensures no_rule { IfErr result IsNoRule }
    ensures leaves { Leaves (T.files tree.old) (T.files tree.new) (T.faults tree.old) (T.faults tree.new) result }
{
    let path = module_file_path(alloc)?;
    if is_among(&path, names) {
        Ok(Some(read_file(alloc, tree, root, &path)?))
    } else {
        Ok(None)
    }
}

fn module_file_path(alloc: Global) -> Result<Name, NoMemory>
    ensures { IfOk result (λ path. path ≡ module_file_path) }
{
    Ok(Name::new(String::from_str(alloc, "go.mod")?))
}

// Whether the path is one of these.
fn is_among(path: &Name, names: &[Name]) -> bool
    ensures { result ≡ list_any (pointwise nat_eq path.now) names.now }
{
    names.contains(path)
}

// The path that go.mod names, where it breaks no rule.
fn path_in(alloc: Global, read: Option<Bytes>) -> Result<Bytes, LoadFault>
    ensures path { IfOk result (λ path. IsPathIn read path) }
    ensures broken { IfErr result (λ fault. IsFaultOf read fault) }
    ensures no_fault { IsErrOf result LoadFault.ReadFault → ⊥ }
{
    match read {
        Some(bytes) => path_of(alloc, bytes),
        None => Err(missing(alloc)?),
    }
}

fn path_of(alloc: Global, bytes: Bytes) -> Result<Bytes, LoadFault>
    ensures path { IfOk result (λ path. IsPathIn (Some bytes) path) }
    ensures broken { IfErr result (λ fault. IsFaultOf (Some bytes) fault) }
    ensures no_fault { IsErrOf result LoadFault.ReadFault → ⊥ }
{
    match read_module_file(alloc, bytes.as_slice())? {
        ModuleFile::Good { path, .. } => Ok(path),
        ModuleFile::Broken(list) => Err(told(alloc, bytes, &list)?),
    }
}

// What a root without go.mod breaks.
fn missing(alloc: Global) -> Result<LoadFault, NoMemory>
    ensures broken { IfOk result (λ fault. IsFaultOf None fault) }
    ensures no_fault { IfOk result (λ fault. fault ≡ LoadFault.ReadFault → ⊥) }
{
    let list = ordered(vec![in alloc; broken_at(0, 0, MISSING_MODULE_FILE)]?);
    told(alloc, Bytes::new(Vec::new(alloc)), &list)
}

// These rules, broken in the go.mod with these bytes.
fn told(alloc: Global, bytes: Bytes, list: &[Broken]) -> Result<LoadFault, NoMemory>
    ensures { IfOk result (λ fault. IsTold bytes list.now fault) }
{
    let text = Text::new(false, module_file_path(alloc)?, bytes);
    Ok(LoadFault::Broken(placed_list(alloc, &text, list)?))
}
