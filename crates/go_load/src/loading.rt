// Loading a module.
ghost use Rattle.std.specs.Prelude.{◌≡◌, IfErr, IfOk, IsErrOf, [], length, map};
ghost use Rattle.std.specs.Option.{option_copied};
ghost use Rattle.go_base.specs.Counters.{Rose};
ghost use Rattle.go_load.specs.Loading.{LoadsModule};
ghost use Rattle.go_module.specs.Modules.Module.{module_view};
ghost use Rattle.go_load.specs.Packages.Made.{IsLoadFault, IsMade, IsMadeFault};

use crate::assemble::module_of;
use crate::load_fault::LoadFault;
use crate::packages::packages_of;
use crate::packages_broken::broken_packages;
use crate::parse_texts::parse_texts;
use crate::places::placed_among;
use crate::reading::{ReadModule, read_module};
use crate::source_files::source_files;
use crate::tree_heads::heads_of;
use go_base::{Tree, Word};
use go_module::{Module, breaks_none};
use std::alloc::Global;

/// The module whose files lie below `root`, with the stub packages below `stubs` that it reaches (Go
/// specification, "Packages").
///
/// Broken comes exactly where go.mod, the files by themselves, or imports and package clauses break a rule,
/// with all rules of the first of these phases that breaks any; ReadFault only where the tree counted a
/// fault in this call.
///
/// By tests alone, and by no clause: NoMemory comes only where memory runs out, the numbers of nodes do, or a
/// file's copies of omitted lists would have more nodes than are made; and the calls on the tree come in this
/// order: the list of `root`; go.mod, where it is listed; where that breaks no rule, the list of `stubs`, and
/// each Go file below `root` and then below `stubs`, in byte order of their paths. At most 16,777,217 bytes of a
/// file are read.
pub fn load<T: Tree>(
    alloc: Global,
    tree: &mut T,
    root: &Word,
    stubs: Option<&Word>,
) -> Result<Module, LoadFault>
    ensures module { IfOk result (λ loaded.
        LoadsModule (T.files tree.old) root.now (option_copied stubs.entry) (module_view loaded)) }
    ensures broken { IfErr result (λ fault.
        IsLoadFault (T.files tree.old) root.now (option_copied stubs.entry) fault) }
    ensures cause { IsErrOf result LoadFault.ReadFault → Rose (T.faults tree.old) (T.faults tree.new) }
    ensures stays { (IsErrOf result LoadFault.ReadFault → ⊥) → T.faults tree.new ≡ T.faults tree.old }
    ensures files { T.files tree.new ≡ T.files tree.old }
{
    let read = read_module(alloc, tree, root, stubs)?;
    made(alloc, read)
}

// The module of what was read.
fn made(alloc: Global, read: ReadModule) -> Result<Module, LoadFault>
    ensures module { IfOk result (λ loaded. IsMade read.path read.texts.items (module_view loaded)) }
    ensures broken { IfErr result (λ fault. IsMadeFault read.path read.texts.items fault) }
{
    let ReadModule { path, texts } = read;
    let files = parse_texts(alloc, &texts)?;
    let heads = heads_of(alloc, &texts, &files)?;
    let packages = packages_of(alloc, path.as_slice(), &heads)?;
    let broken = broken_packages(alloc, path.as_slice(), &heads, &packages)?;
    if !breaks_none(&broken) {
        return Err(LoadFault::Broken(placed_among(alloc, &texts, &broken)?));
    }
    let files = source_files(alloc, texts, files)?;
    Ok(module_of(alloc, path.as_slice(), files, &heads, &packages)?)
}
