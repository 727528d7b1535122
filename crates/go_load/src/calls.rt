// The calls on a tree.
ghost use Rattle.std.specs.Prelude.{IfErr, IfOk};
ghost use Rattle.go_load.specs.Texts.Calls.{IsListed, IsNoRule, IsReadAt, Leaves};

use crate::load_fault::LoadFault;
use crate::source::MOST_BYTES;
use go_base::{Bytes, Name, Tree, Word};
use std::alloc::Global;

/// The most bytes of a file that are read: one more than a file may have, so that a longer one shows.
const MOST_READ: usize = MOST_BYTES + 1;

/// The paths of all files below the root.
pub(crate) fn list_files<T: Tree>(
    alloc: Global,
    tree: &mut T,
    root: &Word,
) -> Result<Vec<Name>, LoadFault>
    ensures names { IfOk result (λ names. IsListed (T.files tree.old) root.now names.items) }
    ensures no_rule { IfErr result IsNoRule }
    ensures leaves { Leaves (T.files tree.old) (T.files tree.new) (T.faults tree.old) (T.faults tree.new) result }
{
    Ok(tree.list(alloc, root)?)
}

/// The bytes of the file at that path below the root.
pub(crate) fn read_file<T: Tree>(
    alloc: Global,
    tree: &mut T,
    root: &Word,
    path: &Name,
) -> Result<Bytes, LoadFault>
    ensures bytes { IfOk result (λ bytes. IsReadAt (T.files tree.old) root.now path.now bytes) }
    ensures no_rule { IfErr result IsNoRule }
    ensures leaves { Leaves (T.files tree.old) (T.files tree.new) (T.faults tree.old) (T.faults tree.new) result }
{
    Ok(tree.read(alloc, root, path, MOST_READ)?)
}
