// Why a module is not loaded.
ghost use Rattle.std.specs.Prelude.{◌≡◌};
ghost use Rattle.go_base.specs.declared.tree.TreeFault.TheVariants.{Failed};
ghost use Rattle.go_load.specs.declared.load_fault.LoadFault.TheVariants.{NoMemory as OutOfMemory};
ghost use Rattle.go_load.specs.Texts.Reading.{fault_of};

use go_base::{NoMemory, TreeFault};
use go_module::Placed;
use std::alloc::{AllocError, AllocFailed};

/// Why a module is not loaded.
#[derive(Debug, Drop)]
pub enum LoadFault {
    /// The rules of the first phase that breaks any: go.mod's own, those of the files, or those of the
    /// imports and package clauses. They are all rules of this phase, by their places and at one place in
    /// the order of their table.
    Broken(Vec<Placed>),
    /// The tree could not be read.
    ReadFault,
    /// Memory was refused.
    NoMemory,
}

impl From<TreeFault> for LoadFault {
    ghost from_gives = { λ fault made. made ≡ fault_of fault };

    fn from(fault: TreeFault) -> Self {
        match fault {
            TreeFault::Failed => LoadFault::ReadFault,
            TreeFault::NoMemory => LoadFault::NoMemory,
        }
    }
}

impl From<NoMemory> for LoadFault {
    ghost from_gives = { λ _ made. made ≡ OutOfMemory };

    fn from(_: NoMemory) -> Self {
        LoadFault::NoMemory
    }
}

impl From<AllocError> for LoadFault {
    ghost from_gives = { λ _ made. made ≡ OutOfMemory };

    fn from(_: AllocError) -> Self {
        LoadFault::NoMemory
    }
}

impl<T: Drop> From<AllocFailed<T>> for LoadFault {
    ghost from_gives = { λ _ made. made ≡ OutOfMemory };

    fn from(_: AllocFailed<T>) -> Self {
        LoadFault::NoMemory
    }
}
