// Types that are not kept.
ghost use Rattle.std.specs.Prelude.{◌≡◌};
ghost use Rattle.go_term.specs.declared.fault.TermFault.TheVariants.{NoMemory as OutOfMemory};

use go_base::NoMemory;
use std::alloc::{AllocError, AllocFailed};

/// Why a type is not made.
#[derive(Clone, Copy, Debug, PartialEq, Eq)]
pub enum TermFault {
    /// It is deeper than 256.
    Deep,
    /// It is not too deep, and has more than 65,536 nodes.
    Large,
    /// Memory was refused.
    NoMemory,
}

impl From<AllocError> for TermFault {
    ghost from_gives = { λ _ fault. fault ≡ OutOfMemory };

    fn from(_: AllocError) -> Self {
        TermFault::NoMemory
    }
}

impl<T: Drop> From<AllocFailed<T>> for TermFault {
    ghost from_gives = { λ _ fault. fault ≡ OutOfMemory };

    fn from(_: AllocFailed<T>) -> Self {
        TermFault::NoMemory
    }
}

impl From<NoMemory> for TermFault {
    ghost from_gives = { λ _ fault. fault ≡ OutOfMemory };

    fn from(_: NoMemory) -> Self {
        TermFault::NoMemory
    }
}
