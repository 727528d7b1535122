// Sinks of bytes, which a report is written to.
ghost use Rattle.std.specs.Prelude.{◌≡◌, ℕ, ◌≤◌, List, Option, OnOk, OnErr, IsErrOf};
ghost use Rattle.go_base.specs.declared.sink.SinkFault.TheVariants.{NoMemory as OutOfMemory};
ghost use Rattle.go_base.specs.Counters.{Rose};
ghost use Rattle.go_base.specs.Sink.{Adds, AddsPrefix};

use crate::no_memory::NoMemory;
use std::alloc::{AllocError, AllocFailed};

/// Why a sink did not take all bytes.
#[derive(Clone, Copy, Debug, PartialEq, Eq)]
pub enum SinkFault {
    /// The sink could not be written to.
    Failed,
    /// Memory was refused.
    NoMemory,
}

impl From<AllocError> for SinkFault {
    ghost from_gives = { λ _ fault. fault ≡ OutOfMemory };

    fn from(_: AllocError) -> Self {
        SinkFault::NoMemory
    }
}

impl<T: Drop> From<AllocFailed<T>> for SinkFault {
    ghost from_gives = { λ _ fault. fault ≡ OutOfMemory };

    fn from(_: AllocFailed<T>) -> Self {
        SinkFault::NoMemory
    }
}

impl From<NoMemory> for SinkFault {
    ghost from_gives = { λ _ fault. fault ≡ OutOfMemory };

    fn from(_: NoMemory) -> Self {
        SinkFault::NoMemory
    }
}

/// What takes bytes.
pub trait Sink {
    /// The bytes taken so far, where the sink tells them.
    ghost taken: { Self → Option (List ℕ) };

    /// How often a call has failed, up to the last value of a counter.
    ghost faults: { Self → ℕ };

    /// Appends the bytes, or at a fault a prefix of them.
    fn put(&mut self, bytes: &[u8]) -> Result<(), SinkFault>
        ensures ok { OnOk result (Adds (taken self.old) (taken self.new) bytes.now) }
        ensures err { OnErr result (AddsPrefix (taken self.old) (taken self.new) bytes.now) }
        ensures cause { IsErrOf result SinkFault.Failed → Rose (faults self.old) (faults self.new) }
        ensures stays { (IsErrOf result SinkFault.Failed → ⊥) → faults self.new ≡ faults self.old }
        ensures rising { faults self.old ≤ faults self.new };
}
