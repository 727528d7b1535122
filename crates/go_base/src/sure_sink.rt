// A sink in memory that can always be written to.
ghost use Rattle.std.specs.Prelude.{◌≡◌, ◌++◌, [], IsOkUnless, OnErr, OnOk, Some};

use crate::mem_sink::append;
use crate::sink::{Sink, SinkFault};
use std::alloc::Global;
use std::marker::Model;

/// Bytes in memory. No put fails but for want of memory, and then nothing is taken.
#[derive(Drop)]
pub struct SureSink {
    taken: Vec<u8>,
}

impl Model for SureSink {
    ghost use Rattle.std.specs.Prelude.{ℕ, List};

    ghost Value = { List ℕ };

    ghost view = { λ sink. sink.taken.items };
}

impl SureSink {
    /// A sink before its first put.
    pub fn new(alloc: Global) -> Self
        ensures { result ≡ [] }
    {
        SureSink {
            taken: Vec::new(alloc),
        }
    }

    /// The bytes taken so far.
    pub fn taken(&self) -> &[u8]
        ensures { result.now ≡ self.now }
    {
        &self.taken
    }
}

impl Sink for SureSink {
    ghost taken = { Some };

    ghost faults = { λ _. 0 };

    fn put(&mut self, bytes: &[u8]) -> Result<(), SinkFault>
        ensures ok { OnOk result (self.new ≡ self.old ++ bytes.now) }
        ensures err { OnErr result (self.new ≡ self.old) }
        ensures no_memory { IsOkUnless result SinkFault.NoMemory }
    {
        Ok(append(&mut self.taken, bytes)?)
    }
}
