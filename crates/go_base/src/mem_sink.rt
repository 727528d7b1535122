// A sink in memory whose listed puts fail.
ghost use Rattle.std.specs.Prelude.{◌≡◌, ◌++◌, ◌≤◌, [], Some, take};
ghost use Rattle.std.specs.Prelude.{IsErrOf, IsNone, IsSomeAnd, OnErr, OnOk};
ghost use Rattle.go_base.specs.Counters.{Rose, one_more};
ghost use Rattle.go_base.specs.MemSink.{take_at};
ghost use Rattle.go_base.specs.Sink.{AddsPrefix};

use crate::no_memory::NoMemory;
use crate::sink::{Sink, SinkFault};
use std::alloc::Global;
use std::marker::Model;

/// A put that fails: its number, counted from 1, and how many bytes it takes.
#[derive(Clone, Copy, Debug, PartialEq, Eq)]
pub struct FailPut {
    pub call: u64,
    pub take: usize,
}

/// Bytes in memory. Its puts are counted from 1. A put whose number is listed fails after taking as
/// many of the first bytes as its first entry says, or all where there are fewer; no other fails.
#[derive(Drop)]
pub struct MemSink {
    taken: Vec<u8>,
    failing: Vec<FailPut>,
    calls: u64,
    faults: u64,
}

impl Model for MemSink {
    ghost use Rattle.go_base.specs.MemSink.{MemSinkState};

    ghost Value = { MemSinkState };

    ghost view = { λ sink. record {
      taken = sink.taken.items;
      failing = sink.failing.items;
      calls = sink.calls;
      faults = sink.faults;
    } };
}

impl MemSink {
    /// A sink before its first put.
    pub fn new(alloc: Global, failing: Vec<FailPut>) -> Self
        ensures taken { result.taken ≡ [] }
        ensures failing { result.failing ≡ failing.items }
        ensures calls { result.calls ≡ 0 }
        ensures faults { result.faults ≡ 0 }
    {
        MemSink {
            taken: Vec::new(alloc),
            failing,
            calls: 0,
            faults: 0,
        }
    }

    /// The bytes taken so far.
    pub fn taken(&self) -> &[u8]
        ensures { result.now ≡ self.now.taken }
    {
        &self.taken
    }
}

// How many bytes the put of that number takes, where it fails.
fn take_of(failing: &[FailPut], call: u64) -> Option<usize>
    ensures { result ≡ take_at failing.now call }
{
    let put = failing.iter().find(|put| put.call == call)?;
    Some(put.take)
}

pub(crate) fn append(taken: &mut Vec<u8>, bytes: &[u8]) -> Result<(), NoMemory>
    ensures ok { OnOk result (taken.new.items ≡ taken.old.items ++ bytes.now) }
    ensures err { OnErr result (taken.new.items ≡ taken.old.items) }
{
    taken.extend_from_slice(bytes)?;
    Ok(())
}

// Appends the first `most` bytes, or all where there are fewer.
fn append_front(taken: &mut Vec<u8>, bytes: &[u8], most: usize) -> Result<(), NoMemory>
    ensures ok { OnOk result (taken.new.items ≡ taken.old.items ++ take most bytes.now) }
    ensures err { OnErr result (taken.new.items ≡ taken.old.items) }
{
    append(taken, &bytes[..most.min(bytes.len())])
}

impl Sink for MemSink {
    ghost taken = { λ sink. Some sink.taken };

    ghost faults = { λ sink. sink.faults };

    fn put(&mut self, bytes: &[u8]) -> Result<(), SinkFault>
        ensures ok { OnOk result (self.new.taken ≡ self.old.taken ++ bytes.now) }
        ensures err { OnErr result
            (AddsPrefix (Some self.old.taken) (Some self.new.taken) bytes.now) }
        ensures cause { IsErrOf result SinkFault.Failed → Rose self.old.faults self.new.faults }
        ensures stays { (IsErrOf result SinkFault.Failed → ⊥) → self.new.faults ≡ self.old.faults }
        ensures rising { self.old.faults ≤ self.new.faults }

        ensures counted { IsErrOf result SinkFault.Failed →
            self.new.faults ≡ one_more self.old.faults }
        ensures failing { self.new.failing ≡ self.old.failing }
        ensures calls { self.new.calls ≡ one_more self.old.calls }
        ensures unlisted { OnOk result (IsNone (take_at self.old.failing self.new.calls)) }
        ensures listed { IsErrOf result SinkFault.Failed →
            IsSomeAnd (take_at self.old.failing self.new.calls)
            (λ most. self.new.taken ≡ self.old.taken ++ take most bytes.now) }
        ensures no_memory { IsErrOf result SinkFault.NoMemory → self.new.taken ≡ self.old.taken }
    {
        self.calls = self.calls.saturating_add(1);
        match take_of(&self.failing, self.calls) {
            None => Ok(append(&mut self.taken, bytes)?),
            Some(most) => {
                append_front(&mut self.taken, bytes, most)?;
                self.faults = self.faults.saturating_add(1);
                Err(SinkFault::Failed)
            }
        }
    }
}
