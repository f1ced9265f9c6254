//! A sink in memory, which fails where a test asks for it.
ghost use Rattle.std.specs.Prelude.{◌≡◌, ◌<◌, ◌≤◌, [], length, take, IfOk, IfErr, OnErr};
ghost use Rattle.dist_outside.specs.SinkView.{Grew, SinkCause};
ghost use Rattle.dist_outside.specs.Memory.{SinkState, sink_view, SinkCall};

use crate::{Sink, Trouble};
use std::alloc::{AllocError, Global};
use std::marker::Model;

/// Keeps what is written. Its count of wants is the number of its writes that found no memory.
#[derive(Drop)]
pub struct MemorySink {
    bytes: Vec<u8>,
    faults: u64,
    wants: u64,
    calls: u64,
    step: usize,
    fails: Vec<u64>,
}

impl Model for MemorySink {
    ghost use Rattle.std.specs.Prelude.{◌<◌};
    ghost use Rattle.dist_outside.specs.Memory.{SinkState};

    ghost Value = { SinkState };

    ghost view = { λ s. record { bytes = s.bytes.items; faults = s.faults; wants = s.wants; calls = s.calls; step = s.step; fails = s.fails.items } };

    ghost invariant = { λ s. 0 < s.step };
}

impl MemorySink {
    /// A sink whose writes take at most `step` bytes, and whose calls of these numbers, from 1, fail.
    pub fn new(alloc: Global, step: usize, fails: &[u64]) -> Result<MemorySink, AllocError>
        requires { 0 < step }
        ensures { IfOk result (λ sink. sink ≡ record { bytes = []; faults = 0; wants = 0; calls = 0; step = step; fails = fails.now }) }
    {
        Ok(MemorySink {
            bytes: Vec::new(alloc),
            faults: 0,
            wants: 0,
            calls: 0,
            step,
            fails: fails.to_vec(alloc)?,
        })
    }

    /// What was written.
    pub fn bytes(&self) -> &[u8]
        ensures { result.now ≡ self.now.bytes }
    {
        &self.bytes
    }

    /// How often a call of a listed number failed.
    pub fn faults(&self) -> u64
        ensures { result ≡ self.now.faults }
    {
        self.faults
    }
}

impl Sink for MemorySink {
    ghost view = { sink_view };

    fn write(&mut self, bytes: &[u8]) -> Result<usize, Trouble>
        ensures count { IfOk result (λ count. count ≤ length bytes.now) }
        ensures progress { IfOk result (λ count. 0 < length bytes.now → 0 < count) }
        ensures appended { IfOk result (λ count. Grew (take count bytes.now) (sink_view self.old) (sink_view self.new)) }
        ensures refused { OnErr result (Grew [] (sink_view self.old) (sink_view self.new)) }
        ensures cause { IfErr result (λ trouble. SinkCause trouble (sink_view self.old) (sink_view self.new)) }

        // What a sink in memory adds.
        ensures exact { SinkCall bytes.now result self.old self.new }
    {
        self.calls = self.calls.saturating_add(1);
        if self.fails.contains(&self.calls) {
            self.faults = self.faults.saturating_add(1);
            return Err(Trouble::Failed);
        }
        let count = self.step.min(bytes.len());
        if self.bytes.extend_from_slice(&bytes[..count]).is_err() {
            self.wants = self.wants.saturating_add(1);
            return Err(Trouble::NoMemory);
        }
        Ok(count)
    }
}
