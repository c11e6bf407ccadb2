//! A sink over bytes in memory.
ghost use Rattle.std.specs.Prelude.{◌≡◌, ◌<◌, ◌≤◌, ◌+◌, ◌-◌, ◌^◌, ◌↔◌, ◌⊎◌, [], min, length, Some, true, vec_len, vec_capacity, IfOk, IsErr, MatchResult};
ghost use Rattle.cola_io.specs.Streams.{WriteAppends};
ghost use Rattle.cola_io.specs.Counted.{CountsFaults, after_fault};
ghost use Rattle.cola_io.specs.FailedCalls.{is_listed};

use super::{Sink, SinkFault};
use cola_outside::one_more;
use std::alloc::{AllocError, Global};

/// Bytes in memory as a sink, which tells them. It has room for a number of bytes, given at first.
///
/// Calls are counted from 1, and a call whose number is in `failing` is a fault, as is a call that
/// finds no room left. Every other call appends as many bytes as there is room for.
#[derive(Drop)]
pub struct MemorySink {
    bytes: Vec<u8>,
    room: usize,
    calls: u64,
    failing: Vec<u64>,
    faults: u64,
    ghost reserved: { vec_len bytes + room ≤ vec_capacity bytes },
}

impl MemorySink {
    /// An empty sink with room for `room` bytes, all of it reserved. Without memory `AllocError`.
    pub fn new(alloc: Global, room: usize, failing: Vec<u64>) -> Result<MemorySink, AllocError>
        ensures empty { IfOk result (λ s. s.bytes.items ≡ []) }
        ensures room { IfOk result (λ s. s.room ≡ room) }
        ensures failing { IfOk result (λ s. s.failing ≡ failing) }
        ensures counts { IfOk result (λ s. (s.calls ≡ 0) × (s.faults ≡ 0)) }
    {
        let bytes = Vec::with_capacity(alloc, room)?;
        Ok(MemorySink {
            bytes,
            room,
            calls: 0,
            failing,
            faults: 0,
        })
    }

    /// Counts a fault.
    fn fault(&mut self) -> SinkFault
        ensures faults { self.new.faults ≡ after_fault self.old.faults }
        ensures kept { self.old.faults ≤ self.new.faults }
        ensures bytes { self.new.bytes ≡ self.old.bytes }
        ensures room { self.new.room ≡ self.old.room }
        ensures calls { self.new.calls ≡ self.old.calls }
        ensures failing { self.new.failing ≡ self.old.failing }
    {
        self.faults = one_more(self.faults);
        SinkFault
    }

    /// The bytes written so far.
    pub fn bytes(&self) -> &[u8]
        ensures { result.now ≡ self.now.bytes.items }
    {
        self.bytes.as_slice()
    }
}

impl Sink for MemorySink {
    ghost written = { λ s. Some s.bytes.items };

    ghost faults = { λ s. s.faults };

    fn write(&mut self, from: &[u8]) -> Result<usize, SinkFault>
        requires { 0 < length from.now }
        ensures some { IfOk result (λ n. 0 < n) }
        ensures bound { IfOk result (λ n. n ≤ length from.now) }
        ensures bytes { WriteAppends result from.now (Some self.old.bytes.items)
            (Some self.new.bytes.items) }
        ensures faults_counted { CountsFaults result self.old.faults self.new.faults }
        ensures faults_kept { self.old.faults ≤ self.new.faults }
        ensures fails { IsErr result
            ↔ ((self.old.room ≡ 0) ⊎ (is_listed self.old.failing.items self.new.calls ≡ true)) }
        ensures amount { IfOk result (λ n. n ≡ min (length from.now) self.old.room) }
        ensures room { MatchResult result (λ n. self.new.room + n ≡ self.old.room)
            (λ _. self.new.room ≡ self.old.room) }
        ensures counted { self.new.calls ≡ min (self.old.calls + 1) (2 ^ 64 - 1) }
        ensures same { self.new.failing ≡ self.old.failing }
    {
        self.calls = self.calls.saturating_add(1);
        if self.room == 0 {
            return Err(self.fault());
        }
        if self.failing.contains(&self.calls) {
            return Err(self.fault());
        }
        let count = from.len().min(self.room);
        if self.bytes.extend_from_slice(&from[..count]).is_err() {
            return Err(self.fault());
        }
        self.room -= count;
        Ok(count)
    }
}
