//! A source over bytes in memory.
ghost use Rattle.std.specs.Prelude.{◌≡◌, ◌<◌, ◌≤◌, ◌+◌, ◌-◌, ◌^◌, ◌↔◌, IsTrue, min, drop, length, take, Some, true, vec_len, IfOk, OnErr, IsErr};
ghost use Rattle.std.specs.Io.KnownBytes.{IsAtEnd};
ghost use Rattle.cola_io.specs.Streams.{ReadTakes};
ghost use Rattle.cola_io.specs.Counted.{CountsFaults};
ghost use Rattle.cola_io.specs.FailedCalls.{is_listed, failed_calls};

use super::{Source, SourceFault};

/// Bytes in memory as a source, which tells them.
///
/// Calls are counted from 1, and a call whose number is in `failing` is a fault. Every other call
/// gives as many of the bytes from `at` on as there is room for.
#[derive(Drop)]
pub struct MemorySource {
    pub bytes: Vec<u8>,
    pub at: usize,
    pub calls: u64,
    pub failing: Vec<u64>,
}

impl MemorySource {
    /// Counts a call, and says whether it is to fail. No call fails after the last that a `u64` counts.
    fn is_failing(&mut self) -> bool
        ensures counted { self.new
            ≡ record self.old { calls = min (self.old.calls + 1) (2 ^ 64 - 1) } }
        ensures listed { IsTrue result
            ↔ ((self.old.calls < 2 ^ 64 - 1)
            × (is_listed self.old.failing.items (self.old.calls + 1) ≡ true)) }
    {
        if self.calls == u64::MAX {
            return false;
        }
        self.calls += 1;
        self.failing.contains(&self.calls)
    }
}

impl Source for MemorySource {
    ghost left = { λ s. Some (drop s.at s.bytes.items) };

    ghost faults = { λ s. failed_calls s.failing.items s.calls };

    // Each read is one more call.
    ghost reads = { λ old _ _ new. new.calls ≡ min (old.calls + 1) (2 ^ 64 - 1) };

    fn read(&mut self, into: &mut [u8]) -> Result<usize, SourceFault>
        requires { 0 < length into.old }
        ensures bound { IfOk result (λ n. n ≤ length into.new) }
        ensures bytes { ReadTakes result into.new (Some (drop self.old.at self.old.bytes.items))
            (Some (drop self.new.at self.new.bytes.items)) }
        ensures end { IfOk result
            (λ n. n ≡ 0 → IsAtEnd (Some (drop self.new.at self.new.bytes.items))) }
        ensures faults_counted { CountsFaults result
            (failed_calls self.old.failing.items self.old.calls)
            (failed_calls self.new.failing.items self.new.calls) }
        ensures faults_kept { failed_calls self.old.failing.items self.old.calls
            ≤ failed_calls self.new.failing.items self.new.calls }
        ensures fails { IsErr result
            ↔ ((self.old.calls < 2 ^ 64 - 1)
            × (is_listed self.old.failing.items (self.old.calls + 1) ≡ true)) }
        ensures amount { IfOk result
            (λ n. n ≡ min (length into.old) (vec_len self.old.bytes - self.old.at)) }
        ensures counted { self.new.calls ≡ min (self.old.calls + 1) (2 ^ 64 - 1) }
        ensures at { OnErr result (self.new.at ≡ self.old.at) }
        ensures same { (self.new.bytes ≡ self.old.bytes) × (self.new.failing ≡ self.old.failing) }
    {
        if self.is_failing() {
            return Err(SourceFault);
        }
        let at = self.at.min(self.bytes.len());
        let count = into.len().min(self.bytes.len() - at);
        into[..count].copy_from_slice(&self.bytes[at..at + count]);
        self.at = at + count;
        Ok(count)
    }
}
