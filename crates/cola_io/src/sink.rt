//! Where bytes go.
ghost use Rattle.std.specs.Prelude.{◌≡◌, ◌<◌, ◌≤◌, ℕ, List, Option, length, take, IfOk, OnOk, OnErr};
ghost use Rattle.cola_io.specs.Streams.{Appended, WriteAppends};
ghost use Rattle.cola_io.specs.Counted.{CountsFaults};

use thiserror::Error;

/// A sink could not be written. Nothing was appended to it.
#[derive(Clone, Copy, Debug, Drop, PartialEq, Eq, Error)]
#[error("the sink could not be written")]
pub struct SinkFault;

/// A sink of bytes, which are appended in order.
///
/// `written` is the list of the bytes written, where the sink tells it. `faults` is a count of its
/// faults: it never falls, and stays at the last value of `u64`.
pub trait Sink {
    ghost written: { Self → Option (List ℕ) };

    ghost faults: { Self → ℕ };

    /// Appends bytes of the front of `from`, which is not empty, and answers how many: at least one.
    ///
    /// The count of faults stays at `Ok`, and is one more at `Err`.
    fn write(&mut self, from: &[u8]) -> Result<usize, SinkFault>
        requires { 0 < length from.now }
        ensures some { IfOk result (λ n. 0 < n) }
        ensures bound { IfOk result (λ n. n ≤ length from.now) }
        ensures bytes { WriteAppends result from.now (written self.old) (written self.new) }
        ensures faults_counted { CountsFaults result (faults self.old) (faults self.new) }
        ensures faults_kept { faults self.old ≤ faults self.new };
}

/// Appends all of `bytes`, by as many writes as the sink needs. At a fault, which ends it, some
/// bytes of their front were appended.
///
/// The sink's count of faults stays at `Ok`, and is one more at `Err`.
pub fn put_all<K: Sink>(sink: &mut K, bytes: &[u8]) -> Result<(), SinkFault>
    ensures all { OnOk result (Appended bytes.now (K.written sink.old) (K.written sink.new)) }
    ensures front { OnErr result
        ((n : ℕ) × (n ≤ length bytes.now)
        × Appended (take n bytes.now) (K.written sink.old) (K.written sink.new)) }
    ensures faults_counted { CountsFaults result (K.faults sink.old) (K.faults sink.new) }
    ensures faults_kept { K.faults sink.old ≤ K.faults sink.new }
{
    let mut done = 0;
    while done < bytes.len() {
        let count = sink.write(&bytes[done..])?;
        done += count;
    }
    Ok(())
}
