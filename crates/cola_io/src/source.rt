//! Where bytes come from.
ghost use Rattle.std.specs.Prelude.{◌≡◌, ◌<◌, ◌≤◌, ℕ, List, Option, length, IfOk};
ghost use Rattle.std.specs.Io.KnownBytes.{IsAtEnd};
ghost use Rattle.cola_io.specs.Streams.{ReadTakes, given};
ghost use Rattle.cola_io.specs.Counted.{CountsFaults};

use thiserror::Error;

/// A source could not be read. Nothing was taken from it.
#[derive(Clone, Copy, Debug, Drop, PartialEq, Eq, Error)]
#[error("the source could not be read")]
pub struct SourceFault;

/// A source of bytes, which are taken in order and once.
///
/// `left` is the list of the bytes left, where the source tells it. `faults` is a count of its
/// faults: it never falls, and stays at the last value of `u64`.
pub trait Source {
    ghost left: { Self → Option (List ℕ) };

    ghost faults: { Self → ℕ };

    /// The source was asked for so many bytes, gave these or refused, and is that source afterwards:
    /// its own meaning of one read.
    ghost reads: { Self → ℕ → Option (List ℕ) → Self → Type 0 };

    /// Places the next bytes at the front of `into`, which is not empty, and answers how many: at
    /// least one, or 0 at the end. What `into` holds behind them, and after a fault, is any bytes.
    ///
    /// The count of faults stays at `Ok`, and is one more at `Err`.
    fn read(&mut self, into: &mut [u8]) -> Result<usize, SourceFault>
        requires { 0 < length into.old }
        ensures bound { IfOk result (λ n. n ≤ length into.new) }
        ensures bytes { ReadTakes result into.new (left self.old) (left self.new) }
        ensures end { IfOk result (λ n. n ≡ 0 → IsAtEnd (left self.new)) }
        ensures once { reads self.old (length into.old) (given result into.new) self.new }
        ensures faults_counted { CountsFaults result (faults self.old) (faults self.new) }
        ensures faults_kept { faults self.old ≤ faults self.new };
}
