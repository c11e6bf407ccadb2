//! A source over a reader of std.
ghost use Rattle.std.specs.Prelude.{◌≡◌, ◌<◌, ◌≤◌, None, length, IfOk};
ghost use Rattle.std.specs.Io.KnownBytes.{IsAtEnd, ReadConsumes};
ghost use Rattle.cola_io.specs.Streams.{ReadTakes};
ghost use Rattle.cola_io.specs.Counted.{CountsFaults};

use super::{Source, SourceFault};
use cola_outside::one_more;
use std::io::Read;

/// A reader of std as a source, such as that of standard input. It tells nothing of its bytes, and
/// each error of the reader is a fault.
#[derive(Drop)]
pub struct StdSource<R> {
    inner: R,
    faults: u64,
}

impl<R> StdSource<R> {
    /// A source that gives what the reader gives.
    pub fn new(inner: R) -> StdSource<R>
        ensures { result ≡ record { inner = inner; faults = 0 } }
    {
        StdSource { inner, faults: 0 }
    }
}

impl<R: Read> Source for StdSource<R> {
    ghost left = { λ _. None };

    ghost faults = { λ s. s.faults };

    // What one read is, the reader does not tell.
    ghost reads = { λ _ _ _ _. Unit {0} };

    // `inner` says what becomes of the bytes of the reader, where that tells them.
    fn read(&mut self, into: &mut [u8]) -> Result<usize, SourceFault>
        requires { 0 < length into.old }
        ensures bound { IfOk result (λ n. n ≤ length into.new) }
        ensures faults_counted { CountsFaults result self.old.faults self.new.faults }
        ensures faults_kept { self.old.faults ≤ self.new.faults }
        ensures bytes { ReadTakes result into.new None None }
        ensures end { IfOk result (λ n. n ≡ 0 → IsAtEnd None) }
        ensures inner { ReadConsumes (R.remaining self.old.inner)
            (R.remaining self.new.inner) result into.new }
    {
        match self.inner.read(into) {
            Ok(count) => Ok(count),
            Err(_) => {
                self.faults = one_more(self.faults);
                Err(SourceFault)
            }
        }
    }
}
