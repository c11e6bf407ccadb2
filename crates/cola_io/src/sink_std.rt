//! A sink over a writer of std.
ghost use Rattle.std.specs.Prelude.{◌≡◌, ◌<◌, ◌≤◌, None, length, IfOk};
ghost use Rattle.std.specs.Io.KnownBytes.{WriteAppends};
ghost use Rattle.cola_io.specs.Streams as streams;
ghost use Rattle.cola_io.specs.Counted.{CountsFaults};

use super::{Sink, SinkFault};
use cola_outside::one_more;
use std::io::Write;

/// A writer of std as a sink, such as that of standard output. It tells nothing of its bytes. Each
/// error of the writer is a fault, and so is a write that takes no byte.
#[derive(Drop)]
pub struct StdSink<W> {
    inner: W,
    faults: u64,
}

impl<W> StdSink<W> {
    /// A sink that gives the writer what it takes.
    pub fn new(inner: W) -> StdSink<W>
        ensures { result ≡ record { inner = inner; faults = 0 } }
    {
        StdSink { inner, faults: 0 }
    }
}

impl<W: Write> Sink for StdSink<W> {
    ghost written = { λ _. None };

    ghost faults = { λ s. s.faults };

    // `inner` says what becomes of the bytes of the writer, where that tells them.
    fn write(&mut self, from: &[u8]) -> Result<usize, SinkFault>
        requires { 0 < length from.now }
        ensures some { IfOk result (λ n. 0 < n) }
        ensures bound { IfOk result (λ n. n ≤ length from.now) }
        ensures faults_counted { CountsFaults result self.old.faults self.new.faults }
        ensures faults_kept { self.old.faults ≤ self.new.faults }
        ensures bytes { streams.WriteAppends result from.now None None }
        ensures inner { WriteAppends (W.contents self.old.inner)
            (W.contents self.new.inner) result from.now }
    {
        match self.inner.write(from) {
            Ok(0) | Err(_) => {
                self.faults = one_more(self.faults);
                Err(SinkFault)
            }
            Ok(count) => Ok(count),
        }
    }
}
