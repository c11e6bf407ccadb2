//! The lines of a source.
ghost use Rattle.std.specs.Prelude.{◌≡◌, ◌≤◌, [], unwrap_or};
ghost use Rattle.cola_io.specs.Reading.{fresh};
ghost use Rattle.cola_io.specs.Calling.{Calls, faults_after};

use super::buffer::Buffer;
use super::next::Next;
use super::{Source, SourceFault};
use std::marker::Model;

/// Reads the lines of a source, however the source cuts its bytes.
///
/// It takes at most a given number of bytes, by reads that ask for 512 bytes, or for as many as are
/// still allowed where these are fewer. A line is the bytes up to a line feed, or up to the end of
/// the source where they are not empty. It takes no memory: of a line above 160 bytes it keeps none.
#[derive(Drop)]
pub struct LineReader {
    buffer: Buffer,
    ended: bool,
    allowed: u64,
}

impl Model for LineReader {
    ghost use Rattle.std.specs.Prelude.{◌≡◌, ◌<◌, ◌++◌, [], true};
    ghost use Rattle.cola_io.specs.Reading.{Reading};
    ghost use Rattle.cola_io.specs.Buffered.{HasNoFeed};

    ghost Value = { Reading };

    ghost view = { λ r. record { pending = r.buffer.begun ++ r.buffer.rest; line = r.buffer.line; ended = r.ended; allowed = r.allowed } };

    ghost invariant = { λ r. HasNoFeed r.buffer.begun × (r.ended ≡ true → (0 < r.allowed) × (r.buffer.rest ≡ [])) };
}

impl LineReader {
    /// A reader that has taken nothing, and takes at most `limit` bytes.
    pub fn new(limit: u64) -> LineReader
        ensures { result ≡ fresh limit }
    {
        LineReader {
            buffer: Buffer::new(),
            ended: false,
            allowed: limit,
        }
    }

    /// The bytes of the line that was just answered, without its line feed and without one carriage
    /// return at its end. No byte where the last answer was not `Line`.
    pub fn text(&self) -> &[u8]
        ensures { result.now ≡ unwrap_or self.now.line [] }
    {
        self.buffer.line()
    }

    /// Reads the next line.
    ///
    /// `Line` and `TooLong` answer a line that was taken whole, of at most 160 bytes before its end,
    /// or of more. `End` comes exactly where a read answered 0 and no byte is left; the source is not
    /// asked again. `Fault` comes exactly where the last read was refused, and then the source's count
    /// of faults is one more; a later call goes on with what was taken. `Budget` comes exactly where
    /// all allowed bytes were taken; the source is not asked for more, so an input of exactly so many
    /// bytes ends in it. At `Fault` and `Budget` no line that a line feed ends is left among the bytes
    /// taken. The source is read only where no whole line is left of them.
    pub fn next_line<S: Source>(&mut self, source: &mut S) -> Next
        ensures lines { Calls S.Source self.old source.old result self.new source.new }
        ensures faults { S.faults source.new ≡ faults_after result (S.faults source.old) }
        ensures faults_kept { S.faults source.old ≤ S.faults source.new }
    {
        self.buffer.forget();
        loop {
            if let Some(next) = self.buffer.take_line() {
                return next;
            }
            if self.ended {
                return self.buffer.take_last();
            }
            if self.allowed == 0 {
                return Next::Budget;
            }
            match self.buffer.fill(source, self.allowed) {
                Ok(count) => {
                    self.allowed -= count as u64;
                    self.ended = count == 0;
                }
                Err(SourceFault) => return Next::Fault,
            }
        }
    }
}
