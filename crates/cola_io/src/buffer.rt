//! The bytes between a source and its lines.
ghost use Rattle.std.specs.Prelude.{◌≡◌, ◌<◌, ◌≤◌, ◌+◌, ◌-◌, ◌++◌, ◌↔◌, IsTrue, ◌∷◌, ℕ, List, [], Some, None, drop, take, length, unwrap_or, IfNone, IfSome, IfOk, OnErr, position, min};
ghost use Rattle.cola_spec.specs.Lines.{is_line_feed, line_limit, without_return};
ghost use Rattle.std.specs.Io.KnownBytes.{IsAtEnd};
ghost use Rattle.cola_io.specs.Streams.{Taken, given};
ghost use Rattle.cola_io.specs.Counted.{CountsFaults};
ghost use Rattle.cola_io.specs.Buffered.{HasNoFeed, kept_part, line_held, part_held};
ghost use Rattle.cola_io.specs.Finished.{Finished, LastFinished, CutOff};

use super::held::Held;
use super::next::Next;
use super::{Source, SourceFault};
use arrayvec::ArrayVec;
use std::marker::Model;

/// The most bytes that one read asks for.
const CHUNK: usize = 512;

/// The most bytes that a line may have before its end.
const LONGEST: usize = 160;

/// The text of a line, the beginning of the next one, and the bytes of a read behind it.
#[derive(Drop)]
pub struct Buffer {
    chunk: [u8; CHUNK],
    from: usize,
    to: usize,
    bytes: ArrayVec<u8, LONGEST>,
    held: Held,
}

impl Model for Buffer {
    ghost use Rattle.std.specs.Prelude.{◌≤◌, drop, take, length};
    ghost use Rattle.cola_io.specs.Buffered.{Buffered, HasNoFeed, line_held, part_held};

    ghost Value = { Buffered };

    ghost view = { λ b. record { line = line_held b.held b.bytes.items; begun = part_held b.held b.bytes.items; rest = drop b.from (take b.to b.chunk) } };

    ghost invariant = { λ b. (b.from ≤ b.to) × (b.to ≤ 512) × (length b.bytes.items ≤ 160) };
}

/// Appends the bytes of the chunk from `from` on, up to `end`, to what is held of a line, and answers
/// what is held then.
fn hold(
    bytes: &mut ArrayVec<u8, LONGEST>,
    held: Held,
    chunk: &[u8],
    from: usize,
    end: usize,
) -> Held
    requires ordered { from ≤ end }
    requires within { end ≤ length chunk.now }
    requires line { line_held held bytes.old.items ≡ None }
    requires fits { length bytes.old.items ≤ 160 }
    ensures line { line_held result bytes.new.items ≡ None }
    ensures part { part_held result bytes.new.items ≡ kept_part
        (part_held held bytes.old.items ++ take (end - from) (drop from chunk.now)) }
    ensures fits { length bytes.new.items ≤ 160 }
{
    match held {
        Held::Line => Held::Line,
        Held::Long => Held::Long,
        Held::Part => {
            if bytes.try_extend_from_slice(&chunk[from..end]).is_err() {
                return Held::Long;
            }
            Held::Part
        }
    }
}

/// Where the first line feed is.
fn feed_at(bytes: &[u8]) -> Option<usize>
    ensures found { result ≡ position is_line_feed bytes.now }
    ensures none { IfNone result (HasNoFeed bytes.now) }
{
    bytes.iter().position(|byte| *byte == b'\n')
}

/// Drops one carriage return from the end of the bytes.
fn drop_return(bytes: &mut ArrayVec<u8, LONGEST>)
    requires { length bytes.old.items ≤ 160 }
    ensures text { bytes.new.items ≡ without_return bytes.old.items }
    ensures fits { length bytes.new.items ≤ 160 }
{
    if let Some(byte) = bytes.pop() {
        if byte != b'\r' {
            bytes.push(byte);
        }
    }
}

impl Buffer {
    /// An empty buffer.
    pub fn new() -> Buffer
        ensures { result ≡ record { line = None; begun = []; rest = [] } }
    {
        Buffer {
            chunk: [0; CHUNK],
            from: 0,
            to: 0,
            bytes: ArrayVec::new(),
            held: Held::Part,
        }
    }

    /// The text of the line just answered, and no byte where there is none.
    pub fn line(&self) -> &[u8]
        ensures { result.now ≡ unwrap_or self.now.line [] }
    {
        match self.held {
            Held::Line => self.bytes.as_slice(),
            Held::Part | Held::Long => &[],
        }
    }

    /// Forgets the line just answered.
    pub fn forget(&mut self)
        ensures { self.new ≡ record self.old { line = None } }
    {
        match self.held {
            Held::Line => {
                self.bytes.clear();
                self.held = Held::Part;
            }
            Held::Part | Held::Long => {}
        }
    }

    /// Moves `count` of the bytes that were not looked at to the beginning of the next line.
    fn gather(&mut self, count: usize)
        requires line { self.old.line ≡ None }
        requires there { count ≤ length self.old.rest }
        ensures { self.new
            ≡ record self.old {
              begun = kept_part
                  (self.old.begun ++ take count self.old.rest);
              rest = drop count self.old.rest;
            } }
    {
        let end = self.from + count;
        self.held = hold(&mut self.bytes, self.held, &self.chunk, self.from, end);
        self.from = end;
    }

    /// Makes a line of its gathered bytes, and answers what it is.
    fn finish(&mut self) -> Next
        requires { self.old.line ≡ None }
        ensures finished { Finished self.old.begun result self.new.line }
        ensures begun { self.new.begun ≡ [] }
        ensures rest { self.new.rest ≡ self.old.rest }
    {
        if let Held::Long = self.held {
            self.bytes.clear();
            self.held = Held::Part;
            return Next::TooLong;
        }
        drop_return(&mut self.bytes);
        self.held = Held::Line;
        Next::Line
    }

    /// Cuts off the next line that a line feed ends. Where there is none, all bytes are the
    /// beginning of the next line.
    pub fn take_line(&mut self) -> Option<Next>
        requires line { self.old.line ≡ None }
        requires no_feed { HasNoFeed self.old.begun }
        ensures found { IfSome result (λ next. CutOff self.old next self.new) }
        ensures none { IfNone result (HasNoFeed self.old.rest) }
        ensures kept { IfNone result
            (self.new ≡ record {
              line = None;
              begun = kept_part
                  (self.old.begun ++ self.old.rest);
              rest = [];
            }) }
    {
        match feed_at(&self.chunk[self.from..self.to]) {
            Some(at) => {
                self.gather(at);
                self.from += 1;
                Some(self.finish())
            }
            None => {
                self.gather(self.to - self.from);
                None
            }
        }
    }

    /// Makes a last line of the bytes left, at the end of the source.
    pub fn take_last(&mut self) -> Next
        requires line { self.old.line ≡ None }
        requires rest { self.old.rest ≡ [] }
        ensures finished { LastFinished self.old.begun result self.new.line }
        ensures begun { self.new.begun ≡ [] }
        ensures rest { self.new.rest ≡ [] }
    {
        if self.is_blank() {
            return Next::End;
        }
        self.finish()
    }

    /// No byte of the next line is held.
    fn is_blank(&self) -> bool
        ensures { IsTrue result ↔ (self.now.begun ≡ []) }
    {
        match self.held {
            Held::Line => true,
            Held::Part => self.bytes.is_empty(),
            Held::Long => false,
        }
    }

    /// Reads bytes behind the beginning of the next line, once, and answers how many. It asks for 512
    /// of them, or for `most` where that is fewer.
    pub fn fill<S: Source>(&mut self, source: &mut S, most: u64) -> Result<usize, SourceFault>
        requires some { 0 < most }
        requires rest { self.old.rest ≡ [] }
        ensures kept { self.new ≡ record self.old { rest = self.new.rest } }
        ensures once { S.reads source.old (min 512 most) (given result self.new.rest) source.new }
        ensures bytes { IfOk result (λ n. (length self.new.rest ≡ n) × (n ≤ most)) }
        ensures taken { IfOk result
            (λ n. Taken self.new.rest (S.left source.old) (S.left source.new)) }
        ensures end { IfOk result (λ n. n ≡ 0 → IsAtEnd (S.left source.new)) }
        ensures err { OnErr result
            ((self.new.rest ≡ []) × (S.left source.new ≡ S.left source.old)) }
        ensures faults_counted { CountsFaults result (S.faults source.old) (S.faults source.new) }
        ensures faults_kept { S.faults source.old ≤ S.faults source.new }
    {
        self.from = 0;
        self.to = 0;
        let room = if most < CHUNK as u64 {
            most as usize
        } else {
            CHUNK
        };
        let count = source.read(&mut self.chunk[..room])?;
        self.to = count;
        Ok(count)
    }
}
