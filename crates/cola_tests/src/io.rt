//! Lines in any pieces, faults in mid-stream, sinks with little room, and how often std is called.
ghost use Rattle.std.specs.Prelude.{None};

use crate::made::put_at;
use arrayvec::ArrayVec;
use cola_io::{
    LineReader, MemorySink, MemorySource, Next, Sink, SinkFault, Source, SourceFault, StdSink,
    StdSource, put_all,
};
use std::alloc::{AllocError, Global};
use std::io::{self, Read, Write};
use std::process::Abort;
use std::test::Fail;

/// Gives one byte at a time.
#[derive(Drop)]
struct Bytewise {
    bytes: Vec<u8>,
    at: usize,
}

impl Source for Bytewise {
    ghost left = { λ _. None };

    ghost faults = { λ _. 0 };

    ghost reads = { λ _ _ _ _. Unit {0} };

    fn read(&mut self, into: &mut [u8]) -> Result<usize, SourceFault> {
        if self.at >= self.bytes.len() {
            return Ok(0);
        }
        into[0] = self.bytes[self.at];
        self.at += 1;
        Ok(1)
    }
}

/// Takes one byte at a time.
#[derive(Drop)]
struct Slow {
    sink: MemorySink,
}

impl Sink for Slow {
    ghost written = { λ s. ⟦<MemorySink as Sink>⟧.written s.sink };

    ghost faults = { λ s. ⟦<MemorySink as Sink>⟧.faults s.sink };

    fn write(&mut self, from: &[u8]) -> Result<usize, SinkFault> {
        self.sink.write(&from[..1])
    }
}

/// A reader and a writer whose first call is interrupted, whose second one moves no byte, and of which the further ones move
/// a byte and are interrupted in turn. So each answer tells how many calls were made.
#[derive(Drop)]
struct Slowly {
    calls: u64,
}

impl Slowly {
    fn next(&mut self) -> io::Result<usize> {
        self.calls = self.calls.saturating_add(1);
        match self.calls {
            1 | 4 | 6 => Err(io::Error::from(io::ErrorKind::Interrupted)),
            2 => Ok(0),
            _ => Ok(1),
        }
    }
}

impl Read for Slowly {
    fn read(&mut self, into: &mut [u8]) -> io::Result<usize> {
        Ok(self.next()?.min(into.len()))
    }
}

impl Write for Slowly {
    fn write(&mut self, from: &[u8]) -> io::Result<usize> {
        Ok(self.next()?.min(from.len()))
    }

    fn flush(&mut self) -> io::Result<()> {
        Ok(())
    }
}

/// The answers of a reader, a line each, up to the end or the budget.
fn answers<S: Source>(source: &mut S, limit: u64, alloc: Global) -> Result<Vec<u8>, AllocError> {
    let mut reader = LineReader::new(limit);
    let mut out = Vec::new(alloc);
    for _ in 0..20 {
        match reader.next_line(source) {
            Next::Line => {
                out.extend_from_slice(reader.text())?;
                out.push(b'\n')?;
            }
            Next::TooLong => out.extend_from_slice(b"<long>\n")?,
            Next::Fault => out.extend_from_slice(b"<fault>\n")?,
            Next::End => {
                out.extend_from_slice(b"<end>")?;
                return Ok(out);
            }
            Next::Budget => {
                out.extend_from_slice(b"<budget>")?;
                return Ok(out);
            }
        }
    }
    Ok(out)
}

// Whether a source is answered so.
fn is_right<S: Source>(
    source: &mut S,
    limit: u64,
    alloc: Global,
    want: &[u8],
) -> Result<bool, AllocError> {
    Ok(answers(source, limit, alloc)?.as_slice() == want)
}

// Whether the bytes are answered so from memory at once.
fn is_right_at_once(
    input: &[u8],
    limit: u64,
    alloc: Global,
    want: &[u8],
) -> Result<bool, AllocError> {
    let mut whole = MemorySource {
        bytes: input.to_vec(alloc)?,
        at: 0,
        calls: 0,
        failing: Vec::new(alloc),
    };
    is_right(&mut whole, limit, alloc, want)
}

// Whether they are byte by byte.
fn is_right_in_pieces(
    input: &[u8],
    limit: u64,
    alloc: Global,
    want: &[u8],
) -> Result<bool, AllocError> {
    let bytes = input.to_vec(alloc)?;
    is_right(&mut Bytewise { bytes, at: 0 }, limit, alloc, want)
}

// The bytes are answered so from memory at once, byte by byte, and from a reader of std.
fn is_answered(
    rt: &impl Abort,
    alloc: Global,
    input: &[u8],
    limit: u64,
    want: &[u8],
) -> Result<(), AllocError> {
    assert!(rt; is_right_at_once(input, limit, alloc, want)?);
    assert!(rt; is_right_in_pieces(input, limit, alloc, want)?);
    let mut reader = StdSource::new(input);
    assert!(rt; is_right(&mut reader, limit, alloc, want)?);
    Ok(())
}

// Bytes, how many may be taken, and the answers.
const LINES: [(&[u8], u64, &[u8]); 6] = [
    (b"put a 1\nget a\n", 8, b"put a 1\n<budget>"),
    (b"put a 1\nget a\n", 14, b"put a 1\nget a\n<budget>"),
    (b"put a 1\nget a\n", 15, b"put a 1\nget a\n<end>"),
    (b"", 1, b"<end>"),
    (b"", 0, b"<budget>"),
    (b"a\r\n\r\n\nb\r\r\nc\r", 100, b"a\n\n\nb\r\nc\n<end>"),
];

// Lines of 160 and of 161 bytes among them.
#[test]
fn lines_in_any_pieces(rt: HostRuntime) -> Result<(), Fail> {
    let alloc = rt.alloc();
    for (input, limit, want) in LINES {
        is_answered(&rt, alloc, input, limit, want)?;
    }
    let mut input = [b'y'; 329];
    put_at(&mut input, 0, &[b'x'; 160]);
    put_at(&mut input, 160, b"\n");
    put_at(&mut input, 322, b"\nget a\n");
    let mut want = [b'x'; 179];
    put_at(&mut want, 160, b"\n<long>\nget a\n<end>");
    is_answered(&rt, alloc, &input, 1000, &want)?;
    Ok(())
}

#[test]
fn fault_in_mid_stream(rt: HostRuntime) -> Result<(), Fail> {
    let alloc = rt.alloc();
    let mut source = MemorySource {
        bytes: b"put a 1\nget".to_vec(alloc)?,
        at: 0,
        calls: 0,
        failing: vec![in alloc; 2u64]?,
    };
    let text = answers(&mut source, 100, alloc)?;
    assert!(rt; text.as_slice() == b"put a 1\n<fault>\nget\n<end>".as_slice());
    assert!(rt; source.calls == 3);
    Ok(())
}

// Whether the first, and then the second, of two parts is written whole.
fn put_two<S: Sink>(sink: &mut S, first: &[u8], second: &[u8]) -> (bool, bool) {
    let first = put_all(sink, first).is_ok();
    (first, put_all(sink, second).is_ok())
}

// A sink in memory takes what it has room for.
fn fills_up(alloc: Global) -> Result<bool, AllocError> {
    let mut sink = MemorySink::new(alloc, 4, Vec::new(alloc))?;
    let put = put_two(&mut sink, b"abc", b"def");
    Ok(put == (true, false) && sink.bytes() == b"abcd".as_slice())
}

// One that takes a byte at a time, and refuses its third call.
fn goes_on(alloc: Global) -> Result<bool, AllocError> {
    let failing = vec![in alloc; 3u64]?;
    let sink = MemorySink::new(alloc, 9, failing)?;
    let mut slow = Slow { sink };
    let put = put_two(&mut slow, b"abc", b"def");
    Ok(put == (false, true) && slow.sink.bytes() == b"abdef".as_slice())
}

#[test]
fn sinks_with_room(rt: HostRuntime) -> Result<(), Fail> {
    let held: ArrayVec<u8, 2> = ArrayVec::new();
    let mut real = StdSink::new(held);
    assert!(rt; put_two(&mut real, b"ab", b"c") == (true, false));
    assert!(rt; fills_up(rt.alloc())? && goes_on(rt.alloc())?);
    Ok(())
}

// No clause can say how often the reader or the writer of std is called: neither for a few bytes, nor for as many as a
// session asks for and writes.
#[test]
fn one_call_of_std_for_each(rt: HostRuntime) -> Result<(), Fail> {
    let mut source = StdSource::new(Slowly { calls: 0 });
    let mut sink = StdSink::new(Slowly { calls: 0 });
    let mut long_source = StdSource::new(Slowly { calls: 0 });
    let mut long_sink = StdSink::new(Slowly { calls: 0 });
    let mut into = [0; 8];
    let mut long_into = [0; 512];
    let long = [b'a'; 160];
    for (read, wrote) in [
        (Err(SourceFault), Err(SinkFault)),
        (Ok(0), Err(SinkFault)),
        (Ok(1), Ok(1)),
        (Err(SourceFault), Err(SinkFault)),
        (Ok(1), Ok(1)),
        (Err(SourceFault), Err(SinkFault)),
        (Ok(1), Ok(1)),
    ] {
        let got = [source.read(&mut into), long_source.read(&mut long_into)];
        let put = [sink.write(b"abc"), long_sink.write(&long)];
        assert!(rt; got == [read, read] && put == [wrote, wrote]);
    }
    Ok(())
}
