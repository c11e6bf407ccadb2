//! Sessions in memory, and the files that they leave.
ghost use Rattle.std.specs.Prelude.{◌≡◌, ◌<◌};

use crate::fault::Fault;
use crate::outside::{Counted, Pieces, Watched};
use crate::reading::push_puts;
use cola_command::{Served, serve};
use cola_device::MemoryDevice;
use cola_io::{MemorySink, MemorySource};
use cola_outside::Steps;
use std::alloc::{AllocError, Global};
use std::marker::Brand;
use std::sync::ledger::{Blank, Ledger};

/// For how many bytes of replies there is room.
const ROOM: usize = 1 << 22;

/// A session with steps on a ledger of its own.
fn serve_on<L: Ledger>(
    blank: Blank,
    alloc: Global,
    words: &[String],
    source: &mut Pieces,
    sink: &mut Counted,
    first: Watched,
    second: Watched,
) -> Served<Watched>
    requires name { blank.name ≡ L.name }
    requires parts { blank.parts ≡ L.parts }
    requires some { 0 < L.parts }
{
    let mut steps = Steps::<L>::begin(blank);
    serve(alloc, words, source, sink, first, second, &mut steps)
}

/// A session over these devices.
pub(crate) fn serve_rows(
    alloc: Global,
    words: &[String],
    source: &mut Pieces,
    sink: &mut Counted,
    first: Watched,
    second: Watched,
) -> Served<Watched> {
    serve_on::<Brand>(Blank::new(1), alloc, words, source, sink, first, second)
}

/// A source of these bytes, of which these calls fail.
pub(crate) fn source_of(bytes: Vec<u8>, piece: usize, failing: Vec<u64>) -> Pieces {
    Pieces {
        source: MemorySource {
            bytes,
            at: 0,
            calls: 0,
            failing,
        },
        piece,
    }
}

/// A sink of which these calls fail.
pub(crate) fn sink_of(alloc: Global, failing: Vec<u64>) -> Result<Counted, AllocError> {
    Ok(Counted {
        sink: MemorySink::new(alloc, ROOM, failing)?,
        calls: 0,
    })
}

/// A device that holds these bytes, and has this room where there are none; these calls of it fail.
pub(crate) fn device_of(
    alloc: Global,
    bytes: Vec<u8>,
    room: u64,
    failing: Vec<u64>,
) -> Result<Watched, AllocError> {
    let device = if bytes.is_empty() {
        MemoryDevice::new(alloc, room, failing)?
    } else {
        MemoryDevice::holding(bytes, failing)
    };
    Ok(Watched { device, longest: 0 })
}

/// What a session gave: the replies, the status, and both devices.
#[derive(Drop)]
pub(crate) struct Simple {
    pub(crate) replies: Vec<u8>,
    pub(crate) status: u8,
    pub(crate) device: Watched,
    pub(crate) second: Watched,
}

/// A session in which nothing but calls of the two devices fails. The words are separated by blanks.
pub(crate) fn session_over(
    alloc: Global,
    words: &str,
    input: &[u8],
    first: Watched,
    second: Watched,
) -> Result<Simple, AllocError> {
    let mut list = Vec::new(alloc);
    for word in words.split(' ') {
        list.push(String::from_str(alloc, word)?)?;
    }
    let bytes = Vec::from_slice(alloc, input)?;
    let mut source = source_of(bytes, usize::MAX, Vec::new(alloc));
    let mut sink = sink_of(alloc, Vec::new(alloc))?;
    let served = serve_rows(alloc, &list, &mut source, &mut sink, first, second);
    let Served {
        status,
        device,
        second,
    } = served;
    Ok(Simple {
        replies: Vec::from_slice(alloc, sink.sink.bytes())?,
        status,
        device,
        second,
    })
}

/// The same over one device.
pub(crate) fn simple_session(
    alloc: Global,
    words: &str,
    input: &[u8],
    device: Watched,
) -> Result<Simple, AllocError> {
    let none = device_of(alloc, Vec::new(alloc), 0, Vec::new(alloc))?;
    session_over(alloc, words, input, device, none)
}

/// The file of a store after so many puts, closed.
pub(crate) fn file_after_puts(
    alloc: Global,
    keys: &str,
    block: &str,
    version: &str,
    puts: usize,
) -> Result<Vec<u8>, Fault> {
    let words = format!(in alloc; "create F --keys {keys} --block {block} --version {version}")?;
    let room = device_of(alloc, Vec::new(alloc), 1 << 26, Vec::new(alloc))?;
    let made = simple_session(alloc, &words, b"", room)?;
    if made.status != 0 {
        return Err(Fault::Row("no such file is made"));
    }
    let mut lines = Vec::new(alloc);
    push_puts(alloc, &mut lines, 1, puts)?;
    let ended = simple_session(alloc, "run F", &lines, made.device)?;
    Ok(ended.device.device.into_bytes())
}
