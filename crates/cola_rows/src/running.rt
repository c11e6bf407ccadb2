//! The sessions of a row, and what they print.
use crate::allocations::{ask_to_fail, has_failed};
use crate::fault::Fault;
use crate::files::{device_of, serve_rows, sink_of, source_of};
use crate::outside::{Counted, Pieces, Watched};
use crate::row::{Begin, Caller, Change, Part, Setup, Show, Which};
use crate::shown::{push_cells, push_header, push_sum, push_zero};
use crate::text::push_escaped;
use cola_command::Served;
use cola_device::Device;
use std::alloc::{AllocError, Global};

/// What the devices of the session before were left with.
#[derive(Drop)]
pub(crate) struct Left {
    pub(crate) first: Vec<u8>,
    pub(crate) second: Vec<u8>,
}

/// How a session differs from what its row says.
#[derive(Clone, Copy, Drop)]
pub(crate) enum Twist {
    Nothing,
    /// The call with this number fails.
    Call(Caller, u64),
    /// A byte of a device is another.
    Byte(Which, usize, u8),
}

/// How many calls a session made.
#[derive(Clone, Copy, Drop)]
pub(crate) struct Calls {
    pub(crate) source: u64,
    pub(crate) sink: u64,
    pub(crate) first: u64,
    pub(crate) second: u64,
    /// The number of the allocation that was to fail, where it was met.
    pub(crate) allocation: u64,
}

impl Calls {
    /// The calls of one.
    pub(crate) fn of(&self, caller: Caller) -> u64 {
        match caller {
            Caller::Device(Which::First) => self.first,
            Caller::Device(Which::Second) => self.second,
            Caller::Source => self.source,
            Caller::Sink => self.sink,
            Caller::Allocation => self.allocation,
        }
    }
}

impl Left {
    /// Nothing is left.
    pub(crate) fn nothing(alloc: Global) -> Left {
        Left {
            first: Vec::new(alloc),
            second: Vec::new(alloc),
        }
    }

    /// The bytes that the first device of a session begins with where nothing is said of them.
    pub(crate) fn usual(&self, is_first: bool) -> &[u8] {
        if is_first { &[] } else { &self.first }
    }

    /// What a device was left with.
    pub(crate) fn bytes(&self, which: Which) -> &[u8] {
        match which {
            Which::First => &self.first,
            Which::Second => &self.second,
        }
    }
}

/// Puts bytes from a place on, with zeros up to it where there are fewer.
fn put_bytes(bytes: &mut Vec<u8>, place: usize, new: &[u8]) -> Result<(), AllocError> {
    if bytes.len() < place {
        bytes.resize(place, 0)?;
    }
    for (at, byte) in new.iter().enumerate() {
        match bytes.get_mut(place.saturating_add(at)) {
            Some(old) => *old = *byte,
            None => bytes.push(*byte)?,
        }
    }
    Ok(())
}

/// The bytes that a device begins with.
pub(crate) fn bytes_of(
    alloc: Global,
    setup: &Setup,
    usual: &[u8],
    left: &Left,
) -> Result<Vec<u8>, AllocError> {
    let begin = match &setup.begin {
        Begin::Usual => usual,
        Begin::Bytes(bytes) => bytes.as_slice(),
        Begin::Left(which) => left.bytes(*which),
    };
    let mut bytes = Vec::from_slice(alloc, begin)?;
    for change in &setup.changes {
        match change {
            Change::Bytes(place, new) => put_bytes(&mut bytes, *place, new)?,
            Change::Cut(length) => bytes.truncate(*length),
        }
    }
    Ok(bytes)
}

/// The calls that fail, with one more where the twist is of this caller.
fn failing(
    alloc: Global,
    fails: &[u64],
    twist: Twist,
    caller: Caller,
) -> Result<Vec<u64>, AllocError> {
    let mut numbers = Vec::from_slice(alloc, fails)?;
    if let Twist::Call(of, number) = twist
        && of == caller
    {
        numbers.push(number)?;
    }
    Ok(numbers)
}

/// The number of the allocation that is to fail, 0 where none is.
fn failing_allocation(twist: Twist) -> u64 {
    match twist {
        Twist::Call(Caller::Allocation, number) => number,
        _ => 0,
    }
}

/// A device before its session, and its bytes.
fn begin_device(
    alloc: Global,
    setup: &Setup,
    which: Which,
    usual: &[u8],
    left: &Left,
    twist: Twist,
) -> Result<(Watched, Vec<u8>), AllocError> {
    let mut bytes = bytes_of(alloc, setup, usual, left)?;
    if let Twist::Byte(of, place, value) = twist
        && of == which
    {
        put_bytes(&mut bytes, place, &[value])?;
    }
    let before = bytes.clone()?;
    let fails = failing(alloc, &setup.fails, twist, Caller::Device(which))?;
    let device = device_of(alloc, bytes, setup.room, fails)?;
    Ok((device, before))
}

/// Adds a line for each reply.
fn push_replies(out: &mut String, replies: &[u8]) -> Result<(), AllocError> {
    let is_cut = !replies.is_empty() && !replies.ends_with(b"\n");
    let lines = replies.split(|byte| *byte == b'\n').count();
    for (place, line) in replies.split(|byte| *byte == b'\n').enumerate() {
        let is_last = place.saturating_add(1) == lines;
        if is_last && !is_cut {
            continue;
        }
        out.push_str(if is_last { "=+" } else { "=" })?;
        if !line.is_empty() {
            out.push(' ')?;
        }
        push_escaped(out, line)?;
        out.push('\n')?;
    }
    Ok(())
}

/// Adds the counts of the source and the sink.
fn push_calls(out: &mut String, source: &Pieces, sink: &Counted) -> Result<(), AllocError> {
    writeln!(out, "source calls {}", source.source.calls)?;
    writeln!(out, "sink calls {}", sink.calls)
}

/// Adds what is shown of a device.
fn push_device(
    out: &mut String,
    name: &str,
    device: &Watched,
    before: &[u8],
    show: Show,
) -> Result<(), AllocError> {
    let calls = device.device.calls();
    let bytes = device.device.as_bytes();
    let is_in_use = calls > 0;
    if show.calls && is_in_use {
        let reads = device.reads();
        let writes = device.writes();
        let faults = device.faults();
        let longest = device.longest;
        writeln!(
            out,
            "{name} calls {calls} reads {reads} writes {writes} faults {faults} longest {longest}"
        )?;
    }
    if bytes != before || (show.size && is_in_use) {
        writeln!(out, "{name} size {}", bytes.len())?;
    }
    if !is_in_use {
        return Ok(());
    }
    if show.header {
        push_header(out, name, bytes)?;
    }
    if show.cells {
        push_cells(out, name, bytes)?;
    }
    if show.zero {
        push_zero(out, name, bytes)?;
    }
    if show.sum {
        push_sum(out, name, bytes)?;
    }
    Ok(())
}

/// Does a session, adds what it prints, and leaves its devices behind. The usual bytes of the first device are those that
/// it was left with before, in all sessions of a row but the first.
pub(crate) fn run_part(
    alloc: Global,
    part: &Part,
    is_first: bool,
    twist: Twist,
    left: &mut Left,
    out: &mut String,
) -> Result<Calls, Fault> {
    let usual = left.usual(is_first);
    let (first, first_before) = begin_device(alloc, &part.first, Which::First, usual, left, twist)?;
    let (second, second_before) = begin_device(
        alloc,
        &part.second,
        Which::Second,
        b"",
        left,
        twist,
    )?;
    let source_fails = failing(alloc, &part.source_fails, twist, Caller::Source)?;
    let sink_fails = failing(alloc, &part.sink_fails, twist, Caller::Sink)?;
    let mut source = source_of(part.source.clone()?, part.piece, source_fails);
    let mut sink = sink_of(alloc, sink_fails)?;
    let to_fail = failing_allocation(twist);
    ask_to_fail(alloc, to_fail);
    let served = serve_rows(alloc, &part.words, &mut source, &mut sink, first, second);
    let allocation = if to_fail > 0 && has_failed(alloc) {
        to_fail
    } else {
        0
    };
    let Served {
        status,
        device,
        second,
    } = served;
    push_replies(out, sink.sink.bytes())?;
    writeln!(out, "status {status}")?;
    if part.show.calls {
        push_calls(out, &source, &sink)?;
    }
    push_device(out, "first", &device, &first_before, part.show)?;
    push_device(out, "second", &second, &second_before, part.show)?;
    let calls = Calls {
        source: source.source.calls,
        sink: sink.calls,
        first: device.device.calls(),
        second: second.device.calls(),
        allocation,
    };
    left.first = device.device.into_bytes();
    left.second = second.device.into_bytes();
    Ok(calls)
}
