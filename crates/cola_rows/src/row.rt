//! Rows: what a session is served with, and what is shown of it.
use std::alloc::Global;

/// One of the two devices of a session.
#[derive(Clone, Copy, Debug, Drop, PartialEq, Eq)]
pub(crate) enum Which {
    First,
    Second,
}

/// Where a device's bytes come from.
#[derive(Drop)]
pub(crate) enum Begin {
    /// None in the first session of a row, and those left by the session before it in the others.
    Usual,
    Bytes(Vec<u8>),
    /// Those that this device of the session before was left with.
    Left(Which),
}

/// A change of a device's bytes before the session.
#[derive(Drop)]
pub(crate) enum Change {
    /// These bytes stand from a place on.
    Bytes(usize, Vec<u8>),
    /// It has at most so many bytes.
    Cut(usize),
}

/// What a device is before a session.
#[derive(Drop)]
pub(crate) struct Setup {
    pub(crate) begin: Begin,
    pub(crate) changes: Vec<Change>,
    /// The numbers of the calls that fail.
    pub(crate) fails: Vec<u64>,
    /// For how many bytes there is room in an empty one.
    pub(crate) room: u64,
}

/// What is shown beside the replies and the status.
#[derive(Clone, Copy, Drop)]
pub(crate) struct Show {
    pub(crate) calls: bool,
    pub(crate) size: bool,
    pub(crate) header: bool,
    pub(crate) cells: bool,
    pub(crate) zero: bool,
    pub(crate) sum: bool,
}

/// Whose calls fail in turn.
#[derive(Clone, Copy, Drop, PartialEq, Eq)]
pub(crate) enum Caller {
    Device(Which),
    Source,
    Sink,
    Allocation,
}

/// How a session is repeated.
#[derive(Clone, Copy, Drop)]
pub(crate) enum Each {
    /// With each call from one number on to another.
    Call(Caller, u64, u64),
    /// With each byte from one place on to another, of a device.
    Byte(Which, usize, usize),
}

/// A session of a row.
#[derive(Drop)]
pub(crate) struct Part {
    pub(crate) words: Vec<String>,
    pub(crate) source: Vec<u8>,
    /// The most bytes that the source gives at once.
    pub(crate) piece: usize,
    pub(crate) source_fails: Vec<u64>,
    pub(crate) sink_fails: Vec<u64>,
    pub(crate) first: Setup,
    pub(crate) second: Setup,
    pub(crate) show: Show,
    pub(crate) each: Option<Each>,
}

/// A row: a title, and sessions one after another.
#[derive(Drop)]
pub(crate) struct Row {
    pub(crate) title: String,
    pub(crate) parts: Vec<Part>,
}

impl Setup {
    /// A device of which a row says nothing.
    fn usual(alloc: Global) -> Setup {
        Setup {
            begin: Begin::Usual,
            changes: Vec::new(alloc),
            fails: Vec::new(alloc),
            room: 1 << 20,
        }
    }
}

impl Part {
    /// A session of which a row says nothing.
    pub(crate) fn usual(alloc: Global) -> Part {
        Part {
            words: Vec::new(alloc),
            source: Vec::new(alloc),
            piece: usize::MAX,
            source_fails: Vec::new(alloc),
            sink_fails: Vec::new(alloc),
            first: Setup::usual(alloc),
            second: Setup::usual(alloc),
            show: Show {
                calls: false,
                size: false,
                header: false,
                cells: false,
                zero: false,
                sum: false,
            },
            each: None,
        }
    }

    /// The setup of a device.
    pub(crate) fn setup(&mut self, which: Which) -> &mut Setup {
        match which {
            Which::First => &mut self.first,
            Which::Second => &mut self.second,
        }
    }
}
