//! What a session of a row is over: devices, a source and a sink in memory that also count what a row may ask for.
ghost use Rattle.std.specs.Prelude.{◌≡◌, ◌<◌, ◌≤◌, Some, None, true, refl, length};
ghost use Rattle.cola_device.specs.Bytes.{IsEmpty, HasRange};
ghost use Rattle.cola_device.specs.Memory.{IsSettle, Settings, settings};

use cola_device::{Device, DeviceFault, MAX_TRANSFER, MemoryDevice};
use cola_io::{MemorySink, MemorySource, Sink, SinkFault, Source, SourceFault};

/// A device in memory, and the length of the longest read or write.
#[derive(Drop)]
pub(crate) struct Watched {
    pub(crate) device: MemoryDevice,
    pub(crate) longest: usize,
}

impl Device for Watched {
    ghost bytes = { λ d. Some d.device.bytes };

    ghost tells = { true };

    ghost counts = { λ d. d.device.counts };

    ghost Kept = { Settings };

    ghost kept = { λ d. settings d.device };

    ghost settles = { λ old result new. IsSettle result old.device new.device };

    ghost told = { λ _. refl };

    fn size(&mut self) -> Result<u64, DeviceFault> {
        self.device.size()
    }

    fn lay_out(&mut self, size: u64) -> Result<(), DeviceFault> {
        self.device.lay_out(size)
    }

    fn read(&mut self, at: u64, into: &mut [u8]) -> Result<(), DeviceFault> {
        self.longest = self.longest.max(into.len());
        self.device.read(at, into)
    }

    fn write(&mut self, at: u64, from: &[u8]) -> Result<(), DeviceFault> {
        self.longest = self.longest.max(from.len());
        self.device.write(at, from)
    }

    fn settle(&mut self) -> Result<(), DeviceFault> {
        self.device.settle()
    }

    fn view(&self, _at: u64, _count: usize) -> Option<&[u8]> {
        None
    }

    fn reads(&self) -> u64 {
        self.device.reads()
    }

    fn writes(&self) -> u64 {
        self.device.writes()
    }

    fn faults(&self) -> u64 {
        self.device.faults()
    }
}

/// A source in memory that gives at most a piece at a time. It tells no bytes.
#[derive(Drop)]
pub(crate) struct Pieces {
    pub(crate) source: MemorySource,
    pub(crate) piece: usize,
}

impl Source for Pieces {
    ghost left = { λ _. None };

    ghost faults = { λ s. ⟦<MemorySource as Source>⟧.faults s.source };

    ghost reads = { λ _ _ _ _. Unit {0} };

    fn read(&mut self, into: &mut [u8]) -> Result<usize, SourceFault> {
        let most = into.len().min(self.piece.max(1));
        self.source.read(&mut into[..most])
    }
}

/// A sink in memory, and the number of its calls. It tells no bytes.
#[derive(Drop)]
pub(crate) struct Counted {
    pub(crate) sink: MemorySink,
    pub(crate) calls: u64,
}

impl Sink for Counted {
    ghost written = { λ _. None };

    ghost faults = { λ s. s.sink.faults };

    fn write(&mut self, from: &[u8]) -> Result<usize, SinkFault> {
        self.calls = self.calls.saturating_add(1);
        self.sink.write(from)
    }
}
