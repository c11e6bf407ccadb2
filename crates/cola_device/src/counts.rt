//! The four numbers that each device keeps.
ghost use Rattle.std.specs.Prelude.{◌≡◌, true};

use crate::DeviceFault;

/// How many faults a device met, how many reads and writes it made, and how many other calls, which are those
/// of `size`, `lay_out` and `settle`. Each ends at the last value of `u64`.
#[derive(Clone, Copy, Debug, Default, PartialEq, Eq)]
pub struct Counts {
    pub faults: u64,
    pub reads: u64,
    pub writes: u64,
    pub others: u64,
}

impl Counts {
    ghost use Rattle.cola_device.specs.Counts.{count_fault, count_read, count_write, count_other};

    /// Counts a fault, and gives it to be answered.
    pub fn fault(&mut self) -> DeviceFault
        ensures { self.new ≡ count_fault true self.old }
    {
        self.faults = self.faults.saturating_add(1);
        DeviceFault
    }

    /// Counts a read.
    pub fn read(&mut self)
        ensures { self.new ≡ count_read self.old }
    {
        self.reads = self.reads.saturating_add(1);
    }

    /// Counts a write.
    pub fn write(&mut self)
        ensures { self.new ≡ count_write self.old }
    {
        self.writes = self.writes.saturating_add(1);
    }

    /// Counts a call that neither reads nor writes.
    pub fn other(&mut self)
        ensures { self.new ≡ count_other self.old }
    {
        self.others = self.others.saturating_add(1);
    }
}
