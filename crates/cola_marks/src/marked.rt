//! A device over a device, which marks each page that it writes.
ghost use Rattle.std.specs.Prelude.{◌≡◌, ◌+◌, ◌≤◌, is_some, length, IfOk, IfSome, OnOk};
ghost use Rattle.cola_device.specs.Bytes.{IsEmpty, HasSize, HasRange, Gives, LaidOut, Wrote};
ghost use Rattle.cola_device.specs.Counts.{one_more, Called};
ghost use Rattle.cola_marks.specs.Pages.{marked, pages_touched, MarksTouched, AllMarked};
ghost use Rattle.cola_marks.specs.Marked.{new_marked, IsSound, OnlyBelow};

use crate::marks::Marks;
use crate::pages::{mark_all, mark_touched};
use cola_device::{Device, DeviceFault, MAX_TRANSFER};
use std::marker::Model;
use std::snapshot::Snapshot;

/// A device over the device `D`, which marks each page before it is written, and never clears a mark: whoever has the marks
/// does, while they are not lent to it. It holds the bytes of `D`, and its counts are those of `D`, but for the writes, of
/// which it counts each that it is asked for. No call takes memory.
#[derive(Drop)]
pub struct MarkedDevice<D: Device, M: Marks> {
    device: D,
    marks: M,
    writes: u64,
    /// What it was made of, for proofs alone.
    first: Snapshot<D>,
    first_marks: Snapshot<M>,
}

impl<D: Device, M: Marks> Model for MarkedDevice<D, M> {
    ghost use Rattle.cola_marks.specs.Marked.{Marked, IsSound};

    ghost Value = { Marked D M };

    ghost view = { λ d. record {
      device = d.device;
      marks = d.marks;
      writes = d.writes;
      first = d.first.value;
      first_marks = d.first_marks.value;
    } };

    ghost invariant = { λ d. IsSound D.Device M.Marks (record {
      device = d.device;
      marks = d.marks;
      writes = d.writes;
      first = d.first.value;
      first_marks = d.first_marks.value;
    }) };
}

impl<D: Device, M: Marks> MarkedDevice<D, M> {
    /// A device over `device`, with a mark for each of its pages. Pages behind the last mark have none. Its count of writes
    /// goes on from that of `device`.
    pub fn over(device: D, marks: M) -> MarkedDevice<D, M>
        ensures { result ≡ new_marked D.Device M.Marks device marks }
    {
        let writes = device.writes();
        let first = Snapshot::of(&device);
        let first_marks = Snapshot::of(&marks);
        MarkedDevice {
            device,
            marks,
            writes,
            first,
            first_marks,
        }
    }

    /// The marks.
    pub fn marks(&self) -> &M
        ensures marks { result.now ≡ self.now.marks }
        ensures sound { IsSound D.Device M.Marks self.now }
    {
        &self.marks
    }

    /// The device below.
    pub fn inner(&self) -> &D
        ensures { result.now ≡ self.now.device }
    {
        &self.device
    }

    /// The device below and the marks.
    pub fn into_parts(self) -> (D, M)
        ensures device { result.0 ≡ self.device }
        ensures marks { result.1 ≡ self.marks }
        ensures sound { IsSound D.Device M.Marks self }
    {
        let MarkedDevice { device, marks, .. } = self;
        (device, marks)
    }
}

impl<D: Device, M: Marks> Device for MarkedDevice<D, M> {
    ghost use Rattle.cola_marks.specs.Marked.{Settings, settings, counts_of};

    ghost bytes = { λ d. D.bytes d.device };

    ghost tells = { D.tells };

    ghost lends = { D.lends };

    ghost counts = { counts_of D.Device M.Marks };

    ghost Kept = { Settings D M D.Kept M.Kept };

    ghost kept = { settings D.Device M.Marks };

    ghost settles = { λ old result new. D.settles old.device result new.device };

    ghost told = { λ d. D.told d.device };

    fn size(&mut self) -> Result<u64, DeviceFault>
        ensures value { IfOk result (HasSize (D.bytes self.old.device)) }
        ensures bytes_stay { D.bytes self.new.device ≡ D.bytes self.old.device }
        ensures kept { D.kept self.new.device ≡ D.kept self.old.device }
        ensures counts { Called (D.counts self.old.device) (D.counts self.new.device) 0 0 1 result }
        ensures marks { OnlyBelow self.old self.new }
    {
        self.device.size()
    }

    /// Every page is marked, also where the device refuses.
    fn lay_out(&mut self, size: u64) -> Result<(), DeviceFault>
        requires { IsEmpty (D.bytes self.old.device) }
        ensures laid { LaidOut result size (D.bytes self.old.device) (D.bytes self.new.device) }
        ensures kept { D.kept self.new.device ≡ D.kept self.old.device }
        ensures counts { Called (D.counts self.old.device) (D.counts self.new.device) 0 0 1 result }
        ensures marked { AllMarked (M.marks self.old.marks) (M.marks self.new.marks) }
        ensures marks_kept { M.kept self.new.marks ≡ M.kept self.old.marks }
        ensures writes { self.new.writes ≡ self.old.writes }
        ensures first { self.new.first ≡ self.old.first }
        ensures first_marks { self.new.first_marks ≡ self.old.first_marks }
    {
        mark_all(&mut self.marks);
        self.device.lay_out(size)
    }

    fn read(&mut self, at: u64, into: &mut [u8]) -> Result<(), DeviceFault>
        requires block { length into.old ≤ MAX_TRANSFER }
        requires inside { HasRange (D.bytes self.old.device) at (length into.old) }
        ensures given { OnOk result (Gives (D.bytes self.old.device) at into.new) }
        ensures bytes_stay { D.bytes self.new.device ≡ D.bytes self.old.device }
        ensures kept { D.kept self.new.device ≡ D.kept self.old.device }
        ensures counts { Called (D.counts self.old.device) (D.counts self.new.device) 1 0 0 result }
        ensures marks { OnlyBelow self.old self.new }
    {
        self.device.read(at, into)
    }

    /// The pages that have a byte of the range are marked, also where the device refuses.
    fn write(&mut self, at: u64, from: &[u8]) -> Result<(), DeviceFault>
        requires block { length from.now ≤ MAX_TRANSFER }
        requires inside { HasRange (D.bytes self.old.device) at (length from.now) }
        ensures wrote { Wrote result at from.now (D.bytes self.old.device) (D.bytes self.new.device) }
        ensures kept { D.kept self.new.device ≡ D.kept self.old.device }
        ensures counts { Called (D.counts self.old.device) (D.counts self.new.device) 0 1 0 result }
        ensures marked { MarksTouched at (length from.now) (M.marks self.old.marks) (M.marks self.new.marks) }
        ensures few { marked (M.marks self.new.marks) ≤ marked (M.marks self.old.marks) + pages_touched at (length from.now) }
        ensures marks_kept { M.kept self.new.marks ≡ M.kept self.old.marks }
        ensures writes { self.new.writes ≡ one_more self.old.writes }
        ensures first { self.new.first ≡ self.old.first }
        ensures first_marks { self.new.first_marks ≡ self.old.first_marks }
    {
        mark_touched(&mut self.marks, at, from.len());
        self.writes = self.writes.saturating_add(1);
        self.device.write(at, from)
    }

    fn settle(&mut self) -> Result<(), DeviceFault>
        ensures settled { D.settles self.old.device result self.new.device }
        ensures bytes_stay { D.bytes self.new.device ≡ D.bytes self.old.device }
        ensures kept { D.kept self.new.device ≡ D.kept self.old.device }
        ensures counts { Called (D.counts self.old.device) (D.counts self.new.device) 0 0 1 result }
        ensures marks { OnlyBelow self.old self.new }
    {
        self.device.settle()
    }

    /// The bytes that the device below lends.
    #[inline(always)]
    fn view(&self, at: u64, count: usize) -> Option<&[u8]> {
        self.device.view(at, count)
    }

    fn reads(&self) -> u64 {
        self.device.reads()
    }

    fn writes(&self) -> u64 {
        self.writes
    }

    fn faults(&self) -> u64 {
        self.device.faults()
    }
}
