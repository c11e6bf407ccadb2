//! A device over a file of the system, and over one that is interrupted: what a file holds and gives back is the
//! system's word, and that an interrupted call is made again no clause says.
ghost use Rattle.std.specs.Prelude.{◌≤◌, length, ⊤};

use cola_device::{Device, DeviceFault, MAX_TRANSFER};
use cola_filedev::{FileDevice, OpenedFile, Opener, PathDevice};
use std::fs::{self, OpenOptions};
use std::io::{self, ErrorKind};

const WRITTEN: &str = "cola_tests_written";

const HELD: &str = "cola_tests_held";

const LATE: &str = "cola_tests_late";

/// Opens the file.
#[derive(Drop)]
struct Halting;

/// A file of four bytes that gives and takes one byte at a time, and interrupts every second call.
#[derive(Drop)]
struct HaltingFile {
    bytes: [u8; 4],
    interrupts: bool,
}

impl HaltingFile {
    /// Interrupts every second call.
    fn halt(&mut self) -> io::Result<()> {
        self.interrupts = !self.interrupts;
        if self.interrupts {
            return Err(io::Error::from(ErrorKind::Interrupted));
        }
        Ok(())
    }
}

impl Opener for Halting {
    type File = HaltingFile;

    ghost opened = { λ _ _ _ _. ⊤ };

    fn open(self, _path: &str, _options: &OpenOptions) -> io::Result<HaltingFile> {
        Ok(HaltingFile {
            bytes: *b"abcd",
            interrupts: false,
        })
    }
}

impl OpenedFile for HaltingFile {
    ghost sized = { λ _ _ _. ⊤ };

    ghost cut = { λ _ _ _ _. ⊤ };

    ghost synced = { λ _ _ _. ⊤ };

    ghost gave = { λ _ _ _ _ _ _. ⊤ };

    ghost took = { λ _ _ _ _ _. ⊤ };

    fn size(&mut self) -> io::Result<u64> {
        Ok(4)
    }

    fn set_size(&mut self, _size: u64) -> io::Result<()> {
        Ok(())
    }

    fn sync(&mut self) -> io::Result<()> {
        Ok(())
    }

    fn read_at(&mut self, at: u64, into: &mut [u8]) -> io::Result<usize> {
        self.halt()?;
        if at < 4 && !into.is_empty() {
            into[0] = self.bytes[at as usize];
            return Ok(1);
        }
        Ok(0)
    }

    fn write_at(&mut self, at: u64, from: &[u8]) -> io::Result<usize> {
        self.halt()?;
        if at < 4 && !from.is_empty() {
            self.bytes[at as usize] = from[0];
            return Ok(1);
        }
        Ok(0)
    }
}

/// Writes some bytes at a place, and reads four from another.
fn write_and_read<O: Opener>(
    device: &mut PathDevice<O>,
    at: u64,
    from: &[u8],
    first: u64,
) -> Option<[u8; 4]>
    requires { length from.now ≤ MAX_TRANSFER }
{
    device.write(at, from).ok()?;
    let mut found = [1; 4];
    device.read(first, &mut found).ok()?;
    Some(found)
}

#[test]
fn asks_again_where_it_was_interrupted(rt: HostRuntime) {
    let mut device = PathDevice::new(Halting, "", false);
    assert!(rt; write_and_read(&mut device, 1, b"xy", 0) == Some(*b"axyd"));
}

#[test]
fn keeps_bytes_in_a_file(rt: HostRuntime) {
    let _ = fs::remove_file(&rt, WRITTEN);
    let mut device = FileDevice::new(&rt, WRITTEN, true);
    let laid = device.lay_out(64).is_ok();
    let found = write_and_read(&mut device, 61, b"abc", 60);
    // One byte past the end of the file.
    let past = device.read(61, &mut [1; 4]);
    let removed = fs::remove_file(&rt, WRITTEN).is_ok();
    assert!(rt; laid && found == Some(*b"\0abc") && past.is_err() && removed);
}

#[test]
fn keeps_the_refusal_of_a_missing_file(rt: HostRuntime) {
    let _ = fs::remove_file(&rt, LATE);
    let mut device = FileDevice::new(&rt, LATE, false);
    let before = device.size();
    let made = fs::write(&rt, LATE, b"abc".as_slice()).is_ok();
    let after = device.size();
    let other = FileDevice::new(&rt, LATE, false).size();
    let removed = fs::remove_file(&rt, LATE).is_ok();
    assert!(rt;
        made && removed && [before, after, other] == [Err(DeviceFault), Err(DeviceFault), Ok(3)]
    );
}

/// Whether the file has these bytes.
fn holds(rt: &HostRuntime, path: &str, bytes: &[u8]) -> bool {
    match fs::read(rt, path) {
        Ok(found) => found.as_slice() == bytes,
        Err(_) => false,
    }
}

/// Whether the device takes the bytes, and settles with them.
fn settles_with<O: Opener>(device: &mut PathDevice<O>, at: u64, from: [u8; 2]) -> bool {
    device.write(at, &from).is_ok() && device.settle().is_ok()
}

/// A file that is there before keeps what it holds, at each opening.
#[test]
fn keeps_what_a_file_holds(rt: HostRuntime) {
    assert!(rt; fs::write(&rt, HELD, b"abcdef".as_slice()).is_ok());
    for make in [false, true] {
        let wrote = settles_with(&mut FileDevice::new(&rt, HELD, make), 2, *b"xy");
        assert!(rt; wrote && holds(&rt, HELD, b"abxyef"));
    }
    let laid = FileDevice::new(&rt, HELD, false).lay_out(3).is_ok();
    assert!(rt; laid && holds(&rt, HELD, &[0; 3]) && fs::remove_file(&rt, HELD).is_ok());
}

/// Whether each call that changes the device is refused and counted, and a read is not.
fn is_full<O: Opener>(device: &mut PathDevice<O>) -> bool {
    device.write(1, b"a").is_err()
        && device.lay_out(1).is_err()
        && device.settle().is_err()
        && device.read(0, &mut [1]).is_ok()
        && device.faults() == 3
}

/// A device of the system that has no room for any byte, and that the system does not sync.
#[test]
fn is_refused_by_a_full_device(rt: HostRuntime) {
    let mut device = FileDevice::new(&rt, "/dev/full", false);
    assert!(rt; is_full(&mut device));
}
