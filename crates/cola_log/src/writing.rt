//! A log, written call by call.
ghost use Rattle.std.specs.Prelude.{◌≡◌, ◌+◌, ◌<◌, ◌≤◌, ℕ, List, ◌++◌, length, drop};
ghost use Rattle.sha2.specs.Sha256.{sha256};
ghost use Rattle.cola_log.specs.Format.{told, first_sum, head_of, IsShort};
ghost use Rattle.cola_log.specs.Appended.{Appends};

use crate::call::Call;
use byteorder::{ByteOrder, LittleEndian};
use sha2::{Digest, Sha256};

/// The sum of a log so far, behind which its next record is written or read.
#[repr(C)]
#[derive(Clone, Copy, Debug, PartialEq, Eq, Drop)]
pub struct LogSum {
    pub sum: [u8; 32],
}

/// The sum of a sum and of what follows it.
pub(crate) fn chained(sum: &[u8], bytes: &[u8]) -> [u8; 32]
    ensures { result ≡ sha256 (sum.now ++ bytes.now) }
{
    let mut hasher = Sha256::new();
    hasher.update(sum);
    hasher.update(bytes);
    hasher.finalize()
}

/// What stands before the key and the value of a call.
fn head(call: &Call) -> [u8; 11]
    requires { IsShort (told call.now) }
    ensures { result ≡ head_of (told call.now) }
{
    let mut bytes = [0; 11];
    bytes[0] = call.kind();
    bytes[1] = call.key().len() as u8;
    bytes[2] = call.value().len() as u8;
    LittleEndian::write_u64(&mut bytes[3..], call.seen());
    bytes
}

/// Writes bytes behind those that were written so far.
fn write_on(into: &mut [u8], at: usize, from: &[u8])
    requires { at + length from.now ≤ length into.old }
    ensures written { (done rest : List ℕ) → length done ≡ at → into.old ≡ done ++ drop at rest
        → into.new ≡ (done ++ from.now) ++ drop (at + length from.now) rest }
    ensures size { length into.new ≡ length into.old }
{
    into[at..at + from.len()].copy_from_slice(from);
}

impl LogSum {
    /// The sum with which the log begins that follows a closed file with this first page; the log's first 32 bytes.
    pub fn begin(page: &[u8]) -> LogSum
        ensures { result.sum ≡ first_sum page.now }
    {
        LogSum {
            sum: chained(b"COLA-LOG", page),
        }
    }

    /// Writes the record of a call to the front of some bytes, and tells its length. None where its key or its value has more
    /// than 255 bytes, or the room is too small: then nothing is written.
    pub fn append(&mut self, call: &Call, into: &mut [u8]) -> Option<usize>
        ensures { Appends self.old.sum self.new.sum (told call.now) into.old into.new result }
    {
        let key = call.key();
        let value = call.value();
        if key.len() > 255 || value.len() > 255 {
            return None;
        }
        let size = 11 + key.len() + value.len();
        if into.len() < size + 32 {
            return None;
        }
        let before = head(call);
        write_on(into, 0, &before);
        write_on(into, 11, key);
        write_on(into, 11 + key.len(), value);
        let sum = chained(&self.sum, &into[..size]);
        write_on(into, size, &sum);
        self.sum = sum;
        Some(size + 32)
    }
}
