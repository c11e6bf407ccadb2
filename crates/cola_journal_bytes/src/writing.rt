//! A journal, written piece by piece.
ghost use Rattle.std.specs.Prelude.{◌≡◌, ℕ, List, [], ◌++◌, length};
ghost use Rattle.sha2.specs.Hashers.{Holds256};
ghost use Rattle.sha2.specs.Sha256.{sha256};
ghost use Rattle.cola_journal_bytes.specs.Format.{head, piece_head};

use crate::reading::NAME;
use byteorder::{ByteOrder, LittleEndian};
use sha2::{Digest, Sha256};

/// What stands before the bytes of a piece.
pub fn piece_head(at: u64, count: u64) -> [u8; 16]
    ensures { result ≡ piece_head at count }
{
    let mut bytes = [0; 16];
    LittleEndian::write_u64(&mut bytes, at);
    LittleEndian::write_u64(&mut bytes[8..], count);
    bytes
}

/// What stands before all pieces.
fn head(count: u64) -> [u8; 16]
    ensures { result ≡ head count }
{
    let mut bytes = [0; 16];
    bytes[..8].copy_from_slice(&NAME);
    LittleEndian::write_u64(&mut bytes[8..], count);
    bytes
}

/// The sum of what was written of a journal so far.
#[derive(Drop)]
pub struct JournalWriter {
    sum: Sha256,
}

impl JournalWriter {
    /// A journal of so many pieces, and its first bytes.
    pub fn begin(count: u64) -> (JournalWriter, [u8; 16])
        ensures sum { Holds256 result.0.sum (head count) }
        ensures bytes { result.1 ≡ head count }
    {
        let bytes = head(count);
        let mut sum = Sha256::new();
        sum.update(&bytes);
        (JournalWriter { sum }, bytes)
    }

    /// A piece, and the bytes that are to stand before its own.
    pub fn piece(&mut self, at: u64, bytes: &[u8]) -> [u8; 16]
        ensures sum { (m : List ℕ) → Holds256 self.old.sum m → Holds256 self.new.sum (m ++ piece_head at (length bytes.now) ++ bytes.now) }
        ensures bytes { result ≡ piece_head at (length bytes.now) }
    {
        let before = piece_head(at, bytes.len() as u64);
        self.sum.update(&before);
        self.sum.update(bytes);
        before
    }

    /// The last bytes.
    pub fn end(self) -> [u8; 32]
        ensures { (m : List ℕ) → Holds256 self.sum m → result ≡ sha256 m }
    {
        let JournalWriter { sum } = self;
        sum.finalize()
    }
}
