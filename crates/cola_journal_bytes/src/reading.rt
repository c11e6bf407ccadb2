//! The pieces of a journal, read.
ghost use Rattle.std.specs.Prelude.{◌≡◌, ◌-◌, ◌≤◌, ◌↔◌, ℕ, List, None, Some, true, is_some, not, nat_lt, ◌==◌, ◌&&◌, length, take, drop, IfSome};
ghost use Rattle.cola_journal_bytes.specs.Format.{Piece, piece_at, pieces_in, is_sealed, body, read_journal};
ghost use Rattle.cola_journal_bytes.specs.Applied.{has_header, pages_read};

use byteorder::{ByteOrder, LittleEndian};
use sha2::{Digest, Sha256};

pub(crate) const NAME: [u8; 8] = *b"COLAJRNL";

/// The piece at the front of bytes, as its place and its bytes, and what is behind it.
pub fn next_piece(bytes: &[u8]) -> Option<(u64, &[u8], &[u8])>
    ensures none { result ≡ None → piece_at bytes.now ≡ None }
    ensures some { IfSome result (λ it. piece_at bytes.now ≡ Some (record { at = it.0; bytes = it.1.now }, it.2.now)) }
{
    if bytes.len() < 16 {
        return None;
    }
    let at = LittleEndian::read_u64(bytes);
    let count = LittleEndian::read_u64(&bytes[8..]);
    let rest = &bytes[16..];
    if (rest.len() as u64) < count {
        return None;
    }
    let (piece, behind) = rest.split_at(count as usize);
    Some((at, piece, behind))
}

/// Whether bytes are so many pieces, and nothing behind them.
fn are_pieces(count: u64, bytes: &[u8]) -> bool
    ensures { result ≡ is_some (pieces_in count bytes.now) }
{
    let mut rest = bytes;
    for piece in 0..count {
        match next_piece(rest) {
            Some((_, _, behind)) => rest = behind,
            None => return false,
        }
    }
    rest.is_empty()
}

/// Whether two lists have the same bytes.
fn same(bytes: &[u8], others: &[u8]) -> bool
    ensures { result ≡ true ↔ bytes.now ≡ others.now }
{
    bytes == others
}

/// Whether the name stands at the front of bytes, and the sum of the others at their end.
fn sealed(bytes: &[u8]) -> bool
    requires { 48 ≤ length bytes.now }
    ensures { result ≡ is_sealed bytes.now }
{
    let (summed, sum) = bytes.split_at(bytes.len() - 32);
    same(&bytes[..8], &NAME) && same(sum, &Sha256::digest(summed))
}

/// The bytes of the pieces of a journal, where it is whole: each is read by [`next_piece`], up to the last. Of other bytes
/// none.
pub fn read_journal(bytes: &[u8]) -> Option<&[u8]>
    ensures whole { is_some result ≡ is_some (read_journal bytes.now) }
    ensures body { IfSome result (λ pieces. pieces.now ≡ body bytes.now) }
{
    if bytes.len() < 48 || !sealed(bytes) {
        return None;
    }
    let count = LittleEndian::read_u64(&bytes[8..]);
    let pieces = &bytes[16..bytes.len() - 32];
    if are_pieces(count, pieces) {
        Some(pieces)
    } else {
        None
    }
}

/// Whether the first of some pieces has the first 512 bytes of its file.
fn begins_with_header(pieces: &[u8]) -> bool
    ensures { (count : ℕ) (read : List Piece) → pieces_in count pieces.now ≡ Some read → result ≡ has_header read }
{
    match next_piece(pieces) {
        Some((at, piece, _)) => is_header(at, piece),
        None => false,
    }
}

/// Whether a piece has the first 512 bytes of its file.
fn is_header(at: u64, piece: &[u8]) -> bool
    ensures { result ≡ ((at == 0) && not (nat_lt (length piece.now) 512)) }
{
    at == 0 && piece.len() >= 512
}

/// Whether bytes are a journal that is to be applied to its file: it is whole, and its first piece has the file's first 512
/// bytes.
pub fn is_applied(bytes: &[u8]) -> bool
    ensures { result ≡ is_some (pages_read bytes.now) }
{
    match read_journal(bytes) {
        Some(pieces) => begins_with_header(pieces),
        None => false,
    }
}
