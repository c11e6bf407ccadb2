//! A journal of two pieces, and each byte of it changed.
use cola_journal_bytes::{JournalWriter, next_piece, read_journal};
use std::alloc::Global;
use std::test::Fail;

/// A journal with three bytes from place 0 on, and two from place 5,000 on.
fn two_pieces(alloc: Global) -> Result<Vec<u8>, Fail> {
    let mut journal = Vec::new(alloc);
    let (mut writer, head) = JournalWriter::begin(2);
    journal.extend_from_slice(&head)?;
    journal.extend_from_slice(&writer.piece(0, &[1, 2, 3]))?;
    journal.extend_from_slice(&[1, 2, 3])?;
    journal.extend_from_slice(&writer.piece(5_000, &[8, 9]))?;
    journal.extend_from_slice(&[8, 9])?;
    journal.extend_from_slice(&writer.end())?;
    Ok(journal)
}

#[test]
fn pieces_are_found_in_order(rt: HostRuntime) -> Result<(), Fail> {
    let journal = two_pieces(rt.alloc())?;
    assert!(rt; journal.len() == 85);
    let pieces = read_journal(&journal).ok_or("no journal")?;
    let (at, first, rest) = next_piece(pieces).ok_or("no piece")?;
    assert!(rt; at == 0 && first == [1, 2, 3].as_slice());
    let (at, second, rest) = next_piece(rest).ok_or("no piece")?;
    assert!(rt; at == 5_000 && second == [8, 9].as_slice() && rest.is_empty());
    Ok(())
}

#[test]
fn no_changed_byte_is_passed(rt: HostRuntime) -> Result<(), Fail> {
    let mut journal = two_pieces(rt.alloc())?;
    for place in 0..journal.len() {
        journal[place] ^= 1;
        assert!(rt; read_journal(&journal).is_none());
        journal[place] ^= 1;
    }
    assert!(rt; read_journal(&journal).is_some());
    Ok(())
}
