//! How many bytes of a file its store takes.
ghost use Rattle.std.specs.Prelude.{◌≡◌, ◌≤◌, ℕ, List, take, length};
ghost use Rattle.cola_layout.specs.Fields.{Decodes};
ghost use Rattle.cola_handle.specs.Stored.{Begins, StoredSays};

use crate::answer::Answer;
use cola_layout::Header;
use cola_opening::size_of;

/// The header that the first 512 bytes spell.
fn header_in(head: &[u8]) -> Option<Header>
    requires { 512 ≤ length head.now }
    ensures { Decodes (take 512 head.now) result }
{
    let mut first = [0u8; 512];
    first.copy_from_slice(&head[..512]);
    Header::decode(&first)
}

/// How many bytes the store takes that lies in a file of `size` bytes, by the first bytes of the file: 512 of them at least, or
/// all of a shorter file. The file may be longer than its store. No byte behind the first 512 is looked at, so a cell may be
/// damaged all the same.
///
/// As an opening answers, in its order: `Small` where the file has fewer bytes than a header; `NotStore` where the bytes spell
/// none; `Small` where the file has fewer bytes than the store; `NotClosed` where the header says that the store is in use.
pub fn stored_size(head: &[u8], size: u64) -> Result<u64, Answer>
    ensures { (file : List ℕ) → Begins head.now size file → StoredSays file result }
{
    if size < 512 || head.len() < 512 {
        return Err(Answer::Small);
    }
    let Some(header) = header_in(head) else {
        return Err(Answer::NotStore);
    };
    let stored = size_of(&header.geometry);
    if size < stored {
        return Err(Answer::Small);
    }
    if !header.closed {
        return Err(Answer::NotClosed);
    }
    Ok(stored)
}
