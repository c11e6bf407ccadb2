//! The rows of a list of lines by a plain slow program, over whole lists: each line is judged behind all lines before it, which
//! are read anew for it. It is for tests.

ghost use Rattle.std.specs.Prelude.{◌≡◌, ◌<◌, ◌^◌, ℕ, IfOk, length, option_copied};
ghost use Rattle.cola_shapes.specs.Shapes.{shape_of};
ghost use Rattle.cola_load.specs.Said.{as_line};
ghost use Rattle.cola_load.specs.PlainLines.{lines_of};
ghost use Rattle.cola_load.specs.Rows.{rows_said, is_end, has_end, is_not_above, last_key, word_at, word_behind, rows_of, word_of};

use crate::answer::Word;
use crate::said::{Said, said_by};
use cola_cell::{Format, Key, Value};
use std::alloc::{AllocError, Global};

/// The rows that lines say, whatever word they have.
fn rows_said(
    alloc: Global,
    format: Format,
    lines: &[Option<&[u8]>],
) -> Result<Vec<(Key, Value)>, AllocError>
    ensures { (keys : ℕ) → IfOk result (λ rows.
        rows.items ≡ rows_said (shape_of format keys) (lines_of lines.now)) }
{
    let mut rows = Vec::new(alloc);
    for line in lines {
        if let Said::Row(key, value) = said_by(*line, format) {
            rows.push((key, value))?;
        }
    }
    Ok(rows)
}

/// Whether this is an end.
fn is_end(says: &Said) -> bool
    ensures { result ≡ is_end says.now }
{
    matches!(says, Said::End(_))
}

/// Whether one of the lines is an end.
fn has_end(format: Format, lines: &[Option<&[u8]>]) -> bool
    ensures { (keys : ℕ) → result ≡ has_end (shape_of format keys) (lines_of lines.now) }
{
    let mut ended = false;
    for line in lines {
        ended = ended || is_end(&said_by(*line, format));
    }
    ended
}

/// Whether the key of a row is not above that of the last of these.
fn is_not_above(rows: &[(Key, Value)], key: &Key) -> bool
    ensures { result ≡ is_not_above (last_key rows.now) key.now }
{
    match rows.last() {
        Some(last) => key.cmp(&last.0).is_le(),
        None => false,
    }
}

/// The word of a line that says this behind so many lines, which say these rows, and whether an end.
fn word_at(keys: u64, lines: u64, rows: &[(Key, Value)], ended: bool, says: &Said) -> Option<Word>
    requires { lines < 2 ^ 63 }
    ensures { result ≡ word_at keys
        (record { lines = lines; rows = length rows.now; last = last_key rows.now; ended = ended }) says.now }
{
    match says {
        Said::Nothing => None,
        Said::Row(key, _) => {
            if ended {
                Some(Word::Bad(lines + 1))
            } else if is_not_above(rows, key) {
                Some(Word::Order(lines + 1))
            } else if rows.len() as u64 >= keys {
                Some(Word::Full(lines + 1))
            } else {
                None
            }
        }
        Said::End(number) => {
            if ended || *number != rows.len() as u64 {
                Some(Word::Bad(lines + 1))
            } else {
                None
            }
        }
        Said::Other => Some(Word::Bad(lines + 1)),
    }
}

/// The word of a line behind these lines.
fn word_behind(
    alloc: Global,
    keys: u64,
    format: Format,
    before: &[Option<&[u8]>],
    line: Option<&[u8]>,
) -> Result<Option<Word>, AllocError>
    ensures { IfOk result (λ word.
        word ≡ word_behind (shape_of format keys) (lines_of before.now)
        (as_line (option_copied line.entry))) }
{
    let rows = rows_said(alloc, format, before)?;
    let ended = has_end(format, before);
    let says = said_by(line, format);
    Ok(word_at(keys, before.len() as u64, rows.as_slice(), ended, &says))
}

/// The rows of a list of lines, each a text or none where it was too long, and the word of the first line that has one: they are
/// those of the definition, for a store of so many keys in the format. The time grows with the square of the number of lines.
/// An error comes only for want of memory.
pub fn rows_of(
    alloc: Global,
    keys: u64,
    format: Format,
    lines: &[Option<&[u8]>],
) -> Result<(Vec<(Key, Value)>, Option<Word>), AllocError>
    ensures rows { IfOk result (λ found.
        found.0.items ≡ rows_of (shape_of format keys) (lines_of lines.now)) }
    ensures word { IfOk result (λ found.
        found.1 ≡ word_of (shape_of format keys) (lines_of lines.now)) }
{
    for at in 0..lines.len() {
        let before = &lines[..at];
        if let Some(word) = word_behind(alloc, keys, format, before, lines[at])? {
            return Ok((rows_said(alloc, format, before)?, Some(word)));
        }
    }
    Ok((rows_said(alloc, format, lines)?, None))
}
