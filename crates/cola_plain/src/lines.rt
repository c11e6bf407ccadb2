//! The lines of a list of bytes, and the words of a line.

ghost use Rattle.std.specs.Prelude.{◌≡◌, ℕ, nat_eq, IfOk, option_copied};
ghost use Rattle.std.specs.List.{slice_split};
ghost use Rattle.cola_spec.specs.Lines.{all_but_last, ended_lines, line_of, raw_lines, without_empty_last, without_return};
ghost use Rattle.cola_spec.specs.Command.{words_of};
ghost use Rattle.cola_plain.specs.Lines.{line_with, texts};

use std::alloc::{AllocError, Global};

/// The parts of a list of bytes between bytes of one kind.
fn split(alloc: Global, bytes: &[u8], separator: u8) -> Result<Vec<&[u8]>, AllocError>
    ensures { IfOk result
        (λ parts. texts parts.items ≡ slice_split (λ byte. nat_eq byte separator) bytes.now) }
{
    bytes.split(|byte| *byte == separator).collect(alloc)
}

/// All parts, without the last where it is empty.
fn without_empty_last(mut parts: Vec<&[u8]>) -> Vec<&[u8]>
    ensures { texts result.items ≡ without_empty_last (texts parts.entry.items) }
{
    let end = parts.len();
    if 0 < end && parts[end - 1].is_empty() {
        parts.truncate(end - 1);
        return parts;
    }
    parts
}

/// All parts but the last.
fn all_but_last(mut parts: Vec<&[u8]>) -> Vec<&[u8]>
    ensures { texts result.items ≡ all_but_last (texts parts.entry.items) }
{
    let end = parts.len();
    if 0 < end {
        parts.truncate(end - 1);
        return parts;
    }
    parts
}

/// The lines of a list of bytes, without their line feeds.
pub fn raw_lines(alloc: Global, bytes: &[u8]) -> Result<Vec<&[u8]>, AllocError>
    ensures { IfOk result (λ lines. texts lines.items ≡ raw_lines bytes.now) }
{
    Ok(without_empty_last(split(alloc, bytes, b'\n')?))
}

/// The lines that a line feed ends, without it.
pub fn ended_lines(alloc: Global, bytes: &[u8]) -> Result<Vec<&[u8]>, AllocError>
    ensures { IfOk result (λ lines. texts lines.items ≡ ended_lines bytes.now) }
{
    Ok(all_but_last(split(alloc, bytes, b'\n')?))
}

/// The words of a text: the parts between single spaces.
pub fn words(alloc: Global, text: &[u8]) -> Result<Vec<&[u8]>, AllocError>
    ensures { IfOk result (λ words. texts words.items ≡ words_of text.now) }
{
    split(alloc, text, b' ')
}

/// A line without one carriage return at its end.
fn without_return(line: &[u8]) -> &[u8]
    ensures { result.now ≡ without_return line.now }
{
    let end = line.len();
    if 0 < end && line[end - 1] == b'\r' {
        return &line[..end - 1];
    }
    line
}

/// The text of a line, or `None` where it has more than 160 bytes.
pub fn text_of(raw: &[u8]) -> Option<&[u8]>
    ensures { line_with (option_copied result) ≡ line_of raw.now }
{
    if raw.len() <= 160 {
        Some(without_return(raw))
    } else {
        None
    }
}
