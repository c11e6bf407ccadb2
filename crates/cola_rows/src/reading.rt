//! The lines of a row.
use crate::fault::Fault;
use crate::files::file_after_puts;
use crate::row::{Begin, Caller, Change, Each, Part, Row, Setup, Show, Which};
use crate::text::{hex_bytes, push_unescaped};
use std::alloc::Global;

/// How many calls fail where all from one number on do: more than a session makes after a refused one.
const FROM_ON: u64 = 1000;

/// A number in a row.
fn number(word: &str) -> Result<u64, Fault> {
    match word.parse::<u64>() {
        Ok(number) => Ok(number),
        Err(_) => Err(Fault::Row("no number")),
    }
}

/// A number of bytes, of cells or of times.
fn size(word: &str) -> Result<usize, Fault> {
    let number = number(word)?;
    if number > u32::MAX as u64 {
        return Err(Fault::Row("the number is too large"));
    }
    Ok(number as usize)
}

/// A number of at most 255.
fn byte(word: &str) -> Result<u8, Fault> {
    match word.parse::<u8>() {
        Ok(number) => Ok(number),
        Err(_) => Err(Fault::Row("no byte")),
    }
}

/// The first word of a text, and the text behind it.
fn first_word(text: &str) -> (&str, &str) {
    match text.split_once(' ') {
        Some(parts) => parts,
        None => (text, ""),
    }
}

/// The number in the first word, and the text behind it.
fn first_number(text: &str) -> Result<(u64, &str), Fault> {
    let (word, rest) = first_word(text);
    Ok((number(word)?, rest))
}

/// The size in the first word, and the text behind it.
fn first_size(text: &str) -> Result<(usize, &str), Fault> {
    let (word, rest) = first_word(text);
    Ok((size(word)?, rest))
}

/// Adds the bytes of the source that a line gives: a line of it, or a piece without its end.
fn push_source(into: &mut Vec<u8>, line: &str) -> Result<(), Fault> {
    if let Some(text) = line.strip_prefix("+ ") {
        return push_unescaped(into, text);
    }
    let (_, text) = first_word(line);
    push_unescaped(into, text)?;
    into.push(b'\n')?;
    Ok(())
}

/// Whether a line gives bytes of the source.
fn is_source(line: &str) -> bool {
    line == "|" || line.starts_with("| ") || line.starts_with("+ ")
}

/// Adds the bytes of a line of the source so many times.
fn push_times(alloc: Global, into: &mut Vec<u8>, text: &str) -> Result<(), Fault> {
    let (times, line) = first_size(text)?;
    if !is_source(line) {
        return Err(Fault::Row("no line of the source"));
    }
    let mut bytes = Vec::new(alloc);
    push_source(&mut bytes, line)?;
    for _ in 0..times {
        into.extend_from_slice(&bytes)?;
    }
    Ok(())
}

/// Adds the puts with these numbers.
pub(crate) fn push_puts(
    alloc: Global,
    into: &mut Vec<u8>,
    first: usize,
    last: usize,
) -> Result<(), Fault> {
    for turn in first..=last {
        let key = turn.wrapping_sub(1) % 32 + 1;
        let line = format!(in alloc; "put k{key:02} {turn}\n")?;
        into.extend_from_slice(line.as_bytes())?;
    }
    Ok(())
}

/// Adds the numbers of calls that fail.
fn push_fails(into: &mut Vec<u64>, text: &str) -> Result<(), Fault> {
    let mut is_from = false;
    for word in text.split(' ') {
        if word == "from" {
            is_from = true;
            continue;
        }
        let first = number(word)?;
        let count = if is_from { FROM_ON } else { 1 };
        for place in 0..count {
            into.push(first.saturating_add(place))?;
        }
        is_from = false;
    }
    Ok(())
}

/// Reads what fails of a source or a sink.
fn read_fails(into: &mut Vec<u64>, text: &str) -> Result<(), Fault> {
    match text.strip_prefix("fails ") {
        Some(numbers) => push_fails(into, numbers),
        None => Err(Fault::Row("of a source and a sink it is said what fails")),
    }
}

/// The file `puts KEYS BLOCK VERSION N`.
fn read_puts(alloc: Global, text: &str) -> Result<Vec<u8>, Fault> {
    let (keys, text) = first_word(text);
    let (block, text) = first_word(text);
    let (version, puts) = first_word(text);
    file_after_puts(alloc, keys, block, version, size(puts)?)
}

/// The change `byte PLACE VALUE..`.
fn read_bytes(alloc: Global, text: &str) -> Result<Change, Fault> {
    let (place, values) = first_size(text)?;
    let mut bytes = Vec::new(alloc);
    for word in values.split(' ') {
        bytes.push(byte(word)?)?;
    }
    Ok(Change::Bytes(place, bytes))
}

/// Reads what a device was left with.
fn read_left(text: &str, which: Which) -> Result<Which, Fault> {
    match text {
        "" => Ok(which),
        "first" => Ok(Which::First),
        "second" => Ok(Which::Second),
        _ => Err(Fault::Row("no device")),
    }
}

/// Reads what a device is before the session.
fn read_setup(alloc: Global, setup: &mut Setup, which: Which, text: &str) -> Result<(), Fault> {
    let (word, rest) = first_word(text);
    match word {
        "fails" => push_fails(&mut setup.fails, rest)?,
        "room" => setup.room = size(rest)? as u64,
        "empty" => setup.begin = Begin::Bytes(Vec::new(alloc)),
        "zeros" => setup.begin = Begin::Bytes(vec![in alloc; 0; size(rest)?]?),
        "hex" => setup.begin = Begin::Bytes(hex_bytes(alloc, rest)?),
        "puts" => setup.begin = Begin::Bytes(read_puts(alloc, rest)?),
        "left" => setup.begin = Begin::Left(read_left(rest, which)?),
        "byte" => setup.changes.push(read_bytes(alloc, rest)?)?,
        "cut" => setup.changes.push(Change::Cut(size(rest)?))?,
        _ => return Err(Fault::Row("a device has no such fact")),
    }
    Ok(())
}

/// Reads what is shown.
fn read_show(show: &mut Show, text: &str) -> Result<(), Fault> {
    for word in text.split(' ') {
        match word {
            "calls" => show.calls = true,
            "size" => show.size = true,
            "header" => show.header = true,
            "cells" => show.cells = true,
            "zero" => show.zero = true,
            "sum" => show.sum = true,
            _ => return Err(Fault::Row("nothing of that name is shown")),
        }
    }
    Ok(())
}

/// The bytes that are changed in turn.
fn read_each_byte(text: &str) -> Result<Each, Fault> {
    let (from, rest) = first_size(text)?;
    let (to, device) = first_size(rest)?;
    Ok(Each::Byte(read_left(device, Which::First)?, from, to))
}

/// The calls that fail in turn.
fn read_each_call(caller: Caller, text: &str) -> Result<Each, Fault> {
    if text.is_empty() {
        return Ok(Each::Call(caller, 1, u64::MAX));
    }
    let (from, rest) = first_number(text)?;
    let to = if rest.is_empty() {
        u64::MAX
    } else {
        number(rest)?
    };
    Ok(Each::Call(caller, from, to))
}

/// Reads how a session is repeated.
fn read_each(text: &str) -> Result<Each, Fault> {
    let (word, rest) = first_word(text);
    match word {
        "first" => read_each_call(Caller::Device(Which::First), rest),
        "second" => read_each_call(Caller::Device(Which::Second), rest),
        "source" => read_each_call(Caller::Source, rest),
        "sink" => read_each_call(Caller::Sink, rest),
        "allocation" => read_each_call(Caller::Allocation, rest),
        "byte" => read_each_byte(rest),
        _ => Err(Fault::Row("nothing of that name fails in turn")),
    }
}

/// Reads the program's words.
fn read_words(alloc: Global, words: &mut Vec<String>, text: &str) -> Result<(), Fault> {
    if text.is_empty() {
        return Ok(());
    }
    for word in text.split(' ') {
        words.push(String::from_str(alloc, word)?)?;
    }
    Ok(())
}

/// Reads a fact of a session.
fn read_fact(alloc: Global, part: &mut Part, line: &str) -> Result<(), Fault> {
    if is_source(line) {
        return push_source(&mut part.source, line);
    }
    let (word, rest) = first_word(line);
    match word {
        "words" => read_words(alloc, &mut part.words, rest),
        "times" => push_times(alloc, &mut part.source, rest),
        "puts" => {
            let (first, last) = first_size(rest)?;
            push_puts(alloc, &mut part.source, first, size(last)?)
        }
        "pieces" => {
            part.piece = size(rest)?;
            Ok(())
        }
        "source" => read_fails(&mut part.source_fails, rest),
        "sink" => read_fails(&mut part.sink_fails, rest),
        "first" => read_setup(alloc, &mut part.first, Which::First, rest),
        "second" => read_setup(alloc, &mut part.second, Which::Second, rest),
        "show" => read_show(&mut part.show, rest),
        "each" => {
            part.each = Some(read_each(rest)?);
            Ok(())
        }
        _ => Err(Fault::Row("no line of a row begins so")),
    }
}

/// Begins a row.
pub(crate) fn begin_row(alloc: Global, title: &str) -> Result<Row, Fault> {
    Ok(Row {
        title: String::from_str(alloc, title)?,
        parts: vec![in alloc; Part::usual(alloc)]?,
    })
}

/// Reads a line of a row.
pub(crate) fn read_line(alloc: Global, row: &mut Row, line: &str) -> Result<(), Fault> {
    if line == "then" {
        row.parts.push(Part::usual(alloc))?;
        return Ok(());
    }
    match row.parts.last_mut() {
        Some(part) => read_fact(alloc, part, line),
        None => Err(Fault::Row("the line is in no row")),
    }
}
