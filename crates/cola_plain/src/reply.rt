//! The replies to the lines of a session, and their texts.

ghost use Rattle.std.specs.Prelude.{◌≡◌, ◌++◌, ◌<◌, ◌^◌, ℕ, map, IfOk, OnOk, codes, decimal, option_map, length};
ghost use Rattle.cola_spec.specs.Reply.{cost_suffix, failure_text, line, outcome_suffix, outcome_text, refusal_text, reply_text, row_text, rows_text, stamp_text, value_text};
ghost use Rattle.cola_plain.specs.Map.{outcome_with, pair_with};
ghost use Rattle.cola_plain.specs.Reply.{failure_with, refusal_with, reply_with};

use crate::map::{PutOutcome, Row};
use std::alloc::{AllocError, Global};

/// Why a table could not answer: the device failed, a cell's bytes are no spelling, or a level's next
/// run is full.
#[derive(Clone, Copy, Drop)]
pub enum Failure {
    Fault,
    Damaged(u64),
    Overfull(u64),
}

/// Why a store was not opened again.
#[derive(Clone, Copy, Drop)]
pub enum Refusal {
    NotStore,
    NotClosed,
    Small,
    Memory,
}

/// The reply to a line.
#[derive(Drop)]
pub enum Reply {
    Put(PutOutcome),
    Deleted(Option<Vec<u8>>),
    Got(Option<Vec<u8>>),
    Stamped(Option<u64>),
    Rows(Vec<Row>),
    Cut(Vec<Row>, Failure),
    Counted(usize),
    Failed(Failure),
    Closed,
    Opened(usize),
    Refused(Refusal),
    Already,
    Shut,
    Bad,
}

/// A line of a word and what follows it.
fn line(alloc: Global, word: &[u8], rest: &[u8]) -> Result<Vec<u8>, AllocError>
    ensures { IfOk result (λ text. text.items ≡ line (word.now ++ rest.now)) }
{
    let mut text = Vec::from_slice(alloc, word)?;
    text.extend_from_slice(rest)?;
    text.push(b'\n')?;
    Ok(text)
}

/// A line of a word and a number.
fn number_line(alloc: Global, word: &[u8], number: u64) -> Result<Vec<u8>, AllocError>
    ensures { IfOk result (λ text. text.items ≡ line (word.now ++ decimal number)) }
{
    let digits = format!(in alloc; "{number}")?;
    line(alloc, word, digits.as_bytes())
}

/// The number of cell accesses behind a reply, where costs are asked for.
fn cost_suffix(alloc: Global, cost: bool, ticks: u64) -> Result<Vec<u8>, AllocError>
    ensures { IfOk result (λ text. text.items ≡ cost_suffix cost ticks) }
{
    if cost {
        let digits = format!(in alloc; "{ticks}")?;
        let mut text = Vec::from_slice(alloc, b" # ")?;
        text.extend_from_slice(digits.as_bytes())?;
        return Ok(text);
    }
    Ok(Vec::new(alloc))
}

/// A line of a word and what follows it, with its cost where costs are asked for.
fn costed_line(
    alloc: Global,
    word: &[u8],
    rest: &[u8],
    cost: bool,
    ticks: u64,
) -> Result<Vec<u8>, AllocError>
    ensures { IfOk result
        (λ text. text.items ≡ line ((word.now ++ rest.now) ++ cost_suffix cost ticks)) }
{
    let suffix = cost_suffix(alloc, cost, ticks)?;
    let mut text = Vec::from_slice(alloc, word)?;
    text.extend_from_slice(rest)?;
    line(alloc, &text, &suffix)
}

/// A line of a word and a number, with its cost where costs are asked for.
fn costed_number_line(
    alloc: Global,
    word: &[u8],
    number: u64,
    cost: bool,
    ticks: u64,
) -> Result<Vec<u8>, AllocError>
    ensures { IfOk result
        (λ text. text.items ≡ line ((word.now ++ decimal number) ++ cost_suffix cost ticks)) }
{
    let digits = format!(in alloc; "{number}")?;
    costed_line(alloc, word, digits.as_bytes(), cost, ticks)
}

/// A line of a word and a value, or of `none`, with its cost where costs are asked for.
fn value_line(
    alloc: Global,
    word: &[u8],
    value: &Option<Vec<u8>>,
    cost: bool,
    ticks: u64,
) -> Result<Vec<u8>, AllocError>
    ensures { IfOk result
        (λ text. text.items ≡ line
        (value_text word.now (option_map (λ v. v.items) value.now) ++ cost_suffix cost ticks)) }
{
    match value {
        Some(value) => costed_line(alloc, word, value, cost, ticks),
        None => costed_line(alloc, b"none", b"", cost, ticks),
    }
}

/// The line of a stamp, or of `none`, with its cost where costs are asked for.
fn stamp_line(
    alloc: Global,
    stamp: &Option<u64>,
    cost: bool,
    ticks: u64,
) -> Result<Vec<u8>, AllocError>
    ensures { IfOk result
        (λ text. text.items ≡ line (stamp_text stamp.now ++ cost_suffix cost ticks)) }
{
    match stamp {
        Some(stamp) => costed_number_line(alloc, b"at ", *stamp, cost, ticks),
        None => costed_line(alloc, b"none", b"", cost, ticks),
    }
}

/// The line of what a put answers. Its cost stands behind it where costs are asked for, but for a put
/// that met the limit of keys or of stamps.
fn outcome_line(
    alloc: Global,
    outcome: &PutOutcome,
    cost: bool,
    ticks: u64,
) -> Result<Vec<u8>, AllocError>
    ensures { IfOk result
        (λ text. text.items ≡ line
        (outcome_text (outcome_with outcome.now) ++ outcome_suffix cost ticks
        (outcome_with outcome.now))) }
{
    match outcome {
        PutOutcome::New => costed_line(alloc, b"new", b"", cost, ticks),
        PutOutcome::Old(value) => costed_line(alloc, b"old ", value, cost, ticks),
        PutOutcome::Full => line(alloc, b"full", b""),
        PutOutcome::Worn => line(alloc, b"worn", b""),
        PutOutcome::Other(stamp) => costed_number_line(alloc, b"other ", *stamp, cost, ticks),
    }
}

/// The line of a failure.
fn failure_line(alloc: Global, failure: &Failure) -> Result<Vec<u8>, AllocError>
    ensures { IfOk result (λ text. text.items ≡ line (failure_text (failure_with failure.now))) }
{
    match failure {
        Failure::Fault => line(alloc, b"fault", b""),
        Failure::Damaged(cell) => number_line(alloc, b"damaged ", *cell),
        Failure::Overfull(level) => number_line(alloc, b"overfull ", *level),
    }
}

/// The line of a refused opening.
fn refusal_line(alloc: Global, refusal: &Refusal) -> Result<Vec<u8>, AllocError>
    ensures { IfOk result (λ text. text.items ≡ line (refusal_text (refusal_with refusal.now))) }
{
    match refusal {
        Refusal::NotStore => line(alloc, b"notstore", b""),
        Refusal::NotClosed => line(alloc, b"notclosed", b""),
        Refusal::Small => line(alloc, b"small", b""),
        Refusal::Memory => line(alloc, b"memory", b""),
    }
}

/// The line of a row.
fn row_line(alloc: Global, row: &Row) -> Result<Vec<u8>, AllocError>
    ensures { IfOk result (λ text. text.items ≡ row_text (pair_with row.now)) }
{
    let mut word = Vec::from_slice(alloc, b"row ")?;
    word.extend_from_slice(&row.key)?;
    word.push(b' ')?;
    line(alloc, &word, &row.value)
}

/// The lines of rows.
fn rows_lines(alloc: Global, rows: &Vec<Row>) -> Result<Vec<u8>, AllocError>
    ensures { IfOk result (λ text. text.items ≡ rows_text (map pair_with rows.now.items)) }
{
    let mut text = Vec::new(alloc);
    for row in rows {
        let line = row_line(alloc, row)?;
        text.extend_from_slice(&line)?;
    }
    Ok(text)
}

/// The lines of rows, and the line with their number.
fn ended_rows(alloc: Global, rows: &Vec<Row>) -> Result<Vec<u8>, AllocError>
    ensures { IfOk result
        (λ text. text.items ≡ rows_text (map pair_with rows.now.items) ++ line
        (codes "end " ++ decimal (length rows.now.items))) }
{
    let mut text = rows_lines(alloc, rows)?;
    let end = number_line(alloc, b"end ", rows.len() as u64)?;
    text.extend_from_slice(&end)?;
    Ok(text)
}

/// The lines of rows, and the line of the failure that cut them.
fn cut_rows(alloc: Global, rows: &Vec<Row>, failure: &Failure) -> Result<Vec<u8>, AllocError>
    ensures { IfOk result
        (λ text. text.items ≡ rows_text (map pair_with rows.now.items) ++ line
        (failure_text (failure_with failure.now))) }
{
    let mut text = rows_lines(alloc, rows)?;
    let end = failure_line(alloc, failure)?;
    text.extend_from_slice(&end)?;
    Ok(text)
}

/// The text of a reply, with its line feeds, and where costs are asked for with the number of cell
/// accesses behind the replies that have one. An error comes only for want of memory.
pub fn reply_text(
    alloc: Global,
    reply: &Reply,
    cost: bool,
    ticks: u64,
) -> Result<Vec<u8>, AllocError>
    ensures { IfOk result (λ text. text.items ≡ reply_text cost ticks (reply_with reply.now)) }
{
    match reply {
        Reply::Put(outcome) => outcome_line(alloc, outcome, cost, ticks),
        Reply::Deleted(value) => value_line(alloc, b"gone ", value, cost, ticks),
        Reply::Got(value) => value_line(alloc, b"val ", value, cost, ticks),
        Reply::Stamped(stamp) => stamp_line(alloc, stamp, cost, ticks),
        Reply::Rows(rows) => ended_rows(alloc, rows),
        Reply::Cut(rows, failure) => cut_rows(alloc, rows, failure),
        Reply::Counted(keys) => number_line(alloc, b"count ", *keys as u64),
        Reply::Failed(failure) => failure_line(alloc, failure),
        Reply::Closed => line(alloc, b"closed", b""),
        Reply::Opened(keys) => number_line(alloc, b"open ", *keys as u64),
        Reply::Refused(refusal) => refusal_line(alloc, refusal),
        Reply::Already => line(alloc, b"already", b""),
        Reply::Shut => line(alloc, b"shut", b""),
        Reply::Bad => line(alloc, b"bad", b""),
    }
}
