//! A row, done: its sessions one after another, or the same sessions over and over with one thing changed.
use crate::fault::Fault;
use crate::row::{Caller, Each, Part, Row, Which};
use crate::running::{Calls, Left, Twist, bytes_of, run_part};
use std::alloc::{AllocError, Global};

/// Outcomes of numbers that come one after another, where those that are the same are one group.
#[derive(Drop)]
struct Groups {
    /// What the numbers are of, where there is one and where there are more.
    one: &'static str,
    more: &'static str,
    first: u64,
    last: u64,
    outcome: Option<String>,
}

impl Groups {
    /// No number yet.
    fn new(one: &'static str, more: &'static str) -> Groups {
        Groups {
            one,
            more,
            first: 0,
            last: 0,
            outcome: None,
        }
    }

    /// Adds the group under way.
    fn end(&mut self, out: &mut String) -> Result<(), AllocError> {
        let Some(outcome) = self.outcome.take() else {
            return Ok(());
        };
        if self.first == self.last {
            writeln!(out, "{} {}", self.one, self.first)?;
        } else {
            writeln!(out, "{} {} to {}", self.more, self.first, self.last)?;
        }
        out.push_str(&outcome)
    }

    /// Takes the outcome of the next number.
    fn take(&mut self, number: u64, outcome: String, out: &mut String) -> Result<(), AllocError> {
        let is_same = match &self.outcome {
            Some(before) => before.as_str() == outcome.as_str(),
            None => false,
        };
        if is_same {
            self.last = number;
            return Ok(());
        }
        self.end(out)?;
        self.first = number;
        self.last = number;
        self.outcome = Some(outcome);
        Ok(())
    }
}

/// Copies what was left.
fn copy_of(left: &Left) -> Result<Left, AllocError> {
    Ok(Left {
        first: left.first.clone()?,
        second: left.second.clone()?,
    })
}

/// Does the sessions from one on, the first of them with a twist: what they print, and the calls of that one.
fn run_from(
    alloc: Global,
    parts: &[Part],
    is_first: bool,
    twist: Twist,
    left: &Left,
) -> Result<(String, Calls), Fault> {
    let mut out = String::new(alloc);
    let mut left = copy_of(left)?;
    let mut calls = Calls {
        source: 0,
        sink: 0,
        first: 0,
        second: 0,
        allocation: 0,
    };
    for (place, part) in parts.iter().enumerate() {
        if place == 0 {
            calls = run_part(alloc, part, is_first, twist, &mut left, &mut out)?;
        } else {
            out.push_str("then\n")?;
            let _ = run_part(alloc, part, false, Twist::Nothing, &mut left, &mut out)?;
        }
    }
    Ok((out, calls))
}

/// Adds how many allocations a session makes, where the one with a number was the first that it did not make.
fn push_allocations(caller: Caller, number: u64, out: &mut String) -> Result<(), Fault> {
    if caller == Caller::Allocation && number > 0 {
        writeln!(out, "allocations {}", number - 1)?;
    }
    Ok(())
}

/// Does sessions once for each failing call, until fewer calls are made.
fn run_calls(
    alloc: Global,
    parts: &[Part],
    is_first: bool,
    caller: Caller,
    from: u64,
    to: u64,
    left: &Left,
    out: &mut String,
) -> Result<(), Fault> {
    let mut groups = Groups::new("call", "calls");
    for number in from..=to.min(from.saturating_add(1_000_000)) {
        let twist = Twist::Call(caller, number);
        let (outcome, calls) = run_from(alloc, parts, is_first, twist, left)?;
        if calls.of(caller) < number {
            groups.end(out)?;
            return push_allocations(caller, number, out);
        }
        groups.take(number, outcome, out)?;
    }
    groups.end(out)?;
    Ok(())
}

/// What sessions print where a byte of a device is each of three others. Values with one outcome are named together,
/// where not all have it.
fn outcome_of_byte(
    alloc: Global,
    parts: &[Part],
    is_first: bool,
    which: Which,
    place: usize,
    was: u8,
    left: &Left,
) -> Result<String, Fault> {
    let mut all = String::new(alloc);
    let mut groups = Vec::new(alloc);
    for value in [0, 255, was ^ 254] {
        if value == was {
            continue;
        }
        let twist = Twist::Byte(which, place, value);
        let (outcome, _) = run_from(alloc, parts, is_first, twist, left)?;
        groups.push((value, outcome))?;
    }
    let is_one = match groups.first() {
        Some((_, first)) => groups
            .iter()
            .all(|(_, other)| other.as_str() == first.as_str()),
        None => true,
    };
    for (place, (value, outcome)) in groups.iter().enumerate() {
        if is_one && place > 0 {
            break;
        }
        if !is_one {
            writeln!(all, "value {value}")?;
        }
        all.push_str(outcome)?;
    }
    Ok(all)
}

/// Does sessions once for each other value of each byte.
fn run_bytes(
    alloc: Global,
    parts: &[Part],
    is_first: bool,
    which: Which,
    from: usize,
    to: usize,
    left: &Left,
    out: &mut String,
) -> Result<(), Fault> {
    let Some(part) = parts.first() else {
        return Ok(());
    };
    let usual = left.usual(is_first || which == Which::Second);
    let setup = match which {
        Which::First => &part.first,
        Which::Second => &part.second,
    };
    let bytes = bytes_of(alloc, setup, usual, left)?;
    let mut groups = Groups::new("byte", "bytes");
    for place in from..=to {
        let Some(was) = bytes.get(place).copied() else {
            break;
        };
        let outcome = outcome_of_byte(alloc, parts, is_first, which, place, was, left)?;
        groups.take(place as u64, outcome, out)?;
    }
    groups.end(out)?;
    Ok(())
}

/// Does a row, and adds what it prints. Sessions that are done over and over leave behind what was there before.
pub(crate) fn do_row(
    alloc: Global,
    row: &Row,
    left: &mut Left,
    out: &mut String,
) -> Result<(), Fault> {
    out.push_str("row ")?;
    out.push_str(&row.title)?;
    out.push('\n')?;
    for (place, part) in row.parts.iter().enumerate() {
        let is_first = place == 0;
        if !is_first {
            out.push_str("then\n")?;
        }
        let parts = row.parts.get(place..).unwrap_or(&[]);
        match part.each {
            None => {
                let _ = run_part(alloc, part, is_first, Twist::Nothing, left, out)?;
            }
            Some(Each::Call(caller, from, to)) => {
                return run_calls(alloc, parts, is_first, caller, from, to, left, out);
            }
            Some(Each::Byte(which, from, to)) => {
                return run_bytes(alloc, parts, is_first, which, from, to, left, out);
            }
        }
    }
    Ok(())
}
