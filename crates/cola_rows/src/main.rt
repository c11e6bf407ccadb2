//! The program `cola_rows`: it reads rows from standard input, does each in memory, and prints what came; or it compares
//! made lines with the plain session, or what `check` says of changed files with the plain
//! program; or it prints the statuses of the program `cola`.
#![tactic(auto)]

mod allocations;
mod allowed;
mod doing;
mod fault;
mod files;
mod judged;
mod made;
mod outside;
mod reading;
mod row;
mod running;
mod shown;
mod talk;
mod text;

use crate::doing::do_row;
use crate::fault::Fault;
use crate::judged::compare_judged;
use crate::made::compare_made;
use crate::reading::{begin_row, read_line};
use crate::row::Row;
use crate::running::Left;
use cola_status::Status;
use std::alloc::{AllocError, Global};
use std::process::ExitCode;
use std::rt::Env;
use std::{env, io};

/// Adds why a row cannot be done, with the number of a line.
fn push_fault(out: &mut String, number: usize, fault: Fault) {
    let _ = match fault {
        Fault::Row(why) => writeln!(out, "bad row, line {number}: {why}"),
        Fault::Memory => writeln!(out, "bad row, line {number}: there is no memory"),
    };
}

/// Does the row that is under way, if one is.
fn end_row(
    alloc: Global,
    row: Option<Row>,
    left: &mut Left,
    out: &mut String,
) -> Result<(), Fault> {
    match row {
        Some(row) => do_row(alloc, &row, left, out),
        None => Ok(()),
    }
}

/// Takes a line of a file of rows: the row that is under way behind it.
fn take_line(
    alloc: Global,
    row: Option<Row>,
    line: &str,
    left: &mut Left,
    out: &mut String,
) -> Result<Option<Row>, Fault> {
    if line.is_empty() || line.starts_with("#") {
        return Ok(row);
    }
    if let Some(title) = line.strip_prefix("row ") {
        end_row(alloc, row, left, out)?;
        return Ok(Some(begin_row(alloc, title)?));
    }
    let Some(mut row) = row else {
        return Err(Fault::Row("the line is in no row"));
    };
    read_line(alloc, &mut row, line)?;
    Ok(Some(row))
}

/// Does the rows of a text, and adds what they print. Answers whether all could be done.
fn do_rows(alloc: Global, text: &str, out: &mut String) -> bool {
    let mut left = Left::nothing(alloc);
    let mut row = None;
    let mut number = 0usize;
    for line in text.split('\n') {
        number = number.saturating_add(1);
        match take_line(alloc, row, line, &mut left, out) {
            Ok(next) => row = next,
            Err(fault) => {
                push_fault(out, number, fault);
                return false;
            }
        }
    }
    match end_row(alloc, row, &mut left, out) {
        Ok(()) => true,
        Err(fault) => {
            push_fault(out, number, fault);
            false
        }
    }
}

/// What the words after the program's name ask for.
#[derive(Drop)]
enum Asked {
    Rows,
    Made(u32, u32),
    Judged(u32, u32),
    Statuses,
    Nothing,
}

/// Reads the words after the program's name.
fn read_arguments<R: Env + AllocGlobal>(rt: &R) -> Asked {
    let Ok(words) = env::args(rt) else {
        return Asked::Nothing;
    };
    let mut words = words.skip(1);
    let Some(mode) = words.next() else {
        return Asked::Rows;
    };
    let seed = words.next();
    let count = words.next();
    match (mode.as_str(), seed, count) {
        ("made", Some(seed), Some(count)) => match (seed.parse::<u32>(), count.parse::<u32>()) {
            (Ok(seed), Ok(count)) => Asked::Made(seed, count),
            _ => Asked::Nothing,
        },
        ("judged", Some(seed), Some(count)) => match (seed.parse::<u32>(), count.parse::<u32>()) {
            (Ok(seed), Ok(count)) => Asked::Judged(seed, count),
            _ => Asked::Nothing,
        },
        ("statuses", None, None) => Asked::Statuses,
        _ => Asked::Nothing,
    }
}

/// Adds a line for each status: its number, and what it means.
fn push_statuses(out: &mut String) -> Result<(), AllocError> {
    for status in Status::all() {
        let number = status.number();
        let text = status.text();
        writeln!(out, "{number} {text}")?;
    }
    Ok(())
}

/// Compares what `check` says of changed files with the plain program, and adds what came.
fn judge_files(alloc: Global, seed: u32, count: u32, out: &mut String) -> Result<bool, AllocError> {
    match compare_judged(alloc, seed, count, out) {
        Ok(are_alike) => Ok(are_alike),
        Err(fault) => {
            push_fault(out, 0, fault);
            Ok(false)
        }
    }
}

/// Does what the words ask for, and adds what is to be printed. Answers whether all is well.
fn do_asked(alloc: Global, asked: Asked, text: &str, out: &mut String) -> Result<bool, AllocError> {
    match asked {
        Asked::Rows => Ok(do_rows(alloc, text, out)),
        Asked::Made(seed, count) => compare_made(alloc, seed, count, out),
        Asked::Judged(seed, count) => judge_files(alloc, seed, count, out),
        Asked::Statuses => {
            push_statuses(out)?;
            Ok(true)
        }
        Asked::Nothing => {
            out.push_str(
                "cola_rows < FILE, cola_rows made SEED COUNT, cola_rows judged SEED COUNT, or cola_rows statuses\n",
            )?;
            Ok(false)
        }
    }
}

fn main(rt: HostRuntime) -> io::Result<ExitCode> {
    let alloc = rt.alloc();
    let asked = read_arguments(&rt);
    let text = match asked {
        Asked::Rows => io::read_to_string(alloc, rt.reader())?,
        _ => String::new(alloc),
    };
    let mut out = String::new(alloc);
    let is_well = do_asked(alloc, asked, &text, &mut out)?;
    print!(rt; "{out}")?;
    Ok(ExitCode::from(if is_well { 0 } else { 1 }))
}
