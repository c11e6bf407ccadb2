//! How the steps of a session went, as its replies show it.
use cola_plain::command::Command;
use cola_plain::lines::ended_lines;
use cola_plain::reply::{Failure, Reply};
use cola_plain::script::{Choice, Move};
use cola_plain::turn::Turn;
use std::alloc::{AllocError, Global};

/// The state byte that a file had before it was to be opened, by the last line of a reply: that of the reply, where it is an
/// opening's, and else the one of a later reply.
fn byte_before(line: &[u8], later: u8) -> u8 {
    if line.starts_with(b"open ") {
        return 0;
    }
    match line {
        b"notclosed" => 1,
        b"notstore" => 2,
        _ => later,
    }
}

/// The script by which a plain session gives these replies, if one does: a step met a fault where its reply ends in `fault`,
/// after as many rows as stand before it, and left the state byte that the next opening shows.
pub(crate) fn script_of(alloc: Global, replies: &[u8]) -> Result<Vec<Move>, AllocError> {
    let lines = ended_lines(alloc, replies)?;
    let mut ends = Vec::new(alloc);
    let mut rows = 0usize;
    for line in &lines {
        if line.starts_with(b"row ") {
            rows = rows.saturating_add(1);
        } else {
            ends.push((*line, rows))?;
            rows = 0;
        }
    }
    let mut script = Vec::new(alloc);
    let mut byte = 0;
    for (line, rows) in ends.iter().rev() {
        let choice = match *line {
            b"fault" => Choice::Faulted(*rows, byte),
            _ => Choice::Plain,
        };
        script.push(Move { choice, ticks: 0 })?;
        byte = byte_before(line, byte);
    }
    script.reverse();
    Ok(script)
}

/// Whether the last file that was to be opened met a fault.
pub(crate) fn is_cut_off(turns: &[Turn]) -> bool {
    let mut cut_off = false;
    for turn in turns {
        match (turn.request, &turn.answer) {
            (Some(Command::Reopen), Reply::Failed(Failure::Fault)) => cut_off = true,
            (_, Reply::Opened(_)) => cut_off = false,
            _ => {}
        }
    }
    cut_off
}
