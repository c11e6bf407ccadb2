//! Turns: a request, its reply, and the cell accesses that were made for it.

ghost use Rattle.std.specs.Prelude.{◌≡◌, ◌-◌, ◌^◌, ℕ, min, IfOk};
ghost use Rattle.cola_spec.specs.Machine.{faulted_one, faulted_steps, kind_of, ticks_of, turn_text, turns_text};
ghost use Rattle.cola_plain.specs.Reply.{reply_with};
ghost use Rattle.cola_plain.specs.Turns.{turn_with, turns_with};

use crate::command::Command;
use crate::reply::{Failure, Refusal, Reply, reply_text};
use std::alloc::{AllocError, Global};

/// A request, its reply, and the cell accesses that were made for it.
#[derive(Drop)]
pub struct Turn<'a> {
    pub request: Option<Command<'a>>,
    pub answer: Reply,
    pub ticks: u64,
}

/// The text of a turn's reply, with its cost where costs are asked for. An error comes only for want
/// of memory.
pub fn turn_text(alloc: Global, turn: &Turn, cost: bool) -> Result<Vec<u8>, AllocError>
    ensures { IfOk result (λ text. text.items ≡ turn_text cost (turn_with turn.now)) }
{
    reply_text(alloc, &turn.answer, cost, turn.ticks)
}

/// The texts of the replies of turns, one after another, with costs where they are asked for. An error
/// comes only for want of memory.
pub fn turns_text(alloc: Global, turns: &[Turn], cost: bool) -> Result<Vec<u8>, AllocError>
    ensures { IfOk result (λ text. text.items ≡ turns_text cost (turns_with turns.now)) }
{
    let mut text = Vec::new(alloc);
    for turn in turns {
        let reply = turn_text(alloc, turn, cost)?;
        text.extend_from_slice(&reply)?;
    }
    Ok(text)
}

/// 1 for the reply of a step that met a fault, else 0.
fn faulted_one(reply: &Reply) -> usize
    ensures { result ≡ faulted_one (kind_of (reply_with reply.now)) }
{
    match reply {
        Reply::Put(_) => 0,
        Reply::Deleted(_) => 0,
        Reply::Got(_) => 0,
        Reply::Stamped(_) => 0,
        Reply::Rows(_) => 0,
        Reply::Cut(_, Failure::Fault) => 1,
        Reply::Cut(_, Failure::Damaged(_)) => 0,
        Reply::Cut(_, Failure::Overfull(_)) => 0,
        Reply::Counted(_) => 0,
        Reply::Failed(Failure::Fault) => 1,
        Reply::Failed(Failure::Damaged(_)) => 0,
        Reply::Failed(Failure::Overfull(_)) => 0,
        Reply::Closed => 0,
        Reply::Opened(_) => 0,
        Reply::Refused(Refusal::NotStore) => 0,
        Reply::Refused(Refusal::NotClosed) => 0,
        Reply::Refused(Refusal::Small) => 0,
        Reply::Refused(Refusal::Memory) => 0,
        Reply::Already => 0,
        Reply::Shut => 0,
        Reply::Bad => 0,
    }
}

/// How many of the turns met a fault.
pub fn faulted_steps(turns: &[Turn]) -> usize
    ensures { result ≡ faulted_steps (turns_with turns.now) }
{
    let mut steps = 0;
    for turn in turns {
        steps += faulted_one(&turn.answer);
    }
    steps
}

/// The cell accesses of turns, and 2^64 - 1 where there are more.
pub fn ticks_of(turns: &[Turn]) -> u64
    ensures { result ≡ min (ticks_of (turns_with turns.now)) (2 ^ 64 - 1) }
{
    let mut ticks: u64 = 0;
    for turn in turns {
        ticks = ticks.saturating_add(turn.ticks);
    }
    ticks
}
