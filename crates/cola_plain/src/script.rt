//! Runs of a session by a script: how each step goes.

ghost use Rattle.std.specs.Prelude.{◌≡◌, ℕ, drop, map, All, IfOk};
ghost use Rattle.cola_spec.specs.Map.{empty_map};
ghost use Rattle.cola_spec.specs.Lines.{line_of, raw_lines};
ghost use Rattle.cola_spec.specs.Command.{requests};
ghost use Rattle.cola_plain.specs.Command.{request_with, shape_of};
ghost use Rattle.cola_spec.specs.Machine.{Open, History};
ghost use Rattle.cola_plain.specs.Scripts.{IsChoice, next_move, scripted_last, scripted_turns};
ghost use Rattle.cola_plain.specs.Turns.{turns_with};

use crate::command::Command;
use crate::lines::raw_lines;
use crate::reply::Reply;
use crate::session::{Session, asked};
use crate::shape::Shape;
use crate::turn::Turn;
use std::alloc::{AllocError, Global};

/// How a step goes: plainly, with a fault of the device, or finding no memory. A fault comes after so many
/// rows, where the request is a range or a scan, and leaves such a state byte in the file, where it is an
/// opening.
#[derive(Clone, Copy, Drop)]
pub enum Choice {
    Plain,
    Faulted(usize, u8),
    ShortOfMemory,
}

/// How a step goes, and how many cell accesses are made for it.
#[derive(Clone, Copy, Drop)]
pub struct Move {
    pub choice: Choice,
    pub ticks: u64,
}

/// The move at a place of a script: behind its end a plain step for which no cell access is made.
fn move_at(script: &[Move], place: usize) -> Move
    ensures { result ≡ next_move (drop place script.now) }
{
    if place < script.len() {
        return script[place];
    }
    Move {
        choice: Choice::Plain,
        ticks: 0,
    }
}

/// What the lines of a list of bytes ask, in order. An error comes only for want of memory.
pub fn requests<'a>(
    alloc: Global,
    shape: &Shape,
    bytes: &'a [u8],
) -> Result<Vec<Option<Command<'a>>>, AllocError>
    ensures { IfOk result
        (λ asked. map request_with asked.items ≡ requests (shape_of shape.now)
        (raw_lines bytes.now)) }
{
    let lines = raw_lines(alloc, bytes)?;
    let mut all = Vec::new(alloc);
    for raw in &lines {
        match asked(alloc, shape, raw)? {
            Some(request) => all.push(request)?,
            None => {}
        }
    }
    Ok(all)
}

impl Session {
    ghost use Rattle.std.specs.Prelude.{◌≡◌, ℕ, map, take, All, IfOk, OnErr, option_map};
    ghost use Rattle.cola_spec.specs.Machine.{State, History};
    ghost use Rattle.cola_plain.specs.Command.{request_with, shape_of};
    ghost use Rattle.cola_plain.specs.Reply.{reply_with};
    ghost use Rattle.cola_plain.specs.Session.{SessionStands};
    ghost use Rattle.cola_plain.specs.Turns.{turn_with, turns_with};
    ghost use Rattle.cola_plain.specs.Scripts.{IsChoice, chosen_after, chosen_reply, scripted_after, scripted_last, scripted_reply, scripted_turn, scripted_turns};

    /// The reply to a request whose step goes as chosen. `None`, and the state is kept, exactly where it
    /// cannot go so. An error comes only for want of memory, and changes nothing.
    pub fn chosen(
        &mut self,
        alloc: Global,
        shape: &Shape,
        request: Option<Command>,
        choice: Choice,
    ) -> Result<Option<Reply>, AllocError>
        ensures answer { (state : State) → SessionStands self.old state →
            IfOk result (λ reply.
            (option_map reply_with reply ≡ chosen_reply choice (shape_of shape.now) state
            (request_with request.entry))
            × SessionStands self.new
            (chosen_after choice (shape_of shape.now) state (request_with request.entry))) }
        ensures kept { (state : State) → SessionStands self.old state →
            OnErr result (SessionStands self.new state) }
    {
        match choice {
            Choice::Plain => Ok(Some(self.answer(alloc, shape, request)?)),
            Choice::Faulted(rows, byte) => self.faulted(alloc, request, rows, byte),
            Choice::ShortOfMemory => Ok(self.short_of_memory(request)),
        }
    }

    /// The reply to a request whose step goes as chosen, or plainly where it cannot go so. An error comes
    /// only for want of memory, and changes nothing.
    pub fn scripted(
        &mut self,
        alloc: Global,
        shape: &Shape,
        request: Option<Command>,
        choice: Choice,
    ) -> Result<Reply, AllocError>
        ensures answer { (state : State) → SessionStands self.old state →
            IfOk result (λ reply.
            (reply_with reply ≡ scripted_reply choice (shape_of shape.now) state
            (request_with request.entry))
            × SessionStands self.new
            (scripted_after choice (shape_of shape.now) state (request_with request.entry))) }
        ensures kept { (state : State) → SessionStands self.old state →
            OnErr result (SessionStands self.new state) }
    {
        match self.chosen(alloc, shape, request, choice)? {
            Some(reply) => Ok(reply),
            None => self.answer(alloc, shape, request),
        }
    }

    /// The turn of a request that goes as a move says. An error comes only for want of memory, and changes
    /// nothing.
    fn scripted_turn<'a>(
        &mut self,
        alloc: Global,
        shape: &Shape,
        request: Option<Command<'a>>,
        next: Move,
    ) -> Result<Turn<'a>, AllocError>
        ensures turn { (state : State) → SessionStands self.old state →
            IfOk result (λ turn.
            (turn_with turn ≡ scripted_turn next (shape_of shape.now) state
            (request_with request.entry))
            × SessionStands self.new
            (scripted_after next.choice (shape_of shape.now) state (request_with request.entry))) }
        ensures kept { (state : State) → SessionStands self.old state →
            OnErr result (SessionStands self.new state) }
    {
        let answer = self.scripted(alloc, shape, request, next.choice)?;
        Ok(Turn {
            request,
            answer,
            ticks: next.ticks,
        })
    }

    /// The turns of requests that go as a script says, move by move: plainly where a step cannot go so, and
    /// behind the script's end. An error comes only for want of memory; some first steps are then made, and
    /// the others are not.
    pub fn scripted_run<'a>(
        &mut self,
        alloc: Global,
        shape: &Shape,
        requests: &[Option<Command<'a>>],
        script: &[Move],
    ) -> Result<Vec<Turn<'a>>, AllocError>
        ensures turns { (state : State) → SessionStands self.old state →
            IfOk result (λ turns.
            (turns_with turns.items ≡ scripted_turns script.now (shape_of shape.now) state
            (map request_with requests.now))
            × SessionStands self.new
            (scripted_last script.now (shape_of shape.now) state (map request_with requests.now))) }
        ensures refused { (state : State) → SessionStands self.old state →
            OnErr result ((steps : ℕ)
            × SessionStands self.new
            (scripted_last script.now (shape_of shape.now) state
            (take steps (map request_with requests.now)))) }
        ensures run { (state : State) → SessionStands self.old state →
            All (λ move. IsChoice move.choice) script.now →
            IfOk result (λ turns. History (shape_of shape.now) state (turns_with turns.items)
            (scripted_last script.now (shape_of shape.now) state (map request_with requests.now))) }
    {
        let mut turns = Vec::new(alloc);
        for (place, request) in requests.iter().enumerate() {
            let turn = self.scripted_turn(alloc, shape, *request, move_at(script, place))?;
            turns.push(turn)?;
        }
        Ok(turns)
    }
}

/// The turns of a session over a map that begins empty, to the lines of a list of bytes, which go as a
/// script says. An error comes only for want of memory.
pub fn scripted_session<'a>(
    alloc: Global,
    shape: &Shape,
    bytes: &'a [u8],
    script: &[Move],
) -> Result<Vec<Turn<'a>>, AllocError>
    ensures turns { IfOk result
        (λ turns. turns_with turns.items ≡ scripted_turns script.now (shape_of shape.now)
        (Open empty_map) (requests (shape_of shape.now) (raw_lines bytes.now))) }
    ensures run { All (λ move. IsChoice move.choice) script.now →
        IfOk result (λ turns. History (shape_of shape.now) (Open empty_map) (turns_with turns.items)
        (scripted_last script.now (shape_of shape.now) (Open empty_map)
        (requests (shape_of shape.now) (raw_lines bytes.now)))) }
{
    let asked = requests(alloc, shape, bytes)?;
    Session::new(alloc).scripted_run(alloc, shape, &asked, script)
}
