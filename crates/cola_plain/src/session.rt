//! A session over a map in memory: the replies to the lines of a list of bytes.

ghost use Rattle.std.specs.Prelude.{◌≡◌, ℕ, true, false, map, take, IfOk, OnErr, option_map, option_to_list};
ghost use Rattle.cola_spec.specs.Map.{count, empty_map, Map as SpecMap, Shape as SpecShape};
ghost use Rattle.cola_spec.specs.Lines.{line_of, raw_lines};
ghost use Rattle.cola_spec.specs.Command.{line_requests, requests};
ghost use Rattle.cola_spec.specs.Reply.{Cut, Fault};
ghost use Rattle.cola_spec.specs.Machine.{Open, Closing, Closed, command_after, command_reply, plain_turns, reopen_after, reopen_reply, turns_text};
ghost use Rattle.cola_plain.specs.Command.{command_with, request_with, shape_of};
ghost use Rattle.cola_plain.specs.Faults.{command_faulted_after, command_faulted_reply, command_short_reply, faulted_after, faulted_reply, short_reply};
ghost use Rattle.cola_plain.specs.Map.{pair_with};
ghost use Rattle.cola_plain.specs.Reply.{reply_with};
ghost use Rattle.cola_plain.specs.Session.{small_shape, state_at};

use crate::command::{Command, parse};
use crate::lines::{raw_lines, text_of};
use crate::map::{Map, Row};
use crate::reply::{Failure, Refusal, Reply, reply_text};
use crate::shape::Shape;
use std::alloc::{AllocError, Global};

/// Whether a session is open, met a fault at its closing, or is closed, with the state byte of its file.
#[derive(Clone, Copy, Drop)]
enum Stage {
    Open,
    Closing,
    Closed(u8),
}

/// A map, and whether it is open, about to be closed, or closed.
#[derive(Drop)]
pub struct Session {
    map: Map,
    stage: Stage,
}

/// What a line asks: nothing where it is empty, else one request, which is a command or none.
pub(crate) fn asked<'a>(
    alloc: Global,
    shape: &Shape,
    raw: &'a [u8],
) -> Result<Option<Option<Command<'a>>>, AllocError>
    ensures { IfOk result
        (λ request. option_to_list (option_map request_with request) ≡ line_requests
        (shape_of shape.now) (line_of raw.now)) }
{
    let Some(text) = text_of(raw) else {
        return Ok(Some(None));
    };
    if text.is_empty() {
        return Ok(None);
    }
    Ok(Some(parse(alloc, shape, text)?))
}

/// The reply to a command after a closing that met a fault, and the stage after it.
fn closing_answer(command: Command) -> (Reply, Stage)
    ensures reply { (shape : SpecShape) (m : SpecMap) →
        reply_with result.0 ≡ command_reply shape (Closing m) (command_with command.entry) }
    ensures stage { (shape : SpecShape) (m : SpecMap) →
        state_at result.1 m ≡ command_after shape (Closing m) (command_with command.entry) }
{
    match command {
        Command::Put(_, _) => (Reply::Shut, Stage::Closing),
        Command::PutIf(_, _, _) => (Reply::Shut, Stage::Closing),
        Command::Del(_) => (Reply::Shut, Stage::Closing),
        Command::Get(_) => (Reply::Shut, Stage::Closing),
        Command::Stamp(_) => (Reply::Shut, Stage::Closing),
        Command::Range(_, _) => (Reply::Shut, Stage::Closing),
        Command::Scan(_, _) => (Reply::Shut, Stage::Closing),
        Command::Count => (Reply::Shut, Stage::Closing),
        Command::Close => (Reply::Closed, Stage::Closed(0)),
        Command::Reopen => (Reply::Already, Stage::Closing),
    }
}

/// What an opening answers by the state byte, where there are so many keys, and the stage after it.
fn opening_answer(keys: usize, byte: u8) -> (Reply, Stage)
    ensures reply { (m : SpecMap) → keys ≡ count m → reply_with result.0 ≡ reopen_reply m byte }
    ensures stage { (m : SpecMap) → state_at result.1 m ≡ reopen_after m byte }
{
    if byte == 0 {
        return (Reply::Opened(keys), Stage::Open);
    }
    if byte == 1 {
        return (Reply::Refused(Refusal::NotClosed), Stage::Closed(byte));
    }
    (Reply::Refused(Refusal::NotStore), Stage::Closed(byte))
}

/// The reply to a command while a session of so many keys is closed, and the stage after it.
fn closed_answer(keys: usize, byte: u8, command: Command) -> (Reply, Stage)
    ensures reply { (shape : SpecShape) (m : SpecMap) → keys ≡ count m →
        reply_with result.0 ≡ command_reply shape (Closed m byte) (command_with command.entry) }
    ensures stage { (shape : SpecShape) (m : SpecMap) →
        state_at result.1 m ≡ command_after shape (Closed m byte) (command_with command.entry) }
{
    match command {
        Command::Put(_, _) => (Reply::Shut, Stage::Closed(byte)),
        Command::PutIf(_, _, _) => (Reply::Shut, Stage::Closed(byte)),
        Command::Del(_) => (Reply::Shut, Stage::Closed(byte)),
        Command::Get(_) => (Reply::Shut, Stage::Closed(byte)),
        Command::Stamp(_) => (Reply::Shut, Stage::Closed(byte)),
        Command::Range(_, _) => (Reply::Shut, Stage::Closed(byte)),
        Command::Scan(_, _) => (Reply::Shut, Stage::Closed(byte)),
        Command::Count => (Reply::Shut, Stage::Closed(byte)),
        Command::Close => (Reply::Already, Stage::Closed(byte)),
        Command::Reopen => opening_answer(keys, byte),
    }
}

/// The first rows of a range that a fault cut.
fn cut(mut rows: Vec<Row>, most: usize) -> Reply
    ensures { reply_with result ≡ Cut (take most (map pair_with rows.items)) Fault }
{
    rows.truncate(most);
    Reply::Cut(rows, Failure::Fault)
}

/// What a command is answered that meets a fault after a closing that met one, if it can.
fn closing_faulted(command: Command) -> Option<Reply>
    ensures { (rows : ℕ) (m : SpecMap) →
        option_map reply_with result ≡ command_faulted_reply rows (Closing m)
        (command_with command.entry) }
{
    match command {
        Command::Close => Some(Reply::Failed(Failure::Fault)),
        _ => None,
    }
}

/// What a command is answered that meets a fault while the session is closed, if it can, and the stage
/// after it, where the fault leaves `after` as the state byte.
fn closed_faulted(byte: u8, after: u8, command: Command) -> (Option<Reply>, Stage)
    ensures reply { (rows : ℕ) (m : SpecMap) →
        option_map reply_with result.0 ≡ command_faulted_reply rows (Closed m byte)
        (command_with command.entry) }
    ensures stage { (m : SpecMap) →
        state_at result.1 m ≡ command_faulted_after after (Closed m byte)
        (command_with command.entry) }
{
    match command {
        Command::Reopen => (Some(Reply::Failed(Failure::Fault)), Stage::Closed(after)),
        _ => (None, Stage::Closed(byte)),
    }
}

/// What a command is answered that finds no memory while the session is closed, if it can.
fn closed_short(byte: u8, command: Command) -> Option<Reply>
    ensures { (m : SpecMap) →
        option_map reply_with result ≡ command_short_reply (Closed m byte)
        (command_with command.entry) }
{
    match command {
        Command::Reopen => {
            if byte == 0 {
                return Some(Reply::Refused(Refusal::Memory));
            }
            None
        }
        _ => None,
    }
}

impl Session {
    ghost use Rattle.std.specs.Prelude.{◌≡◌, ◌⊎◌, ℕ, true, false, take, IfOk, OnErr};
    ghost use Rattle.cola_spec.specs.Map.{empty_map, Map as SpecMap, Shape as SpecShape};
    ghost use Rattle.cola_spec.specs.Lines.{line_of, raw_lines};
    ghost use Rattle.cola_spec.specs.Command.{line_requests, requests};
    ghost use Rattle.cola_spec.specs.Machine.{State, Open, Closed, command_after, command_reply, plain_after, plain_last, plain_reply, plain_turns, turns_text};
    ghost use Rattle.cola_plain.specs.Command.{command_with, request_with, shape_of};
    ghost use Rattle.cola_plain.specs.Map.{Stands};
    ghost use Rattle.cola_plain.specs.Reply.{reply_with};
    ghost use Rattle.cola_plain.specs.Session.{SessionStands};
    ghost use Rattle.cola_plain.specs.declared.session.Stage.TheVariants as stage;

    /// An open session over the map with no key.
    pub fn new(alloc: Global) -> Session
        ensures { SessionStands result (Open empty_map) }
    {
        Session {
            map: Map::new(alloc),
            stage: Stage::Open,
        }
    }

    /// The reply to a command while the session is open. An error comes only for want of memory, and changes
    /// nothing.
    fn open_answer(
        &mut self,
        alloc: Global,
        shape: &Shape,
        command: Command,
    ) -> Result<Reply, AllocError>
        ensures answer { (m : SpecMap) → Stands self.old.map m → self.old.stage ≡ stage.Open →
            IfOk result (λ reply.
            (reply_with reply ≡ command_reply (shape_of shape.now) (Open m)
            (command_with command.entry))
            × SessionStands self.new
            (command_after (shape_of shape.now) (Open m) (command_with command.entry))) }
        ensures kept { (m : SpecMap) → Stands self.old.map m →
            OnErr result (Stands self.new.map m × (self.new.stage ≡ self.old.stage)) }
    {
        match command {
            Command::Put(key, value) => Ok(Reply::Put(self.map.put(alloc, shape, key, value)?)),
            Command::PutIf(key, seen, value) => {
                Ok(Reply::Put(self.map.put_if(alloc, shape, key, seen, value)?))
            }
            Command::Del(key) => Ok(Reply::Deleted(self.map.delete(alloc, key)?)),
            Command::Get(key) => Ok(Reply::Got(self.map.get(alloc, key)?)),
            Command::Stamp(key) => Ok(Reply::Stamped(self.map.stamp(key))),
            Command::Range(low, high) => Ok(Reply::Rows(self.map.range(alloc, low, Some(high))?)),
            Command::Scan(low, most) => Ok(Reply::Rows(self.map.scan(alloc, low, most)?)),
            Command::Count => Ok(Reply::Counted(self.map.count())),
            Command::Close => {
                self.stage = Stage::Closed(0);
                Ok(Reply::Closed)
            }
            Command::Reopen => Ok(Reply::Already),
        }
    }

    /// The reply to a request. An error comes only for want of memory, and changes nothing.
    pub fn answer(
        &mut self,
        alloc: Global,
        shape: &Shape,
        request: Option<Command>,
    ) -> Result<Reply, AllocError>
        ensures answer { (state : State) → SessionStands self.old state →
            IfOk result (λ reply.
            (reply_with reply ≡ plain_reply (shape_of shape.now) state (request_with request.entry))
            × SessionStands self.new
            (plain_after (shape_of shape.now) state (request_with request.entry))) }
        ensures kept { (state : State) → SessionStands self.old state →
            OnErr result (SessionStands self.new state) }
    {
        let Some(command) = request else {
            return Ok(Reply::Bad);
        };
        match self.stage {
            Stage::Open => self.open_answer(alloc, shape, command),
            Stage::Closing => {
                let (reply, stage) = closing_answer(command);
                self.stage = stage;
                Ok(reply)
            }
            Stage::Closed(byte) => {
                let (reply, stage) = closed_answer(self.map.count(), byte, command);
                self.stage = stage;
                Ok(reply)
            }
        }
    }

    /// What a command is answered that meets a fault after so many rows while the session is open, if it
    /// can, and the stage after it.
    fn open_faulted(
        &self,
        alloc: Global,
        command: Command,
        rows: usize,
    ) -> Result<(Option<Reply>, Stage), AllocError>
        ensures { (m : SpecMap) → Stands self.now.map m →
            IfOk result (λ step.
            (option_map reply_with step.0 ≡ command_faulted_reply rows (Open m)
            (command_with command.entry))
            × ((byte : ℕ) →
            state_at step.1 m ≡ command_faulted_after byte (Open m) (command_with command.entry))) }
    {
        match command {
            Command::Put(_, _) => Ok((Some(Reply::Failed(Failure::Fault)), Stage::Open)),
            Command::PutIf(_, _, _) => Ok((Some(Reply::Failed(Failure::Fault)), Stage::Open)),
            Command::Del(_) => Ok((Some(Reply::Failed(Failure::Fault)), Stage::Open)),
            Command::Get(_) => Ok((Some(Reply::Failed(Failure::Fault)), Stage::Open)),
            Command::Stamp(_) => Ok((Some(Reply::Failed(Failure::Fault)), Stage::Open)),
            Command::Range(low, high) => {
                let all = self.map.range(alloc, low, Some(high))?;
                Ok((Some(cut(all, rows)), Stage::Open))
            }
            Command::Scan(low, most) => {
                let all = self.map.scan(alloc, low, most)?;
                Ok((Some(cut(all, rows)), Stage::Open))
            }
            Command::Count => Ok((None, Stage::Open)),
            Command::Close => Ok((Some(Reply::Failed(Failure::Fault)), Stage::Closing)),
            Command::Reopen => Ok((None, Stage::Open)),
        }
    }

    /// The reply to a request that meets a fault of the device: after so many rows, where it is a range or
    /// a scan, and with `byte` as the state byte that the file then has, where it is an opening. `None`, and
    /// the state is kept, exactly where no fault can come. An error comes only for want of memory, and
    /// changes nothing.
    pub fn faulted(
        &mut self,
        alloc: Global,
        request: Option<Command>,
        rows: usize,
        byte: u8,
    ) -> Result<Option<Reply>, AllocError>
        ensures step { (state : State) → SessionStands self.old state →
            IfOk result (λ reply.
            (option_map reply_with reply ≡ faulted_reply rows state (request_with request.entry))
            × SessionStands self.new (faulted_after byte state (request_with request.entry))) }
        ensures kept { OnErr result (self.new ≡ self.old) }
    {
        let Some(command) = request else {
            return Ok(None);
        };
        match self.stage {
            Stage::Open => {
                let (reply, stage) = self.open_faulted(alloc, command, rows)?;
                self.stage = stage;
                Ok(reply)
            }
            Stage::Closing => Ok(closing_faulted(command)),
            Stage::Closed(before) => {
                let (reply, stage) = closed_faulted(before, byte, command);
                self.stage = stage;
                Ok(reply)
            }
        }
    }

    /// The reply to a request that finds no memory, after which the session is as it was. `None` exactly
    /// where that cannot be.
    pub fn short_of_memory(&self, request: Option<Command>) -> Option<Reply>
        ensures { (state : State) → SessionStands self.now state →
            option_map reply_with result ≡ short_reply state (request_with request.entry) }
    {
        let Some(command) = request else {
            return None;
        };
        match self.stage {
            Stage::Open => None,
            Stage::Closing => None,
            Stage::Closed(byte) => closed_short(byte, command),
        }
    }

    /// The text of the reply to a line, which is empty where the line is. An error comes only for want of
    /// memory, with the line carried out or not.
    fn answer_line(
        &mut self,
        alloc: Global,
        shape: &Shape,
        raw: &[u8],
    ) -> Result<Vec<u8>, AllocError>
        ensures text { (state : State) → SessionStands self.old state →
            IfOk result (λ text.
            (text.items ≡ turns_text false
            (plain_turns (shape_of shape.now) state
            (line_requests (shape_of shape.now) (line_of raw.now))))
            × SessionStands self.new
            (plain_last (shape_of shape.now) state
            (line_requests (shape_of shape.now) (line_of raw.now)))) }
        ensures refused { (state : State) → SessionStands self.old state →
            OnErr result (SessionStands self.new state
            ⊎ SessionStands self.new
            (plain_last (shape_of shape.now) state
            (line_requests (shape_of shape.now) (line_of raw.now)))) }
    {
        match asked(alloc, shape, raw)? {
            Some(request) => {
                let reply = self.answer(alloc, shape, request)?;
                reply_text(alloc, &reply, false, 0)
            }
            None => Ok(Vec::new(alloc)),
        }
    }

    /// The texts of the replies to the lines of a list of bytes. An error comes only for want of memory;
    /// some first lines are then carried out, and the others are not.
    pub fn run(&mut self, alloc: Global, shape: &Shape, bytes: &[u8]) -> Result<Vec<u8>, AllocError>
        ensures text { (state : State) → SessionStands self.old state →
            IfOk result (λ text.
            (text.items ≡ turns_text false
            (plain_turns (shape_of shape.now) state
            (requests (shape_of shape.now) (raw_lines bytes.now))))
            × SessionStands self.new
            (plain_last (shape_of shape.now) state
            (requests (shape_of shape.now) (raw_lines bytes.now)))) }
        ensures refused { (state : State) → SessionStands self.old state →
            OnErr result ((lines : ℕ)
            × SessionStands self.new
            (plain_last (shape_of shape.now) state
            (requests (shape_of shape.now) (take lines (raw_lines bytes.now))))) }
    {
        let lines = raw_lines(alloc, bytes)?;
        let mut text = Vec::new(alloc);
        for raw in &lines {
            let reply = self.answer_line(alloc, shape, raw)?;
            text.extend_from_slice(&reply)?;
        }
        Ok(text)
    }
}

/// The texts of the replies of a session over a map of at most `limit` keys, which begins empty and has no
/// stamps, to the lines of a list of bytes. An error comes only for want of memory.
pub fn mem_session(alloc: Global, limit: usize, bytes: &[u8]) -> Result<Vec<u8>, AllocError>
    ensures { IfOk result
        (λ text. text.items ≡ turns_text false
        (plain_turns (small_shape limit) (Open empty_map)
        (requests (small_shape limit) (raw_lines bytes.now)))) }
{
    let shape = Shape {
        limit,
        key_limit: 24,
        value_limit: 32,
        stamped: false,
    };
    Session::new(alloc).run(alloc, &shape, bytes)
}
