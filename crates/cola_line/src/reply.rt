//! The replies that are one line, and their texts.
ghost use Rattle.std.specs.Prelude.{◌≡◌, ◌≤◌, ◌+◌, ◌∷◌, [], ◌++◌, ℕ, length, decimal};
ghost use Rattle.cola_spec.specs.Reply.{reply_text, outcome_text, outcome_suffix, cost_suffix, value_text, stamp_text, failure_text, refusal_text};
ghost use Rattle.cola_io.specs.Counted.{CountsFaults};
ghost use Rattle.cola_line.specs.Replied.{reply_of, outcome_of, failure_of, refusal_of, Wrote};

use arrayvec::ArrayVec;
use cola_cell::Value;
use cola_io::{Sink, SinkFault, put_all};
use itoa::Buffer;

/// What a put answers.
#[derive(Clone, Copy, Drop)]
pub enum Outcome {
    New,
    Old(Value),
    Full,
    Worn,
    Other(u64),
}

/// Why a table could not answer: the device failed, the bytes of a cell are no spelling, or the next
/// run of a level has no room.
#[derive(Clone, Copy, Drop)]
pub enum Failure {
    Fault,
    Damaged(u64),
    Overfull(u8),
}

/// Why a store was not opened again.
#[derive(Clone, Copy, Drop)]
pub enum Refusal {
    NotStore,
    NotClosed,
    Small,
    Memory,
}

/// A reply of one line.
#[derive(Clone, Copy, Drop)]
pub enum Reply {
    /// `new`, `old V`, `full`, `worn` or `other S`.
    Put(Outcome),
    /// `gone V` or `none`.
    Deleted(Option<Value>),
    /// `val V` or `none`.
    Got(Option<Value>),
    /// `at S` or `none`.
    Stamped(Option<u64>),
    /// `count N`.
    Counted(u64),
    /// `fault`, `damaged C` or `overfull J`.
    Failed(Failure),
    /// `closed`.
    Closed,
    /// `open N`.
    Opened(u64),
    /// `notstore`, `notclosed`, `small` or `memory`.
    Refused(Refusal),
    /// `already`.
    Already,
    /// `shut`.
    Shut,
    /// `bad`.
    Bad,
}

/// The text of a reply while it is made: at most 128 bytes, which the longest line of a reply fits.
pub type Text = ArrayVec<u8, 128>;

pub fn push_bytes(text: &mut Text, bytes: &[u8])
    requires { length text.old.items + length bytes.now ≤ 128 }
    ensures { text.new.items ≡ text.old.items ++ bytes.now }
{
    let _ = text.try_extend_from_slice(bytes);
}

pub fn push_number(text: &mut Text, number: u64)
    requires { length text.old.items ≤ 108 }
    ensures text { text.new.items ≡ text.old.items ++ decimal number }
    ensures short { length text.new.items ≤ length text.old.items + 20 }
{
    let mut buffer = Buffer::new();
    push_bytes(text, buffer.format(number).as_bytes());
}

fn push_outcome(text: &mut Text, outcome: &Outcome)
    requires { text.old.items ≡ [] }
    ensures text { text.new.items ≡ outcome_text (outcome_of outcome.now) }
    ensures short { length text.new.items ≤ 76 }
{
    match outcome {
        Outcome::New => push_bytes(text, b"new"),
        Outcome::Old(value) => {
            push_bytes(text, b"old ");
            push_bytes(text, value.bytes());
        }
        Outcome::Full => push_bytes(text, b"full"),
        Outcome::Worn => push_bytes(text, b"worn"),
        Outcome::Other(stamp) => {
            push_bytes(text, b"other ");
            push_number(text, *stamp);
        }
    }
}

fn push_value(text: &mut Text, word: &[u8], value: &Option<Value>)
    requires empty { text.old.items ≡ [] }
    requires short { length word.now ≤ 5 }
    ensures text { text.new.items ≡ value_text word.now value.now }
    ensures short { length text.new.items ≤ 77 }
{
    match value {
        None => push_bytes(text, b"none"),
        Some(value) => {
            push_bytes(text, word);
            push_bytes(text, value.bytes());
        }
    }
}

fn push_stamp(text: &mut Text, stamp: &Option<u64>)
    requires { text.old.items ≡ [] }
    ensures text { text.new.items ≡ stamp_text stamp.now }
    ensures short { length text.new.items ≤ 77 }
{
    match stamp {
        None => push_bytes(text, b"none"),
        Some(stamp) => {
            push_bytes(text, b"at ");
            push_number(text, *stamp);
        }
    }
}

fn push_failure(text: &mut Text, failure: &Failure)
    requires { text.old.items ≡ [] }
    ensures text { text.new.items ≡ failure_text (failure_of failure.now) }
    ensures short { length text.new.items ≤ 77 }
{
    match failure {
        Failure::Fault => push_bytes(text, b"fault"),
        Failure::Damaged(cell) => {
            push_bytes(text, b"damaged ");
            push_number(text, *cell);
        }
        Failure::Overfull(level) => {
            push_bytes(text, b"overfull ");
            push_number(text, *level as u64);
        }
    }
}

fn push_refusal(text: &mut Text, refusal: &Refusal)
    requires { text.old.items ≡ [] }
    ensures text { text.new.items ≡ refusal_text (refusal_of refusal.now) }
    ensures short { length text.new.items ≤ 77 }
{
    match refusal {
        Refusal::NotStore => push_bytes(text, b"notstore"),
        Refusal::NotClosed => push_bytes(text, b"notclosed"),
        Refusal::Small => push_bytes(text, b"small"),
        Refusal::Memory => push_bytes(text, b"memory"),
    }
}

/// A word and a number.
fn push_count(text: &mut Text, word: &[u8], number: u64)
    requires empty { text.old.items ≡ [] }
    requires short { length word.now ≤ 6 }
    ensures text { text.new.items ≡ word.now ++ decimal number }
    ensures short { length text.new.items ≤ 77 }
{
    push_bytes(text, word);
    push_number(text, number);
}

/// The cost behind the text, where it is asked for.
fn push_cost(text: &mut Text, cost: bool, ticks: u32)
    requires { length text.old.items ≤ 77 }
    ensures text { text.new.items ≡ text.old.items ++ cost_suffix cost ticks }
    ensures short { length text.new.items ≤ 100 }
{
    if cost {
        push_bytes(text, b" # ");
        push_number(text, ticks as u64);
    }
}

/// The line of a put's outcome, with its cost where it has one.
fn outcome_line(text: &mut Text, outcome: &Outcome, cost: bool, ticks: u32)
    requires { text.old.items ≡ [] }
    ensures text { text.new.items ≡ outcome_text
        (outcome_of outcome.now) ++ outcome_suffix cost ticks (outcome_of outcome.now) }
    ensures short { length text.new.items ≤ 100 }
{
    push_outcome(text, outcome);
    match outcome {
        Outcome::New => push_cost(text, cost, ticks),
        Outcome::Old(_) => push_cost(text, cost, ticks),
        Outcome::Other(_) => push_cost(text, cost, ticks),
        Outcome::Full => {}
        Outcome::Worn => {}
    }
}

/// The text of a reply, without its line feed.
fn push_reply(text: &mut Text, reply: &Reply, cost: bool, ticks: u32)
    requires { text.old.items ≡ [] }
    ensures text { text.new.items ++ 10 ∷ [] ≡ reply_text cost ticks (reply_of reply.now) }
    ensures short { length text.new.items ≤ 100 }
{
    match reply {
        Reply::Put(outcome) => outcome_line(text, outcome, cost, ticks),
        Reply::Deleted(value) => {
            push_value(text, b"gone ", value);
            push_cost(text, cost, ticks);
        }
        Reply::Got(value) => {
            push_value(text, b"val ", value);
            push_cost(text, cost, ticks);
        }
        Reply::Stamped(stamp) => {
            push_stamp(text, stamp);
            push_cost(text, cost, ticks);
        }
        Reply::Counted(keys) => push_count(text, b"count ", *keys),
        Reply::Failed(failure) => push_failure(text, failure),
        Reply::Closed => push_bytes(text, b"closed"),
        Reply::Opened(keys) => push_count(text, b"open ", *keys),
        Reply::Refused(refusal) => push_refusal(text, refusal),
        Reply::Already => push_bytes(text, b"already"),
        Reply::Shut => push_bytes(text, b"shut"),
        Reply::Bad => push_bytes(text, b"bad"),
    }
}

/// Writes a reply, and the ticks behind it where costs are asked for and the reply has one. At a
/// fault of the sink some bytes of its front were written.
///
/// The sink's count of faults stays at `Ok`, and is one more at `Err`.
pub fn write_reply<K: Sink>(
    reply: &Reply,
    cost: bool,
    ticks: u32,
    sink: &mut K,
) -> Result<(), SinkFault>
    ensures wrote { Wrote (reply_text cost ticks (reply_of reply.now)) result (K.written sink.old)
        (K.written sink.new) }
    ensures faults_counted { CountsFaults result (K.faults sink.old) (K.faults sink.new) }
    ensures faults_kept { K.faults sink.old ≤ K.faults sink.new }
{
    let mut text = Text::new();
    push_reply(&mut text, reply, cost, ticks);
    push_bytes(&mut text, b"\n");
    put_all(sink, text.as_slice())
}
