//! The test of a file: its verdict as a line.
ghost use Rattle.std.specs.Prelude.{◌≡◌};
ghost use Rattle.cola_command.specs.Checked.{flaw_word, verdict_line, verdict_status, check_status, Tells, CheckEnds};

use cola_check::{CheckFault, check};
use cola_device::Device;
use cola_io::Sink;
use cola_outside::Steps;
use cola_report::{Text, push_bytes, push_number, write_line};
use cola_status::Status;
use cola_verdict::{Flaw, Verdict};
use std::alloc::Global;
use std::sync::ledger::Ledger;

/// The word of a flaw.
fn word_of(flaw: Flaw) -> &'static [u8]
    ensures { result.now ≡ flaw_word flaw }
{
    match flaw {
        Flaw::Cell => b"cell",
        Flaw::Order => b"order",
        Flaw::Sample => b"sample",
        Flaw::Length => b"length",
        Flaw::Shadow => b"shadow",
        Flaw::Live => b"live",
        Flaw::Count => b"count",
        Flaw::Stamp => b"stamp",
    }
}

/// The line of a file that is sound, with so many keys.
fn sound_line(keys: u64) -> Text
    ensures { result.items ≡ verdict_line (Verdict.Sound keys) }
{
    let mut text = Text::new();
    push_bytes(&mut text, b"sound ");
    push_number(&mut text, keys);
    push_bytes(&mut text, b"\n");
    text
}

/// The line of a file with a flaw.
fn broken_line(flaw: Flaw, level: u8, cell: u64) -> Text
    ensures { result.items ≡ verdict_line (Verdict.Broken flaw level cell) }
{
    let mut text = Text::new();
    push_bytes(&mut text, b"broken ");
    push_bytes(&mut text, word_of(flaw));
    push_bytes(&mut text, b" ");
    push_number(&mut text, u64::from(level));
    push_bytes(&mut text, b" ");
    push_number(&mut text, cell);
    push_bytes(&mut text, b"\n");
    text
}

/// The line of a verdict.
fn line_of(verdict: Verdict) -> Text
    ensures { result.items ≡ verdict_line verdict }
{
    match verdict {
        Verdict::Sound(keys) => sound_line(keys),
        Verdict::Broken(flaw, level, cell) => broken_line(flaw, level, cell),
    }
}

/// The status of a verdict whose line is written whole.
fn status_of(verdict: Verdict) -> u8
    ensures { result ≡ verdict_status verdict }
{
    match verdict {
        Verdict::Sound(_) => Status::Done as u8,
        Verdict::Broken(_, _, _) => Status::Broken as u8,
    }
}

/// The status of a file that has no verdict.
fn fault_status(fault: CheckFault) -> u8
    ensures { result ≡ check_status fault }
{
    match fault {
        CheckFault::NotStore => Status::NotStore as u8,
        CheckFault::NotClosed => Status::NotClosed as u8,
        CheckFault::Small => Status::NotStore as u8,
        CheckFault::Device => Status::DeviceFailed as u8,
        CheckFault::OutOfMemory => Status::OutOfMemory as u8,
    }
}

/// Writes the verdict as one line, where there is one, and gives the status.
fn write_answer<K: Sink>(answer: Result<Verdict, CheckFault>, sink: &mut K) -> u8
    ensures { Tells K.Sink answer sink.old sink.new result }
{
    match answer {
        Ok(verdict) => write_line(line_of(verdict).as_slice(), status_of(verdict), sink),
        Err(fault) => fault_status(fault),
    }
}

/// Tests the file of a device, and writes its verdict as one line. It gives the device, and the status: 0 where the file
/// stands for a map, 13 where it has a flaw, 4 where the sink failed, and where there is no verdict, and nothing is written,
/// 1 for want of memory, 5 where the device failed, 6 where the file has no store or not all of one, and 7 where its store
/// was not closed.
pub(crate) fn check_file<K: Sink, D: Device, L: Ledger>(
    alloc: Global,
    sink: &mut K,
    device: D,
    steps: &mut Steps<L>,
) -> (D, u8)
    ensures ends { CheckEnds K.Sink D.Device device result.0 sink.old sink.new steps.old steps.new result.1 }
    ensures no_write { (D.counts result.0).writes ≡ (D.counts device).writes }
    ensures kept { D.kept result.0 ≡ D.kept device }
{
    let (device, answer) = check(alloc, device, steps);
    let status = write_answer(answer, sink);
    (device, status)
}
