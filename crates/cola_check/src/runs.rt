//! The runs of a file by its header.
ghost use Rattle.std.specs.Prelude.{◌≡◌, ◌≤◌, ◌<◌};
ghost use Rattle.cola_cell.specs.Places.{slot_size, number_of};
ghost use Rattle.cola_clock.specs.Clock.{period, is_odd, visible_slot};
ghost use Rattle.cola_layout.specs.Marks.{numbers_of};
ghost use Rattle.cola_check.specs.Firsts.{AreFewAt};
ghost use Rattle.cola_check.specs.Found.{numbers_at, visible_of, shadow_of, run_in};

use crate::visible::Few;
use cola_cell::Run;
use cola_clock::visible_slot;
use cola_layout::{Header, Marks};
use cola_verdict::{Flaw, Verdict};

/// The marks of a level, whose runs fit their slots.
pub(crate) fn marks_at(header: &Header, level: u8) -> Marks
    requires { level ≤ header.now.geometry.bottom }
    ensures value { numbers_of result ≡ numbers_at header.now level }
    ensures visible { result.visible ≤ slot_size level }
    ensures shadow { result.shadow ≤ slot_size level }
{
    header.levels[level as usize]
}

/// In which slot the visible run of a level stands.
fn visible_at(header: &Header, level: u8) -> u8
    requires { level ≤ header.now.geometry.bottom }
    ensures value { result ≡ visible_slot header.now.clock level }
    ensures within { result < 2 }
{
    visible_slot(header.clock, level)
}

/// The visible run of a level.
pub(crate) fn visible_run(header: &Header, level: u8) -> Run
    requires { level ≤ header.now.geometry.bottom }
    ensures value { result ≡ visible_of header.now level }
    ensures slot_in { result.slot < 2 }
    ensures within { result.len ≤ slot_size level }
{
    Run {
        level,
        slot: visible_at(header, level),
        len: marks_at(header, level).visible,
    }
}

/// The shadow of a level.
pub(crate) fn shadow_run(header: &Header, level: u8) -> Run
    requires { level ≤ header.now.geometry.bottom }
    ensures value { result ≡ shadow_of header.now level }
    ensures slot_in { result.slot < 2 }
    ensures within { result.len ≤ slot_size level }
{
    Run {
        level,
        slot: 1 - visible_at(header, level),
        len: marks_at(header, level).shadow,
    }
}

/// The run in a slot of a level: its visible run or its shadow.
pub(crate) fn run_at(header: &Header, level: u8, slot: u8) -> Run
    requires level { level ≤ header.now.geometry.bottom }
    requires slot { slot < 2 }
    ensures value { result ≡ run_in header.now level slot }
    ensures within { result.len ≤ slot_size level }
{
    let marks = marks_at(header, level);
    let len = if slot == visible_at(header, level) {
        marks.visible
    } else {
        marks.shadow
    };
    Run { level, slot, len }
}

/// Whether the period of a level is odd: its visible run stands in slot 1 then.
pub(crate) fn is_odd_at(header: &Header, level: u8) -> bool
    requires { level ≤ header.now.geometry.bottom }
    ensures { result ≡ is_odd (period header.now.clock level) }
{
    visible_run(header, level).slot == 1
}

/// How few cells a run of a level may have that is visible in periods of this parity.
pub(crate) fn few_at(header: &Header, level: u8, odd: bool) -> Few
    requires { level ≤ header.now.geometry.bottom }
    ensures { AreFewAt header.now level odd result }
{
    if level == header.geometry.bottom {
        return Few::Cells(header.geometry.keys);
    }
    let young = 1u32 << level;
    let times = if odd { 3 } else { 2 };
    Few::Items {
        items: times * young,
        young,
    }
}

/// The verdict on a file with this flaw at the cell of this index of a run.
pub(crate) fn broken_at(header: &Header, flaw: Flaw, run: Run, index: u32) -> Verdict
    requires level { run.level ≤ header.now.geometry.bottom }
    requires slot { run.slot < 2 }
    requires index { index < slot_size run.level }
    ensures { result ≡ Verdict.Broken flaw run.level (number_of run.level run.slot index) }
{
    Verdict::Broken(
        flaw,
        run.level,
        header.geometry.place(run.level, run.slot, index),
    )
}
