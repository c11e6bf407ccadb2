//! What the next run of a level is built of, by the header of a file.
ghost use Rattle.std.specs.Prelude.{◌≡◌, ◌≤◌, ◌<◌};
ghost use Rattle.cola_check.specs.Found.{numbers_at};
ghost use Rattle.cola_check.specs.Shadows.{IsNext, IsAimAt, upper_aim, lowest_aim, cursors_of};

use crate::cut::Cursors;
use crate::runs::{is_odd_at, marks_at, shadow_run, visible_run};
use cola_cell::Run;
use cola_clock::Part;
use cola_layout::Header;
use cola_merge::{Aim, Feed};

/// The run that will lie below the next run of a level, above the bottom.
pub(crate) fn next_run(header: &Header, level: u8) -> Option<Run>
    requires { level ≤ header.now.geometry.bottom }
    ensures { IsNext header.now level result }
{
    if level == header.geometry.bottom {
        return None;
    }
    if is_odd_at(header, level) {
        Some(shadow_run(header, level + 1))
    } else {
        Some(visible_run(header, level + 1))
    }
}

/// What the next run of a level above the bottom is built of.
fn upper_aim(odd: bool, own: Run, above: Run, next: Run) -> Aim
    requires { own.slot < 2 }
    ensures { result ≡ upper_aim odd own above next }
{
    Aim {
        level: own.level,
        slot: 1 - own.slot,
        own: Feed::Run(own),
        incoming: Feed::Run(above),
        sample: Feed::Sampled(next),
        part: if odd { Part::Young } else { Part::All },
        young: !odd,
        bottom: false,
    }
}

/// What the next run of the bottom is built of.
fn lowest_aim(own: Run, above: Run) -> Aim
    requires { own.slot < 2 }
    ensures { result ≡ lowest_aim own above }
{
    Aim {
        level: own.level,
        slot: 1 - own.slot,
        own: Feed::Run(own),
        incoming: Feed::Run(above),
        sample: Feed::Nothing,
        part: Part::All,
        young: false,
        bottom: true,
    }
}

/// What the next run of a level of 1 and more is built of.
pub(crate) fn aim_at(header: &Header, level: u8) -> Aim
    requires level { level ≤ header.now.geometry.bottom }
    requires above { 1 ≤ level }
    ensures { IsAimAt header.now level result }
{
    let own = visible_run(header, level);
    let above = visible_run(header, level - 1);
    match next_run(header, level) {
        Some(next) => upper_aim(is_odd_at(header, level), own, above, next),
        None => lowest_aim(own, above),
    }
}

/// How many cells of each source the build of a level has consumed.
pub(crate) fn cursors_at(header: &Header, level: u8) -> Cursors
    requires { level ≤ header.now.geometry.bottom }
    ensures { result ≡ cursors_of (numbers_at header.now level) }
{
    let marks = marks_at(header, level);
    Cursors {
        own: marks.own,
        incoming: marks.incoming,
        sample: marks.sample,
    }
}
