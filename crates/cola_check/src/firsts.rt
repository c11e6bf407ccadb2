//! The first levels whose visible runs fail their tests.
ghost use Rattle.std.specs.Prelude.{◌≡◌, ◌+◌, ◌∷◌, [], if◌then◌else◌, None, Some};
ghost use Rattle.std.specs.Option.{option_map};
ghost use Rattle.cola_cell.specs.Held.{Held};
ghost use Rattle.cola_cell.specs.Places.{number_of};
ghost use Rattle.cola_clock.specs.Clock.{visible_slot};
ghost use Rattle.cola_verdict.specs.Tests.{AreCellsTold};
ghost use Rattle.cola_verdict.specs.declared.verdict.Flaw.TheVariants as flaw;
ghost use Rattle.cola_check.specs.Found.{tested_by};
ghost use Rattle.cola_check.specs.Testing.{FindsFlaw};
ghost use Rattle.cola_check.specs.Firsts.{IsPlaceAbove, ArePlaced, AreFirstFlaws};

use crate::runs::{broken_at, visible_run};
use crate::visible::RunTests;
use cola_layout::Header;
use cola_verdict::{Flaw, Verdict};

/// Of the levels from 0 down to some level, the first whose visible run fails each of the
/// tests, and the index at which it does:
/// that of the cell with which its order ends, else that of its first cell.
#[derive(Clone, Copy, Drop)]
pub(crate) struct FirstFlaws {
    pub order: Option<(u8, u32)>,
    pub sample: Option<(u8, u32)>,
    pub length: Option<(u8, u32)>,
}

/// The place at which the order of a level's run ends, where it does.
fn place_of(level: u8, disorder: Option<u32>) -> Option<(u8, u32)>
    ensures { result ≡ option_map (λ index. (level, index)) disorder }
{
    let index = disorder?;
    Some((level, index))
}

/// The place of a flaw of a level's whole run, where it fails a test.
fn first_cell(level: u8, passes: bool) -> Option<(u8, u32)>
    ensures { result ≡ (if passes then None else Some (level, 0)) }
{
    if passes { None } else { Some((level, 0)) }
}

impl FirstFlaws {
    ghost use Rattle.std.specs.Prelude.{◌≡◌, ◌+◌, ◌<◌, IfSome};
    ghost use Rattle.cola_cell.specs.Places.{slot_size};
    ghost use Rattle.cola_verdict.specs.Tests.{Tested};
    ghost use Rattle.cola_check.specs.Firsts.{ArePlaced, AreFirstFlaws, AreTestsAt};

    /// Those of no levels.
    pub(crate) fn none() -> FirstFlaws
        ensures found { (file : Tested) → AreFirstFlaws file 0 result }
        ensures placed { ArePlaced 0 result }
    {
        FirstFlaws {
            order: None,
            sample: None,
            length: None,
        }
    }

    /// Those of one level more.
    pub(crate) fn with(&self, level: u8, tests: &RunTests) -> FirstFlaws
        ensures found { (file : Tested) → AreFirstFlaws file level self.now →
            AreTestsAt file level tests.now → AreFirstFlaws file (level + 1) result }
        ensures placed { ArePlaced level self.now →
            IfSome tests.now.disorder (λ index. index < slot_size level) → ArePlaced (level + 1) result }
    {
        FirstFlaws {
            order: self.order.or(place_of(level, tests.disorder)),
            sample: self.sample.or(first_cell(level, tests.is_sampled)),
            length: self.length.or(first_cell(level, tests.has_few)),
        }
    }
}

/// The verdict on a file with this flaw at this place of a visible run.
fn broken_visible(header: &Header, flaw: Flaw, place: (u8, u32)) -> Verdict
    requires { IsPlaceAbove (header.now.geometry.bottom + 1) place }
    ensures { result ≡ Verdict.Broken flaw place.0
        (number_of place.0 (visible_slot header.now.clock place.0) place.1) }
{
    let (level, index) = place;
    broken_at(header, flaw, visible_run(header, level), index)
}

/// The verdict by the first flaws of all levels, if there are any: order goes before samples, and these before lengths.
pub(crate) fn verdict_by(header: &Header, flaws: &FirstFlaws) -> Option<Verdict>
    requires { ArePlaced (header.now.geometry.bottom + 1) flaws.now }
    ensures { (held : Held) →
        (AreCellsTold (tested_by header.now held) → AreFirstFlaws (tested_by header.now held) (header.now.geometry.bottom + 1) flaws.now) →
        FindsFlaw (tested_by header.now held) (flaw.Cell ∷ []) (flaw.Order ∷ flaw.Sample ∷ flaw.Length ∷ []) result }
{
    if let Some(place) = flaws.order {
        return Some(broken_visible(header, Flaw::Order, place));
    }
    if let Some(place) = flaws.sample {
        return Some(broken_visible(header, Flaw::Sample, place));
    }
    let place = flaws.length?;
    Some(broken_visible(header, Flaw::Length, place))
}
