//! The marks of a level, and the test of the marks that a level may have.

ghost use Rattle.std.specs.Prelude.{◌≡◌, ◌<◌, ◌≤◌, ◌^◌, ◌+◌, ◌↔◌, suc, IsTrue, length, drop};
ghost use Rattle.cola_clock.specs.Clock.{period, is_odd};
ghost use Rattle.cola_clock.specs.Marks.{AreMarksIdle, AreCursorsAtRest, AreMarksInside, sample_end};
ghost use Rattle.cola_layout.specs.Marks.{FitsAt, AreMarks, numbers_of, all_numbers};

use cola_clock::{Below, Phase, next_of, phase};

/// The lengths of a level's runs, in cells, and the cursors of its merge: how many cells of each source it has consumed.
#[derive(Clone, Copy, Debug, Default, PartialEq, Eq, Drop)]
pub struct Marks {
    /// The length of the visible run.
    pub visible: u32,
    /// The length of the shadow run.
    pub shadow: u32,
    /// The cells consumed of the level's own visible run.
    pub own: u32,
    /// The cells consumed of the visible run of the level above.
    pub incoming: u32,
    /// The cells consumed of the sample of the level below.
    pub sample: u32,
}

impl Marks {
    /// Whether the level's merge has not begun.
    fn is_idle(&self) -> bool
        ensures { IsTrue result ↔ AreMarksIdle (numbers_of self.now) }
    {
        self.shadow == 0 && self.is_at_rest()
    }

    /// Whether the level's merge is done.
    fn is_at_rest(&self) -> bool
        ensures { IsTrue result ↔ AreCursorsAtRest (numbers_of self.now) }
    {
        self.own == 0 && self.incoming == 0 && self.sample == 0
    }

    /// Whether the level's merge is under way, over its own visible run, as many incoming cells and as many keys of a sample,
    /// and has taken so many steps, or all.
    fn is_working(&self, incoming: u32, sample: u32, steps: u64) -> bool
        ensures { IsTrue result ↔ AreMarksInside steps incoming sample (numbers_of self.now) }
    {
        let total = u64::from(self.visible) + u64::from(incoming) + u64::from(sample);
        let consumed = u64::from(self.own) + u64::from(self.incoming) + u64::from(self.sample);
        self.own <= self.visible
            && self.incoming <= incoming
            && self.sample <= sample
            && total.min(steps) <= consumed
            && self.sample <= self.shadow
            && u64::from(self.shadow) <= consumed
    }
}

/// How many keys a level samples: one for each eight cells of the run below that it is sampled from.
fn sampled(clock: u64, bottom: u8, levels: &[Marks], level: u8) -> u32
    requires bottom_in_range { bottom ≤ 22 }
    requires level_exists { level ≤ bottom }
    requires clock_in_range { clock < 2 ^ 23 }
    requires one_each { length levels.now ≡ bottom + 1 }
    ensures { result ≡ sample_end (is_odd (period clock level))
        (drop (suc level) (all_numbers levels.now)) }
{
    match next_of(clock, level, bottom) {
        Below::Visible => levels[level as usize + 1].visible / 8,
        Below::Shadow => levels[level as usize + 1].shadow / 8,
        Below::Nothing => 0,
    }
}

/// The cells of a slot of a level.
fn slot_cells(level: u8) -> u32
    requires { level ≤ 22 }
    ensures { result ≡ 2 ^ (level + 2) }
{
    1 << (level + 2)
}

/// Whether a level has marks that it may have at the clock.
fn level_fits(clock: u64, bottom: u8, levels: &[Marks], level: u8) -> bool
    requires bottom_in_range { bottom ≤ 22 }
    requires level_exists { level ≤ bottom }
    requires clock_in_range { clock < 2 ^ 23 }
    requires one_each { length levels.now ≡ bottom + 1 }
    ensures { IsTrue result ↔ FitsAt clock levels.now level }
{
    let here = levels[level as usize];
    let slot = slot_cells(level);
    if here.visible > slot || here.shadow > slot {
        return false;
    }
    if level == 0 {
        return here.is_idle();
    }
    match phase(clock, level) {
        Phase::Before => here.is_idle(),
        Phase::Inside(step) => {
            let above = levels[level as usize - 1];
            let sample = sampled(clock, bottom, levels, level);
            here.is_working(above.visible, sample, 28 * u64::from(step))
        }
        Phase::After => here.is_at_rest(),
    }
}

/// Whether each level has marks that it may have at the clock.
pub(crate) fn levels_fit(clock: u64, bottom: u8, levels: &[Marks]) -> bool
    requires bottom_in_range { bottom ≤ 22 }
    requires clock_in_range { clock < 2 ^ 23 }
    requires one_each { length levels.now ≡ bottom + 1 }
    ensures { IsTrue result ↔ AreMarks clock levels.now }
{
    for level in 0..=bottom {
        if !level_fits(clock, bottom, levels, level) {
            return false;
        }
    }
    true
}
