//! A search of a run where the bytes of its cells lie.
ghost use Rattle.std.specs.Prelude.{◌≡◌, ◌<◌, None};
ghost use Rattle.cola_look.specs.Scanning.{Sees};

use cola_cell::{Format, Item, Key, WindowSearch, is_look_in, item_in, link_in};
use cola_window::{Stop, nth_cell, seek_window};

/// A room for what searches see, made once for as many as there are runs. `hit` is the item of the key: none until a search finds
/// one, and no search takes it out again. `link` is the index in the next run from which its search begins, in cells.
#[derive(Drop)]
pub struct Sight {
    pub hit: Option<Item>,
    pub link: u32,
    /// How many cells of a window may be looked at, how many were passed, and whether the search stopped at the one behind them.
    pub(crate) most: u32,
    pub(crate) passed: u32,
    pub(crate) stops: bool,
}

impl Sight {
    /// A room for searches that begin.
    #[inline]
    pub fn blank() -> Sight
        ensures { result.hit ≡ None }
    {
        Sight {
            hit: None,
            link: 0,
            most: 0,
            passed: 0,
            stops: false,
        }
    }
}

impl WindowSearch for Sight {
    type Probe = Key;

    ghost sought = { Sees };

    ghost can = { λ sight. (0 < sight.most) × (sight.hit ≡ None) };

    #[inline(always)]
    fn seek(&mut self, probe: &Key, format: Format, bytes: &[u8]) -> u32 {
        let (passed, stop) = seek_window(format, bytes, probe, self.most);
        self.passed = passed;
        match stop {
            Stop::Equal => {
                let cell = nth_cell(format, bytes, passed);
                self.link = link_in(format, cell);
                self.stops = true;
                if !is_look_in(format, cell) {
                    self.hit = item_in(format, cell);
                }
                passed + 1
            }
            Stop::Above => {
                self.link = link_in(format, nth_cell(format, bytes, passed));
                self.stops = true;
                passed + 1
            }
            Stop::Bad | Stop::End => {
                self.stops = false;
                passed
            }
        }
    }
}
