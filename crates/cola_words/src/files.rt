//! The files of a mode.
ghost use Rattle.std.specs.Prelude.{◌≡◌, map, string_bytes};
ghost use Rattle.cola_words.specs.Modes.{files_of, first_opening, second_opening};

use crate::mode::{Mode, Opening};
use crate::modes::read_words;

impl Mode {
    /// How the first file is opened: the one that the second word names. `Mem` has none.
    pub fn first(&self) -> Option<Opening>
        ensures { result ≡ first_opening self.now }
    {
        match self {
            Mode::Mem { .. } => None,
            Mode::Create { .. } => Some(Opening::Made(1)),
            Mode::Run { .. } => Some(Opening::Existing(1)),
            Mode::Gen { .. } => Some(Opening::Made(1)),
            Mode::Upgrade => Some(Opening::Existing(1)),
            Mode::Check => Some(Opening::Existing(1)),
            Mode::Load { .. } => Some(Opening::Made(1)),
            Mode::Grow { .. } => Some(Opening::Existing(1)),
            Mode::Rebuild => Some(Opening::Existing(1)),
        }
    }

    /// How the second file is opened: the one that is written in `Upgrade`, `Grow` and `Rebuild`, and the mirror's other
    /// in `Run`. All other modes have none.
    pub fn second(&self) -> Option<Opening>
        ensures { result ≡ second_opening self.now }
    {
        match self {
            Mode::Mem { .. } => None,
            Mode::Create { .. } => None,
            Mode::Run { mirror, .. } => mirror.map(Opening::Existing),
            Mode::Gen { .. } => None,
            Mode::Upgrade => Some(Opening::Made(2)),
            Mode::Check => None,
            Mode::Load { .. } => None,
            Mode::Grow { .. } => Some(Opening::Made(2)),
            Mode::Rebuild => Some(Opening::Made(2)),
        }
    }
}

/// How the first and the second file of all words are opened: neither where the words name no mode.
pub fn files_of(words: &[String]) -> (Option<Opening>, Option<Opening>)
    ensures { result ≡ files_of (map string_bytes words.now) }
{
    match read_words(words) {
        Some(mode) => (mode.first(), mode.second()),
        None => (None, None),
    }
}
