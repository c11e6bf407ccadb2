//! A range as an iterator of the standard library.
ghost use Rattle.std.specs.Iterator.{at_most};
ghost use Rattle.cola_kv.specs.Ranged.{Stands};
ghost use Rattle.cola_kv.specs.Iterated.{Gives, most_left};

use crate::error::Error;
use crate::range::Range;
use cola_cell::{Key, Value};
use cola_device::Device;

impl<D: Device> Iterator for Range<'_, D> {
    type Item = Result<(Key, Value), Error>;

    ghost can_next = { λ range. Stands D.Device range.kv.now range.walk };

    ghost next_gives = { Gives D.Device };

    ghost remaining = { λ range. at_most (most_left D.Device range) };

    fn next(&mut self) -> Option<Result<(Key, Value), Error>> {
        if self.ended {
            return None;
        }
        match self.try_next() {
            Ok(Some(pair)) => Some(Ok(pair)),
            Ok(None) => {
                self.ended = true;
                None
            }
            Err(error) => {
                self.ended = true;
                Some(Err(error))
            }
        }
    }
}
