//! Laws of cursors that go both ways. Each function does nothing: its clause is the law.
ghost use Rattle.cola_handle.specs.Behind.{GivenIsBehind, PlacesDivide};

/// Each pair below the upper end of a cursor is ahead of it or behind it.
pub fn places_divide()
    ensures { PlacesDivide }
{}

/// What `next` gave, `prev` gives behind it, the last first. That `next` gives what `prev` gave is said by `prev`.
pub fn given_is_behind()
    ensures { GivenIsBehind }
{}
