//! The sides of a mirror that are in use.
ghost use Rattle.std.specs.Prelude.{◌≡◌};
ghost use Rattle.cola_mirror.specs.Sides.{has_first, has_second, asks_second, after_change, after_settle};

/// The sides of a mirror that are in use.
#[derive(Clone, Copy, Debug, PartialEq, Eq, Drop)]
pub enum Sides {
    /// Both sides, with the same bytes.
    Both,
    /// The first one: the second is lost.
    First,
    /// The second one: the first is lost.
    Second,
}

impl Sides {
    /// Whether the first side is in use.
    pub fn has_first(self) -> bool
        ensures { result ≡ has_first self }
    {
        match self {
            Sides::Both => true,
            Sides::First => true,
            Sides::Second => false,
        }
    }

    /// Whether the second side is in use.
    pub fn has_second(self) -> bool
        ensures { result ≡ has_second self }
    {
        match self {
            Sides::Both => true,
            Sides::First => false,
            Sides::Second => true,
        }
    }

    /// Whether the second side is asked, by whether the first one failed.
    pub(crate) fn asks_second(self, failed: bool) -> bool
        ensures { result ≡ asks_second self failed }
    {
        match self {
            Sides::Both => failed,
            Sides::First => false,
            Sides::Second => true,
        }
    }

    /// The sides that are left after bytes were changed, by whether each failed.
    pub(crate) fn after_change(self, first: bool, second: bool) -> Sides
        ensures { result ≡ after_change self first second }
    {
        match (self, first, second) {
            (Sides::Both, false, false) => Sides::Both,
            (Sides::Both, true, false) => Sides::Second,
            (Sides::Both, _, true) => Sides::First,
            (Sides::First, _, _) => Sides::First,
            (Sides::Second, _, _) => Sides::Second,
        }
    }

    /// The sides that are left after a settle, by whether each failed.
    pub(crate) fn after_settle(self, first: bool, second: bool) -> Sides
        ensures { result ≡ after_settle self first second }
    {
        if first && second {
            return self;
        }
        self.after_change(first, second)
    }
}
