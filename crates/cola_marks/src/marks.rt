//! A byte for each page of a device.
ghost use Rattle.std.specs.Prelude.{◌≡◌, ◌<◌, ℕ, List, length, slice_set};
ghost use Rattle.std.specs.Vec.{vec_capacity};

/// A byte for each page, counted from 0. It is 0 where the page has no mark.
pub trait Marks {
    /// The bytes.
    ghost marks: { Self → List ℕ };

    /// What it has beside them, which no call changes.
    ghost Kept: { Type 0 } = { Unit {0} };

    ghost kept: { Self → Self.Kept };

    /// How many pages it has a byte for.
    fn pages(&self) -> usize
        ensures { result ≡ length (marks self.now) };

    /// Marks a page: its byte is 1.
    fn mark(&mut self, page: usize)
        requires { page < length (marks self.old) }
        ensures marked { marks self.new ≡ slice_set (marks self.old) page 1 }
        ensures kept { kept self.new ≡ kept self.old };
}

impl Marks for Vec<u8> {
    ghost marks = { λ v. v.items };

    ghost Kept = { ℕ };

    ghost kept = { λ v. vec_capacity v };

    fn pages(&self) -> usize {
        self.len()
    }

    fn mark(&mut self, page: usize) {
        self[page] = 1;
    }
}
