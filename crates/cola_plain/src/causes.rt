//! Counts of faults, and what an answer says of them.

ghost use Rattle.std.specs.Prelude.{◌↔◌, IsTrue};
ghost use Rattle.cola_outside.specs.Faults.{Rose, RoseBy, HasCause};

/// Whether at least so many new events were counted, by a count that ends at the last value of `u64`.
pub fn rose_by(times: u64, before: u64, now: u64) -> bool
    ensures { IsTrue result ↔ RoseBy times before now }
{
    before.saturating_add(times) <= now
}

/// Whether a new event was counted.
pub fn rose(before: u64, now: u64) -> bool
    ensures { IsTrue result ↔ Rose before now }
{
    rose_by(1, before, now)
}

/// Whether an answer has its cause: it is no error, or the count rose.
pub fn has_cause(answer: &Result<(), ()>, before: u64, now: u64) -> bool
    ensures { IsTrue result ↔ HasCause answer.now before now }
{
    match answer {
        Ok(_) => true,
        Err(_) => rose(before, now),
    }
}
