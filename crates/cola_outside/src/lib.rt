//! What every crate says of the world outside: told contents, counts of faults, and counted steps.
#![tactic(auto)]

ghost use Rattle.std.specs.Prelude.{◌≤◌, ◌+◌};
ghost use Rattle.cola_outside.specs.Faults.{Rose};

pub mod steps;

pub use steps::Steps;

/// A count of faults after one more fault: one more, up to the last value of `u64`.
pub fn one_more(count: u64) -> u64
    ensures rose { Rose count result }
    ensures by_one { result ≤ count + 1 }
    ensures kept { count ≤ result }
{
    count.saturating_add(1)
}
