//! What a store counts beside the steps of its chain.
ghost use Rattle.std.specs.Prelude.{◌≡◌};
ghost use Rattle.cola_chain.specs.Account.{added};

use cola_device::Counts;

/// What a store counted since its opening, beside its steps.
#[derive(Drop)]
pub struct Account {
    /// The searches, up to the last value of `u64`.
    pub searches: u64,
    /// The counts of the device at the opening, but for the calls that neither read nor write.
    pub opened: Counts,
    /// Whether no step was refused.
    pub calm: bool,
}

/// The number and one more, up to the last value of `u64`.
pub(crate) fn one_more(number: u64) -> u64
    ensures { result ≡ added number 1 }
{
    number.saturating_add(1)
}
