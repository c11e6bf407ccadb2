//! Numbers that stop at the last value of `u64`.
ghost use Rattle.std.specs.Prelude.{◌≡◌, ◌-◌, ◌≤◌};
ghost use Rattle.cola_chain.specs.Account.{added};

/// The number and what comes to it.
pub(crate) fn add(number: u64, more: u64) -> u64
    ensures { result ≡ added number more }
{
    number.saturating_add(more)
}

/// How much a count has risen.
pub(crate) fn rise(before: u64, now: u64) -> u64
    requires { before ≤ now }
    ensures { result ≡ now - before }
{
    now - before
}
