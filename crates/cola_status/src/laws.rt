//! What follows from the numbers of the statuses.
ghost use Rattle.std.specs.Prelude.{◌≡◌, ℕ, Some, slice_get};
ghost use Rattle.cola_status.specs.Statuses.{all_statuses, number_of};
ghost use Rattle.cola_status.specs.declared.status.Status.{Status};

/// No two statuses have one number, and each stands among all of them.
pub fn statuses_are_apart()
    ensures apart { (a b : Status) → number_of a ≡ number_of b → a ≡ b }
    ensures listed { (a : Status) → (place : ℕ) × (slice_get all_statuses place ≡ Some a) }
{}
