//! Laws of chains. Each function does nothing: its clauses are the law.
ghost use Rattle.cola_chain.specs.Laws.{SearchesAreNotCounted};

use cola_device::Device;

/// Reads by way of the block of searches leave the account of a chain as it is: whatever a search or a cursor reads of a
/// chain, its cells stay, and so does what it keeps and what each reader of its merges holds.
pub fn searches_are_not_counted<D: Device>()
    ensures { SearchesAreNotCounted D.Device }
{}
