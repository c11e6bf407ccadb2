//! What the calls by C on a load tell of its rows. The function does nothing: its clauses are the law.
ghost use Rattle.cola_c.specs.Loads.{LoadsBegin, LoadRefusalsAreTold, RowsAreLoaded, LoadsEnd};

/// A load begins with no rows. 0 says of a row that it is behind the others then, and any other number leaves the rows that there
/// were. At the end the bytes stand for the map of the rows, each once and no other.
pub fn loads_are_told()
    ensures begins { LoadsBegin }
    ensures refusals { LoadRefusalsAreTold }
    ensures rows { RowsAreLoaded }
    ensures ends { LoadsEnd }
{}
