//! What the calls on the clock answer.

/// Where a level of 1 and more stands in its current period.
#[derive(Clone, Copy, PartialEq, Eq, Debug)]
pub enum Phase {
    /// Its window is still to come in this period.
    Before,
    /// It works in this mutation, and so many mutations of its window were accepted before.
    Inside(u32),
    /// Its window is over: its shadow is finished, and is sampled by the level above in number order.
    After,
}

/// Which items of its own visible run a level's next run takes.
#[derive(Clone, Copy, PartialEq, Eq, Debug)]
pub enum Part {
    /// All items.
    All,
    /// Young items only: the old ones are in the run below that became visible before.
    Young,
}

/// Which run of the level below in the structure, the next in number order, a level's next run is sampled from.
#[derive(Clone, Copy, PartialEq, Eq, Debug)]
pub enum Below {
    /// Its visible run.
    Visible,
    /// Its finished shadow run.
    Shadow,
    /// None: the level is the bottom.
    Nothing,
}
