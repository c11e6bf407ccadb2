//! What is said of a file that was tested.

/// Why a file stands for no map: what the first test that it fails looked for. The tests go in this order.
#[derive(Clone, Copy, Debug, PartialEq, Eq, Drop)]
pub enum Flaw {
    /// A cell of a run whose bytes spell no cell.
    Cell,
    /// A visible run in which keys do not rise, or a link does not count the lookahead cells before it.
    Order,
    /// A visible run whose lookahead cells are not the sample of the run below, or at the bottom a cell that is no old value.
    Sample,
    /// A visible run with more items, or more young ones, than its level may have; at the bottom with more cells than keys.
    Length,
    /// A shadow that is not what its level builds: inside its window the cursors do not cut the build after it, or behind
    /// its window it is no finished run.
    Shadow,
    /// More live keys, from some level down, than the store is for.
    Live,
    /// Another number of live keys than the header says.
    Count,
    /// A live key with a stamp above the last number.
    Stamp,
}

/// What is said of a file whose header is spelled, says that the store was closed, and has all its cells.
#[derive(Clone, Copy, Debug, PartialEq, Eq, Drop)]
pub enum Verdict {
    /// It stands for a map of so many keys.
    Sound(u64),
    /// It stands for no map: the first flaw, the level, and the number of the cell. For `Cell` and `Order` it is that cell,
    /// for `Shadow` the first cell of the shadow's slot, for `Count` and `Stamp` level 0 and cell 0, else the first cell of
    /// the visible run's slot.
    Broken(Flaw, u8, u64),
}
