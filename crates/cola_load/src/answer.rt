//! What is answered to a line.
use cola_cell::{Key, Value};

/// Why the rows end at a line, with the line's number: lines are counted from 1, empty ones too.
#[derive(Clone, Copy, Debug, PartialEq, Eq, Drop)]
pub enum Word {
    /// The line is neither a row nor the right end, or stands behind the end.
    Bad(u64),
    /// Its key is not above the key of the row before.
    Order(u64),
    /// There are as many rows before it as the store has room for.
    Full(u64),
}

/// What a line gives.
#[derive(Clone, Copy, Debug, PartialEq, Eq, Drop)]
pub enum RowLine {
    /// One more row.
    Row(Key, Value),
    /// No row: the line is empty, or it is the end and has the right number.
    Nothing,
    /// The line with this number is neither a row nor the right end, or stands behind the end.
    Bad(u64),
    /// The key in the line with this number is not above the key of the row before.
    Order(u64),
    /// The row in the line with this number has no room.
    Full(u64),
}
