//! What a line reader answers.

/// What a line reader found.
#[derive(Clone, Copy, Debug, Drop, PartialEq, Eq)]
pub enum Next {
    /// The next line, whose text the reader holds.
    Line,
    /// A line with more than 160 bytes before its end. It was taken whole.
    TooLong,
    /// The end of the source, with no line left.
    End,
    /// The source failed before the next line's end was seen. A later call goes on.
    Fault,
    /// All allowed bytes were taken, and no line that has ended is left of them.
    Budget,
}
