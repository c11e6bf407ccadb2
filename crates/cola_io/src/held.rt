//! What the held bytes of a buffer are.

/// What the held bytes are: the text of the line just answered, the beginning of the next line, or
/// a part of the beginning of a line that is too long.
#[derive(Clone, Copy, Drop)]
pub enum Held {
    Line,
    Part,
    Long,
}
