//! What a map may hold.

/// What a map may hold: `limit` keys, each of 1 to `key_limit` bytes, with values of at most
/// `value_limit` bytes; and whether an accepted put takes a stamp.
#[derive(Clone, Copy, Drop)]
pub struct Shape {
    pub limit: usize,
    pub key_limit: usize,
    pub value_limit: usize,
    pub stamped: bool,
}
