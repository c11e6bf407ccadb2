//! Why there is no geometry.
use thiserror::Error;

/// What is wrong with the numbers that a geometry is asked for. Its message says which numbers are allowed.
#[derive(Clone, Copy, Debug, PartialEq, Eq, Drop, Error)]
pub enum LayoutFault {
    /// There are no keys, or more than 2^24.
    #[error("a store is for 1 to 16777216 keys")]
    Keys,
    /// The block's exponent is below 3, or above 9 or above the lowest level plus 2.
    #[error("a block has 2^3 to 2^9 cells, and at most as many as a slot of the lowest level")]
    Block,
}
