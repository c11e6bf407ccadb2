//! The two formats of a store.

/// A format of a store: how many bytes a cell takes, and what fits in it.
#[derive(Clone, Copy, Debug, PartialEq, Eq, Drop)]
pub enum Format {
    /// Version 1: cells of 64 bytes, without stamps.
    One,
    /// Version 2: cells of 128 bytes, with stamps.
    Two,
}

impl Format {
    ghost use Rattle.std.specs.Prelude.{◌≡◌};
    ghost use Rattle.cola_cell.specs.Format.{width, key_limit, value_limit};
    ghost use Rattle.cola_cell.specs.Spelling.{key_at, value_at};

    /// The size of a cell, in bytes: 64 or 128.
    #[inline]
    pub fn width(self) -> usize
        ensures { result ≡ width self }
    {
        match self {
            Format::One => 64,
            Format::Two => 128,
        }
    }

    /// The length of the longest key, in bytes: 24 or 40.
    #[inline]
    pub fn key_limit(self) -> usize
        ensures { result ≡ key_limit self }
    {
        match self {
            Format::One => 24,
            Format::Two => 40,
        }
    }

    /// The length of the longest value, in bytes: 32 or 72.
    #[inline]
    pub fn value_limit(self) -> usize
        ensures { result ≡ value_limit self }
    {
        match self {
            Format::One => 32,
            Format::Two => 72,
        }
    }

    /// Where a cell's key starts, in bytes.
    #[inline]
    pub(crate) fn key_at(self) -> usize
        ensures { result ≡ key_at self }
    {
        match self {
            Format::One => 8,
            Format::Two => 16,
        }
    }

    /// Where a cell's value starts, in bytes.
    #[inline]
    pub(crate) fn value_at(self) -> usize
        ensures { result ≡ value_at self }
    {
        match self {
            Format::One => 32,
            Format::Two => 56,
        }
    }
}
